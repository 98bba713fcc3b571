// The rows of a book.
use synthdef::def::{DefEdges, DefNodes, Params};

// The three tables, and the position after the last row. No struct of the tables for this and for `SynthDef`: each would name its rows through a
// field more.
#[derive(Clone, Copy)]
pub struct Body {
    pub nodes: DefNodes,
    pub edges: DefEdges,
    pub params: Params,
    pub end: usize,
}
