use lists::rows::Table;
use node::name::Name;

// The port of a name that a node has not. A number and no Option: books and words hold it as it is, and `Some(255)` would be a second none,
// which a book that is written and read again does not give back.
pub const NO_PORT: u8 = 255;

// A node of a definition: kind name, ports, required ports (bit p for port p), what it takes, and its first ports named
// `in`, `level` and `amp`, each NO_PORT where it has none.
#[derive(Clone, Copy, Default)]
pub struct DefNode {
    pub kind: Name,
    pub ports: u8,
    pub required: u8,
    pub takes_values: bool,
    pub takes_glides: bool,
    pub in_port: u8,
    pub level_port: u8,
    pub amp_port: u8,
}

// The output of the definition's node `from` feeds the port `port` of its node `to`. No one type with `Edge` over the id: the definitions name both,
// and a place in a definition never serves as a node id.
#[derive(Clone, Copy, Default)]
pub struct DefEdge {
    pub from: u8,
    pub to: u8,
    pub port: u8,
}

// A parameter: orders by that name go to the definition's node `node`.
#[derive(Clone, Copy, Default)]
pub struct Param {
    pub name: Name,
    pub node: u8,
}

// The three tables of a definition.
pub type DefNodes = Table<DefNode, 24>;

pub type DefEdges = Table<DefEdge, 48>;

pub type Params = Table<Param, 8>;

// A definition. `output` is the node that the voice sounds through.
#[derive(Clone, Copy, Default)]
pub struct SynthDef {
    pub nodes: DefNodes,
    pub edges: DefEdges,
    pub params: Params,
    pub output: u8,
}
