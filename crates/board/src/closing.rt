//! What a seal closes.
ghost use Rattle.std.specs.Prelude.{◌≡◌};
ghost use Rattle.board.specs.Closing.{leaves_out, shuts_spawn, opened};

use node::record::NodeId;
use sealed::profile::{Profile, Seal};

/// Why a call on a board is refused: the seal closes it (28), before all else that the call refuses; or what the store
/// or the console gives.
#[derive(Clone, Copy)]
pub enum BoardRefusal<R> {
    Closed,
    Given(R),
}

// What the store or the console gives, as the answer of a call that no seal closes.
pub(crate) fn opened<A, R>(given: Result<A, R>) -> Result<A, BoardRefusal<R>>
    ensures { result ≡ opened given }
{
    given.map_err(BoardRefusal::Given)
}

// Whether a spawn of so many nodes and edges is unmanaged, on another bus than the profile's, or larger than its D or
// E.
fn leaves_out(p: &Profile, managed: bool, bus: NodeId, nodes: usize, edges: usize) -> bool
    ensures { result ≡ leaves_out p.now managed bus nodes edges }
{
    !(managed && bus == p.bus && nodes as u64 <= p.def_nodes && edges as u64 <= p.def_edges)
}

// Whether the seal closes a spawn of so many nodes and edges on the bus, and a wish for it.
pub(crate) fn shuts_spawn(
    seal: &Seal,
    managed: bool,
    bus: NodeId,
    nodes: usize,
    edges: usize,
) -> bool
    ensures { result ≡ shuts_spawn seal.now managed bus nodes edges }
{
    match seal {
        Some(p) => leaves_out(p, managed, bus, nodes, edges),
        None => false,
    }
}
