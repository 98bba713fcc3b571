// What a seal closes.
ghost use Rattle.std.specs.Prelude.{◌≡◌};
ghost use Rattle.call_seal.specs.Board.{leaves_out, shuts_spawn, opened};

use memory::state::CallResult;
use node::record::NodeId;
use node::refusal::Refusal;
use sealed::profile::{Profile, Seal};

// Why a call on a board is refused: the seal closes it, or for what the store or the console gives.
#[derive(Clone, Copy)]
pub enum BoardRefusal<R> {
    Closed,
    Given(R),
}

// What the store or the console gives, as the answer of a call that no seal closes.
pub(crate) fn opened<A, R>(given: Result<A, R>) -> Result<A, BoardRefusal<R>>
    ensures { result ≡ opened given }
{
    given.map_err(BoardRefusal::Given)
}

// The same of a call of the store, with the state that it left.
pub(crate) fn open<A>(
    given: CallResult<Result<A, Refusal>>,
) -> CallResult<Result<A, BoardRefusal<Refusal>>>
    ensures { (result.state ≡ given.state) × (result.answer ≡ opened given.answer) }
{
    CallResult {
        state: given.state,
        answer: opened(given.answer),
    }
}

// Whether a spawn of so many nodes and edges is unmanaged, on another bus than the profile's, or larger than its D or E.
fn leaves_out(p: Profile, managed: bool, bus: NodeId, nodes: usize, edges: usize) -> bool
    ensures { result ≡ leaves_out p managed bus nodes edges }
{
    !(managed && bus == p.bus && nodes as u64 <= p.def_nodes && edges as u64 <= p.def_edges)
}

// Whether the seal closes a spawn of so many nodes and edges on the bus, and a wish for it. Four arguments and no `Wish`: a book that cannot be
// read is tested as a definition of no nodes and no edges, and there is no wish yet then.
pub fn shuts_spawn(x: Seal, managed: bool, bus: NodeId, nodes: usize, edges: usize) -> bool
    ensures { result ≡ shuts_spawn x managed bus nodes edges }
{
    x.is_some_and(|p| leaves_out(p, managed, bus, nodes, edges))
}
