// An order at its node, which is looked for by its id. No `?`: an `Outcome` is no result, since model and ledger
// have its four cases by their names.
ghost use Rattle.std.specs.Prelude.{take, find};
ghost use Rattle.voice.specs.Voice.{id};
ghost use Rattle.graph_rows.specs.Node.{nodes_in};
ghost use Rattle.call_param.specs.Left.{is_left, reply_node};
ghost use Rattle.call_param.specs.Replies.{Replies};

use crate::last::{put_last, takes_at};
use crate::left::{copy_on, row_left};
use node::order::LastOrder;
use store::answer::Outcome;

// An order for the node of the id `k` among the first `count`: it must live, not be one of the voices' that are `freed`, and take
// that sort.
pub(crate) fn order_node(
    t: &mut [u32],
    count: usize,
    k: u64,
    freed: &[u64],
    o: LastOrder,
) -> Outcome
    ensures { Replies t.old t.new count result (reply_node freed.now (find (is_left freed.now (id k)) (take count (nodes_in t.old))) o (take count (nodes_in t.old))) }
{
    let Some(p) = row_left(t, count, k, freed) else {
        return Outcome::NotTaken;
    };
    if !takes_at(t, p, o) {
        return Outcome::NotTaken;
    }
    put_last(t, p, o);
    copy_on(t, count, p, k, freed);
    Outcome::Applied
}
