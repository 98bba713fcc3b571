// The nodes of an id that stay when the voices `freed` are removed: their owner is none of these. The ids of a store that calls made
// are all different; any words are a store, so several rows may have one id here. The lent table and its count go beside the id and the
// freed voices, as with every table: a type for the last two would be taken apart in each clause.
ghost use Rattle.std.specs.Prelude.{◌≡◌, cond, [], map, take, get_or, position};
ghost use Rattle.words.specs.Place.{place_of};
ghost use Rattle.voice.specs.Voice.{id};
ghost use Rattle.graph_rows.specs.Node.{node_of, nodes_in};
ghost use Rattle.call_param.specs.Left.{is_left};

use edges::table::is_listed;
use graph_rows::node_row::{id_at, owner_at};
use words::table::{first_row, move_row};

// Whether the node in row `i` has the id `k` and stays. The id is a u64 and no option of a `NodeId`: counted from a voice's first node it may be
// past the last id, and then no node is found by it.
fn is_left(t: &[u32], i: usize, k: u64, freed: &[u64]) -> bool
    ensures { result ≡ is_left freed.now (id k) (get_or (nodes_in t.now) i (node_of [])) }
{
    u64::from(id_at(t, i).0) == k && !is_listed(freed, owner_at(t, i).0)
}

// The row of the first such node among the first `count`, or none.
pub fn row_left(t: &[u32], count: usize, k: u64, freed: &[u64]) -> Option<usize>
    ensures { result ≡ position (is_left freed.now (id k)) (take count (nodes_in t.now)) }
{
    first_row(t, 22, count, |t, i| is_left(t, i, k, freed))
}

// If `p` is the row of the first such node, that node takes the place of those behind it. By the places: a row is so many words of a lent
// table, and one row is copied onto another of the same table. Not by `change_rows` of words: its closure would read row `p` into words once for each
// row that takes them.
pub fn copy_on(t: &mut [u32], count: usize, p: usize, k: u64, freed: &[u64])
    ensures { p ≡ place_of (is_left freed.now (id k)) (take count (nodes_in t.old)) → take count (nodes_in t.new) ≡ map (λ x. cond (is_left freed.now (id k) x) (get_or (nodes_in t.old) p (node_of [])) x) (take count (nodes_in t.old)) }
{
    for i in p..count.min(t.len() / 22) {
        if is_left(t, i, k, freed) {
            move_row(t, 22, p, i);
        }
    }
}
