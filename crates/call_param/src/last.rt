// The last order of a node, in its row.
ghost use Rattle.std.specs.Prelude.{◌≡◌, [], get_or, set};
ghost use Rattle.model.specs.Order.{takes, with_last};
ghost use Rattle.graph_rows.specs.Node.{node_of, nodes_in};

use node::order::LastOrder;
use words::fields::{flag_at, last_words};
use words::table::put_fields;

// Whether the node in row `i` takes orders of that sort. Here and not in graph_rows: `takes` is the model's, which stands above that crate.
pub(crate) fn takes_at(t: &[u32], i: usize, o: LastOrder) -> bool
    ensures { result ≡ takes o (get_or (nodes_in t.now) i (node_of [])) }
{
    match o {
        LastOrder::Nothing => false,
        LastOrder::Value(_) => flag_at(t, 22, i, 11),
        LastOrder::Glide(_) => flag_at(t, 22, i, 12),
    }
}

// The last order of the node in row `i` is `o`: only its words are stored, and past the end none. Here and not in graph_rows: there it would be a
// public function for one caller.
pub(crate) fn put_last(t: &mut [u32], i: usize, o: LastOrder)
    ensures { nodes_in t.new ≡ set (nodes_in t.old) i (with_last o (get_or (nodes_in t.old) i (node_of []))) }
{
    put_fields(t, 22, i, 15, &last_words(o));
}
