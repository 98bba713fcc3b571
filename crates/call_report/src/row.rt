ghost use Rattle.std.specs.Prelude.{◌≡◌, [], get_or, set};
ghost use Rattle.node.specs.Node.{reported};
ghost use Rattle.graph_rows.specs.Node.{node_of, nodes_in};

use words::fields::{flag_word, float_word};
use words::table::put_fields;

// The node in row `i` has this done flag and this level: only their words are stored, and past the end none. Here and not in graph_rows: there it
// would be a public function for one caller.
pub(crate) fn put_report(t: &mut [u32], i: usize, done: bool, level: f32)
    ensures { nodes_in t.new ≡ set (nodes_in t.old) i (reported level done (get_or (nodes_in t.old) i (node_of []))) }
{
    let ws = [flag_word(done), float_word(level)];
    put_fields(t, 22, i, 13, &ws);
}
