// What stands in the records and cells of a reading call.
ghost use Rattle.std.specs.Prelude.{◌≡◌, List, ℕ, set};
ghost use Rattle.graph_rows.specs.Node.{nodes_in};
ghost use Rattle.graph_rows.specs.Edge.{edges_in};
ghost use Rattle.voice_rows.specs.Rows.{voices_in};
ghost use Rattle.busiest.specs.Stretch.{said};
ghost use Rattle.state_words.specs.State.{some_flag};
ghost use Rattle.piecrag_c_read.specs.Cells.{row_cell, stretch_code, stretch_count, stretch_sample};

use busiest::stretch::Busiest;
use graph_rows::edge_row::set_edge;
use graph_rows::node_row::put_node;
use node::record::{Edge, Node};
use voice::voices::Voice;
use voice_rows::row::put_voice;

// What a lent record holds: a row of a table.
pub trait Row: Copy {
    ghost rows: { List ℕ → List Self };

    // It becomes the first row.
    fn put(self, t: &mut [u32])
        ensures { rows t.new ≡ set (rows t.old) 0 self };
}

impl Row for Voice {
    ghost rows = { voices_in };

    fn put(self, t: &mut [u32]) {
        put_voice(t, 0, self);
    }
}

impl Row for Node {
    ghost rows = { nodes_in };

    fn put(self, t: &mut [u32]) {
        put_node(t, 0, self);
    }
}

impl Row for Edge {
    ghost rows = { edges_in };

    fn put(self, t: &mut [u32]) {
        set_edge(t, 0, self);
    }
}

// A row that was found becomes the row of the lent record, and the flag beside it becomes 1, or 0 where there is none, since C has no option.
pub fn put_found<R: Row>(flag: &mut u32, t: &mut [u32], found: Option<R>)
    ensures flag { flag.new ≡ some_flag found }
    ensures row { R.rows t.new ≡ row_cell found (R.rows t.old) }
{
    *flag = u32::from(found.is_some());
    if let Some(row) = found {
        row.put(t);
    }
}

// The answer of the busiest stretch as a number and two cells. Numbers, since a host in C has no enums; those of the refusals stand at their cases.
pub fn stretch_code(b: Busiest) -> u32
    ensures { result ≡ stretch_code (said b) }
{
    b.map_or_else(|why| why as u32, |_| 0)
}

pub fn stretch_count(b: Busiest, old: usize) -> usize
    ensures { result ≡ stretch_count (said b) old }
{
    b.map_or(old, |found| found.map_or(0, |s| s.count))
}

pub fn stretch_sample(b: Busiest, old: u64) -> u64
    ensures { result ≡ stretch_sample (said b) old }
{
    b.ok().flatten().map_or(old, |s| s.sample)
}
