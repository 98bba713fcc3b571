// Who counts for a new voice on a bus, and with which level.
// Each lent table and its count are parameters of their own: a signature shows what a call may touch.
// A loop goes by the numbers of rows: a row is so many words of a lent table, and there is no slice of rows.
ghost use Rattle.std.specs.Prelude.{◌≡◌, [], length, take, get_or};
ghost use Rattle.voice.specs.Policy.{candidates_of};
ghost use Rattle.graph.specs.Node.{node_at};
ghost use Rattle.voice.specs.Voice.{is_tracked, counted};
ghost use Rattle.model.specs.Voice.{node_level};
ghost use Rattle.voice_rows.specs.Levels.{LeftMax, level_at, candidate_at, candidates_at};
ghost use Rattle.graph_rows.specs.Node.{nodes_in};
ghost use Rattle.voice_rows.specs.Rows.{voice_of, voices_in};

use crate::row::{VoiceTable, birth_at, bus_at, id_at, output_at, rank_at, state_at};
use node::record::NodeId;
use voice::policy::{BudgetScope, Candidate, Candidates};
use voice::voices::VoiceState;
use voice_policy::policy::{counts_for, no_candidates};
use words::table::first_row;

// Which voices count for a new voice: those that the scope of the budget names, for a new voice on `bus`; the clock says which of them have a level yet.
#[derive(Clone, Copy)]
pub struct Counting {
    pub scope: BudgetScope,
    pub bus: NodeId,
    pub clock: u64,
}

// The level of the node `id` among the first `n` nodes; none if it does not live.
fn node_level(nodes: &[u32], n: usize, id: NodeId) -> Option<f32>
    ensures { result ≡ node_level (node_at (take n (nodes_in nodes.now)) id) }
{
    let row = first_row(nodes, 22, n, |t, i| graph_rows::node_row::id_at(t, i) == id)?;
    Some(graph_rows::node_row::level_at(nodes, row))
}

// A walk over the first `n` of the lent nodes, whose count stands in the state and not beside its words: every row before `row` has a lower id, so that
// the node in it is the first of its id. Each method says that the walk keeps its nodes: what is behind a `&mut` is known by the clauses alone.
// The clock is a parameter and no field: each would have to keep it too.
#[derive(Drop)]
struct NodeWalk<'a> {
    nodes: &'a [u32],
    n: usize,
    row: usize,
    ghost rising: { LeftMax nodes.now row },
}

impl<'a> NodeWalk<'a> {
    // At the first row.
    fn new(nodes: &'a [u32], n: usize) -> Self
        ensures { (result.nodes.now ≡ nodes.now) × (result.n ≡ n) }
    {
        NodeWalk { nodes, n, row: 0 }
    }

    // On while the ids rise and are below `id`; where it stops, the next walk goes on. Past the end of the table 0 is read and no option: an id that
    // does not rise ends the walk.
    fn advance(&mut self, id: NodeId)
        ensures { (self.new.nodes.now ≡ self.old.nodes.now) × (self.new.n ≡ self.old.n) }
    {
        let m = self.n.min(self.nodes.len() / 22);
        let mut here = graph_rows::node_row::id_at(self.nodes, self.row);
        for i in self.row..m {
            let next = graph_rows::node_row::id_at(self.nodes, i + 1);
            if id <= here || next <= here {
                return;
            }
            here = next;
            self.row = i + 1;
        }
    }

    // The level of the node `id`, read from the row that the walk reaches if it stands there; none if it does not live.
    fn level_of(&mut self, id: NodeId) -> Option<f32>
        ensures kept { (self.new.nodes.now ≡ self.old.nodes.now) × (self.new.n ≡ self.old.n) }
        ensures is { result ≡ node_level (node_at (take self.old.n (nodes_in self.old.nodes.now)) id) }
    {
        self.advance(id);
        let m = self.n.min(self.nodes.len() / 22);
        if self.row < m && graph_rows::node_row::id_at(self.nodes, self.row) == id {
            return Some(graph_rows::node_row::level_at(self.nodes, self.row));
        }
        node_level(self.nodes, self.n, id)
    }

    // The level of the voice in row `i`: none until the clock passes its birth, and none where its output does not live.
    fn voice_level(&mut self, t: &[u32], i: usize, clock: u64) -> Option<f32>
        ensures kept { (self.new.nodes.now ≡ self.old.nodes.now) × (self.new.n ≡ self.old.n) }
        ensures is { result ≡ level_at (take self.old.n (nodes_in self.old.nodes.now)) clock (get_or (voices_in t.now) i (voice_of [])) }
    {
        if birth_at(t, i) < clock {
            self.level_of(output_at(t, i))
        } else {
            None
        }
    }

    // The voice in row `i` as one that may have to go, with its level and its rank.
    fn candidate(&mut self, t: &[u32], i: usize, clock: u64) -> Candidate
        ensures kept { (self.new.nodes.now ≡ self.old.nodes.now) × (self.new.n ≡ self.old.n) }
        ensures is { result ≡ candidate_at (take self.old.n (nodes_in self.old.nodes.now)) clock (get_or (voices_in t.now) i (voice_of [])) }
    {
        Candidate {
            voice: id_at(t, i),
            level: self.voice_level(t, i, clock),
            rank: rank_at(t, i),
        }
    }
}

// The level of the voice in row `i`: none until the clock passes its birth, and none where its output does not live. Of one voice the nodes are
// searched once; a walk, which serves many, would compare each id twice.
pub fn level_at(t: &[u32], i: usize, nodes: &[u32], n: usize, clock: u64) -> Option<f32>
    ensures { result ≡ level_at (take n (nodes_in nodes.now)) clock (get_or (voices_in t.now) i (voice_of [])) }
{
    if birth_at(t, i) < clock {
        node_level(nodes, n, output_at(t, i))
    } else {
        None
    }
}

// Whether the voice in row `i` is tracked and counts for a new voice on `bus`.
pub fn is_counted(t: &[u32], i: usize, scope: BudgetScope, bus: NodeId) -> bool
    ensures { result ≡ counted scope bus (get_or (voices_in t.now) i (voice_of [])) }
{
    matches!(state_at(t, i), VoiceState::Tracked) && counts_for(scope, bus_at(t, i), bus)
}

// The tracked voices that count for a new voice, in order of admission, each with its level and its rank.
// One walk over the nodes serves all voices: in a store that calls made, the ids of the nodes rise from row to row, and those of the
// outputs from voice to voice. For an output that is not at the row reached, all nodes are looked at.
pub fn candidates(t: &VoiceTable, count: usize, nodes: &[u32], n: usize, by: Counting) -> Candidates
    ensures { candidates_of result ≡ candidates_at (take n (nodes_in nodes.now)) by.clock (counted by.scope by.bus) (take count (voices_in t.now)) }
{
    let mut out = no_candidates();
    let mut walk = NodeWalk::new(nodes, n);
    for i in 0..count.min(64) {
        if is_counted(t, i, by.scope, by.bus) {
            out.push(walk.candidate(t, i, by.clock));
        }
    }
    out
}
