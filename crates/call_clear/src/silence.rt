// Whether a voice has fallen silent, by the done flags of its definition's nodes.
ghost use Rattle.std.specs.Prelude.{◌≡◌, [], take, get_or};
ghost use Rattle.graph_rows.specs.Node.{nodes_in};
ghost use Rattle.voice_rows.specs.Rows.{voice_of, voices_in};
ghost use Rattle.model.specs.Clear.{is_silent};
ghost use Rattle.call_clear.specs.Flags.{FlagsAre, any_done};

use graph_rows::node_row::{done_at, id_at};
use voice_rows::row::{count_at, first_at, silent_at};

// The done flags of the `count` nodes from the id `first` on, in one walk over the first `n` nodes. The walk ends at the first row, so
// that of two nodes with one id the first one counts. By the places: a row is so many words of a lent table.
fn done_flags(nodes: &[u32], n: usize, first: u32, count: u32) -> [bool; 24]
    ensures { FlagsAre (take n (nodes_in nodes.now)) first count result }
{
    let m = (count as usize).min(24);
    let mut flags = [false; 24];
    for i in (0..n.min(nodes.len() / 22)).rev() {
        if let Some(place) = id_at(nodes, i).0.checked_sub(first) {
            let p = place as usize;
            if p < m {
                flags[p] = done_at(nodes, i);
            }
        }
    }
    flags
}

// The first `n` rows of a lent table, whose count stands in the state and not beside its words, and whether a done flag of them is set. No option of
// the nodes in the place of `any`: the clauses speak of the nodes also where none is done.
#[derive(Clone, Copy)]
pub struct Flags<'a> {
    pub nodes: &'a [u32],
    pub n: usize,
    any: bool,
    ghost known: { any ≡ any_done (take n (nodes_in nodes.now)) },
}

// Whether one of the first `n` nodes is done.
fn has_done(nodes: &[u32], n: usize) -> bool
    ensures { result ≡ any_done (take n (nodes_in nodes.now)) }
{
    (0..n.min(nodes.len() / 22)).any(|i| done_at(nodes, i))
}

impl<'a> Flags<'a> {
    pub fn of(nodes: &'a [u32], n: usize) -> Flags<'a>
        ensures { (result.nodes.now ≡ nodes.now) × (result.n ≡ n) }
    {
        Flags {
            nodes,
            n,
            any: has_done(nodes, n),
        }
    }

    // Those of the `count` nodes from the id `first` on; where no node is done, as in most blocks, nothing is looked for.
    fn from(&self, first: u32, count: u32) -> [bool; 24]
        ensures { FlagsAre (take self.now.n (nodes_in self.now.nodes.now)) first count result }
    {
        if self.any {
            done_flags(self.nodes, self.n, first, count)
        } else {
            [false; 24]
        }
    }

    // Whether the done plan of the voice in row `i` is silent.
    pub fn is_silent(&self, voices: &[u32], i: usize) -> bool
        ensures { result ≡ is_silent (take self.now.n (nodes_in self.now.nodes.now)) (get_or (voices_in voices.now) i (voice_of [])) }
    {
        let first = first_at(voices, i).0;
        let flags = self.from(first, count_at(voices, i));
        silent_at(voices, i, flags)
    }
}
