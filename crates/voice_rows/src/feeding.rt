// From which node a voice feeds its bus. An id is a u64 here and no option of a `NodeId`: counted from a voice's first node it may be past the
// last id, and then no edge is found by it.
ghost use Rattle.std.specs.Prelude.{◌≡◌, [], get_or};
ghost use Rattle.voice.specs.Voice.{feeder, end_of};
ghost use Rattle.voice_rows.specs.Rows.{voice_of, voices_in};

use crate::fade::fading;
use crate::row::{count_at, first_at, output_at, panned_at, state_at};

// The id of the node by which the voice in row `i` feeds its bus where it does not fade: its pan node, or its output.
pub fn feeder_at(t: &[u32], i: usize) -> u64
    ensures { result ≡ (feeder (get_or (voices_in t.now) i (voice_of []))).0 }
{
    if panned_at(t, i) {
        return u64::from(first_at(t, i).0) + u64::from(count_at(t, i)) + 1;
    }
    u64::from(output_at(t, i).0)
}

// The id of the node by which the voice in row `i` feeds its bus now: its fade, or what fed the bus before one.
pub fn end_at(t: &[u32], i: usize) -> u64
    ensures { result ≡ (end_of (get_or (voices_in t.now) i (voice_of []))).0 }
{
    fading(state_at(t, i)).map_or_else(|| feeder_at(t, i), |f| u64::from(f.node.0))
}
