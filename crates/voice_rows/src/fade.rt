// Fades: how they begin and move, in place, and which one started earliest.
// Each lent table and its count are parameters of their own: a signature shows what a call may touch.
ghost use Rattle.std.specs.Prelude.{◌≡◌, [], map, take, get_or};
ghost use Rattle.voice.specs.Voice.{start_of, fades_on, begin_fade, moved, moved_fade, moved_state};
ghost use Rattle.model.specs.Spawn.{earliest};
ghost use Rattle.model.specs.Render.{further};
ghost use Rattle.model.specs.Clear.{ended};
ghost use Rattle.voice_rows.specs.Rows.{voice_of, voices_in};
ghost use Rattle.voice_rows.specs.Found.{FoundAt};
ghost use Rattle.voice_rows.specs.Earlier.{Earlier};
ghost use Rattle.voice_rows.specs.Fading.{fading};

use crate::pack::state_words;
use crate::row::{bus_at, id_at, state_at};
use node::record::{NodeId, VoiceId};
use voice::voices::{Fade, VoiceState};
use words::table::change_rows;

// The fade of a voice in the state `s`; none if it does not fade.
pub fn fading(s: VoiceState) -> Option<Fade>
    ensures { result ≡ fading s }
{
    match s {
        VoiceState::Fading(f) => Some(f),
        VoiceState::Tracked | VoiceState::Loose => None,
    }
}

// The voice `w` fades from now on: its state is stored, which begins at word 11 of a row.
pub fn begin_fade(t: &mut [u32], count: usize, w: VoiceId, f: Fade)
    ensures { take count (voices_in t.new) ≡ map (begin_fade w f) (take count (voices_in t.old)) }
{
    let ws = state_words(VoiceState::Fading(f));
    change_rows(t, 143, count, 11, |t, i| (id_at(t, i) == w).then_some(ws));
}

// A fade after a sounding block.
fn moved_fade(f: Fade, block: u64) -> Fade
    ensures { result ≡ moved_fade (further block) f }
{
    Fade {
        position: f.position.saturating_add(block),
        ..f
    }
}

// The state of a voice after a sounding block.
fn moved_state(s: VoiceState, block: u64) -> VoiceState
    ensures { result ≡ moved_state (further block) s }
{
    fading(s).map_or(s, |f| VoiceState::Fading(moved_fade(f, block)))
}

// Every fade moves by a block. The state of every voice is stored, also of one that does not fade: it is what it was.
pub fn move_fades(t: &mut [u32], count: usize, block: u64)
    ensures { take count (voices_in t.new) ≡ map (moved (further block)) (take count (voices_in t.old)) }
{
    change_rows(t, 143, count, 11, |t, i| {
        Some(state_words(moved_state(state_at(t, i), block)))
    });
}

// Whether the fade of the voice in row `i` has ended: its position has reached the fade length.
pub fn ended_at(t: &[u32], i: usize, length: u64) -> bool
    ensures { result ≡ ended length (get_or (voices_in t.now) i (voice_of [])).state }
{
    fading(state_at(t, i)).is_some_and(|f| length <= f.position)
}

// Whether the voice in row `i` fades on `bus`.
pub fn fades_on(t: &[u32], i: usize, bus: NodeId) -> bool
    ensures { result ≡ fades_on bus (get_or (voices_in t.now) i (voice_of [])) }
{
    fading(state_at(t, i)).is_some() && bus_at(t, i) == bus
}

// The clock at the start of the fade of the voice in row `i`; 0 and no option where it does not fade, as `start_of` in the clause gives it: compared
// as options, a voice that does not fade would be before one whose fade starts at 0.
pub fn start_at(t: &[u32], i: usize) -> u64
    ensures { result ≡ start_of (get_or (voices_in t.now) i (voice_of [])).state }
{
    fading(state_at(t, i)).map_or(0, |f| f.start)
}

// Of two rows the one that is reclaimed first: row `i`, if its voice fades on `bus` and started no later than that of `best`.
fn earlier_row(t: &[u32], best: Option<usize>, i: usize, bus: NodeId) -> Option<usize>
    ensures { Earlier (voices_in t.now) best i bus result }
{
    if !fades_on(t, i, bus) {
        return best;
    }
    match best {
        Some(row) if start_at(t, row) < start_at(t, i) => best,
        _ => Some(i),
    }
}

// The row of the fade of `bus` that started earliest, of several the first in voice order; or none. From the last row down, so that of several
// the first stays. A fold and no `min_by_key`: of that the library says that no key is less, and not that of several the first is taken.
pub fn earliest_fade(t: &[u32], count: usize, bus: NodeId) -> Option<usize>
    ensures { FoundAt result count (voices_in t.now) (earliest (fades_on bus) (take count (voices_in t.now))) }
{
    (0..count.min(t.len() / 143))
        .rev()
        .fold(None, |best, i| earlier_row(t, best, i, bus))
}
