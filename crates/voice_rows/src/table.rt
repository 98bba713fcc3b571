// The table of voices, in order of admission: its first `count` rows. A count above the room is the room. Where the room is tested the
// table itself is lent; the others serve any words, and a table's length would ask of callers what they do not need.
// Each lent table and its count are parameters of their own: a signature shows what a call may touch.
ghost use Rattle.std.specs.Prelude.{◌≡◌, not, length, take, filter, find};
ghost use Rattle.voice.specs.Voice.{is_voice};
ghost use Rattle.voice_rows.specs.Listed.{is_any_of, pushed_voice};
ghost use Rattle.words.specs.Place.{Holds};
ghost use Rattle.voice_rows.specs.Rows.{voices_in};
ghost use Rattle.voice_rows.specs.Found.{FoundAt};

use crate::pack::voice_words;
use crate::row::{VoiceTable, id_at};
use edges::table::is_listed;
use node::record::VoiceId;
use voice::voices::Voice;
use words::table::{append_row, close_gaps, first_row, row_count};

// How many voices live.
pub fn voice_count(voices: &VoiceTable, count: usize) -> usize
    ensures { result ≡ length (take count (voices_in voices.now)) }
{
    row_count(voices, 143, count)
}

// The row of the voice `w` among the first `count`, or none.
pub fn find_voice(t: &[u32], count: usize, w: VoiceId) -> Option<usize>
    ensures { FoundAt result count (voices_in t.now) (find (is_voice w) (take count (voices_in t.now))) }
{
    first_row(t, 143, count, |t, i| id_at(t, i) == w)
}

// One voice more behind the first `count`, if there is a place: how many there are.
pub fn push_voice(t: &mut VoiceTable, count: usize, v: Voice) -> usize
    ensures { Holds (voices_in t.new) result (pushed_voice (take count (voices_in t.old)) v) }
{
    append_row(t, 143, count, &voice_words(v))
}

// Removes the voices whose ids are among `ids`: how many are left.
pub fn remove_voices(t: &mut [u32], count: usize, ids: &[u64]) -> usize
    ensures { Holds (voices_in t.new) result (filter (λ v. not (is_any_of ids.now v)) (take count (voices_in t.old))) }
{
    close_gaps(t, 143, 0, count, |t, i| !is_listed(ids, id_at(t, i).0))
}

// Removes the voice `v`: how many are left. No call of the store needs it now; what it promises is kept.
pub fn remove_voice(t: &mut [u32], count: usize, v: VoiceId) -> usize
    ensures { Holds (voices_in t.new) result (filter (λ x. not (is_voice v x)) (take count (voices_in t.old))) }
{
    remove_voices(t, count, &[v.0])
}
