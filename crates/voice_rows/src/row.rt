// A voice's row: its fields one by one, so that a loop reads what it tests; its state; the whole record. A getter of any field would
// take the field's word and say less than a name. The words are a slice and not `VoiceTable`: the library for C stores one voice in a
// lent record by `put_voice`, and a table's length would ask of callers what no row needs. A reader past the end gives what no words
// stand for, and no option: the definitions read a list with that default, so that any words have a meaning, and with an option each caller
// would name it again.
ghost use Rattle.std.specs.Prelude.{◌≡◌, [], ◌+◌, ◌*◌, get_or, set};
ghost use Rattle.words.specs.Rows.{row_at};
ghost use Rattle.synthdef.specs.Plan.{plan_silent};
ghost use Rattle.voice.specs.Voice.{with_state};
ghost use Rattle.voice_rows.specs.Rows.{fade_at, param_at, voice_of, voices_in};

use crate::layout::{Layout, Run, records_at};
use crate::pack::{ParamWords, StepWords, state_words, voice_words};
use node::record::{NodeId, VoiceId};
use synthdef::def::{Param, Params};
use synthdef::plan::DonePlan;
use synthdef::silent::plan_silent;
use voice::voices::{Fade, Voice, VoiceState};
use words::fields::{flag_at, long_at, low_byte};
use words::table::{put_fields, put_row, word_at};

// "64 voices", a row of 143 words each.
pub const VOICE_WORDS: usize = 9152;

pub type VoiceTable = [u32; VOICE_WORDS];

pub fn id_at(t: &[u32], i: usize) -> VoiceId
    ensures { result ≡ (get_or (voices_in t.now) i (voice_of [])).id }
{
    VoiceId(long_at(t, 143, i, 0))
}

pub fn birth_at(t: &[u32], i: usize) -> u64
    ensures { result ≡ (get_or (voices_in t.now) i (voice_of [])).birth }
{
    long_at(t, 143, i, 2)
}

pub fn bus_at(t: &[u32], i: usize) -> NodeId
    ensures { result ≡ (get_or (voices_in t.now) i (voice_of [])).bus }
{
    NodeId(word_at(t, 143, i, 4))
}

pub fn port_at(t: &[u32], i: usize) -> u32
    ensures { result ≡ (get_or (voices_in t.now) i (voice_of [])).port }
{
    word_at(t, 143, i, 5)
}

pub fn first_at(t: &[u32], i: usize) -> NodeId
    ensures { result ≡ (get_or (voices_in t.now) i (voice_of [])).first }
{
    NodeId(word_at(t, 143, i, 6))
}

pub fn count_at(t: &[u32], i: usize) -> u32
    ensures { result ≡ (get_or (voices_in t.now) i (voice_of [])).count }
{
    word_at(t, 143, i, 7)
}

pub fn output_at(t: &[u32], i: usize) -> NodeId
    ensures { result ≡ (get_or (voices_in t.now) i (voice_of [])).output }
{
    NodeId(word_at(t, 143, i, 8))
}

pub fn panned_at(t: &[u32], i: usize) -> bool
    ensures { result ≡ (get_or (voices_in t.now) i (voice_of [])).panned }
{
    flag_at(t, 143, i, 9)
}

pub fn sequence_at(t: &[u32], i: usize) -> u32
    ensures { result ≡ (get_or (voices_in t.now) i (voice_of [])).sequence }
{
    word_at(t, 143, i, 10)
}

pub fn rank_at(t: &[u32], i: usize) -> u32
    ensures { result ≡ (get_or (voices_in t.now) i (voice_of [])).rank }
{
    word_at(t, 143, i, 22)
}

// The fade that the words of the state in row `i` stand for, if it is one.
fn fade_at(t: &[u32], i: usize) -> Fade
    ensures { result ≡ fade_at (row_at 143 i t.now) 11 }
{
    Fade {
        node: NodeId(word_at(t, 143, i, 12)),
        start: long_at(t, 143, i, 13),
        position: long_at(t, 143, i, 15),
        number: long_at(t, 143, i, 17),
    }
}

// The lent words hold a number for each state; any other number is the last.
pub fn state_at(t: &[u32], i: usize) -> VoiceState
    ensures { result ≡ (get_or (voices_in t.now) i (voice_of [])).state }
{
    match word_at(t, 143, i, 11) {
        1 => VoiceState::Tracked,
        2 => VoiceState::Fading(fade_at(t, i)),
        _ => VoiceState::Loose,
    }
}

// The voice in row `i` is in the state `s`; past the end nothing is stored. No call of the store needs it now; what it promises is kept.
pub fn put_state(t: &mut [u32], i: usize, s: VoiceState)
    ensures { voices_in t.new ≡ set (voices_in t.old) i (with_state s (get_or (voices_in t.old) i (voice_of []))) }
{
    put_fields(t, 143, i, 11, &state_words(s));
}

// Row `i` is the voice `v`; past the end nothing is stored.
pub fn put_voice(t: &mut [u32], i: usize, v: Voice)
    ensures { voices_in t.new ≡ set (voices_in t.old) i v }
{
    put_row(t, 143, i, &voice_words(v));
}

// Parameter `k` of the voice in row `i`, alone: who looks for a name stops where it is found.
pub fn param_at(t: &[u32], i: usize, k: u8) -> Param
    ensures { result ≡ param_at (row_at 143 i t.now) (23 + k * 6) }
{
    ParamWords::read(t, 143, i, 23 + u16::from(k) * 6)
}

// How many parameters the voice in row `i` counts.
pub fn param_count_at(t: &[u32], i: usize) -> usize
    ensures { result ≡ (get_or (voices_in t.now) i (voice_of [])).params.count }
{
    long_at(t, 143, i, 19) as usize
}

// The parameters of the voice in row `i`.
pub fn params_at(t: &[u32], i: usize) -> Params
    ensures { result ≡ (get_or (voices_in t.now) i (voice_of [])).params }
{
    Params {
        rows: records_at::<ParamWords, 6, 8, 143>(t, i, Run { base: 23 }),
        count: param_count_at(t, i),
    }
}

// The done plan of the voice in row `i`.
pub fn plan_at(t: &[u32], i: usize) -> DonePlan
    ensures { result ≡ (get_or (voices_in t.now) i (voice_of [])).plan }
{
    DonePlan {
        steps: records_at::<StepWords, 3, 24, 143>(t, i, Run { base: 71 }),
        output: low_byte(word_at(t, 143, i, 21)),
    }
}

// Whether the output of the voice in row `i` is silent, by its plan and the done flags of its definition's nodes.
pub fn silent_at(t: &[u32], i: usize, done: [bool; 24]) -> bool
    ensures { result ≡ plan_silent (get_or (voices_in t.now) i (voice_of [])).plan done }
{
    plan_silent(plan_at(t, i), done)
}

// The voice in row `i`; past the end, the voice of no words.
pub fn voice_at(t: &[u32], i: usize) -> Voice
    ensures { result ≡ get_or (voices_in t.now) i (voice_of []) }
{
    Voice {
        id: id_at(t, i),
        birth: birth_at(t, i),
        bus: bus_at(t, i),
        port: port_at(t, i),
        first: first_at(t, i),
        count: count_at(t, i),
        output: output_at(t, i),
        panned: panned_at(t, i),
        sequence: sequence_at(t, i),
        rank: rank_at(t, i),
        state: state_at(t, i),
        params: params_at(t, i),
        plan: plan_at(t, i),
    }
}
