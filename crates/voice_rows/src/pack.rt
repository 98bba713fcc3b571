// A voice as words.
ghost use Rattle.std.specs.Prelude.{◌≡◌, ◌/◌, ◌%◌};
ghost use Rattle.words.specs.Fields.{is_set};
ghost use Rattle.voice_rows.specs.Rows.{state_at, param_at, step_at, Heads, Stands, Spells};
ghost use Rattle.voice_rows.specs.Layouts.{param_local, step_local};

use crate::layout::{Layout, Run, put_records};
use synthdef::def::Param;
use synthdef::plan::DoneStep;
use voice::voices::{Voice, VoiceState};
use words::fields::{
    byte_word, eight_bytes, flag_word, high_word, is_set, low_byte, low_word, name_at, name_words,
};
use words::table::{put_words, word_at};

// A state in eight words, of which the first is a number for each case: the lent words hold numbers.
pub fn state_words(s: VoiceState) -> [u32; 8]
    ensures { Spells state_at 8 s result }
{
    match s {
        VoiceState::Tracked => [1, 0, 0, 0, 0, 0, 0, 0],
        VoiceState::Fading(f) => [
            2,
            f.node.0,
            low_word(f.start),
            high_word(f.start),
            low_word(f.position),
            high_word(f.position),
            low_word(f.number),
            high_word(f.number),
        ],
        VoiceState::Loose => [0, 0, 0, 0, 0, 0, 0, 0],
    }
}

// A parameter in six words.
pub(crate) struct ParamWords;

impl Layout<6> for ParamWords {
    type Record = Param;

    ghost at = { param_at };

    fn words(x: Param) -> [u32; 6] {
        let n = name_words(x.name);
        [n[0], n[1], n[2], n[3], n[4], u32::from(x.node)]
    }

    fn read(t: &[u32], width: usize, i: usize, k: u16) -> Param {
        Param {
            name: name_at(t, width, i, k),
            node: low_byte(word_at(t, width, i, usize::from(k) + 5)),
        }
    }

    ghost local = { param_local };
}

// How many sources of a step count, and whether all have to be silent. By 256 and not by bytes, here and where it is read: what stands above the
// count's byte is one number in the definition.
fn rule_word(all: bool, count: u8) -> u32
    ensures { (result % 256 ≡ count) × (is_set (result / 256) ≡ all) }
{
    256 * u32::from(all) + u32::from(count)
}

// A step of a done plan in three words.
pub(crate) struct StepWords;

impl Layout<3> for StepWords {
    type Record = DoneStep;

    ghost at = { step_at };

    fn words(x: DoneStep) -> [u32; 3] {
        let b = x.sources;
        [
            byte_word(b[0], b[1], b[2], b[3]),
            byte_word(b[4], b[5], b[6], b[7]),
            rule_word(x.all, x.count),
        ]
    }

    fn read(t: &[u32], width: usize, i: usize, k: u16) -> DoneStep {
        let j = usize::from(k);
        let rule = word_at(t, width, i, j + 2);
        DoneStep {
            all: is_set(rule / 256),
            count: low_byte(rule),
            sources: eight_bytes(word_at(t, width, i, j), word_at(t, width, i, j + 1)),
        }
    }

    ghost local = { step_local };
}

// The words of a voice before its parameters. Word by word, since the list is the layout: parts put by their places would say it twice.
fn head_words(v: Voice) -> [u32; 23]
    ensures { Heads v result }
{
    let s = state_words(v.state);
    let held = v.params.count as u64;
    [
        low_word(v.id.0),
        high_word(v.id.0),
        low_word(v.birth),
        high_word(v.birth),
        v.bus.0,
        v.port,
        v.first.0,
        v.count,
        v.output.0,
        flag_word(v.panned),
        v.sequence,
        s[0],
        s[1],
        s[2],
        s[3],
        s[4],
        s[5],
        s[6],
        s[7],
        low_word(held),
        high_word(held),
        u32::from(v.plan.output),
        v.rank,
    ]
}

// The words of a voice: the parameters stand from word 23 on, the plan's steps from word 71 on.
pub fn voice_words(v: Voice) -> [u32; 143]
    ensures { Stands v result }
{
    let mut ws = [0; 143];
    put_words(&mut ws, 0, &head_words(v));
    put_records::<ParamWords, 6, 8, 143>(&mut ws, Run { base: 23 }, &v.params.rows);
    put_records::<StepWords, 3, 24, 143>(&mut ws, Run { base: 71 }, &v.plan.steps);
    ws
}
