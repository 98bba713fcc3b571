// Sample rates, fade lengths, noise seeds, fade output and bus sums.
// Output, input and position stay three parameters: a struct of them would be taken apart at each reader of `codec`.
ghost use Rattle.std.specs.Prelude.{◌*◌, ◌<◌, ◌^◌};
ghost use Rattle.std.specs.Mem.{type_size};
ghost use Rattle.std.proofs.Common.{rules};

use bus::FadePart;
use codec::field::{Field, after, fields_at, float, lent_at, long_at, word_at};
use codec::line::{refused_line, word_line};
use codec::output::{Output, end_line, hex, text};
use codec::word::{Word, and_word, and_words};
use node::refusal::{Refusal, refusal_number};
use store::config::Config;
use voice::policy::{BudgetScope, StealPolicy};

pub fn rate(out: &mut Output, s: &[u8], at: usize) -> usize {
    match bus::sample_rate(float(word_at(s, at))) {
        Ok(rate) => word_line(out, b"rate", rate),
        Err(refusal) => refused_line(out, refusal),
    }
    after(at, 4)
}

fn fade_length_line(out: &mut Output, rate: u32, length: u32) {
    rate.put(out);
    and_word(out, length);
    end_line(out);
}

// A line for the first rate, and for each at which the length is another than at the rate below.
pub fn fade_lengths(out: &mut Output, s: &[u8], at: usize) -> usize {
    let first = word_at(s, at);
    let end = word_at(s, after(at, 4));
    let mut last = None;
    for rate in first..end {
        let length = bus::fade_length(rate);
        if last != Some(length) {
            fade_length_line(out, rate, length);
        }
        last = Some(length);
    }
    after(at, 8)
}

pub fn seed(out: &mut Output, s: &[u8], at: usize) -> usize {
    let seed = bus::derive_noise_seed(word_at(s, at), long_at(s, after(at, 4)) as usize);
    hex(out, u64::from(seed), 8);
    end_line(out);
    after(at, 12)
}

// What making fixes, as far as fades and sums depend on it.
pub fn config(rate: u32, block: usize, table: bool) -> Config {
    Config {
        rate,
        block,
        budget: None,
        policy: StealPolicy::Reject,
        scope: BudgetScope::Global,
        table,
    }
}

// What stands before the runs of a fade: the channel counts of input and output with the position, the block size, and the length, or the rate.
#[derive(Clone, Copy)]
pub struct Head {
    pub part: FadePart,
    pub size: usize,
    pub length: u32,
}

fn head_at(s: &[u8], at: usize) -> Head {
    let part = FadePart {
        ins: word_at(s, at) as usize,
        outs: word_at(s, after(at, 4)) as usize,
        position: long_at(s, after(at, 12)),
    };
    Head {
        part,
        size: word_at(s, after(at, 8)) as usize,
        length: word_at(s, after(at, 20)),
    }
}

// What stands before the runs of a sum: the output's channel count and the block size.
#[derive(Clone, Copy)]
pub struct Sizes {
    pub outs: usize,
    pub size: usize,
}

fn sizes_at(s: &[u8], at: usize) -> Sizes {
    Sizes {
        outs: word_at(s, at) as usize,
        size: word_at(s, after(at, 4)) as usize,
    }
}

fn block_line<S: Word>(out: &mut Output, written: Result<(), Refusal>, block: &[S]) {
    match written {
        Ok(()) => text(out, b"block"),
        Err(refusal) => {
            text(out, b"refused");
            and_word(out, refusal_number(refusal));
        }
    }
    and_words(out, block);
    end_line(out);
}

// What fades and sums the samples of one sort, and by which gains.
pub trait Mixer {
    type Sample: Field + Word;

    type Gain: Field;

    // One block of a fade.
    fn fade(
        &self,
        head: Head,
        input: &[Self::Sample],
        gains: &[Self::Gain],
        block: &mut [Self::Sample],
    ) -> Result<(), Refusal>;

    // One block of a bus, of inputs with so many channels each.
    fn sum(
        &self,
        sizes: Sizes,
        inputs: &[Self::Sample],
        counts: &[usize],
        block: &mut [Self::Sample],
    ) -> Result<(), Refusal>;

    // There is memory for 2,048 samples, and for as many gains.
    ghost small: { (2048 * type_size Self.Sample.row < 2 ^ 63) × (2048 * type_size Self.Gain.row < 2 ^ 63) };
}

// Three runs: numbers of one sort, the input, and what the output holds before. `mix` fades or sums the input into the output.
fn mixed<G: Field, S: Field + Word, F: Fn(&[G], &[S], &mut [S]) -> Result<(), Refusal>>(
    out: &mut Output,
    s: &[u8],
    at: usize,
    mix: F,
) -> usize
    requires called { F.IsAlwaysCallable mix }
    requires small { (2048 * type_size G.row < 2 ^ 63) × (2048 * type_size S.row < 2 ^ 63) }
{
    let first = lent_at(s, at);
    let input = lent_at(s, first.end);
    let left = lent_at(s, input.end);
    let mut a = [G::of(0); 2048];
    let mut b = [S::of(0); 2048];
    let mut c = [S::of(0); 2048];
    let numbers = &mut a[..first.count];
    let samples = &mut b[..input.count];
    let block = &mut c[..left.count];
    fields_at(s, first.from, numbers);
    fields_at(s, input.from, samples);
    fields_at(s, left.from, block);
    let written = mix(numbers, samples, block);
    block_line(out, written, block);
    left.end
}

// The head of a fade; then its gains and its blocks.
pub fn fade<M: Mixer>(out: &mut Output, s: &[u8], at: usize, mixer: &M) -> usize {
    mixed(out, s, after(at, 24), |gains, input, block| {
        mixer.fade(head_at(s, at), input, gains, block)
    })
}

// The sizes of a sum; then the channel count of each input, and its blocks.
pub fn sum<M: Mixer>(out: &mut Output, s: &[u8], at: usize, mixer: &M) -> usize {
    mixed(out, s, after(at, 8), |counts, inputs, block| {
        mixer.sum(sizes_at(s, at), inputs, counts, block)
    })
}

// The functions of crate `bus` themselves: a fade by its length.
#[derive(Clone, Copy)]
pub struct Bus;

impl Mixer for Bus {
    type Sample = f32;

    type Gain = f32;

    fn fade(
        &self,
        head: Head,
        input: &[f32],
        gains: &[f32],
        block: &mut [f32],
    ) -> Result<(), Refusal> {
        bus::fade_output(input, gains, head.length, head.size, head.part, block)
    }

    fn sum(
        &self,
        sizes: Sizes,
        inputs: &[f32],
        counts: &[usize],
        block: &mut [f32],
    ) -> Result<(), Refusal> {
        bus::bus_sum(inputs, counts, sizes.size, block, sizes.outs)
    }

    ghost small = { Prim.search rules };
}

// The calls of a store, by the gains of its table or by those that are lent. A fade has the rate in the length's place.
// `WholeStore` of vec_whole is written out beside it: they call functions of two crates, and a trait of those would have the same two methods.
#[derive(Clone, Copy)]
pub struct Store {
    pub table: bool,
}

impl Mixer for Store {
    type Sample = f32;

    type Gain = f32;

    fn fade(
        &self,
        head: Head,
        input: &[f32],
        gains: &[f32],
        block: &mut [f32],
    ) -> Result<(), Refusal> {
        let made = config(head.length, head.size, self.table);
        mixing::fade_output(made, input, gains, head.part, block)
    }

    fn sum(
        &self,
        sizes: Sizes,
        inputs: &[f32],
        counts: &[usize],
        block: &mut [f32],
    ) -> Result<(), Refusal> {
        let made = config(48000, sizes.size, self.table);
        mixing::bus_sum(made, inputs, counts, block, sizes.outs)
    }

    ghost small = { Prim.search rules };
}
