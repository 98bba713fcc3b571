// Roots, narrowings and levels.
// Output, input and position stay three parameters: a struct of them would be taken apart at each reader of `codec`.
use codec::field::{NOWHERE, after, double, fields_at, lent_at, long_at};
use codec::output::{Output, end_line};
use codec::word::Word;

// A line of one word.
fn line<W: Word>(out: &mut Output, word: W) {
    word.put(out);
    end_line(out);
}

pub fn root(out: &mut Output, s: &[u8], at: usize) -> usize {
    line(out, level::sqrt(double(long_at(s, at))));
    after(at, 8)
}

pub fn narrowing(out: &mut Output, s: &[u8], at: usize) -> usize {
    line(out, level::narrow(double(long_at(s, at))));
    after(at, 8)
}

// A count, and that many samples.
pub fn block(out: &mut Output, s: &[u8], at: usize) -> usize {
    let lent = lent_at(s, at);
    if lent.end == NOWHERE {
        return NOWHERE;
    }
    let mut space = [0.0; 2048];
    let samples = &mut space[..lent.count];
    fields_at(s, lent.from, samples);
    line(out, level::level(samples));
    lent.end
}
