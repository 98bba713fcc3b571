// The words of a line, gathered in a lent buffer and written to standard output when it is full and at the end. A program that writes
// much makes one call of the system for some thousand words.
ghost use Rattle.std.specs.Prelude.{◌≡◌, ◌≤◌, true, false};

use crate::descriptor::STDOUT;

// The first `count` bytes are gathered, in fixed memory and no `Vec`. After a write that has failed nothing is written, unless it `retries`; of the bytes beside it
// `failed` says nothing, so that it is no option of them.
#[derive(Clone, Copy)]
pub struct Output {
    bytes: [u8; 65536],
    count: usize,
    failed: bool,
    retries: bool,
    ghost few: { count ≤ 65536 },
}

// Nothing gathered, and nothing failed.
pub fn output_room() -> Output
    ensures { (result.count ≡ 0) × (result.failed ≡ false) × (result.retries ≡ false) }
{
    Output {
        bytes: [0; 65536],
        count: 0,
        failed: false,
        retries: false,
    }
}

// The same for a program whose lines are of use without those before them: a write that fails ends nothing, and what comes after it is tried.
pub fn retrying_room() -> Output
    ensures { (result.count ≡ 0) × (result.failed ≡ false) × (result.retries ≡ true) }
{
    let mut out = output_room();
    out.retries = true;
    out
}

// Whether a write has failed; where it retries, whether the last one has.
pub fn has_failed(out: &Output) -> bool {
    out.failed
}

// Writes what is gathered.
pub fn flush(out: &mut Output)
    ensures { out.new.count ≡ 0 }
{
    if out.retries || !out.failed {
        out.failed = !io::write_all(STDOUT, &out.bytes[..out.count]);
    }
    out.count = 0;
}

// What does not fit behind what is gathered is written at once; what is too long for the buffer is written by itself.
pub fn text(out: &mut Output, s: &[u8]) {
    if 65536 - out.count < s.len() {
        flush(out);
    }
    if 65536 < s.len() {
        if out.retries || !out.failed {
            out.failed = !io::write_all(STDOUT, s);
        }
        return;
    }
    let end = out.count + s.len();
    out.bytes[out.count..end].copy_from_slice(s);
    out.count = end;
}

// A call of `text` with a name: what ends every line is written in one place.
pub fn end_line(out: &mut Output) {
    text(out, b"\n");
}

// A number of `width` hexadecimal digits.
pub fn hex(out: &mut Output, n: u64, width: usize) {
    let mut digits = [0u8; 16];
    let k = io::hex(n, width, &mut digits);
    text(out, &digits[..k]);
}

// Each byte in two hexadecimal digits.
pub fn hex_bytes(out: &mut Output, s: &[u8]) {
    for b in s {
        hex(out, u64::from(*b), 2);
    }
}
