// A line for each run: how many records, the width, the answer, and whether the count agrees.
use busiest::stretch::Busiest;
use codec::output::{Output, text};
use codec::word::{Word, and_word};

// A function and no `Display`: `Busiest` is a `Result`, a type of the library.
fn answer(out: &mut Output, found: Busiest) {
    match found {
        Err(why) => {
            text(out, b"refused");
            and_word(out, why as u8);
        }
        Ok(None) => text(out, b"0 and no sample"),
        Ok(Some(s)) => {
            s.count.put(out);
            text(out, b" from sample ");
            s.sample.put(out);
        }
    }
}

pub fn compare(out: &mut Output, n: usize, width: u64, found: Busiest, counted: Busiest) {
    text(out, b"run of ");
    n.put(out);
    text(out, b", width ");
    width.put(out);
    text(out, b": ");
    answer(out, found);
    text(
        out,
        if found == counted {
            b", counted the same\n"
        } else {
            b", COUNTED DIFFERENTLY\n"
        },
    );
}
