// Steal records.
// Two functions write them: one over both would take as closures what stands around a record.
use busiest::newest::newest_records;
use codec::line::word_line;
use codec::output::{Output, end_line, text};
use codec::word::and_word;
use voice::steals::{StealRecord, Steals};
use voice_policy::steals::record_level;

fn record_words(out: &mut Output, r: StealRecord) {
    and_word(out, r.sample);
    and_word(out, record_level(r));
    text(out, if r.cut { b" cut" } else { b" faded" });
}

// The count, and all records, in one line.
pub fn steals_line(out: &mut Output, steals: Steals) {
    text(out, b"steals");
    and_word(out, steals.total);
    for r in newest_records(steals).as_slice() {
        record_words(out, *r);
    }
    end_line(out);
}

// The count, and then a line for each record.
pub fn steal_lines(out: &mut Output, steals: Steals) {
    word_line(out, b"steals", steals.total);
    for r in newest_records(steals).as_slice() {
        text(out, b"steal");
        record_words(out, *r);
        end_line(out);
    }
}
