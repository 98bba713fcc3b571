// The steal records in words that the host lends: 64 rows of five words. The count of all steals and the next place of the ring
// stand in the store's state. The words are decoded into `Steals`, the struct of 64 records with the total and the next place,
// changed there, and written back, by the calls that touch them and no others.
#![tactic(auto)]

ghost use Rattle.std.specs.Prelude.{◌≡◌, [], get_or, set};
ghost use Rattle.voice.specs.Steals.{pushed, marked, found_at};
ghost use Rattle.steal_log.specs.Rows.{steal_of, records_in, steals_in, log_in, Stands};

use std::array;
use voice::steals::{StealRecord, Steals};
use voice_policy::steals::{mark_cut, push_steal, steal_at};
use words::fields::{flag_at, flag_word, float_at, float_word, high_word, long_at, low_word};
use words::table::put_row;

// The words of the table.
pub const STEAL_WORDS: usize = 320;

pub type StealTable = [u32; STEAL_WORDS];

// What of the ring stands in the store's state: how many steals there were, and the place of the next. The table is a parameter beside it: a
// signature shows which words a call may touch.
#[derive(Clone, Copy)]
pub struct Ring {
    pub total: u64,
    pub next: usize,
}

// The words of a record.
fn record_words(r: StealRecord) -> [u32; 5]
    ensures { Stands r result }
{
    [
        low_word(r.sample),
        high_word(r.sample),
        float_word(r.level),
        flag_word(r.known),
        flag_word(r.cut),
    ]
}

// A row is read and stored in a slice and not in a `StealTable`: a table's length would ask of callers what no row needs.

// The record in row `i`; past the end, the record of no words, and no Option: the definition reads a list with that default, and the one caller
// reads the 64 rows that a table has.
pub fn record_at(t: &[u32], i: usize) -> StealRecord
    ensures { result ≡ get_or (records_in t.now) i (steal_of []) }
{
    StealRecord {
        sample: long_at(t, 5, i, 0),
        level: float_at(t, 5, i, 2),
        known: flag_at(t, 5, i, 3),
        cut: flag_at(t, 5, i, 4),
    }
}

// Row `i` is the record `r`; past the end nothing is stored.
fn put_record(t: &mut [u32], i: usize, r: StealRecord)
    ensures { records_in t.new ≡ set (records_in t.old) i r }
{
    put_row(t, 5, i, &record_words(r));
}

// The records that the words stand for, with the total and the next place.
pub fn read_steals(t: &StealTable, ring: Ring) -> Steals
    ensures { result ≡ steals_in t.now ring.total ring.next }
{
    Steals {
        rows: array::from_fn(|i| record_at(t, i)),
        total: ring.total,
        next: ring.next,
    }
}

// Writes the records: total and next place are for the store's state. By the rows' numbers, since words are no slice of rows.
pub fn write_steals(t: &mut StealTable, s: Steals) -> Ring
    ensures { steals_in t.new result.total result.next ≡ s }
{
    for (i, r) in s.rows.iter().enumerate() {
        put_record(t, i, *r);
    }
    Ring {
        total: s.total,
        next: s.next,
    }
}

// One more record.
pub fn log_steal(t: &mut StealTable, ring: Ring, r: StealRecord) -> Ring
    ensures { log_in t.new result.total result.next ≡ pushed (log_in t.old ring.total ring.next) r }
{
    let steals = push_steal(read_steals(t, ring), r);
    write_steals(t, steals)
}

// The record of that number is cut, if it is still held. Records are numbered from 0.
pub fn log_cut(t: &mut StealTable, ring: Ring, number: u64) -> Ring
    ensures { log_in t.new result.total result.next ≡ marked (log_in t.old ring.total ring.next) number }
{
    let steals = mark_cut(read_steals(t, ring), number);
    write_steals(t, steals)
}

// The record at the place `i` of those that are held, oldest first. No call asks for one record alone; docs/TRACE.md names this function
// beside the two that write.
pub fn logged_at(t: &StealTable, ring: Ring, i: usize) -> Option<StealRecord>
    ensures { result ≡ found_at i (log_in t.now ring.total ring.next).newest }
{
    steal_at(read_steals(t, ring), i)
}
