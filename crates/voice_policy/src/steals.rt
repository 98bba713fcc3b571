// The steals as functions and no methods: `Steals` is a type of crate voice, which has definitions and no code. Its clauses say `log_of`, and
// no impl Model does: the fields are public, since crate steal_log makes the ring of words and stores its rows.
ghost use Rattle.std.specs.Prelude.{◌≡◌, ◌+◌, ◌-◌, ◌%◌, ◌≤◌, length};
ghost use Rattle.voice.specs.Steals.{record_of, record_level, empty_log, log_of, pushed, marked, found_at};

use voice::steals::{StealRecord, Steals};

// The record of a steal. Where no level is known, the float is 0: the scope asks for a float beside a flag, and for no option.
pub fn steal_record(sample: u64, level: Option<f32>, cut: bool) -> StealRecord
    ensures { result ≡ record_of sample level cut }
{
    StealRecord {
        sample,
        level: level.unwrap_or(0.0),
        known: level.is_some(),
        cut,
    }
}

// The level of a record, or none.
pub fn record_level(r: StealRecord) -> Option<f32>
    ensures { result ≡ record_level r }
{
    r.known.then_some(r.level)
}

// No steals yet.
pub fn no_steals() -> Steals
    ensures { log_of result ≡ empty_log }
{
    let r = steal_record(0, None, false);
    Steals {
        rows: [r; 64],
        total: 0,
        next: 0,
    }
}

// The place in the ring of the record that is `age` back: the newest is 1 back.
fn place_back(next: usize, age: usize) -> usize
    requires { age ≤ 64 }
    ensures { result ≡ (next % 64 + (64 - age)) % 64 }
{
    (next % 64 + (64 - age)) % 64
}

// One more record. It takes the place of the oldest once 64 are held. The count stays at 2^64 - 1, which no run reaches.
pub fn push_steal(mut s: Steals, r: StealRecord) -> Steals
    ensures { log_of result ≡ pushed (log_of s) r }
{
    let p = s.next % 64;
    s.rows[p] = r;
    s.total = s.total.saturating_add(1);
    s.next = (p + 1) % 64;
    s
}

// Marks the record of that number cut, if it is still held. Records are numbered from 0.
pub fn mark_cut(mut s: Steals, number: u64) -> Steals
    ensures { log_of result ≡ marked (log_of s) number }
{
    if s.total <= number || 64 < s.total - number {
        return s;
    }
    let p = place_back(s.next, (s.total - number) as usize);
    s.rows[p].cut = true;
    s
}

// How many of the newest records are held.
pub fn held_steals(s: Steals) -> usize
    ensures { result ≡ length (log_of s).newest }
{
    (s.total as usize).min(64)
}

// The record at the place `i` of those that a lent ring holds, oldest first. Lent, since whoever reads them all would copy the ring for each.
pub fn lent_steal_at(s: &Steals, i: usize) -> Option<StealRecord>
    ensures { result ≡ found_at i (log_of s.now).newest }
{
    let n = (s.total as usize).min(64);
    if n <= i {
        return None;
    }
    Some(s.rows[place_back(s.next, n - i)])
}

// The same of a ring.
pub fn steal_at(s: Steals, i: usize) -> Option<StealRecord>
    ensures { result ≡ found_at i (log_of s).newest }
{
    lent_steal_at(&s, i)
}
