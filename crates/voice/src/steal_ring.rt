ghost use Rattle.std.specs.Prelude.{◌≡◌, ◌+◌, ◌-◌, ◌%◌, ◌≤◌, ◌<◌, length};
ghost use Rattle.voice.specs.Steals.{empty_log, pushed, marked, found_at, numbered};

use crate::steals::{StealRecord, steal_record};
use std::marker::Model;

/// The steals: how many there were, and the newest 64 of them. The next record goes to the place `next` of the rows, which is then the oldest.
#[derive(Drop)]
pub struct Steals {
    rows: [StealRecord; 64],
    total: u64,
    next: usize,
}

impl Model for Steals {
    ghost use Rattle.std.specs.Prelude.{◌≡◌, ◌<◌, length};
    ghost use Rattle.voice.specs.Steals.{StealLog, log_of};

    ghost Value = { StealLog };

    ghost view = { λ s. log_of (record { rows = s.rows; total = s.total; next = s.next }) };

    ghost invariant = { λ s. (s.next < 64) × (length s.rows ≡ 64) };
}

// The place of the record that is `age` back: the newest is 1 back.
fn place_back(next: usize, age: usize) -> usize
    requires next { next < 64 }
    requires age { age ≤ 64 }
    ensures { result ≡ (next % 64 + (64 - age)) % 64 }
{
    (next + (64 - age)) % 64
}

impl Steals {
    /// No steals yet.
    pub fn new() -> Steals
        ensures { result ≡ empty_log }
    {
        Steals {
            rows: [steal_record(0, None, false); 64],
            total: 0,
            next: 0,
        }
    }

    /// How many steals there were. The count stays at 2^64 - 1, which no store reaches.
    pub fn count(&self) -> u64
        ensures { result ≡ self.now.count }
    {
        self.total
    }

    /// How many records are held: all of them, and 64 at most.
    pub fn len(&self) -> usize
        ensures value { result ≡ length self.now.newest }
        ensures fits { result ≤ 64 }
    {
        self.total.min(64) as usize
    }

    /// The record at the place `i` of those that are held, oldest first.
    pub fn get(&self, i: usize) -> Option<StealRecord>
        ensures { result ≡ found_at i self.now.newest }
    {
        let held = self.len();
        if held <= i {
            return None;
        }
        Some(self.rows[place_back(self.next, held - i)])
    }

    /// The record of that number, if it is still held: they are numbered from 0 in the order in which they came.
    pub fn numbered(&self, number: u64) -> Option<StealRecord>
        ensures { result ≡ numbered number self.now }
    {
        if self.total <= number || 64 < self.total - number {
            return None;
        }
        let age = (self.total - number) as usize;
        Some(self.rows[place_back(self.next, age)])
    }

    /// One record more. It takes the place of the oldest once 64 are held.
    pub fn push(&mut self, r: StealRecord)
        ensures { self.new ≡ pushed self.old r }
    {
        let place = self.next;
        self.rows[place] = r;
        self.total = self.total.saturating_add(1);
        self.next = (place + 1) % 64;
    }

    /// Marks the record of that number cut, if it is still held.
    pub fn mark_cut(&mut self, number: u64)
        ensures { self.new ≡ marked self.old number }
    {
        if number < self.total && self.total - number <= 64 {
            let place = place_back(self.next, (self.total - number) as usize);
            self.rows[place].cut = true;
        }
    }
}
