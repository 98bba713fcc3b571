// Runs the busiest stretch on runs of 0, 1, 64 and 4,096 records and on the store's ring, and compares each answer with a count over
// every stretch, from sample 0 to the last.
#![tactic(auto)]

mod count;
mod runs;
mod show;

use busiest::newest::busiest_steals;
use busiest::stretch::busiest_stretch;
use codec::output::{Output, flush, output_room};
use count::count_all;
use runs::{records, ring, rising};
use show::compare;

fn run_of(out: &mut Output, xs: &[u64], width: u64) {
    let found = busiest_stretch(records(xs).as_slice(), width);
    compare(out, xs.len(), width, found, count_all(xs, width));
}

fn widths(out: &mut Output, xs: &[u64]) {
    for width in [0, 1, 2, 37, 1000, u64::MAX] {
        run_of(out, xs, width);
    }
}

// The store's ring after a steal at each of the samples: it holds the newest 64.
fn ring_of(out: &mut Output, xs: &[u64], width: u64) {
    let newest = &xs[xs.len().saturating_sub(64)..];
    let found = busiest_steals(ring(xs), width);
    compare(out, newest.len(), width, found, count_all(newest, width));
}

fn main() {
    let mut room = output_room();
    let out = &mut room;
    for (seed, n) in [(1, 0), (2, 1), (3, 64), (4, 4096), (5, 3000)] {
        widths(out, rising(seed, n).as_slice());
    }
    // The last sample falls.
    let mut few = rising(6, 63);
    few.push(0);
    run_of(out, few.as_slice(), 0);
    run_of(out, few.as_slice(), 37);
    let mut many = rising(7, 4095);
    many.push(0);
    run_of(out, many.as_slice(), 37);
    for n in [0, 40, 64, 1000] {
        ring_of(out, rising(8, n).as_slice(), 37);
    }
    flush(out);
}
