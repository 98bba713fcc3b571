// Runs of samples to count in.
use lists::rows::Table;
use voice::steals::{StealRecord, Steals};
use voice_policy::steals::{no_steals, push_steal, steal_record};

// The next number of a sequence that looks random.
fn next(x: u64) -> u64 {
    (x % 2147483648 * 1103515245 + 12345) % 2147483648
}

// The distance to the next record: often none or one, at times more.
fn gap(x: u64) -> u64 {
    let k = x / 65536 % 16;
    match k {
        0..=9 => k / 6,
        10..=14 => k - 9,
        _ => x / 65536 / 16 % 32,
    }
}

// The first `n` samples that never fall, from the seed on, and 4,096 at most.
pub fn rising(seed: u64, n: usize) -> Table<u64, 4096> {
    let mut xs = Table::empty(0);
    let mut x = next(seed);
    let mut at = seed % 1000;
    for _ in 0..n {
        xs.push(at);
        x = next(x);
        at = at.saturating_add(gap(x));
    }
    xs
}

// A record for each sample, of which there are 4,096 at most.
pub fn records(samples: &[u64]) -> Table<StealRecord, 4096> {
    let mut rows = Table::empty(steal_record(0, None, false));
    for at in samples {
        rows.push(steal_record(*at, None, false));
    }
    rows
}

// The ring after a steal at each of the samples.
pub fn ring(samples: &[u64]) -> Steals {
    let mut s = no_steals();
    for at in samples {
        s = push_steal(s, steal_record(*at, None, false));
    }
    s
}
