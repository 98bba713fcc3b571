//! The busiest stretch of the newest steals.

ghost use Rattle.std.specs.Prelude.{◌≡◌};
ghost use Rattle.busiest.specs.Newest.{newest_of};
ghost use Rattle.busiest.specs.Stretch.{said, samples, busiest};

use crate::Tables;
use busiest::newest::Newest;
use busiest::stretch::{Busiest, busiest_stretch};
use std::array;
use voice::steal_ring::Steals;
use voice::steals::steal_record;

// The records that are held, oldest first.
fn newest(steals: &Steals) -> Newest
    ensures { result ≡ newest_of steals.now.newest }
{
    let none = steal_record(0, None, false);
    Newest {
        rows: array::from_fn(|i| steals.get(i).unwrap_or(none)),
        count: steals.len(),
    }
}

impl Tables {
    /// How many of the newest 64 steals lie inside any stretch of `width` samples, at most, and the sample of the first
    /// of them in the earliest such stretch (SPEC 19). Refused with 22 if `width` is 0.
    pub fn busiest_stretch(&self, width: u64) -> Busiest
        ensures { said result ≡ busiest width (samples self.now.shared.steals.newest) }
    {
        busiest_stretch(newest(&self.steals).as_slice(), width)
    }
}
