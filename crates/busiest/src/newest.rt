ghost use Rattle.std.specs.Prelude.{◌≡◌};
ghost use Rattle.voice.specs.Steals.{log_of};
ghost use Rattle.busiest.specs.Newest.{newest_of};
ghost use Rattle.busiest.specs.Stretch.{samples, said, busiest};

use crate::stretch::{Busiest, busiest_stretch};
use lists::rows::Table;
use std::array;
use voice::steals::{StealRecord, Steals};
use voice_policy::steals::{held_steals, lent_steal_at, steal_record};

// A run of records.
pub type Newest = Table<StealRecord, 64>;

// The newest records that the store holds, oldest first. By their places: they stand in a ring, and no slice holds them in this order.
pub fn newest_records(s: Steals) -> Newest
    ensures { result ≡ newest_of (log_of s).newest }
{
    let none = steal_record(0, None, false);
    Table {
        rows: array::from_fn(|i| lent_steal_at(&s, i).unwrap_or(none)),
        count: held_steals(s),
    }
}

// The busiest stretch of the newest records that the store holds.
pub fn busiest_steals(s: Steals, width: u64) -> Busiest
    ensures { said result ≡ busiest width (samples (log_of s).newest) }
{
    let run = newest_records(s);
    busiest_stretch(run.as_slice(), width)
}
