ghost use Rattle.std.specs.Prelude.{◌≡◌};
ghost use Rattle.voice.specs.Steals.{record_of, record_level};

// One steal: the clock at it, the victim's level if it was known, and whether the victim was cut instead of faded. `level`
// says nothing unless `known`; it is no option, since the scope asks by name for a record with an f32 level beside its flags.
#[derive(Clone, Copy)]
pub struct StealRecord {
    pub sample: u64,
    pub level: f32,
    pub known: bool,
    pub cut: bool,
}

// The steals: how many there were, and the newest 64 of them in a ring, so that it is no `Table`. The next one goes to `next`, modulo 64.
#[derive(Clone, Copy)]
pub struct Steals {
    pub rows: [StealRecord; 64],
    pub total: u64,
    pub next: usize,
}

/// The record of a steal at the clock `sample`. Where no level is known, the float is 0.
pub fn steal_record(sample: u64, level: Option<f32>, cut: bool) -> StealRecord
    ensures { result ≡ record_of sample level cut }
{
    StealRecord {
        sample,
        level: level.unwrap_or(0.0),
        known: level.is_some(),
        cut,
    }
}

/// The victim's level, if it was known.
pub fn record_level(r: StealRecord) -> Option<f32>
    ensures { result ≡ record_level r }
{
    r.known.then_some(r.level)
}
