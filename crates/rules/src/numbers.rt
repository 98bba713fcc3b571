//! Every number of the rules (SPEC 2), at its limits and one past them.

ghost use Rattle.std.specs.Prelude.{ℕ};
ghost use Rattle.rules.specs.Numbers.{Holds, making_rows, host_rows, definition_rows, spawn_rows, block_rows, time_rows, FadeLength};

/// What a call with the number in it is refused by, row by row, each row computed at its limits.
pub fn limits()
    ensures making { Holds making_rows }
    ensures host { Holds host_rows }
    ensures definition { Holds definition_rows }
    ensures spawn { Holds spawn_rows }
    ensures block { Holds block_rows }
    ensures time { Holds time_rows }
{}

/// A fade's length follows the sample rate.
pub fn fade_length()
    ensures { (rate : ℕ) → FadeLength rate }
{}
