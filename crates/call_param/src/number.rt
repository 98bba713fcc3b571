// The number of an outcome, as a host in C reads it and as a render lists it.
ghost use Rattle.std.specs.Prelude.{◌≡◌};
ghost use Rattle.model.specs.Order.{outcome_number};

use store::answer::Outcome;

// 0 applied, or the first that is true of 1 no such voice, 2 no such parameter, 3 node takes none of that sort.
pub fn outcome_number(o: Outcome) -> u8
    ensures { result ≡ outcome_number o }
{
    o as u8
}
