ghost use Rattle.std.specs.Prelude.{◌≡◌};
ghost use Rattle.console.specs.Refusal.{number_of};

// Why a console is not made, or a wish not taken, for its keyboards' sake.
#[derive(Clone, Copy)]
pub enum KeyboardRefusal {
    OutOfRange = 24,
    Full = 25,
}

// The number of such a refusal: what a host in C and a recorded script hold. A cast for each sort of refusal: a trait over all sorts has
// these for its bodies (c_answer, transcript).
pub fn keyboard_refusal_number(r: KeyboardRefusal) -> u8
    ensures { result ≡ number_of r }
{
    r as u8
}
