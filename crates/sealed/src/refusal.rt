ghost use Rattle.std.specs.Prelude.{◌≡◌};
ghost use Rattle.sealed.specs.Refusal.{number_of};

// Why a board is not sealed, or a call not made on a sealed board.
#[derive(Clone, Copy)]
pub enum SealRefusal {
    NotAccepted = 27,
    Closed = 28,
}

// The number of such a refusal: what a host in C and a recorded script hold. A cast for each sort of refusal: a trait over all sorts has
// these for its bodies (c_answer, transcript).
pub fn seal_refusal_number(r: SealRefusal) -> u8
    ensures { result ≡ number_of r }
{
    r as u8
}
