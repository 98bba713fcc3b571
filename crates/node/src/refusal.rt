ghost use Rattle.std.specs.Prelude.{◌≡◌};
ghost use Rattle.node.specs.Refusal.{number_of};

// Why a call was refused. One case for each number of the refusal table, in its order.
#[derive(Clone, Copy)]
pub enum Refusal {
    SampleRate = 1,
    BlockSize = 2,
    BudgetTooLarge = 3,
    UnknownNode = 4,
    VoiceNode = 5,
    PortOrKind = 6,
    TableFull = 7,
    IdsUsedUp = 8,
    DefinitionLimits = 9,
    BusWithoutPorts = 10,
    Rejected = 11,
    NoPort = 12,
    RequiredPort = 13,
    Cycle = 14,
    ClockEnd = 15,
    LentBlock = 16,
    ShortBuffer = 17,
    TableRate = 20,
    OutOfRange = 21,
    RankTooHigh = 26,
}

// The number of a refusal, as the table gives it: lent words and the library for C hold numbers.
pub fn refusal_number(r: Refusal) -> u8
    ensures { result ≡ number_of r }
{
    r as u8
}
