ghost use Rattle.std.specs.Prelude.{◌≡◌, List, ℕ};
ghost use Rattle.model.specs.Make.{Making};
ghost use Rattle.console.specs.Console.{Console, ConsoleCall, made, make_console};
ghost use Rattle.console.specs.Claim.{ConsoleClaim};
ghost use Rattle.console.specs.Rounds.{MakesConsole};

/// After every list of calls on a newly made console: whose turn is next, what a wish is answered, and that each wish is served in its order and in time.
pub fn console_claim()
    ensures { (k : Making) (m : ℕ) (c : Console) → make_console k m ≡ made c → (xs : List ConsoleCall) → ConsoleClaim k m c xs }
{}

/// A console is refused by 1, 2, 3, 20 of its store and then by 24, and else is new.
pub fn making_is_refused()
    ensures { (k : Making) (n : ℕ) → MakesConsole k n }
{}
