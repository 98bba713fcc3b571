ghost use Rattle.console_isolation.specs.Isolated.{ConsoleIsolated};

/// Isolation of two consoles that were made alike but for their keyboards.
pub fn console_isolated()
    ensures { ConsoleIsolated }
{}
