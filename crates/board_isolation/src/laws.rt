ghost use Rattle.board_isolation.specs.Isolated.{BoardIsolated};

/// Isolation of two boards whose consoles were made alike but for their keyboards: sealings are calls of every bus.
pub fn board_isolated()
    ensures { BoardIsolated }
{}
