ghost use Rattle.board_refinement.specs.Forms.{EveryCall};

/// Every call of a board is one that no seal closes, or has a form that is lent the seal.
pub fn every_call()
    ensures { EveryCall }
{}
