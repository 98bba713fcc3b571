//! Reading (SPEC 14): every row that is asked for, and the page.

ghost use Rattle.std.specs.Prelude.{ℕ};
ghost use Rattle.model.specs.Model.{Model};
ghost use Rattle.voice.specs.Steals.{StealLog};
ghost use Rattle.voice.specs.declared.steals.StealRecord.{StealRecord};
ghost use Rattle.rules.specs.Reading.{Questions, LogLaw, MarkLaw, PageLaw};

/// Each question gives every row that it asks for, and changes nothing.
pub fn questions()
    ensures { (m : Model) → Questions m }
{}

/// A steal's record comes behind the others, of which the newest 64 stay; one that is still held can be marked cut.
pub fn steal_log()
    ensures pushed { (b : StealLog) (r : StealRecord) → LogLaw b r }
    ensures marked { (b : StealLog) (k : ℕ) → MarkLaw b k }
{}

/// The page has a header and a line for each voice in order, each number in decimal.
pub fn page()
    ensures { (m : Model) → PageLaw m }
{}
