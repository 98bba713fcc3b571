//! Silence (SPEC 7): the rule of each kind, and what a done plan answers.

ghost use Rattle.rules.specs.Silence.{TheTable, PlanLaw, SpawnedPlan};

/// A kind has a rule exactly where the table of the 34 kinds has it (SPEC 7.1, 7.2).
pub fn silence_table()
    ensures { TheTable }
{}

/// A voice is silent exactly where the rule says it of its definition's output, whatever else its record holds (SPEC 7.3).
pub fn done_plan()
    ensures plan { PlanLaw }
    ensures spawned { SpawnedPlan }
{}
