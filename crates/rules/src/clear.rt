//! Clearing (SPEC 13.2): which voices go.

ghost use Rattle.model.specs.Model.{Model};
ghost use Rattle.rules.specs.Clear.{ClearLaw};

/// Clearing removes the voices whose fade has ended, then those that are silent, and no other.
pub fn clearing()
    ensures { (m : Model) → ClearLaw m }
{}
