//! Policies (SPEC 9.3, 9.4): who gives way to a new voice, and what a new voice meets.

ghost use Rattle.std.specs.Prelude.{ℕ, List, Option};
ghost use Rattle.voice.specs.declared.policy.Candidate.{Candidate};
ghost use Rattle.voice.specs.declared.policy.StealPolicy.{StealPolicy};
ghost use Rattle.node.specs.declared.record.NodeId.{NodeId};
ghost use Rattle.model.specs.Model.{Model};
ghost use Rattle.rules.specs.Policy.{VictimLaw, AdmissionLaw, AdmissionOn};

/// Of the candidates of the lowest rank, which is not above the newcomer's, the policy's goes: nobody, the first, the
/// last, or the quietest.
pub fn victim()
    ensures { (r : ℕ) (l : List Candidate) → VictimLaw r l }
{}

/// A new voice is admitted below the budget; at it the victim goes, and where nobody does it is rejected. The tracked
/// voices count, all of them or those of its bus.
pub fn admission()
    ensures met { (b : Option ℕ) (p : StealPolicy) (r : ℕ) (l : List Candidate) → AdmissionLaw b p r l }
    ensures counted { (m : Model) (bus : NodeId) (r : ℕ) → AdmissionOn m bus r }
{}
