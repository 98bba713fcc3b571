//! Pan (SPEC 9.8), levels and reports (SPEC 11).

ghost use Rattle.std.specs.Prelude.{ℕ, List, Bool, Float, Option};
ghost use Rattle.node.specs.declared.record.NodeId.{NodeId};
ghost use Rattle.voice.specs.declared.voices.Voice.{Voice};
ghost use Rattle.voice.specs.declared.voices.VoiceState.{VoiceState};
ghost use Rattle.model.specs.SharedState.{SharedState};
ghost use Rattle.model.specs.Spawn.{Spawn};
ghost use Rattle.model.specs.Model.{Model};
ghost use Rattle.rules.specs.Sound.{PanLaw, PanWires, LevelLaw, VoiceLevel, LevelAsked, RecordLaw, ReportLaw};

/// A voice is panned exactly where its pan does not equal 0, and has the pan's two nodes then.
pub fn pan()
    ensures nodes { (x : Spawn) (s : VoiceState) (p : ℕ) (d : SharedState) → PanLaw x s p d }
    ensures wires { (x : Spawn) → PanWires x }
{}

/// A block's level is the root of the mean of its exact squares.
pub fn level()
    ensures { LevelLaw }
{}

/// A voice's level is its output's, and the record of a steal holds it.
pub fn voice_level()
    ensures level { (d : SharedState) (v : Voice) → VoiceLevel d v }
    ensures asked { LevelAsked }
    ensures recorded { (clock : ℕ) (o : Option Float) (cut : Bool) → RecordLaw clock o cut }
{}

/// A report of a host node, or of a definition's node of a live voice, is stored; every other is refused.
pub fn report()
    ensures { (m : Model) (k : NodeId) (channels : ℕ) (samples : List Float) (done : Bool)
        → ReportLaw m k channels samples done }
{}
