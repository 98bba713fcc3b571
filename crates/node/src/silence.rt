ghost use Rattle.std.specs.Prelude.{◌≡◌, map};
ghost use Rattle.node.specs.Name.{name_of};
ghost use Rattle.node.specs.Silence.{silence_of, rule_in};

use crate::name::{Name, name_of, same_name};

/// How the silence of a node follows from its sources, by the name of its kind.
#[derive(Clone, Copy)]
pub enum SilenceRule {
    /// its done flag alone
    Own,
    /// some connected source is silent
    AnyPort,
    /// the source of port 0 is silent
    FirstPort,
    /// every port is connected, there is at least one, and all sources are silent
    EveryPort,
    /// the source of the port of that name is silent; a case for each of the three, since a rule that holds a name would
    /// be compared by its bytes
    LevelPort,
    AmpPort,
    InPort,
}

// The kinds that have a rule, by the bytes of their names.
const SILENCE_RULES: [(&[u8], SilenceRule); 34] = [
    (b"Mul", SilenceRule::AnyPort),
    (b"Div", SilenceRule::FirstPort),
    (b"Add", SilenceRule::EveryPort),
    (b"Sub", SilenceRule::EveryPort),
    (b"FmOp", SilenceRule::LevelPort),
    (b"Paf", SilenceRule::AmpPort),
    (b"Neg", SilenceRule::InPort),
    // these pass the silence of their port `in` on
    (b"OnePole", SilenceRule::InPort),
    (b"BiquadLPF", SilenceRule::InPort),
    (b"BiquadHPF", SilenceRule::InPort),
    (b"BiquadBPF", SilenceRule::InPort),
    (b"BiquadNotch", SilenceRule::InPort),
    (b"AllpassFilter", SilenceRule::InPort),
    (b"BiquadPeaking", SilenceRule::InPort),
    (b"BiquadLowShelf", SilenceRule::InPort),
    (b"BiquadHighShelf", SilenceRule::InPort),
    (b"ParametricEq3", SilenceRule::InPort),
    (b"Compressor", SilenceRule::InPort),
    (b"Limiter", SilenceRule::InPort),
    (b"Bitcrusher", SilenceRule::InPort),
    (b"SoftClip", SilenceRule::InPort),
    (b"Overdrive", SilenceRule::InPort),
    (b"WaveFolder", SilenceRule::InPort),
    (b"FreqShift", SilenceRule::InPort),
    (b"Chorus", SilenceRule::InPort),
    (b"Flanger", SilenceRule::InPort),
    (b"Phaser", SilenceRule::InPort),
    (b"WowFlutter", SilenceRule::InPort),
    (b"Steepen", SilenceRule::InPort),
    (b"StereoWidth", SilenceRule::InPort),
    (b"Pan2", SilenceRule::InPort),
    (b"Mix", SilenceRule::InPort),
    (b"Clip", SilenceRule::InPort),
    (b"Lag", SilenceRule::InPort),
];

// The rule of a kind in the first row of its name, in a table of any length; other kinds have none.
fn rule_in(rows: &[(&[u8], SilenceRule)], kind: Name) -> SilenceRule
    ensures { result ≡ rule_in (map (λ r. record { name = name_of r.0.now; rule = r.1 }) rows.now) kind }
{
    rows.iter()
        .find(|r| same_name(kind, name_of(r.0)))
        .map_or(SilenceRule::Own, |r| r.1)
}

/// The silence rule of a kind.
pub fn silence_rule(kind: Name) -> SilenceRule
    ensures { result ≡ silence_of kind }
{
    rule_in(&SILENCE_RULES, kind)
}
