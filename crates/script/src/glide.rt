// Glides and actions, by the numbers of a script, which docs/REPLAY.md fixes. The library for C has such functions of its own: what plays
// the scripts is kept apart from the library that it is compared with. The enums are those of another crate, so that these are functions and no
// `From`.
ghost use Rattle.std.specs.Prelude.{◌≡◌};
ghost use Rattle.script.specs.Glide.{float_at, shape_of, space_of, glide_at, action_of};

use codec::field::{after, byte_at, float, word_at};
use node::order::{EventAction, Glide, GlideShape, GlideSpace};

fn float_at(s: &[u8], at: usize) -> f32
    ensures { result ≡ float_at s.now at }
{
    float(word_at(s, at))
}

// The shape of a number, with the curve of an exponential one.
fn shape_of(n: u8, curve: f32) -> GlideShape
    ensures { result ≡ shape_of n curve }
{
    match n {
        0 => GlideShape::Hold,
        1 => GlideShape::Linear,
        2 => GlideShape::Sine,
        _ => GlideShape::Exponential(curve),
    }
}

fn space_of(n: u8) -> GlideSpace
    ensures { result ≡ space_of n }
{
    match n {
        0 => GlideSpace::Raw,
        _ => GlideSpace::Pitch,
    }
}

pub fn glide_at(s: &[u8], at: usize) -> Glide
    ensures { result ≡ glide_at s.now at }
{
    Glide {
        target: float_at(s, at),
        seconds: float_at(s, after(at, 4)),
        shape: shape_of(byte_at(s, after(at, 8)), float_at(s, after(at, 9))),
        space: space_of(byte_at(s, after(at, 13))),
    }
}

// The action of a number. A value and a gate take their float from the glide's target.
pub fn action_of(n: u8, glide: Glide) -> EventAction
    ensures { result ≡ action_of n glide }
{
    match n {
        0 => EventAction::Value(glide.target),
        1 => EventAction::Glide(glide),
        2 => EventAction::Gate(glide.target),
        _ => EventAction::Free,
    }
}
