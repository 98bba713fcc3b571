// Enums, a glide, and what making is asked for, that a host in C gives as numbers. Functions and no `From`: the enums are those of crate node,
// where alone an impl could stand, and the numbers are those of the C interface.
// Arguments stay single numbers for C, here and in the exports: a tag picks a case, and `limited` stands before the budget of which it tells.
ghost use Rattle.std.specs.Prelude.{◌≡◌};
ghost use Rattle.state_words.specs.State.{budget_in};
ghost use Rattle.c_answer.specs.Argument.{shape_in, space_in, glide_in, action_in, making_in};

use node::order::{EventAction, Glide, GlideShape, GlideSpace};
use state_words::{budget_in, policy_in, scope_in};
use store::config::Making;

// Crate script has this match and those of `space_in` and `action_in` once more: what plays the scripts is kept apart from the library that it is
// compared with.
fn shape_in(tag: u32, curve: f32) -> GlideShape
    ensures { result ≡ shape_in tag curve }
{
    match tag {
        0 => GlideShape::Hold,
        1 => GlideShape::Linear,
        2 => GlideShape::Sine,
        _ => GlideShape::Exponential(curve),
    }
}

fn space_in(tag: u32) -> GlideSpace
    ensures { result ≡ space_in tag }
{
    match tag {
        0 => GlideSpace::Raw,
        _ => GlideSpace::Pitch,
    }
}

pub fn glide_in(target: f32, seconds: f32, shape: u32, curve: f32, space: u32) -> Glide
    ensures { result ≡ glide_in target seconds shape curve space }
{
    Glide {
        target,
        seconds,
        shape: shape_in(shape, curve),
        space: space_in(space),
    }
}

// The action of an event. A value and a gate are the glide's target.
pub fn action_in(tag: u32, glide: Glide) -> EventAction
    ensures { result ≡ action_in tag glide }
{
    match tag {
        0 => EventAction::Value(glide.target),
        1 => EventAction::Glide(glide),
        2 => EventAction::Gate(glide.target),
        _ => EventAction::Free,
    }
}

// The parameters are those of the two exports that make.
pub fn making_in(
    rate: f32,
    block: usize,
    limited: u32,
    budget: usize,
    policy: u32,
    scope: u32,
    table: u32,
) -> Making
    ensures { result ≡ making_in rate block (budget_in limited budget) policy scope table }
{
    Making {
        rate,
        block,
        budget: budget_in(limited, budget),
        policy: policy_in(policy),
        scope: scope_in(scope),
        table: table != 0,
    }
}
