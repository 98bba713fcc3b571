// What can be asked of a node: values and glides, and by an event its gate or its end.

// How a glide's way to its target runs over its time.
#[derive(Clone, Copy)]
pub enum GlideShape {
    Hold,
    Linear,
    Sine,
    Exponential(f32),
}

// What a glide moves evenly in: the parameter's own unit, or pitch.
#[derive(Clone, Copy)]
pub enum GlideSpace {
    Raw,
    Pitch,
}

// A glide to `target` within `seconds`.
#[derive(Clone, Copy)]
pub struct Glide {
    pub target: f32,
    pub seconds: f32,
    pub shape: GlideShape,
    pub space: GlideSpace,
}

// The newest order that a node took. `Nothing` is a case and no `Option`: the words of a node have one number for each of the three.
#[derive(Clone, Copy, Default)]
pub enum LastOrder {
    #[default]
    Nothing,
    Value(f32),
    Glide(Glide),
}

// What an event does to its voice. The name of its parameter stands beside it, in the event. It has two cases of `LastOrder`, and does not hold
// one: an event with no order would be a fifth case, which nobody schedules.
#[derive(Clone, Copy, Default)]
pub enum EventAction {
    Value(f32),
    Glide(Glide),
    Gate(f32),
    #[default]
    Free,
}
