//! Rendering.

ghost use Rattle.std.specs.Prelude.{ℕ, List};
ghost use Rattle.model.specs.Model.{Model};
ghost use Rattle.rules.specs.Render.{RenderRule};

/// On every store a render is refused with 15 exactly when the clock plus a block is above 2^64 - 1 samples, with 17
/// exactly when it is not and the lent list has fewer than 256 entries, and else not; it then moves the clock by a
/// block, and a refused one changes nothing.
pub fn render_is_refused_for_the_clock_then_for_a_short_list()
    ensures { (out : List ℕ) (m : Model) → RenderRule out m }
{}
