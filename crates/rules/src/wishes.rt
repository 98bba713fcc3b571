//! Wishes.

ghost use Rattle.store.specs.declared.wish.Wish.{Wish};
ghost use Rattle.model.specs.Wish.{call_of};
ghost use Rattle.rules.specs.WishScenes.{BoardScene, ConsoleScene};
ghost use Rattle.rules.specs.Wishes.{HoldsAll, Makes};

/// The call that a wish is for is the spawn that was asked for, with each of its arguments, whatever they are; and a
/// wish by its parts has each of them.
pub fn a_wish_is_for_the_very_spawn_that_was_asked()
    ensures makes { (w : Wish) → Makes w (call_of w) }
    ensures holds { HoldsAll }
{}

/// Wishes with ranks and pans that are not 0, served at a console and at a sealed board: the voices have them, and a
/// wish that is outranked is refused.
pub fn served_wishes_have_their_ranks_and_pans()
    ensures console { ConsoleScene }
    ensures board { BoardScene }
{}
