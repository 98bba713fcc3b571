//! A turn.
ghost use Rattle.std.specs.Prelude.{◌≡◌};
ghost use Rattle.console.specs.Console.{turn};
ghost use Rattle.board.specs.Called.{ConsoleCalled, console_of, turn_answered};

use crate::keyboards::Keyboards;
use engine::reach::Store;
use node::record::VoiceId;
use node::refusal::Refusal;

/// What a turn served: the keyboard, and what the spawn of its oldest wish answered.
#[derive(Clone, Copy)]
pub struct Served {
    pub keyboard: usize,
    pub answer: Result<VoiceId, Refusal>,
}

/// The oldest wish of the next keyboard, going round, that has one is served, if a wish waits. A spawn that the store
/// refuses is served too.
pub(crate) fn turn<const KEYBOARDS: usize>(
    store: &mut Store,
    keyboards: &mut Keyboards<KEYBOARDS>,
) -> Option<Served>
    ensures { ConsoleCalled turn (console_of store.old keyboards.old) (turn_answered result) (console_of store.new keyboards.new) }
{
    let Some(keyboard) = keyboards.next() else {
        return None;
    };
    let answer = store.spawn_voice(&keyboards.waiting(keyboard)[0]);
    keyboards.take(keyboard);
    Some(Served { keyboard, answer })
}
