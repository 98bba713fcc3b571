ghost use Rattle.model.specs.Call.{schedule};
ghost use Rattle.memory.specs.View.{Memory};
ghost use Rattle.memory.specs.Lent.{lent_events};
ghost use Rattle.memory.specs.Called.{Called, Kept, answered};

use event_table::row::EventTable;
use memory::parts::with_events;
use memory::state::{CallResult, State, refuse};
use node::name::name_of;
use node::order::EventAction;
use node::record::VoiceId;
use node::refusal::Refusal;
use scheduler::event::Event;

// An action for the voice `voice` at the sample `time`; a value or a glide is for the parameter `name`. A name that is not
// 1 to 16 bytes is held, and matches no parameter. A `match` and no `?`, since the state goes with every answer.
// The same `match` as in `prepare`: a function for both would take `with_order` or `with_events` as a closure.
pub fn schedule(
    s: State,
    events: &mut EventTable,
    time: u64,
    voice: VoiceId,
    name: &[u8],
    action: EventAction,
) -> CallResult<Result<(), Refusal>>
    ensures is { (m : Memory) → Called (schedule time voice name.now action) (lent_events s events.old m) (answered result.answer) (lent_events result.state events.new m) }
    ensures same { (m : Memory) → Kept (answered result.answer) (lent_events s events.old m) (lent_events result.state events.new m) }
{
    let event = Event {
        time,
        voice,
        name: name_of(name),
        action,
    };
    match event_table::queue::schedule(events, s.events, event) {
        Err(why) => refuse(s, why),
        Ok(count) => CallResult {
            state: with_events(s, count),
            answer: Ok(()),
        },
    }
}
