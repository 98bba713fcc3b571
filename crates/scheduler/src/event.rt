ghost use Rattle.std.specs.Prelude.{◌≡◌};
ghost use Rattle.scheduler.specs.Event.{gate_name, param_order, order_of};

use node::name::{Name, name_of};
use node::order::{EventAction, LastOrder};
use node::record::VoiceId;

// An action at a sample time. A value and a glide are for the parameter `name`; a gate and a free do not look at it, and hold it all the same: a
// call from C gives one with every action. A name that is not 1 to 16 bytes is held, and matches no parameter.
#[derive(Clone, Copy, Default)]
pub struct Event {
    pub time: u64,
    pub voice: VoiceId,
    pub name: Name,
    pub action: EventAction,
}

// What an event orders: `order` for the parameter `name`. `Nothing` is no order: the event is a free. It is no
// Option, since the model and the words of a node have `Nothing` as one of the three cases of a last order.
#[derive(Clone, Copy)]
pub struct ParamOrder {
    pub name: Name,
    pub order: LastOrder,
}

// The name `gate`.
pub fn gate_name() -> Name
    ensures { result ≡ gate_name }
{
    name_of(b"gate")
}

// The order that an event gives, and the parameter that it is for.
pub fn param_order(e: Event) -> ParamOrder
    ensures { result ≡ param_order e }
{
    let name = e.name;
    match e.action {
        EventAction::Value(x) => ParamOrder {
            name,
            order: LastOrder::Value(x),
        },
        EventAction::Glide(glide) => ParamOrder {
            name,
            order: LastOrder::Glide(glide),
        },
        EventAction::Gate(x) => ParamOrder {
            name: gate_name(),
            order: LastOrder::Value(x),
        },
        EventAction::Free => ParamOrder {
            name,
            order: LastOrder::Nothing,
        },
    }
}
