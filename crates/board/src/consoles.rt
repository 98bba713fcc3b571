//! A store with keyboards.

ghost use Rattle.std.specs.Prelude.{◌≡◌, length};
ghost use Rattle.node.specs.declared.order.LastOrder.TheVariants as last;
ghost use Rattle.model.specs.Call as call;
ghost use Rattle.model.specs.Wish.{call_of};
ghost use Rattle.console.specs.Wishes.{keyboards, waiting_at, picked};
ghost use Rattle.console.specs.Console.{on, make_console};
ghost use Rattle.console.specs.Console as console;
ghost use Rattle.engine.specs.Called.{answered, add_answered};
ghost use Rattle.board.specs.Queues.{picked_at};
ghost use Rattle.board.specs.Called.{ConsoleCalled, wish_answered, turn_answered};
ghost use Rattle.board.specs.Made.{held, made_of};
ghost use Rattle.board.specs.Reached.{ConsoleClaimed};

use crate::keyboards::Keyboards;
use crate::making::{MakeRefusal, is_in_range};
use crate::serving::{Served, turn};
use console::refusal::KeyboardRefusal;
use engine::reach::Store;
use engine::render::Rendering;
use graph::host::HostNode;
use node::order::{EventAction, Glide};
use node::record::{NodeId, VoiceId};
use node::refusal::Refusal;
use std::marker::Model;
use store::answer::Outcome;
use store::config::Making;
use store::wish::Wish;

/// A store, and the wishes of 1 to 8 keyboards that wait for it, 16 at most at each. There is memory for the wishes of
/// KEYBOARDS keyboards, about 15 KB for each. Every console is one that a list of these calls left, from one that an
/// accepted making gave.
#[derive(Drop)]
pub struct Console<const KEYBOARDS: usize> {
    store: Store,
    keyboards: Keyboards<KEYBOARDS>,
}

impl<const KEYBOARDS: usize> Model for Console<KEYBOARDS> {
    ghost use Rattle.console.specs.Console.{Console};
    ghost use Rattle.board.specs.Called.{console_of};
    ghost use Rattle.board.specs.Reached.{ConsoleReached};

    ghost Value = { Console };

    ghost view = { λ c. console_of c.store c.keyboards };

    ghost invariant = { λ c. ConsoleReached (console_of c.store c.keyboards) };
}

impl<const KEYBOARDS: usize> Console<KEYBOARDS> {
    /// A new console of so many keyboards, at which nothing waits (SPEC 17). Refused as a store is, and then with 24
    /// where there are not from 1 to 8 of them, or more than there is memory for.
    pub fn make(making: Making, keyboards: usize) -> Result<Console<KEYBOARDS>, MakeRefusal>
        ensures { made_of result ≡ make_console making (held KEYBOARDS keyboards) }
    {
        let store = Store::make(making)?;
        if !is_in_range(KEYBOARDS, keyboards) {
            return Err(MakeRefusal::Keyboards(KeyboardRefusal::OutOfRange));
        }
        Ok(Console {
            store,
            keyboards: Keyboards::new(keyboards),
        })
    }

    /// What a list of calls left has the properties that are claimed of it (SPEC 21.5): each keyboard's wishes are
    /// served in their order, and in time whatever the others send. Nothing is done when it runs.
    pub fn claim(&self)
        ensures { ConsoleClaimed self.now }
    {
        let _store = &self.store;
    }

    /// The store, to ask it what it holds (SPEC 14).
    pub fn store(&self) -> &Store
        ensures { result.now ≡ self.now.model }
    {
        &self.store
    }

    /// How many keyboards there are.
    pub fn keyboards(&self) -> usize
        ensures { result ≡ keyboards self.now.wishes }
    {
        self.keyboards.count()
    }

    /// The wishes that wait at a keyboard, the oldest first: none where there is no such keyboard.
    pub fn waiting(&self, keyboard: usize) -> &[Wish]
        ensures { result.now ≡ waiting_at keyboard self.now.wishes }
    {
        self.keyboards.waiting(keyboard)
    }

    /// The keyboard whose oldest wish the next turn serves.
    pub fn next_keyboard(&self) -> Option<usize>
        ensures { picked self.now.wishes ≡ picked_at result self.now.wishes }
    {
        self.keyboards.next()
    }

    /// The wish of a keyboard, which waits for its turn (SPEC 17). Nothing of the spawn that it is for is tested.
    /// Refused with 24 where there is no such keyboard, and then with 25 where 16 wait there.
    pub fn wish(&mut self, keyboard: usize, wish: &Wish) -> Result<(), KeyboardRefusal>
        ensures { ConsoleCalled (console.wish keyboard wish.now) self.old (wish_answered result) self.new }
    {
        self.keyboards.add(keyboard, wish)
    }

    /// See `Tables::add_node`.
    pub fn add_node(&mut self, kind: &[u8], node: HostNode) -> Result<NodeId, Refusal>
        ensures { ConsoleCalled (on (call.add_node kind.now node.ports node.required node.takes_values node.takes_glides))
            self.old (console.plain (add_answered result)) self.new }
    {
        self.store.add_node(kind, node)
    }

    /// See `Tables::remove_node`.
    pub fn remove_node(&mut self, node: NodeId) -> Result<(), Refusal>
        ensures { ConsoleCalled (on (call.remove_node node)) self.old (console.plain (answered result)) self.new }
    {
        self.store.remove_node(node)
    }

    /// See `Tables::connect`.
    pub fn connect(&mut self, from: NodeId, to: NodeId, port: u32) -> Result<(), Refusal>
        ensures { ConsoleCalled (on (call.connect from to port)) self.old (console.plain (answered result)) self.new }
    {
        self.store.connect(from, to, port)
    }

    /// See `Tables::disconnect`.
    pub fn disconnect(&mut self, to: NodeId, port: u32) -> Result<(), Refusal>
        ensures { ConsoleCalled (on (call.disconnect to port)) self.old (console.plain (answered result)) self.new }
    {
        self.store.disconnect(to, port)
    }

    /// See `Tables::set_sink`.
    pub fn set_sink(&mut self, node: NodeId) -> Result<(), Refusal>
        ensures { ConsoleCalled (on (call.set_sink node)) self.old (console.plain (answered result)) self.new }
    {
        self.store.set_sink(node)
    }

    /// See `Tables::schedule`.
    pub fn schedule(
        &mut self,
        time: u64,
        voice: VoiceId,
        name: &[u8],
        action: EventAction,
    ) -> Result<(), Refusal>
        ensures { ConsoleCalled (on (call.schedule time voice name.now action))
            self.old (console.plain (answered result)) self.new }
    {
        self.store.schedule(time, voice, name, action)
    }

    /// See `Tables::prepare`.
    pub fn prepare(&mut self) -> Result<(), Refusal>
        ensures { ConsoleCalled (on (call.prepare)) self.old (console.plain (answered result)) self.new }
    {
        self.store.prepare()
    }

    /// See `Tables::set_voice_param`.
    pub fn set_voice_param(&mut self, voice: VoiceId, name: &[u8], value: f32) -> Outcome
        ensures { ConsoleCalled (on (call.order voice name.now (last.Value value)))
            self.old (console.plain (call.ordered result)) self.new }
    {
        self.store.set_voice_param(voice, name, value)
    }

    /// See `Tables::set_voice_param_glide`.
    pub fn set_voice_param_glide(&mut self, voice: VoiceId, name: &[u8], glide: Glide) -> Outcome
        ensures { ConsoleCalled (on (call.order voice name.now (last.Glide glide)))
            self.old (console.plain (call.ordered result)) self.new }
    {
        self.store.set_voice_param_glide(voice, name, glide)
    }

    /// See `Tables::report`.
    pub fn report(
        &mut self,
        node: NodeId,
        channels: usize,
        samples: &[f32],
        done: bool,
    ) -> Result<(), Refusal>
        ensures { ConsoleCalled (on (call.report node channels samples.now done))
            self.old (console.plain (answered result)) self.new }
    {
        self.store.report(node, channels, samples, done)
    }

    /// See `Tables::free_voice`.
    pub fn free_voice(&mut self, voice: VoiceId) -> Outcome
        ensures { ConsoleCalled (on (call.free voice)) self.old (console.plain (call.ordered result)) self.new }
    {
        self.store.free_voice(voice)
    }

    /// See `Tables::free_done_synths`.
    pub fn free_done_synths(&mut self) -> usize
        ensures { ConsoleCalled (on (call.clear)) self.old (console.plain (call.removed result)) self.new }
    {
        self.store.free_done_synths()
    }

    /// See `Tables::render`.
    pub fn render(&mut self, out: &mut [u8]) -> Rendering
        ensures { ConsoleCalled (on (call.render out.old))
            self.old (console.plain (call.rendered result.answer result.taken out.new)) self.new }
    {
        self.store.render(out)
    }

    /// The spawn that is asked for: see `Tables::spawn_voice`.
    pub fn spawn_voice(&mut self, wish: &Wish) -> Result<VoiceId, Refusal>
        ensures { ConsoleCalled (on (call_of wish.now)) self.old (console.plain (call.spawned result)) self.new }
    {
        self.store.spawn_voice(wish)
    }

    /// A turn (SPEC 17): the oldest wish of the next keyboard, going round, that has one is served, and the keyboard
    /// and the spawn's answer come back. None where no wish waits, and then nothing changes.
    pub fn turn(&mut self) -> Option<Served>
        ensures { ConsoleCalled console.turn self.old (turn_answered result) self.new }
    {
        turn(&mut self.store, &mut self.keyboards)
    }
}
