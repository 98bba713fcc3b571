//! What may be sealed.

ghost use Rattle.std.specs.Prelude.{◌≡◌, length};
ghost use Rattle.node.specs.declared.order.LastOrder.TheVariants as last;
ghost use Rattle.model.specs.Call as call;
ghost use Rattle.model.specs.Wish.{call_of};
ghost use Rattle.console.specs.Wishes.{keyboards, waiting_at, picked};
ghost use Rattle.console.specs.Console as console;
ghost use Rattle.sealed.specs.Board.{on, seal, given};
ghost use Rattle.engine.specs.Called.{answered};
ghost use Rattle.board.specs.Queues.{picked_at};
ghost use Rattle.board.specs.Called.{BoardCalled, on_store, seal_answered, host_told, node_told, spawn_told, wish_told, turn_answered};
ghost use Rattle.board.specs.Closing.{shuts_spawn};
ghost use Rattle.board.specs.Made.{held, MakesAlone, MakesBoard};
ghost use Rattle.board.specs.Reached.{BoardClaimed};

use crate::closing::{BoardRefusal, opened, shuts_spawn};
use crate::keyboards::Keyboards;
use crate::making::{MakeRefusal, is_in_range};
use crate::sealable::accepts;
use crate::serving::{Served, turn};
use console::refusal::KeyboardRefusal;
use engine::reach::Store;
use engine::render::Rendering;
use graph::host::HostNode;
use node::order::{EventAction, Glide};
use node::record::{NodeId, VoiceId};
use node::refusal::Refusal;
use sealed::profile::{Profile, Seal};
use sealed::refusal::SealRefusal;
use std::marker::Model;
use store::answer::Outcome;
use store::config::Making;
use store::wish::Wish;

/// A store that may be sealed, with keyboards or without. There is memory for the wishes of KEYBOARDS keyboards, about
/// 15 KB for each: a `Board<0>` has none. No call reaches the store but these, and each that a seal may close tests the
/// seal first. Every board is one that a list of these calls left, from one that an accepted making gave.
#[derive(Drop)]
pub struct Board<const KEYBOARDS: usize> {
    store: Store,
    keyboards: Keyboards<KEYBOARDS>,
    seal: Seal,
}

impl<const KEYBOARDS: usize> Model for Board<KEYBOARDS> {
    ghost use Rattle.sealed.specs.Board.{Board};
    ghost use Rattle.board.specs.Called.{board_of};
    ghost use Rattle.board.specs.Reached.{BoardReached};

    ghost Value = { Board };

    ghost view = { λ b. board_of b.store b.keyboards b.seal };

    ghost invariant = { λ b. BoardReached (board_of b.store b.keyboards b.seal) };
}

impl<const KEYBOARDS: usize> Board<KEYBOARDS> {
    /// A new board without keyboards, unsealed (SPEC 18). Refused as a store is.
    pub fn make(making: Making) -> Result<Board<KEYBOARDS>, Refusal>
        ensures { MakesAlone making result }
    {
        let store = Store::make(making)?;
        Ok(Board {
            store,
            keyboards: Keyboards::new(0),
            seal: None,
        })
    }

    /// A new board of so many keyboards, unsealed. Refused as a store is, and then with 24 where there are not from 1
    /// to 8 of them, or more than there is memory for.
    pub fn make_with_keyboards(
        making: Making,
        keyboards: usize,
    ) -> Result<Board<KEYBOARDS>, MakeRefusal>
        ensures { MakesBoard making (held KEYBOARDS keyboards) result }
    {
        let store = Store::make(making)?;
        if !is_in_range(KEYBOARDS, keyboards) {
            return Err(MakeRefusal::Keyboards(KeyboardRefusal::OutOfRange));
        }
        Ok(Board {
            store,
            keyboards: Keyboards::new(keyboards),
            seal: None,
        })
    }

    /// What a list of calls left has the properties that are claimed of it (SPEC 21.6): once it is sealed no spawn
    /// meets 7, direct or by a turn, and the seal stays. Nothing is done when it runs.
    pub fn claim(&self)
        ensures { BoardClaimed self.now }
    {
        let _store = &self.store;
    }

    /// The store, to ask it what it holds (SPEC 14): no seal closes a question.
    pub fn store(&self) -> &Store
        ensures { result.now ≡ self.now.console.model }
    {
        &self.store
    }

    /// The seal: none yet, or the profile by which the board was sealed.
    pub fn profile(&self) -> Seal
        ensures { result ≡ self.now.seal }
    {
        self.seal
    }

    /// Whether the seal closes a spawn of so many nodes and edges on the bus, and a wish for it.
    pub fn closes_spawn(&self, managed: bool, bus: NodeId, nodes: usize, edges: usize) -> bool
        ensures { result ≡ shuts_spawn self.now.seal managed bus nodes edges }
    {
        shuts_spawn(&self.seal, managed, bus, nodes, edges)
    }

    /// How many keyboards there are.
    pub fn keyboards(&self) -> usize
        ensures { result ≡ keyboards self.now.console.wishes }
    {
        self.keyboards.count()
    }

    /// The wishes that wait at a keyboard, the oldest first: none where there is no such keyboard.
    pub fn waiting(&self, keyboard: usize) -> &[Wish]
        ensures { result.now ≡ waiting_at keyboard self.now.console.wishes }
    {
        self.keyboards.waiting(keyboard)
    }

    /// The keyboard whose oldest wish the next turn serves.
    pub fn next_keyboard(&self) -> Option<usize>
        ensures { picked self.now.console.wishes ≡ picked_at result self.now.console.wishes }
    {
        self.keyboards.next()
    }

    /// Seals the board by a profile (SPEC 18). Refused with 28 where it is sealed; and with 27 where the profile leaves
    /// no room in the tables, or does not state the store as it is, or a voice lives or a wish waits.
    pub fn seal(&mut self, profile: Profile) -> Result<(), SealRefusal>
        ensures { BoardCalled (seal profile) self.old (seal_answered result) self.new }
    {
        if self.seal.is_some() {
            return Err(SealRefusal::Closed);
        }
        if !accepts(&self.store, &profile) || !self.keyboards.none_waits() {
            return Err(SealRefusal::NotAccepted);
        }
        self.seal = Some(profile);
        Ok(())
    }

    /// `Console::wish`, unless the seal closes the spawn that it is for.
    pub fn wish(
        &mut self,
        keyboard: usize,
        wish: &Wish,
    ) -> Result<(), BoardRefusal<KeyboardRefusal>>
        ensures { BoardCalled (on (console.wish keyboard wish.now)) self.old (wish_told result) self.new }
    {
        if shuts_spawn(
            &self.seal,
            wish.managed,
            wish.bus,
            wish.def.nodes.count,
            wish.def.edges.count,
        ) {
            return Err(BoardRefusal::Closed);
        }
        opened(self.keyboards.add(keyboard, wish))
    }

    /// `Tables::add_node`, unless the board is sealed.
    pub fn add_node(&mut self, kind: &[u8], node: HostNode) -> Result<NodeId, BoardRefusal<Refusal>>
        ensures { BoardCalled (on_store (call.add_node kind.now node.ports node.required node.takes_values node.takes_glides))
            self.old (node_told result) self.new }
    {
        if self.seal.is_some() {
            return Err(BoardRefusal::Closed);
        }
        opened(self.store.add_node(kind, node))
    }

    /// `Tables::remove_node`, unless the board is sealed.
    pub fn remove_node(&mut self, node: NodeId) -> Result<(), BoardRefusal<Refusal>>
        ensures { BoardCalled (on_store (call.remove_node node)) self.old (host_told result) self.new }
    {
        if self.seal.is_some() {
            return Err(BoardRefusal::Closed);
        }
        opened(self.store.remove_node(node))
    }

    /// `Tables::connect`, unless the board is sealed.
    pub fn connect(
        &mut self,
        from: NodeId,
        to: NodeId,
        port: u32,
    ) -> Result<(), BoardRefusal<Refusal>>
        ensures { BoardCalled (on_store (call.connect from to port)) self.old (host_told result) self.new }
    {
        if self.seal.is_some() {
            return Err(BoardRefusal::Closed);
        }
        opened(self.store.connect(from, to, port))
    }

    /// `Tables::disconnect`, unless the board is sealed.
    pub fn disconnect(&mut self, to: NodeId, port: u32) -> Result<(), BoardRefusal<Refusal>>
        ensures { BoardCalled (on_store (call.disconnect to port)) self.old (host_told result) self.new }
    {
        if self.seal.is_some() {
            return Err(BoardRefusal::Closed);
        }
        opened(self.store.disconnect(to, port))
    }

    /// `Tables::set_sink`, unless the board is sealed.
    pub fn set_sink(&mut self, node: NodeId) -> Result<(), BoardRefusal<Refusal>>
        ensures { BoardCalled (on_store (call.set_sink node)) self.old (host_told result) self.new }
    {
        if self.seal.is_some() {
            return Err(BoardRefusal::Closed);
        }
        opened(self.store.set_sink(node))
    }

    /// See `Tables::schedule`: no seal closes it.
    pub fn schedule(
        &mut self,
        time: u64,
        voice: VoiceId,
        name: &[u8],
        action: EventAction,
    ) -> Result<(), Refusal>
        ensures { BoardCalled (on_store (call.schedule time voice name.now action))
            self.old (given (console.plain (answered result))) self.new }
    {
        self.store.schedule(time, voice, name, action)
    }

    /// See `Tables::prepare`: no seal closes it.
    pub fn prepare(&mut self) -> Result<(), Refusal>
        ensures { BoardCalled (on_store (call.prepare)) self.old (given (console.plain (answered result))) self.new }
    {
        self.store.prepare()
    }

    /// See `Tables::set_voice_param`: no seal closes it.
    pub fn set_voice_param(&mut self, voice: VoiceId, name: &[u8], value: f32) -> Outcome
        ensures { BoardCalled (on_store (call.order voice name.now (last.Value value)))
            self.old (given (console.plain (call.ordered result))) self.new }
    {
        self.store.set_voice_param(voice, name, value)
    }

    /// See `Tables::set_voice_param_glide`: no seal closes it.
    pub fn set_voice_param_glide(&mut self, voice: VoiceId, name: &[u8], glide: Glide) -> Outcome
        ensures { BoardCalled (on_store (call.order voice name.now (last.Glide glide)))
            self.old (given (console.plain (call.ordered result))) self.new }
    {
        self.store.set_voice_param_glide(voice, name, glide)
    }

    /// See `Tables::report`: no seal closes it.
    pub fn report(
        &mut self,
        node: NodeId,
        channels: usize,
        samples: &[f32],
        done: bool,
    ) -> Result<(), Refusal>
        ensures { BoardCalled (on_store (call.report node channels samples.now done))
            self.old (given (console.plain (answered result))) self.new }
    {
        self.store.report(node, channels, samples, done)
    }

    /// See `Tables::free_voice`: no seal closes it.
    pub fn free_voice(&mut self, voice: VoiceId) -> Outcome
        ensures { BoardCalled (on_store (call.free voice))
            self.old (given (console.plain (call.ordered result))) self.new }
    {
        self.store.free_voice(voice)
    }

    /// See `Tables::free_done_synths`: no seal closes it.
    pub fn free_done_synths(&mut self) -> usize
        ensures { BoardCalled (on_store (call.clear)) self.old (given (console.plain (call.removed result))) self.new }
    {
        self.store.free_done_synths()
    }

    /// See `Tables::render`: no seal closes it.
    pub fn render(&mut self, out: &mut [u8]) -> Rendering
        ensures { BoardCalled (on_store (call.render out.old))
            self.old (given (console.plain (call.rendered result.answer result.taken out.new))) self.new }
    {
        self.store.render(out)
    }

    /// `Tables::spawn_voice`, unless the seal closes that spawn.
    pub fn spawn_voice(&mut self, wish: &Wish) -> Result<VoiceId, BoardRefusal<Refusal>>
        ensures { BoardCalled (on_store (call_of wish.now)) self.old (spawn_told result) self.new }
    {
        if shuts_spawn(
            &self.seal,
            wish.managed,
            wish.bus,
            wish.def.nodes.count,
            wish.def.edges.count,
        ) {
            return Err(BoardRefusal::Closed);
        }
        opened(self.store.spawn_voice(wish))
    }

    /// See `Console::turn`: no seal closes it.
    pub fn turn(&mut self) -> Option<Served>
        ensures { BoardCalled (on console.turn) self.old (given (turn_answered result)) self.new }
    {
        turn(&mut self.store, &mut self.keyboards)
    }
}
