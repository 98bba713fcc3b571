//! The pending events: what an event asks of its voice, and the queue of up to 256 of them.
#![tactic(auto)]

pub mod event;
pub mod queue;
