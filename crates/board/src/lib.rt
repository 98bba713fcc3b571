//! The console, a store at which the wishes of up to eight keyboards wait for their turns; and the board, which its
//! builder may seal. Each is a struct whose store is reached through its own calls alone.
#![tactic(auto)]

pub mod boards;
pub mod closing;
pub mod consoles;
mod keyboards;
pub mod making;
mod sealable;
pub mod serving;
