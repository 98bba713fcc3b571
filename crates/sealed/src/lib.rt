// The sealed profile of the smallest board (Paper 14 in docs/TRACE.md). Types; what a sealed board does is specs/Board.antt, what holds of it specs/Sealed.antt.
#![tactic(auto)]

pub mod laws;
pub mod profile;
pub mod refusal;
