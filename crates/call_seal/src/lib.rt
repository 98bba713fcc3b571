// Sealing a board, and the calls that a seal may close (docs/CHANGES.md, "The sealed profile"). A call that no seal closes stays as it is: it is not lent the seal.
#![tactic(auto)]

pub mod accept;
pub mod closing;
pub mod host;
pub mod sealing;
pub mod spawn;
pub mod wishing;
