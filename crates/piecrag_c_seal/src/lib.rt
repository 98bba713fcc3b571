// Sealing for a host in C, and every call that a seal may close (Paper 14 in docs/TRACE.md): the host's nodes, edges and sink, the spawn, the wish. Each
// has this one form, which is lent the seal in words; words of all 0 are no seal. The calls that no seal closes are those of the other
// crates. For C arguments are single numbers, and a table is a parameter of its own, since a signature shows what a call may touch.
#![tactic(auto)]

pub mod closed;
pub mod from_book;
pub mod host;
pub mod sealing;
pub mod spawn;
pub mod wishing;
