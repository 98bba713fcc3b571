// The host's calls on a lent store that leave its voices as they are: nodes, wiring, sink, prepare and scheduling. Each makes all
// its tests before it stores the first word, so that a refusal leaves the very state and words. A refusal
// is handed on by `refuse` and not by `?`, since the state goes with every answer.
#![tactic(auto)]

pub mod host;
pub mod preparing;
mod refusals;
pub mod schedule;
