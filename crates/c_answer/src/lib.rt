// What the exports for a host in C share: answers as numbers and cells, arguments that are numbers, and when the state is written back.
#![tactic(auto)]

pub mod answer;
pub mod argument;
pub mod keyboards;
pub mod refusal;
