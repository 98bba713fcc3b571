// The console: a store, and the wishes of up to eight keyboards that wait for it. Its refusals; its calls as functions are
// specs/Console.antt, what holds of every list of them specs/Claim.antt.
#![tactic(auto)]

pub mod laws;
pub mod refusal;
