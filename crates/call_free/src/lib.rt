// Voices are removed from the lent tables, each with its nodes and their edges. `forget` has the workers that other calls use, `free`
// the call.
#![tactic(auto)]

pub mod forget;
pub mod free;
