// The vocabulary of the whole store: ids, names, glides, orders, the record of a node, the silence rule of a kind, and the refusals with
// their numbers. It follows microsynth, a program in Rust (docs/CRATES.md names the files); what was asked for is the scope, whose
// sentences stand in docs/TRACE.md.
#![tactic(auto)]

pub mod name;
pub mod order;
pub mod record;
pub mod refusal;
pub mod silence;
