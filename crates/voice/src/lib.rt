// Policies, budgets, candidates and steal records: types and definitions. Crate voice_policy has the code.
#![tactic(auto)]

pub mod policy;
pub mod steals;
pub mod voices;
