// No bus hears of another: see specs/Isolated.antt, and specs/Store.antt for the store.
#![tactic(auto)]

pub mod laws;
