// Which voice gives way when a new one asks to be admitted, and the record of the steals. docs/CRATES.md names the files of the older program
// that they come from.
#![tactic(auto)]

pub mod policy;
pub mod steals;
