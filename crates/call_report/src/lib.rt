// A report on a lent store: the level and the done flag of a node, two words of its row. All tests are made before they are stored.
#![tactic(auto)]

pub mod report;
mod row;
mod tests;
