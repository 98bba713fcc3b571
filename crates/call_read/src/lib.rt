// The reading calls on a lent store. Each is lent the tables that it reads and no others, and none of them changes a word.
#![tactic(auto)]

pub mod counts;
pub mod look;
pub mod records;
