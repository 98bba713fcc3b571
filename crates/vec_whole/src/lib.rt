// Answers the vectors of `whole_bus`: fades and sums in whole numbers. A script in another language made them and their lines (oracle/whole/make).
#![tactic(auto)]

pub mod blocks;
