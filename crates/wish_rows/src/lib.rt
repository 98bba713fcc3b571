// The wishes that wait, in words that the caller lends: a wish with its whole definition in a row of 243 words, 16 rows for each of
// eight keyboards; where each keyboard's wishes begin, and how many they are, goes by value.
#![tactic(auto)]

pub mod pack;
pub mod row;
