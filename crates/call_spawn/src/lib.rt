// The spawn on a lent store: why it is refused, who is stolen for it, and where the new voice gets its port. All tests are made before
// the first word is stored; after the refusal `NoPort` the steals and reclaims stand.
#![tactic(auto)]

pub mod refuse;
mod seat;
pub mod spawn;
mod steal;
pub mod wish;
