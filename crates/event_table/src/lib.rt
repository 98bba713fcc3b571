// The pending events in words that the host lends: an event's row, which rows a new event replaces, and the queue of up to 256 rows by
// time.
//
// A table and its count are parameters of their own, here and in the crates above: a signature shows what a function may touch. A row is read
// of any words, as `words::table` reads it, and no contract asks for a length: what needs the room of the table takes an `EventTable`.
#![tactic(auto)]

pub mod queue;
mod replace;
pub mod row;
