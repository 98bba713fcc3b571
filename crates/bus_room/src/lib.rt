// Room on a bus: its lowest free port. While none is free, voices of the bus are removed from the lent tables, and the steal records
// say so.
#![tactic(auto)]

pub mod cut;
pub mod next;
pub mod room;
