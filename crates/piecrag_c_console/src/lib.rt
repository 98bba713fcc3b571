// The console's calls for a host in C (Paper 11 in docs/TRACE.md): making with keyboards, a turn, and what waits. What a console holds beside its
// table of wishes stands in lent words, as the state does. A wish may be closed by a seal: it is in piecrag_c_seal.
// A table is a parameter of its own, since a signature shows what a call may touch.
#![tactic(auto)]

pub mod making;
pub mod reading;
pub mod turning;
