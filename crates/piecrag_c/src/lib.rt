// The store's calls for a host in C: making, prepare and events. An export takes the state in lent words, the tables that its call needs
// and plain numbers. It makes the call, and answers 0 or the number of a refusal; ids and counts stand in cells that the host lends. The
// other calls are in the crates piecrag_c_voices, piecrag_c_console and piecrag_c_read; those that a seal may close in piecrag_c_seal.
// A table is a parameter of its own, since a signature shows what a call may touch.
#![tactic(auto)]

pub mod host;
