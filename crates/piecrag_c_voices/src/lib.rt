// The store's calls on voices for a host in C: frees, clearing, values and glides, reports, render. A spawn may be closed by a seal: it is
// in piecrag_c_seal. A table is a parameter of its own, since a signature shows what a call may touch.
#![tactic(auto)]

pub mod voices;
