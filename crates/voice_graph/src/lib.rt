// What a new voice and a fade put into the lent graph: their nodes, appended behind the others, and their edges.
#![tactic(auto)]

pub mod growth;
mod kinds;
mod made;
mod wires;
