// The live voices in words that the host lends: 64 rows of 143 words, in order of admission.
#![tactic(auto)]

pub mod fade;
pub mod feeding;
pub mod layout;
pub mod levels;
pub mod pack;
pub mod row;
pub mod table;
