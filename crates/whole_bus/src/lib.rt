#![tactic(auto)]

// Fades and sums in whole numbers, for converters that take samples from -2^23 to 2^23 - 1: definitions and laws. The functions on lent blocks
// stand in crate whole_samples.
