// The fields of 2^4, 2^6, 2^8, 2^10 and 2^12 words that Reed–Solomon coding works in: their definition and laws (specs/), and their
// tables of powers and logarithms.
#![tactic(auto)]

pub mod tables;
