// How words are taken from a sampled grid (document 01, "How a grid is read", step 3): the grid is turned upright once, and its words are
// then read through the tables of places that the encoder draws through.
#![tactic(auto)]

pub mod blocks;
pub mod flat;
pub mod upright;
pub mod words;
