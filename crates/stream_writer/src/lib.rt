// From bytes to words (document 01, "From bytes to words"): the encoder's stream, stuffed.
#![tactic(auto)]

pub mod encoding;
pub mod stuffing;
