// From bytes to words and back (document 01, "From bytes to words" and step 4 of "How a grid is read"): the definitions and the round trip
// stand in specs/; the code is the tables of the code sets, and the types that both directions share.
#![tactic(auto)]

pub mod codes;
pub mod items;
pub mod stuffing;
