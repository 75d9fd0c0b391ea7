// The words of an upright grid through the corrector (document 01, "How a grid is read", step 3): the mode words, what they say, and the
// block.
#![tactic(auto)]

pub mod correcting;
pub mod said;
