// The steps of the corrector, each with its equation in algebra's terms as its contract: the marked places out of the syndromes, the
// locator, the places and values of the corrections, and the last check.
#![tactic(auto)]

pub mod accept;
pub mod erasures;
pub mod locator;
pub mod values;
