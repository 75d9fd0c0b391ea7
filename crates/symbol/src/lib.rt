// The symbol (document 01, "Modules and shapes"): the 36 shapes and the places of modules. The crate drawing draws words there, as
// specs/Drawing.antt says.
#![tactic(auto)]

pub mod places;
pub mod shapes;
