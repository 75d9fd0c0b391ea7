// A sampled grid, before its words are read (document 01, "How a grid is read"): whether its side is a shape's, whether its modules are 0,
// 1 or 2, its family and its position.
#![tactic(auto)]

pub mod family;
pub mod modules;
pub mod position;
pub mod sides;
