// From words to bytes (document 01, "How a grid is read", step 4): item after item, each read by the crate item_reader.
#![tactic(auto)]

pub mod message;
mod reader;
