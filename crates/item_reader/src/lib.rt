// One item of corrected words (document 01, "How a grid is read", step 4): the cursor that passes over the stuffed bits, the item at its
// place, and a thin view of both.
#![tactic(auto)]

pub mod items;
pub mod reading;
pub mod view;
