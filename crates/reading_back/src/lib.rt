#![tactic(auto)]

// Theory only: demand 3, over the definitions that correct, encode and decode meet. There is no code.
