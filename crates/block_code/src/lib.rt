#![tactic(auto)]

// Theory only: valid blocks, the nearest block and check words, with their laws. There is no code.
