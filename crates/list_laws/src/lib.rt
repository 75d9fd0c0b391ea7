#![tactic(auto)]

// Theory only: laws about ranges, lists and tables that the other crates' specs/ and proofs/ cite. There is no code.
