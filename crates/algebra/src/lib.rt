#![tactic(auto)]

// Theory only: the corrector's mathematics over any field of characteristic 2, which other crates' specs/ and proofs/ cite. There is no code.
