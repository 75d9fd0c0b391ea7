#![tactic(auto)]

// Theory only: the cases that document 01 wants proved, held to the crates' own definitions in one table, and computed examples of the
// other definitions that contracts cite, a file an area. There is no code.
