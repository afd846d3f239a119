#![tactic(auto)]

// What tests tell and what they choose: mathematics for specs and proofs, there is no code.
