#![tactic(auto)]

// The limits of document 01, proved equal to what stands for them in the definitions: specs/Limits.antt, whose theorem is proofs/Limits.antt. No code.
