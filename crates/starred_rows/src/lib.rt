#![tactic(auto)]

// The starred rows of document 01, proved of the definitions: specs/Rows.antt, whose theorem is proofs/Rows.antt. No code.
