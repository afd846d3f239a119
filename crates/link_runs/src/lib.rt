#![tactic(auto)]

// Demand 3: range and recovery of a link's estimate over whole lists of calls. Mathematics only: the statement is specs/Statement.antt.
