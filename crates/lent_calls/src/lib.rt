#![tactic(auto)]

// No code: what calls on a link that is lent as words give, for the contracts of `c_api`, and demand 3 over runs of such calls.
