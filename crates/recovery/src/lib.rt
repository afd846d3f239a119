#![tactic(auto)]

// How the estimate of a rate control recovers over any list of calls, and of any link that holds one: mathematics for the link, there is no code.
//   specs/Recovery.antt         what calls do to a rate control, and the claim of recovery
//   proofs/RecoveryProof.antt   its proof
//   specs/Runs.antt             the same of any machine that holds a rate control, with the ranges of its estimate and its delay threshold
//   proofs/Runs.antt            its proof
