#![tactic(auto)]

// What calls on a feedback reader in lent words give: mathematics, there is no code.
//   Statement   from a started reader's words, calls with any lists hand out the message's packets
//   Typed       a step keeps a cursor's numbers within their types, so that stored words give the cursor back
