#![tactic(auto)]

// Theorems over whole feedback messages and readers of them: mathematics, there is no code.
//   Statement   what a started reader hands out, over any number of steps; the rest of order 2 beside it, as one claim
//   Handing     a reader's steps hand out the packets; Ticks: their times stay within 32 bits
//   InLists     packets handed out to lists are those of the message
//   Packets     what a yes says; a good message has as many packets as its status count, in sequence order modulo 65,536
//   InOrder     the judgement is the first fault met in reading order
//   Questions   what each judgement says of a message, and the order of questions 14 to 16
//   Unread      messages that are alike in what is read have the same judgement and packets
//   Rows        chunks and messages by hand
