// What is proved of whole sessions, and the cases P1 to P13 of document 01. No function: specs/ and proofs/ are
// all of it.
#![tactic(auto)]
