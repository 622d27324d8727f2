// The log of changes as values, and its layout in bytes. No function: specs/ and proofs/ are all of it.
#![tactic(auto)]
