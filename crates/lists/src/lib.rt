// Laws on lists, tables and tests that several crates share. No function: specs/ and proofs/ are all of it.
#![tactic(auto)]
