// The calls of document 01 as values. No function: specs/ is all of it.
#![tactic(auto)]
