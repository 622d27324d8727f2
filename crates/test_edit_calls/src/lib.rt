// The calls of LineBuffer that edit, by their names: each is called at one place. The arguments besides a text stand in the order of
// the call's parameters.
#![tactic(auto)]

pub mod edit_calls;
pub mod kill_calls;
