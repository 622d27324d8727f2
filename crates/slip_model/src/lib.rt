// Order 2 of document 02: what a slip is, and what the order asks to be proved of it. The functions stand in `slip_calls`.
#![tactic(auto)]

// How far a line is filled: nothing of the text since the last \n; white space alone; words of so many columns, the spaces
// between them counted.
#[derive(Clone, Copy)]
pub enum Filled {
    Fresh,
    Blank,
    UpTo(usize),
}
