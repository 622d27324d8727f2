// A line of a slip:
//     NAME TEXT PAGE > PAGE NUMBER VALUE
// The head of a data file of `test_answers` says what its fields are.
#![tactic(auto)]

pub mod longest;

use slip_calls::slip;
use test_fields::{Fields, Malformed, Text, is_left};

// Replays a line: does a slip, with what it is lent, leave and answer what is due? The page is left whole. Err of a line of another
// form.
pub fn replays(mut lent: Fields<'_>, mut due: Fields<'_>) -> Result<bool, Malformed> {
    let mut text = Text::new();
    let mut before = Text::new();
    let mut after = Text::new();
    text.read(lent.next_field())?;
    before.read(lent.next_field())?;
    if !lent.numbers()?.as_slice().is_empty() {
        return Err(Malformed);
    }
    after.copy_from(&before);
    let page = after.as_mut_slice();
    let a = slip(text.as_slice(), page);
    Ok(
        is_left(due.next_field(), &mut before, page, page.len())?
            && due.numbers()?.as_slice() == [a.number as usize, a.value].as_slice(),
    )
}

// Does a line agree: a slip, what it is lent, and what is due? One of another form does not.
pub fn agrees(lent: Fields<'_>, due: Fields<'_>) -> bool {
    replays(lent, due).unwrap_or(false)
}
