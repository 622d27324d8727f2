// A line of a key:
//     NAME TEXT RECORDS TEXTS SLOTS LENS KEY LEN CURSOR UR UT RR RT LEVEL SIZE COUNT INDEX ACTION YANKED >
//     TEXT RECORDS TEXTS SLOTS LENS NUMBER FROM TO LEN CURSOR UR UT RR RT LEVEL SIZE COUNT INDEX ACTION YANKED
// The head of a data file of `test_answers` says what its fields are.
#![tactic(auto)]

use checks::Line;
use edit::EditAnswer;
use key_calls::key;
use key_model::KeyAnswer;
use kill_ring::Ring;
use log_state::Log;
use test_fields::{Buffers, Fields, Malformed, Text};
use test_ring_line::{RingBuffers, ring_numbers, ring_of};
use test_state_line::{answer_numbers, state_of, used};

// The answer of the key of these bytes, and its line, log and ring afterwards.
fn press(
    state: &mut Buffers,
    rings: &mut RingBuffers,
    line: Line,
    log: Log,
    ring: Ring,
    bytes: &[u8],
) -> KeyAnswer {
    let (text, records, texts) = state.as_mut_slices();
    let (slots, lens) = rings.as_mut_slices();
    key(text, records, texts, slots, lens, line, log, ring, bytes)
}

// Do these numbers say an answer?
fn is_answer(numbers: &[usize], a: KeyAnswer) -> bool {
    let on_line = EditAnswer {
        number: a.number,
        from: a.from,
        to: a.to,
        line: a.line,
        log: a.log,
    };
    match numbers.split_at_checked(10) {
        Some((first, ring)) => {
            first == answer_numbers(on_line).as_slice() && ring == ring_numbers(a.ring).as_slice()
        }
        None => false,
    }
}

// Replays a line: does a key, with what it is lent, leave and answer what is due? Err of a line of another form.
pub fn replays(mut lent: Fields<'_>, mut due: Fields<'_>) -> Result<bool, Malformed> {
    let mut state = Buffers::new();
    let mut state_after = Buffers::new();
    let mut rings = RingBuffers::new();
    let mut rings_after = RingBuffers::new();
    let mut bytes = Text::new();
    state.read(&mut lent)?;
    rings.read(&mut lent)?;
    bytes.read(lent.next_field())?;
    let numbers = lent.numbers()?;
    let (line, log, ring_numbers) = state_of(numbers.as_slice())?;
    let (ring, behind) = ring_of(ring_numbers)?;
    if !behind.is_empty() {
        return Err(Malformed);
    }
    state_after.copy_from(&state);
    rings_after.copy_from(&rings);
    let a = press(
        &mut state_after,
        &mut rings_after,
        line,
        log,
        ring,
        bytes.as_slice(),
    );
    Ok(
        state_after.are_left(&mut due, &mut state, used(a.line, a.log))?
            && rings_after.are_left(&mut due, &mut rings, a.ring.count)?
            && is_answer(due.numbers()?.as_slice(), a),
    )
}

// Does a line agree: a key, what it is lent, and what is due? One of another form does not.
pub fn agrees(lent: Fields<'_>, due: Fields<'_>) -> bool {
    replays(lent, due).unwrap_or(false)
}
