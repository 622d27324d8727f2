// The calls of the kill ring by their names: each is called at one place. The arguments besides a text stand in the order of the
// call's parameters.
use super::RingBuffers;
use kill_ring::{AnswerAndRing, Ring};
use test_fields::code_of;

// The answer of the call with a name, and the ring's record afterwards, with this text and these other arguments; none where there
// is no such call.
pub fn call(
    name: &str,
    lent: &mut RingBuffers,
    ring: Ring,
    text: &[u8],
    args: &[usize],
) -> Option<AnswerAndRing> {
    let (slots, lens) = lent.as_mut_slices();
    let answer = match (name, args) {
        ("reset", []) => kill_ring::reset(slots, lens, ring),
        ("yank", []) => kill_ring::yank(slots, lens, ring),
        ("yank_pop", []) => kill_ring::yank_pop(slots, lens, ring),
        ("new", [size]) => kill_ring::new(ring, *size),
        ("kill", [mode]) => kill_ring::kill(slots, lens, ring, text, code_of(*mode)),
        _ => return None,
    };
    Some(answer)
}
