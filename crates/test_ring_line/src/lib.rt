// A line of a call that is lent a ring:
//     NAME SLOTS LENS TEXT SIZE COUNT INDEX ACTION YANKED ARGUMENT* > SLOTS LENS NUMBER SLOT SIZE SIZE COUNT INDEX ACTION YANKED
// The head of a data file of `test_answers` says what its fields are.
#![tactic(auto)]

ghost use Rattle.std.specs.Prelude.{◌≡◌, ◌<◌, length, [], ◌∷◌, IfOk, OnErr};

mod buffers;
mod ring_calls;

pub use buffers::{RingBuffers, are_slots_left_in};
use kill_ring::{Ring, RingAnswer};
use ring_calls::call;
use test_fields::{Fields, Malformed, Text};

// The record that the first numbers say, and the numbers behind them.
pub fn ring_of(numbers: &[usize]) -> Result<(Ring, &[usize]), Malformed>
    ensures ok { IfOk result (λ r. numbers.now ≡ r.0.size ∷ r.0.count ∷ r.0.index ∷ r.0.action ∷ r.0.yanked ∷ r.1.now) }
    ensures err { OnErr result (length numbers.now < 5) }
{
    match numbers {
        [size, count, index, action, yanked, rest @ ..] => {
            let ring = Ring {
                size: *size,
                count: *count,
                index: *index,
                action: *action,
                yanked: *yanked,
            };
            Ok((ring, rest))
        }
        _ => Err(Malformed),
    }
}

// The numbers that say a record.
pub fn ring_numbers(r: Ring) -> [usize; 5]
    ensures { result ≡ r.size ∷ r.count ∷ r.index ∷ r.action ∷ r.yanked ∷ [] }
{
    [r.size, r.count, r.index, r.action, r.yanked]
}

// Do these numbers say an answer, and behind it the record?
fn is_answer(numbers: &[usize], a: RingAnswer, ring: Ring) -> bool {
    match numbers {
        [number, slot, size, rest @ ..] => {
            (*number, *slot, *size) == (a.number as usize, a.slot, a.size)
                && rest == ring_numbers(ring).as_slice()
        }
        _ => false,
    }
}

// Replays a line: does the call of a name, with what it is lent, leave and answer what is due? Err of a line of another form.
pub fn replays(name: &str, mut lent: Fields<'_>, mut due: Fields<'_>) -> Result<bool, Malformed> {
    let mut before = RingBuffers::new();
    let mut after = RingBuffers::new();
    let mut text = Text::new();
    before.read(&mut lent)?;
    text.read(lent.next_field())?;
    let numbers = lent.numbers()?;
    let (ring, args) = ring_of(numbers.as_slice())?;
    after.copy_from(&before);
    let a = call(name, &mut after, ring, text.as_slice(), args).ok_or(Malformed)?;
    Ok(
        after.are_left(&mut due, &mut before, a.ring.count)?
            && is_answer(due.numbers()?.as_slice(), a.answer, a.ring),
    )
}

// Does a line agree: the call of a name, what it is lent, and what is due? One of another form does not.
pub fn agrees(name: &str, lent: Fields<'_>, due: Fields<'_>) -> bool {
    replays(name, lent, due).unwrap_or(false)
}
