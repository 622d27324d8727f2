// Order 1 of document 02: the calls that a key stands for, as one call; what a key answers.
#![tactic(auto)]

ghost use Rattle.std.specs.Prelude.{◌≡◌, false, cond, leb};
ghost use Rattle.checks.specs.Refused.{number_of};
ghost use Rattle.repertoire.specs.Repertoire.{catalogue};
ghost use Rattle.edit.specs.Calls.{says as Calls·says};
ghost use Rattle.kill_ring.specs.Ring.{reset_out};
ghost use Rattle.kill_ring.specs.Calls as rings;
ghost use Rattle.key_model.specs.Contract.{with_ring};

use checks::{Line, Refused};
use edit::EditAnswer;
use kill_ring::{Ring, reset_checked};
use log_state::Log;

// What a key answers: what its call on the line answers, and the ring's record afterwards. C reads it.
#[repr(C)]
#[derive(Clone, Copy)]
pub struct KeyAnswer {
    pub number: u32,
    pub from: usize,
    pub to: usize,
    pub line: Line,
    pub log: Log,
    pub ring: Ring,
}

// The answer of the call on the line, and a ring.
pub fn with_ring(a: EditAnswer, ring: Ring) -> KeyAnswer
    ensures { result ≡ with_ring a ring }
{
    let line = a.line;
    let log = a.log;
    KeyAnswer {
        number: a.number,
        from: a.from,
        to: a.to,
        line,
        log,
        ring,
    }
}

// A number alone.
pub fn says(number: u32, line: Line, log: Log, ring: Ring) -> KeyAnswer
    ensures { result ≡ with_ring (Calls·says number line log) ring }
{
    with_ring(edit::says(number, line, log), ring)
}

// A check refuses.
pub fn refused(why: Refused, line: Line, log: Log, ring: Ring) -> KeyAnswer
    ensures { result ≡ with_ring (Calls·says (number_of why) line log) ring }
{
    with_ring(edit::refused(why, line, log), ring)
}

// "Every key but a kill, yank or yank-pop resets it", where its call on the line answers 0 or 1; a refusal or a stopped undo does not.
pub fn reset_after(slots: &[u8], lens: &[u8], ring: Ring, a: EditAnswer) -> KeyAnswer
    requires { rings.checked catalogue (rings.lent slots.now lens.now ring) false false ≡ 0 }
    ensures { result ≡ with_ring a (cond (leb a.number 1)
        (rings.answer_and_ring ring (reset_out (rings.value_of (rings.lent slots.now lens.now ring)))).ring ring) }
{
    if 1 < a.number {
        return with_ring(a, ring);
    }
    let b = reset_checked(slots, lens, ring);
    let reset = b.ring;
    with_ring(a, reset)
}
