// The entries for C and Rust callers to the ring: each is the call of the same name in `kill_ring`, on the ring's record.
#![tactic(auto)]

ghost use Rattle.std.specs.Prelude.{◌≡◌};
ghost use Rattle.repertoire.specs.Repertoire.{catalogue};
ghost use Rattle.kill_ring.specs.Calls as rings;

use kill_ring::{Ring, RingAnswer};

// The ring's entries: thin functions that take &mut to the ring's record, above the calls by value. Document 01: "The ring's index,
// count and last action form one record that a kill updates for its caller."
#[unsafe(no_mangle)]
pub extern "C" fn tlf_ring_new(ring: &mut Ring, size: usize) -> u32
    ensures { (result ≡ (rings.answer_and_ring ring.old (rings.new_call size)).answer.number)
        × (ring.new ≡ (rings.answer_and_ring ring.old (rings.new_call size)).ring) }
{
    let a = kill_ring::new(*ring, size);
    *ring = a.ring;
    a.answer.number
}

#[unsafe(no_mangle)]
pub extern "C" fn tlf_ring_reset(slots: &[u8], lens: &[u8], ring: &mut Ring) -> RingAnswer
    ensures { (result ≡ (rings.answer_and_ring ring.old
        (rings.reset_call catalogue (rings.lent slots.now lens.now ring.old))).answer)
        × (ring.new ≡ (rings.answer_and_ring ring.old
        (rings.reset_call catalogue (rings.lent slots.now lens.now ring.old))).ring) }
{
    let a = kill_ring::reset(slots, lens, *ring);
    *ring = a.ring;
    a.answer
}

#[unsafe(no_mangle)]
pub extern "C" fn tlf_ring_kill(
    slots: &mut [u8],
    lens: &mut [u8],
    ring: &mut Ring,
    text: &[u8],
    mode: u32,
) -> RingAnswer
    ensures { (result ≡ (rings.answer_and_ring ring.old
        (rings.kill_call catalogue (rings.lent slots.old lens.old ring.old) text.now mode)).answer)
        × (ring.new ≡ (rings.answer_and_ring ring.old
        (rings.kill_call catalogue (rings.lent slots.old lens.old ring.old) text.now mode)).ring)
        × rings.Bytes (rings.lent slots.old lens.old ring.old)
        (rings.kill_call catalogue (rings.lent slots.old lens.old ring.old) text.now mode)
        slots.new lens.new }
{
    let a = kill_ring::kill(slots, lens, *ring, text, mode);
    *ring = a.ring;
    a.answer
}

#[unsafe(no_mangle)]
pub extern "C" fn tlf_ring_yank(slots: &[u8], lens: &[u8], ring: &mut Ring) -> RingAnswer
    ensures { (result ≡ (rings.answer_and_ring ring.old
        (rings.yank_call catalogue (rings.lent slots.now lens.now ring.old))).answer)
        × (ring.new ≡ (rings.answer_and_ring ring.old
        (rings.yank_call catalogue (rings.lent slots.now lens.now ring.old))).ring) }
{
    let a = kill_ring::yank(slots, lens, *ring);
    *ring = a.ring;
    a.answer
}

#[unsafe(no_mangle)]
pub extern "C" fn tlf_ring_yank_pop(slots: &[u8], lens: &[u8], ring: &mut Ring) -> RingAnswer
    ensures { (result ≡ (rings.answer_and_ring ring.old
        (rings.yank_pop_call catalogue (rings.lent slots.now lens.now ring.old))).answer)
        × (ring.new ≡ (rings.answer_and_ring ring.old
        (rings.yank_pop_call catalogue (rings.lent slots.now lens.now ring.old))).ring) }
{
    let a = kill_ring::yank_pop(slots, lens, *ring);
    *ring = a.ring;
    a.answer
}
