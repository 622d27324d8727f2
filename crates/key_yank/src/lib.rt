// Order 1 of document 02: a key that puts in the ring's text. What the line's call tests of it, and what it does where the checks have
// passed: 1 where the ring gives no text.
#![tactic(auto)]

ghost use Rattle.std.specs.Prelude.{◌≡◌, false, cond, leb};
ghost use Rattle.repertoire.specs.Repertoire.{catalogue};
ghost use Rattle.checks.specs.Checks.{own_tests};
ghost use Rattle.edit.specs.Calls.{lent, own};
ghost use Rattle.kill_ring.specs.Calls as rings;
ghost use Rattle.key_model.specs.Stands.{stands_for, yank, yank_pop};
ghost use Rattle.key_model.specs.Own.{Tried};
ghost use Rattle.key_model.specs.Contract.{with_ring, key_buffers, Passed, Does};

use checks::Line;
use edit::{Checked, EditAnswer, Own, is_split};
use edit_insert::back;
use key_model::{KeyAnswer, says, with_ring};
use key_press::Press;
use keymap::RepeatCount;
use kill_ring::{Ring, SLOT_BYTES};

// A foreign key, and nothing else to try.
pub fn only_foreign(foreign: bool) -> Own
    ensures { own result ≡ own_tests false foreign false }
{
    Own {
        foreign,
        ..Own::NONE
    }
}

// The tests of yank's own: the slot that the ring gives may be longer than the text's buffer.
fn yank_own(
    text: &[u8],
    slots: &[u8],
    lens: &[u8],
    line: Line,
    ring: Ring,
    foreign: bool,
    n: RepeatCount,
) -> Own
    requires { rings.checked catalogue (rings.lent slots.now lens.now ring) false false ≡ 0 }
    ensures { Tried text.now line (rings.lent slots.now lens.now ring) foreign (yank n) result }
{
    let a = kill_ring::yank_checked(slots, lens, ring);
    let answer = a.answer;
    let given = a.ring;
    if answer.number != 0 {
        return only_foreign(foreign);
    }
    Own {
        sizes: text.len() < given.yanked,
        foreign,
        ..Own::NONE
    }
}

// The tests of yank_pop's own: of the slot, and of the place that the text yanked before began at.
fn pop_own(text: &[u8], slots: &[u8], lens: &[u8], line: Line, ring: Ring, foreign: bool) -> Own
    requires { rings.checked catalogue (rings.lent slots.now lens.now ring) false false ≡ 0 }
    ensures { Tried text.now line (rings.lent slots.now lens.now ring) foreign yank_pop result }
{
    let a = kill_ring::yank_pop_checked(slots, lens, ring);
    let answer = a.answer;
    let given = a.ring;
    if answer.number != 0 {
        return only_foreign(foreign);
    }
    let len = line.len;
    let cursor = line.cursor;
    let size = answer.size;
    let split = is_split(text, len, back(cursor, size));
    Own {
        sizes: text.len() < given.yanked,
        foreign,
        place: cursor < size,
        split,
        ..Own::NONE
    }
}

// What a key's call on the line tests of its own, where the ring's checks have passed, and whether the key is foreign.
pub fn own_of(
    text: &[u8],
    slots: &[u8],
    lens: &[u8],
    line: Line,
    ring: Ring,
    foreign: bool,
    p: Press,
) -> Own
    requires { rings.checked catalogue (rings.lent slots.now lens.now ring) false false ≡ 0 }
    ensures { Tried text.now line (rings.lent slots.now lens.now ring) foreign (stands_for p) result }
{
    match p {
        Press::Unbound => only_foreign(foreign),
        Press::Move(_) => only_foreign(foreign),
        Press::Edit(_) => only_foreign(foreign),
        Press::Undo(_) => only_foreign(foreign),
        Press::Kill(_) => only_foreign(foreign),
        Press::Yank(n) => yank_own(text, slots, lens, line, ring, foreign, n),
        Press::YankPop => pop_own(text, slots, lens, line, ring, foreign),
    }
}

// The ring is as it was where the line's call refuses, else as its own call leaves it.
fn yanked(a: EditAnswer, was: Ring, given: Ring) -> KeyAnswer
    ensures { result ≡ with_ring a (cond (leb a.number 1) given was) }
{
    if 1 < a.number {
        return with_ring(a, was);
    }
    with_ring(a, given)
}

// Wrong answers ruled out: the ring left as a yank where the line has no room; the count as the number of slots gone back.
pub fn yank_key(
    checked: Checked,
    text: &mut [u8],
    records: &mut [u8],
    texts: &mut [u8],
    slots: &[u8],
    lens: &[u8],
    ring: Ring,
    n: RepeatCount,
) -> KeyAnswer
    requires { Passed checked.format (lent text.old records.old texts.old checked.line checked.log) (rings.lent slots.now lens.now ring) (yank n) checked.last }
    ensures { Does checked.format (lent text.old records.old texts.old checked.line checked.log)
        (rings.lent slots.now lens.now ring) (yank n)
        result (key_buffers text.new records.new texts.new slots.now lens.now) }
{
    let a = kill_ring::yank_checked(slots, lens, ring);
    let answer = a.answer;
    let given = a.ring;
    if answer.number != 0 {
        return says(1, checked.line, checked.log, ring);
    }
    let from = SLOT_BYTES * answer.slot;
    let to = from + given.yanked;
    let put = edit_insert::yank_checked(checked, text, records, texts, &slots[from..to], n);
    yanked(put, ring, given)
}

// Wrong answers ruled out: the size of the slot that is put in cut out; an empty slot that leaves the text yanked before.
pub fn yank_pop_key(
    checked: Checked,
    text: &mut [u8],
    records: &mut [u8],
    texts: &mut [u8],
    slots: &[u8],
    lens: &[u8],
    ring: Ring,
) -> KeyAnswer
    requires { Passed checked.format (lent text.old records.old texts.old checked.line checked.log) (rings.lent slots.now lens.now ring) yank_pop checked.last }
    ensures { Does checked.format (lent text.old records.old texts.old checked.line checked.log)
        (rings.lent slots.now lens.now ring) yank_pop
        result (key_buffers text.new records.new texts.new slots.now lens.now) }
{
    let a = kill_ring::yank_pop_checked(slots, lens, ring);
    let answer = a.answer;
    let given = a.ring;
    if answer.number != 0 {
        return says(1, checked.line, checked.log, ring);
    }
    let from = SLOT_BYTES * answer.slot;
    let to = from + given.yanked;
    let put = edit_insert::yank_pop_checked(
        checked,
        text,
        records,
        texts,
        answer.size,
        &slots[from..to],
    );
    yanked(put, ring, given)
}
