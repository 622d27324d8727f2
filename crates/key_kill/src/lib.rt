// Order 1 of document 02: a key that kills, where the checks have passed. What its call on the line cuts goes to the ring; 10 and 11 are
// decided before a byte changes.
#![tactic(auto)]

ghost use Rattle.std.specs.Prelude.{◌≡◌, false, [], ◌∷◌, length, take};
ghost use Rattle.lists.specs.Lists.{part};
ghost use Rattle.utf8.specs.Chars.{In};
ghost use Rattle.repertoire.specs.Repertoire.{catalogue};
ghost use Rattle.log_records.specs.Walks.{LastAt};
ghost use Rattle.log_model.specs.UndoBytes.{fits};
ghost use Rattle.edit.specs.Plan.{cutting, once, list_after, edited};
ghost use Rattle.edit.specs.Calls.{lent, sizes_of, state_of, Ready};
ghost use Rattle.kill_ring.specs.Ring.{kill_out};
ghost use Rattle.kill_ring.specs.Calls as rings;
ghost use Rattle.key_model.specs.Stands.{kill_by, movement_for, mode_for};
ghost use Rattle.key_model.specs.Keyed.{together};
ghost use Rattle.key_model.specs.Contract.{key_buffers, Passed, Does, KeyDone};

use checks::Refused;
use edit::{Checked, cut_out, room_cut, room_now};
use edit_kill::kill_range;
use key_model::{KeyAnswer, refused, says, with_ring};
use key_press::KillKey;
use keymap::{At, Movement, Word};
use kill_ring::{Mode, Ring, kill_checked};
use log_state::is_single;

fn movement_for(k: KillKey) -> Movement
    ensures { result ≡ movement_for k }
{
    match k {
        KillKey::Line => Movement::EndOfLine,
        KillKey::Discard => Movement::BeginningOfLine,
        KillKey::PrevWord(n) => Movement::BackwardWord(n, Word::Big),
        KillKey::Word(n) => Movement::ForwardWord(n, At::AfterEnd, Word::Emacs),
    }
}

// "Forward ones appended and backward ones prepended."
fn mode_for(k: KillKey) -> Mode
    ensures { result ≡ mode_for k }
{
    match k {
        KillKey::Line => Mode::Append,
        KillKey::Discard => Mode::Prepend,
        KillKey::PrevWord(_) => Mode::Prepend,
        KillKey::Word(_) => Mode::Append,
    }
}

// Has the log room for a cut from a place up to another?
fn cut_fits(
    checked: Checked,
    text: &[u8],
    records: &[u8],
    texts: &[u8],
    from: usize,
    to: usize,
) -> bool
    requires ready { Ready checked.format (lent text.now records.now texts.now checked.line checked.log) }
    requires last_at { LastAt catalogue checked.format (take checked.log.undo.records records.now) checked.last }
    requires in_text { In (take checked.line.len text.now) from to }
    ensures { result ≡ fits checked.format (sizes_of (lent text.now records.now texts.now checked.line checked.log))
        (list_after catalogue (cutting from to ∷ []) (take checked.line.len text.now)
        (state_of catalogue checked.format (lent text.now records.now texts.now checked.line checked.log)).log.undo) }
{
    let joins = is_single(&text[from..to]);
    let a = room_now(checked.format, records, texts, checked.log, checked.last);
    room_cut(checked.format, records, texts, a, joins, from, to).is_ok()
}

// The bytes from a place up to another cut out, and put into the ring.
fn cut_to_ring(
    checked: Checked,
    text: &mut [u8],
    records: &mut [u8],
    texts: &mut [u8],
    slots: &mut [u8],
    lens: &mut [u8],
    ring: Ring,
    from: usize,
    to: usize,
    m: Mode,
) -> KeyAnswer
    requires ready { Ready checked.format (lent text.old records.old texts.old checked.line checked.log) }
    requires last_at { LastAt catalogue checked.format (take checked.log.undo.records records.old) checked.last }
    requires false_value { rings.checked catalogue (rings.lent slots.old lens.old ring) false false ≡ 0 }
    requires in_text { In (take checked.line.len text.old) from to }
    ensures { KeyDone checked.format (lent text.old records.old texts.old checked.line checked.log) (rings.lent slots.old lens.old ring)
        (together
        (edited catalogue checked.format (sizes_of (lent text.old records.old texts.old checked.line checked.log)) (length text.old) (once (cutting from to) from)
        (state_of catalogue checked.format (lent text.old records.old texts.old checked.line checked.log)))
        (kill_out m (part (take checked.line.len text.old) from to) (rings.value_of (rings.lent slots.old lens.old ring))))
        result (key_buffers text.new records.new texts.new slots.new lens.new) }
{
    if !cut_fits(checked, text, records, texts, from, to) {
        return refused(Refused::LogFull, checked.line, checked.log, ring);
    }
    let killed = kill_checked(slots, lens, ring, &text[from..to], m);
    let answer = killed.answer;
    if answer.number != 0 {
        return refused(Refused::RingFull, checked.line, checked.log, ring);
    }
    let a = cut_out(checked, text, records, texts, from, to);
    let left = killed.ring;
    with_ring(a, left)
}

// Wrong answers ruled out: a text cut that the ring has no room for; a ring written where the log has none.
pub fn kill_key(
    checked: Checked,
    text: &mut [u8],
    records: &mut [u8],
    texts: &mut [u8],
    slots: &mut [u8],
    lens: &mut [u8],
    ring: Ring,
    k: KillKey,
) -> KeyAnswer
    requires { Passed checked.format (lent text.old records.old texts.old checked.line checked.log) (rings.lent slots.old lens.old ring) (kill_by k) checked.last }
    ensures { Does checked.format (lent text.old records.old texts.old checked.line checked.log)
        (rings.lent slots.old lens.old ring) (kill_by k)
        result (key_buffers text.new records.new texts.new slots.new lens.new) }
{
    let len = checked.line.len;
    let cursor = checked.line.cursor;
    let r = kill_range(&text[..len], cursor, movement_for(k));
    match r {
        Some(cut) => cut_to_ring(
            checked,
            text,
            records,
            texts,
            slots,
            lens,
            ring,
            cut.start,
            cut.end,
            mode_for(k),
        ),
        None => says(1, checked.line, checked.log, ring),
    }
}
