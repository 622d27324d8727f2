// Order 1 of document 02: a key on text, cursor, log and ring. Any text, cursor, log, ring and bytes may be handed over: what is unfit is
// turned away by a number of document 01, and a key that is none by 13. All that is lent is looked at once.
#![tactic(auto)]

ghost use Rattle.std.specs.Prelude.{◌≡◌, true};
ghost use Rattle.repertoire.specs.Repertoire.{catalogue};
ghost use Rattle.edit.specs.Calls.{lent};
ghost use Rattle.kill_ring.specs.Calls as rings;
ghost use Rattle.key_model.specs.Stands.{stands_for};
ghost use Rattle.key_model.specs.Own.{fit_press};
ghost use Rattle.key_model.specs.Contract.{key_buffers, Passed, Does, Presses};

use checks::{Line, Refused, lower, number};
use edit::{Checked, admit, check};
use formats::format_for;
use key_kill::kill_key;
use key_line::{edit_key, move_key, undo_key};
use key_model::{KeyAnswer, refused, says};
use key_press::{Press, is_foreign_key, press_of};
use key_yank::{only_foreign, own_of, yank_key, yank_pop_key};
use kill_ring::{Ring, refusal};
use log_state::Log;

// What a key does, where the checks have passed.
fn key_checked(
    checked: Checked,
    text: &mut [u8],
    records: &mut [u8],
    texts: &mut [u8],
    slots: &mut [u8],
    lens: &mut [u8],
    ring: Ring,
    p: Press,
) -> KeyAnswer
    requires passed { Passed checked.format (lent text.old records.old texts.old checked.line checked.log) (rings.lent slots.old lens.old ring) (stands_for p) checked.last }
    requires p_value { fit_press catalogue p ≡ true }
    ensures { Does checked.format (lent text.old records.old texts.old checked.line checked.log) (rings.lent slots.old lens.old ring) (stands_for p)
        result (key_buffers text.new records.new texts.new slots.new lens.new) }
{
    match p {
        Press::Unbound => refused(Refused::Unbound, checked.line, checked.log, ring),
        Press::Move(k) => move_key(checked, text, records, texts, slots, lens, ring, k),
        Press::Edit(k) => edit_key(checked, text, records, texts, slots, lens, ring, k),
        Press::Undo(n) => undo_key(checked, text, records, texts, slots, lens, ring, n),
        Press::Kill(k) => kill_key(checked, text, records, texts, slots, lens, ring, k),
        Press::Yank(n) => yank_key(checked, text, records, texts, slots, lens, ring, n),
        Press::YankPop => yank_pop_key(checked, text, records, texts, slots, lens, ring),
    }
}

// Wrong answers ruled out: 13 where the ring is damaged; a kill that cuts the text and leaves the ring.
pub fn key(
    text: &mut [u8],
    records: &mut [u8],
    texts: &mut [u8],
    slots: &mut [u8],
    lens: &mut [u8],
    line: Line,
    log: Log,
    ring: Ring,
    key: &[u8],
) -> KeyAnswer
    ensures { Presses catalogue key.now (lent text.old records.old texts.old line log)
        (rings.lent slots.old lens.old ring)
        result (key_buffers text.new records.new texts.new slots.new lens.new) }
{
    let f = format_for(text.len());
    let p = press_of(key);
    let foreign = is_foreign_key(key);
    if let Err(why) = refusal(slots, lens, ring, false, false) {
        let on_line = check(f, text, records, texts, line, log, only_foreign(foreign));
        return says(lower(number(on_line), why.into()), line, log, ring);
    }
    let own = own_of(text, slots, lens, line, ring, foreign, p);
    let checked = match admit(f, text, records, texts, line, log, own) {
        Ok(checked) => checked,
        Err(why) => return refused(why, line, log, ring),
    };
    key_checked(checked, text, records, texts, slots, lens, ring, p)
}
