// Order 1 of document 02: a key that moves the cursor, edits the text or undoes, where the checks have passed. Its call on the line is
// done, and the ring is reset.
#![tactic(auto)]

ghost use Rattle.std.specs.Prelude.{◌≡◌, true, length, take};
ghost use Rattle.repertoire.specs.Repertoire.{catalogue};
ghost use Rattle.formats.specs.Formats.{format_for};
ghost use Rattle.checks.specs.Checks.{no_tests, both, refusal, line_tests};
ghost use Rattle.checks.specs.Answers.{line_answer};
ghost use Rattle.log_records.specs.Walks.{LastAt};
ghost use Rattle.edit.specs.Calls.{lent, checked as Calls·checked, Ready, Edited};
ghost use Rattle.kill_ring.specs.Calls as rings;
ghost use Rattle.calls.specs.Calls.{edit, move, undo, move_outcome, edit_outcome};
ghost use Rattle.key_model.specs.Stands.{line as Stands·line, move_for, edit_for};
ghost use Rattle.key_model.specs.Own.{fit_key};
ghost use Rattle.key_model.specs.Contract.{key_buffers, Passed, Does};

use checks::{Line, LineAnswer, moved_to};
use edit::{Checked, EditAnswer};
use edit_case::{WordAction, edit_word_checked};
use edit_insert::insert_checked;
use edit_kill::delete_checked;
use edit_transpose::{transpose_chars_checked, transpose_words_checked};
use key_model::{KeyAnswer, reset_after};
use key_press::{EditKey, MoveKey};
use keymap::{At, RepeatCount, Word};
use kill_ring::Ring;
use motion::{next_pos, prev_pos};
use motion_calls::elsewhere;
use motion_lines::{end_of_line, start_of_line};
use motion_words::{next_word_pos, prev_word_pos};
use undo::undo_units;

// The movement, on a text that the checks pass.
fn moved_by(text: &[u8], line: Line, k: MoveKey) -> LineAnswer
    requires { refusal (both (line_tests catalogue (format_for (length text.now)) text.now line) no_tests) ≡ 0 }
    ensures { result ≡ line_answer line (move_outcome catalogue text.now line (move_for k)) }
{
    let len = line.len;
    let cursor = line.cursor;
    let s = &text[..len];
    match k {
        MoveKey::Home => moved_to(line, elsewhere(line, start_of_line(s, cursor))),
        MoveKey::End => moved_to(line, elsewhere(line, end_of_line(s, cursor))),
        MoveKey::Backward(n) => moved_to(line, prev_pos(s, cursor, n)),
        MoveKey::Forward(n) => moved_to(line, next_pos(s, cursor, n)),
        MoveKey::PrevWord(n) => moved_to(line, prev_word_pos(s, cursor, Word::Emacs, n)),
        MoveKey::NextWord(n) => moved_to(
            line,
            next_word_pos(s, cursor, At::AfterEnd, Word::Emacs, n),
        ),
    }
}

// Wrong answers ruled out: a movement that answers 1 and leaves the ring as it was; the buffer's start for control a.
pub fn move_key(
    checked: Checked,
    text: &[u8],
    records: &[u8],
    texts: &[u8],
    slots: &[u8],
    lens: &[u8],
    ring: Ring,
    k: MoveKey,
) -> KeyAnswer
    requires { Passed checked.format (lent text.now records.now texts.now checked.line checked.log) (rings.lent slots.now lens.now ring) (Stands·line (move (move_for k))) checked.last }
    ensures { Does checked.format (lent text.now records.now texts.now checked.line checked.log)
        (rings.lent slots.now lens.now ring) (Stands·line (move (move_for k)))
        result (key_buffers text.now records.now texts.now slots.now lens.now) }
{
    let a = moved_by(text, checked.line, k);
    let left = a.line;
    let moved = EditAnswer {
        number: a.number,
        from: a.from,
        to: a.to,
        line: left,
        log: checked.log,
    };
    reset_after(slots, lens, ring, moved)
}

// The edit, where the checks have passed.
fn edited_by(
    checked: Checked,
    text: &mut [u8],
    records: &mut [u8],
    texts: &mut [u8],
    k: EditKey,
) -> EditAnswer
    requires no_tests_value { Calls·checked catalogue checked.format (lent text.old records.old texts.old checked.line checked.log) no_tests ≡ 0 }
    requires ready { Ready checked.format (lent text.old records.old texts.old checked.line checked.log) }
    requires last_at { LastAt catalogue checked.format (take checked.log.undo.records records.old) checked.last }
    requires k_value { fit_key catalogue k ≡ true }
    ensures { Edited checked.format (lent text.old records.old texts.old checked.line checked.log)
        (edit_outcome catalogue checked.format (lent text.old records.old texts.old checked.line checked.log) (edit_for k))
        result text.new records.new texts.new }
{
    match k {
        EditKey::Typed(ch, n) => insert_checked(checked, text, records, texts, ch, n),
        EditKey::Delete(n) => delete_checked(checked, text, records, texts, n),
        EditKey::TransposeChars => transpose_chars_checked(checked, text, records, texts),
        EditKey::TransposeWords(n) => transpose_words_checked(checked, text, records, texts, n),
        EditKey::Capitalize => edit_word_checked(
            checked,
            text,
            records,
            texts,
            WordAction::Capitalize,
        ),
        EditKey::Lowercase => edit_word_checked(
            checked,
            text,
            records,
            texts,
            WordAction::Lowercase,
        ),
        EditKey::Uppercase => edit_word_checked(
            checked,
            text,
            records,
            texts,
            WordAction::Uppercase,
        ),
    }
}

// Wrong answers ruled out: a mark that is not typed as a character; a deletion that goes to the ring.
pub fn edit_key(
    checked: Checked,
    text: &mut [u8],
    records: &mut [u8],
    texts: &mut [u8],
    slots: &[u8],
    lens: &[u8],
    ring: Ring,
    k: EditKey,
) -> KeyAnswer
    requires passed { Passed checked.format (lent text.old records.old texts.old checked.line checked.log) (rings.lent slots.now lens.now ring) (Stands·line (edit (edit_for k))) checked.last }
    requires k_value { fit_key catalogue k ≡ true }
    ensures { Does checked.format (lent text.old records.old texts.old checked.line checked.log)
        (rings.lent slots.now lens.now ring) (Stands·line (edit (edit_for k)))
        result (key_buffers text.new records.new texts.new slots.now lens.now) }
{
    let a = edited_by(checked, text, records, texts, k);
    reset_after(slots, lens, ring, a)
}

// Wrong answers ruled out: a stop that resets the ring; undo 0 that undoes nothing.
pub fn undo_key(
    checked: Checked,
    text: &mut [u8],
    records: &[u8],
    texts: &[u8],
    slots: &[u8],
    lens: &[u8],
    ring: Ring,
    n: RepeatCount,
) -> KeyAnswer
    requires { Passed checked.format (lent text.old records.now texts.now checked.line checked.log) (rings.lent slots.now lens.now ring) (Stands·line (undo n)) checked.last }
    ensures { Does checked.format (lent text.old records.now texts.now checked.line checked.log)
        (rings.lent slots.now lens.now ring) (Stands·line (undo n))
        result (key_buffers text.new records.now texts.now slots.now lens.now) }
{
    let a = undo_units(checked, text, records, texts, usize::from(n));
    reset_after(slots, lens, ring, a)
}
