// Redo: undo.rs, redo of Changeset, and document 01 for the stops 12 and 9. Any text, cursor and log may be handed over: what is
// unfit is turned away by a number of document 01. Records and their texts are only read: the seam between the two lists moves.
// The text is changed as edits change it, as in undo.
#![tactic(auto)]

ghost use Rattle.std.specs.Prelude.{◌≡◌, false, cond, ◌&&◌, ◌<◌, None, eqb, length};
ghost use Rattle.repertoire.specs.Repertoire.{catalogue};
ghost use Rattle.formats.specs.Formats.{Fit};
ghost use Rattle.edit.specs.Calls.{lent, state_of, Edited, Ready, Answers};
ghost use Rattle.undo_redo.specs.Redo.{redo_out, redo_call, Redone};
ghost use Rattle.undo.specs.Steps.{lent_by, PassesOne};

use checks::Line;
use edit::{Checked, EditAnswer, Own, admit, refused, says};
use formats::{Format, format_for};
use keymap::RepeatCount;
use log_records::{Kind, read_record};
use log_state::Log;
use undo::{Taken, answer};
use undo_step::{Step, undo_or_redo};

// The next record redone. A stop changes nothing.
fn redo_record(f: Format, text: &mut [u8], records: &[u8], texts: &[u8], s: Step, log: Log) -> Taken
    requires fit { Fit f }
    requires ready { Ready f (lent_by text.old records.now texts.now s log) }
    requires number_value { (s.stop ≡ None) × (0 < log.redo.records) }
    ensures { PassesOne f (lent_by text.old records.now texts.now s log) false s.undone result text.new }
{
    let u = log.undo;
    let at = u.records;
    let t = u.texts;
    let r = read_record(f, records, at).unwrap();
    let step = undo_or_redo(text, texts, s, r, t, false);
    let kind = r.kind;
    if step.stop.is_some() {
        return Taken { step, log, kind };
    }
    Taken {
        step,
        log: log.move_seam(at + r.size, t + (r.old + r.new)),
        kind,
    }
}

// The records of one unit redone. A record redone is passed turned round: a Begin as an End, an End as a Begin.
fn redo_unit(checked: Checked, text: &mut [u8], records: &[u8], texts: &[u8]) -> EditAnswer
    requires fit { Fit checked.format }
    requires ready { Ready checked.format (lent text.old records.now texts.now checked.line checked.log) }
    ensures { Redone checked.format (lent text.old records.now texts.now checked.line checked.log) result text.new }
{
    let mut s = Step {
        stop: None,
        len: checked.line.len,
        cursor: checked.line.cursor,
        undone: false,
    };
    let mut g = checked.log;
    let mut ends: usize = 0;
    let mut begins: usize = 0;
    loop {
        let d = g.redo;
        if d.records == 0 {
            return answer(s, g);
        }
        let p = redo_record(checked.format, text, records, texts, s, g);
        s = p.step;
        g = p.log;
        if s.stop.is_some() {
            return answer(s, g);
        }
        ends += usize::from(matches!(p.kind, Kind::Begin));
        begins += usize::from(matches!(p.kind, Kind::End));
        if ends <= begins {
            return answer(s, g);
        }
    }
}

// The number of two redos together: a 1 behind a 0 is a 0.
fn behind(number: u32, k: u32) -> u32
    ensures { result ≡ cond (eqb number 0 && eqb k 1) 0 k }
{
    match (number, k) {
        (0, 1) => 0,
        _ => k,
    }
}

// Redo on a text and a log that the checks pass: n times the records of one unit. A stop ends them; where no record is left to
// redo, the units left would change nothing.
fn redo_units(
    checked: Checked,
    text: &mut [u8],
    records: &[u8],
    texts: &[u8],
    n: usize,
) -> EditAnswer
    requires fit { Fit checked.format }
    requires ready { Ready checked.format (lent text.old records.now texts.now checked.line checked.log) }
    ensures outcome { Edited checked.format (lent text.old records.now texts.now checked.line checked.log)
        (redo_out (length text.old) n (state_of catalogue checked.format (lent text.old records.now texts.now checked.line checked.log)))
        result text.new records.now texts.now }
    ensures still { result.log ≡ checked.log → text.new ≡ text.old }
{
    let mut line_now = checked.line;
    let mut log_now = checked.log;
    let mut number: u32 = 1;
    for _ in 0..n {
        if log_now.redo.records == 0 {
            break;
        }
        let a = redo_unit(
            Checked {
                line: line_now,
                log: log_now,
                ..checked
            },
            text,
            records,
            texts,
        );
        line_now = a.line;
        log_now = a.log;
        number = behind(number, a.number);
        if 1 < number {
            break;
        }
    }
    says(number, line_now, log_now)
}

// Where the log is as it was, no record was handled, and not a byte of the text's buffer is changed (still).
// Wrong answers ruled out: redo 0 answered 0; a unit redone without the End that closes it.
pub fn redo(
    text: &mut [u8],
    records: &[u8],
    texts: &[u8],
    line: Line,
    log: Log,
    n: RepeatCount,
) -> EditAnswer
    ensures outcome { Answers (lent text.old records.now texts.now line log) (λ F l. redo_call catalogue F l n)
        result text.new records.now texts.now }
    ensures still { result.log ≡ log → text.new ≡ text.old }
{
    let f = format_for(text.len());
    let checked = match admit(f, text, records, texts, line, log, Own::NONE) {
        Ok(checked) => checked,
        Err(why) => return refused(why, line, log),
    };
    redo_units(checked, text, records, texts, usize::from(n))
}
