// Undo: undo.rs, undo of Changeset, and document 01 for the stops 12 and 9. Any text, cursor and log may be handed over: what is
// unfit is turned away by a number of document 01. Records and their texts are only read: the seam between the two lists moves.
// The text is changed as edits change it: a cut closes the gap, an insertion shifts the tail from its place onward.
#![tactic(auto)]

ghost use Rattle.std.specs.Prelude.{◌≡◌, true, false, ◌≤◌, ◌<◌, None, length, IfSome};
ghost use Rattle.repertoire.specs.Repertoire.{catalogue};
ghost use Rattle.formats.specs.Formats.{Fit};
ghost use Rattle.edit.specs.Calls.{lent, state_of, Edited, Ready, Answers};
ghost use Rattle.log_records.specs.Records.{record_at};
ghost use Rattle.log_records.specs.Walks.{SizesOf};
ghost use Rattle.undo_step.specs.UndoStep.{stop_number};
ghost use Rattle.undo.specs.Undo.{number_of, undo_out, undo_call};
ghost use Rattle.undo.specs.Steps.{ends_in, line_of, lent_by, LastStart, PassesOne};

use checks::Line;
use edit::{Checked, EditAnswer, Own, admit, refused, says};
use formats::{Format, RECORDS_MAX, format_for};
use keymap::RepeatCount;
use log_records::{Kind, read_record, write_sizes};
use log_state::Log;
use undo_step::{Step, undo_or_redo};

// A record undone or redone: where the walk has come to, the log with its seam there, and the record's kind.
#[derive(Clone, Copy)]
pub struct Taken {
    pub step: Step,
    pub log: Log,
    pub kind: Kind,
}

// The newest record undone, which begins at start. A stop changes nothing.
fn undo_at(
    f: Format,
    text: &mut [u8],
    records: &[u8],
    texts: &[u8],
    start: usize,
    s: Step,
    log: Log,
) -> Taken
    requires fit { Fit f }
    requires ready { Ready f (lent_by text.old records.now texts.now s log) }
    requires number_value { (s.stop ≡ None) × (0 < log.undo.records) }
    requires last_start { LastStart f (lent_by text.old records.now texts.now s log) start }
    ensures { PassesOne f (lent_by text.old records.now texts.now s log) true s.undone result text.new }
{
    let u = log.undo;
    let r = read_record(f, records, start).unwrap();
    let first = u.texts - (r.old + r.new);
    let step = undo_or_redo(text, texts, s, r, first, true);
    let kind = r.kind;
    if step.stop.is_some() {
        return Taken { step, log, kind };
    }
    Taken {
        step,
        log: log.move_seam(start, first),
        kind,
    }
}

// The same where the sizes of the undo list's records are written down.
pub fn undo_record(
    f: Format,
    text: &mut [u8],
    records: &[u8],
    texts: &[u8],
    sizes: &[u8],
    s: Step,
    log: Log,
) -> Taken
    requires fit { Fit f }
    requires ready { Ready f (lent_by text.old records.now texts.now s log) }
    requires number_value { (s.stop ≡ None) × (0 < log.undo.records) × (log.undo.records ≤ length sizes.now) }
    requires sizes_of { SizesOf f sizes.now (state_of catalogue f (lent_by text.old records.now texts.now s log)).log.undo }
    ensures { PassesOne f (lent_by text.old records.now texts.now s log) true s.undone result text.new }
{
    let u = log.undo;
    let at = u.records;
    let start = at - usize::from(sizes[at - 1]);
    undo_at(f, text, records, texts, start, s, log)
}

// The answer of a walk: the number of a stop, else 0 exactly where a record of a text was undone.
pub fn answer(s: Step, log: Log) -> EditAnswer
    ensures { result ≡ record { number = number_of (stop_number s.stop) s.undone; from = 0; to = 0; line = line_of s; log = log } }
{
    let line = Line {
        len: s.len,
        cursor: s.cursor,
    };
    match s.stop {
        Some(why) => says(why.into(), line, log),
        None => says(u32::from(!s.undone), line, log),
    }
}

// undo_units with the sizes of the undo list's records written down. A unit is done where the Ends passed are no more than the Begins.
fn undo_by_sizes(
    checked: Checked,
    text: &mut [u8],
    records: &[u8],
    texts: &[u8],
    sizes: &[u8],
    n: usize,
) -> EditAnswer
    requires fit { Fit checked.format }
    requires ready { Ready checked.format (lent text.old records.now texts.now checked.line checked.log) }
    requires records_in_bounds { checked.log.undo.records ≤ length sizes.now }
    requires sizes_of { SizesOf checked.format sizes.now (state_of catalogue checked.format (lent text.old records.now texts.now checked.line checked.log)).log.undo }
    ensures outcome { Edited checked.format (lent text.old records.now texts.now checked.line checked.log)
        (undo_out (length text.old) n (state_of catalogue checked.format (lent text.old records.now texts.now checked.line checked.log)))
        result text.new records.now texts.now }
    ensures still { result.log ≡ checked.log → text.new ≡ text.old }
{
    let mut s = Step {
        stop: None,
        len: checked.line.len,
        cursor: checked.line.cursor,
        undone: false,
    };
    let mut g = checked.log;
    let mut left = n;
    let mut ends: usize = 0;
    let mut begins: usize = 0;
    loop {
        let u = g.undo;
        if u.records == 0 {
            return answer(s, g);
        }
        let p = undo_record(checked.format, text, records, texts, sizes, s, g);
        s = p.step;
        g = p.log;
        if s.stop.is_some() {
            return answer(s, g);
        }
        begins += usize::from(matches!(p.kind, Kind::Begin));
        ends += usize::from(matches!(p.kind, Kind::End));
        if begins < ends {
            continue;
        }
        if left <= 1 {
            return answer(s, g);
        }
        left -= 1;
    }
}

// One unit that is the newest record alone: it begins at last, and is no End.
fn undo_newest(
    checked: Checked,
    text: &mut [u8],
    records: &[u8],
    texts: &[u8],
    n: usize,
) -> EditAnswer
    requires fit { Fit checked.format }
    requires ready { Ready checked.format (lent text.old records.now texts.now checked.line checked.log) }
    requires n_bound { (n ≤ 1) × (0 < checked.log.undo.records) }
    requires last_start { LastStart checked.format (lent text.old records.now texts.now checked.line checked.log) checked.last }
    requires not_end { IfSome (record_at checked.format records.now checked.last) (λ r. ends_in r.kind ≡ 0) }
    ensures outcome { Edited checked.format (lent text.old records.now texts.now checked.line checked.log)
        (undo_out (length text.old) n (state_of catalogue checked.format (lent text.old records.now texts.now checked.line checked.log)))
        result text.new records.now texts.now }
    ensures still { result.log ≡ checked.log → text.new ≡ text.old }
{
    let s = Step {
        stop: None,
        len: checked.line.len,
        cursor: checked.line.cursor,
        undone: false,
    };
    let p = undo_at(
        checked.format,
        text,
        records,
        texts,
        checked.last,
        s,
        checked.log,
    );
    answer(p.step, p.log)
}

// Undo on a text and a log that the checks pass: the newest records, until n units are done. A unit is done where no End that
// was passed waits for its Begin. The newest record, which begins at last, is all of a single unit where it is no End; else the sizes
// of the records are written down, in an array that is cleared at each call, so that a short list has a short one.
pub fn undo_units(
    checked: Checked,
    text: &mut [u8],
    records: &[u8],
    texts: &[u8],
    n: usize,
) -> EditAnswer
    requires fit { Fit checked.format }
    requires ready { Ready checked.format (lent text.old records.now texts.now checked.line checked.log) }
    requires last_start { LastStart checked.format (lent text.old records.now texts.now checked.line checked.log) checked.last }
    ensures outcome { Edited checked.format (lent text.old records.now texts.now checked.line checked.log)
        (undo_out (length text.old) n (state_of catalogue checked.format (lent text.old records.now texts.now checked.line checked.log)))
        result text.new records.now texts.now }
    ensures still { result.log ≡ checked.log → text.new ≡ text.old }
{
    let u = checked.log.undo;
    let ur = u.records;
    if (n <= 1) & (0 < ur) {
        let r = read_record(checked.format, records, checked.last).unwrap();
        if !matches!(r.kind, Kind::End) {
            return undo_newest(checked, text, records, texts, n);
        }
    }
    if ur <= 1024 {
        let mut few = [0u8; 1024];
        write_sizes(checked.format, &records[..ur], &mut few);
        return undo_by_sizes(checked, text, records, texts, &few, n);
    }
    let mut sizes = [0u8; RECORDS_MAX];
    write_sizes(checked.format, &records[..ur], &mut sizes);
    undo_by_sizes(checked, text, records, texts, &sizes, n)
}

// Where the log is as it was, no record was handled, and not a byte of the text's buffer is changed (still).
// Wrong answers ruled out: undo 0 that undoes nothing; a unit that goes on over a group's Begin to the end of the list.
pub fn undo(
    text: &mut [u8],
    records: &[u8],
    texts: &[u8],
    line: Line,
    log: Log,
    n: RepeatCount,
) -> EditAnswer
    ensures outcome { Answers (lent text.old records.now texts.now line log) (λ F l. undo_call catalogue F l n)
        result text.new records.now texts.now }
    ensures still { result.log ≡ log → text.new ≡ text.old }
{
    let f = format_for(text.len());
    let checked = match admit(f, text, records, texts, line, log, Own::NONE) {
        Ok(checked) => checked,
        Err(why) => return refused(why, line, log),
    };
    undo_units(checked, text, records, texts, usize::from(n))
}
