// Cancel: document 01, with undo's walk over the records. Any text, cursor and log may be handed over: what is unfit is turned
// away by a number of document 01. Records and their texts are only read. The text is changed as edits change it, as in undo.
#![tactic(auto)]

ghost use Rattle.std.specs.Prelude.{◌≡◌, true, ◌≤◌, length};
ghost use Rattle.repertoire.specs.Repertoire.{catalogue};
ghost use Rattle.formats.specs.Formats.{Fit, records_max};
ghost use Rattle.edit.specs.Calls.{lent, state_of, Edited, Ready, Answers};
ghost use Rattle.log_records.specs.Walks.{SizesOf};
ghost use Rattle.undo_cancel.specs.Cancel.{opens, begins_down, cancel_out, cancel_call};
ghost use Rattle.undo_cancel.specs.Open.{WrittenIn, OpenAt};

use checks::Line;
use edit::{Checked, EditAnswer, Own, admit, refused, says};
use formats::{Format, RECORDS_MAX, format_for};
use log_records::{Kind, read_record, write_sizes};
use log_state::Log;
use undo::{answer, undo_record};
use undo_step::Step;

// The Begins from the newest record of a list down to a mark, where the record of that number, from 0, is a Begin with no End
// after it. The sizes of the records are written down.
fn open_begins(f: Format, records: &[u8], sizes: &[u8], count: usize, mark: usize) -> Option<usize>
    requires fit { Fit f }
    requires written_in { WrittenIn f records.now count sizes.now }
    requires records_in_bounds { (length records.now ≤ length sizes.now) × (length records.now ≤ records_max) }
    ensures { OpenAt f records.now mark result }
{
    let mut at = records.len();
    let mut begins: usize = 0;
    for left in (0..count).rev() {
        at -= usize::from(sizes[at - 1]);
        match read_record(f, records, at).unwrap().kind {
            Kind::Begin => {
                begins += 1;
                if left == mark {
                    return Some(begins);
                }
            }
            Kind::End => return None,
            Kind::Edit(_) => {}
        }
    }
    None
}

// The group of a mark undone and dropped: count is the number of records, begins that of the Begins dropped.
fn cancel_by_sizes(
    checked: Checked,
    text: &mut [u8],
    records: &[u8],
    texts: &[u8],
    sizes: &[u8],
    count: usize,
    mark: usize,
    begins: usize,
) -> EditAnswer
    requires fit { Fit checked.format }
    requires ready { Ready checked.format (lent text.old records.now texts.now checked.line checked.log) }
    requires records_in_bounds { checked.log.undo.records ≤ length sizes.now }
    requires sizes_of { SizesOf checked.format sizes.now (state_of catalogue checked.format (lent text.old records.now texts.now checked.line checked.log)).log.undo }
    requires count_value { count ≡ length (state_of catalogue checked.format (lent text.old records.now texts.now checked.line checked.log)).log.undo }
    requires log_value { opens mark (state_of catalogue checked.format (lent text.old records.now texts.now checked.line checked.log)).log.undo ≡ true }
    requires begins_value { begins ≡ begins_down mark (state_of catalogue checked.format (lent text.old records.now texts.now checked.line checked.log)).log.undo }
    ensures outcome { Edited checked.format (lent text.old records.now texts.now checked.line checked.log)
        (cancel_out (length text.old) mark (state_of catalogue checked.format (lent text.old records.now texts.now checked.line checked.log)))
        result text.new records.now texts.now }
    ensures still { result.log ≡ checked.log → text.new ≡ text.old }
{
    let mut s = Step {
        stop: None,
        len: checked.line.len,
        cursor: checked.line.cursor,
        undone: false,
    };
    let mut g = checked.log;
    for _ in mark..count {
        let p = undo_record(checked.format, text, records, texts, sizes, s, g);
        s = p.step;
        g = p.log;
        if s.stop.is_some() {
            return answer(s, g);
        }
    }
    let last = Line {
        len: s.len,
        cursor: s.cursor,
    };
    says(0, last, g.cancel(begins))
}

// cancel_group, with room to note the sizes of the undo list's records.
fn cancel_with(
    checked: Checked,
    text: &mut [u8],
    records: &[u8],
    texts: &[u8],
    sizes: &mut [u8],
    mark: usize,
) -> EditAnswer
    requires fit { Fit checked.format }
    requires ready { Ready checked.format (lent text.old records.now texts.now checked.line checked.log) }
    requires records_in_bounds { checked.log.undo.records ≤ length sizes.old }
    ensures outcome { Edited checked.format (lent text.old records.now texts.now checked.line checked.log)
        (cancel_out (length text.old) mark (state_of catalogue checked.format (lent text.old records.now texts.now checked.line checked.log)))
        result text.new records.now texts.now }
    ensures still { result.log ≡ checked.log → text.new ≡ text.old }
{
    let u = checked.log.undo;
    let ur = u.records;
    let count = write_sizes(checked.format, &records[..ur], sizes);
    match open_begins(checked.format, &records[..ur], sizes, count, mark) {
        Some(begins) => cancel_by_sizes(checked, text, records, texts, sizes, count, mark, begins),
        None => says(1, checked.line, checked.log),
    }
}

// Cancel on a text and a log that the checks pass: the group of the mark undone and dropped. A short list has a short array, as in
// undo.
fn cancel_group(
    checked: Checked,
    text: &mut [u8],
    records: &[u8],
    texts: &[u8],
    mark: usize,
) -> EditAnswer
    requires fit { Fit checked.format }
    requires ready { Ready checked.format (lent text.old records.now texts.now checked.line checked.log) }
    ensures outcome { Edited checked.format (lent text.old records.now texts.now checked.line checked.log)
        (cancel_out (length text.old) mark (state_of catalogue checked.format (lent text.old records.now texts.now checked.line checked.log)))
        result text.new records.now texts.now }
    ensures still { result.log ≡ checked.log → text.new ≡ text.old }
{
    let u = checked.log.undo;
    if u.records <= 1024 {
        let mut few = [0u8; 1024];
        return cancel_with(checked, text, records, texts, &mut few, mark);
    }
    let mut sizes = [0u8; RECORDS_MAX];
    cancel_with(checked, text, records, texts, &mut sizes, mark)
}

// Where the log is as it was, no record was handled, and not a byte of the text's buffer is changed (still).
// Wrong answers ruled out: the level of the group left as it was; the redo list kept.
pub fn cancel(
    text: &mut [u8],
    records: &[u8],
    texts: &[u8],
    line: Line,
    log: Log,
    mark: usize,
) -> EditAnswer
    ensures outcome { Answers (lent text.old records.now texts.now line log) (λ F l. cancel_call catalogue F l mark)
        result text.new records.now texts.now }
    ensures still { result.log ≡ log → text.new ≡ text.old }
{
    let f = format_for(text.len());
    let checked = match admit(f, text, records, texts, line, log, Own::NONE) {
        Ok(checked) => checked,
        Err(why) => return refused(why, line, log),
    };
    cancel_group(checked, text, records, texts, mark)
}
