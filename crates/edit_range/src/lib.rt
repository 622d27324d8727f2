// The calls of LineBuffer with a range of places of their own. Any text, cursor, log and place may be handed over: what is unfit
// is turned away by a number of document 01.
#![tactic(auto)]

ghost use Rattle.repertoire.specs.Repertoire.{catalogue};
ghost use Rattle.edit.specs.Calls.{lent, Answers};
ghost use Rattle.edit_range.specs.Ranges.{delete_range_call, replace_call};

use checks::Line;
use edit::{EditAnswer, Own, admit, change, cut_out, is_split, refused};
use formats::format_for;
use log_records::EditKind;
use log_state::Log;
use repertoire::check_text;

// Wrong answers ruled out: the redo list kept for an empty range; the cursor left behind the cut.
pub fn delete_range(
    text: &mut [u8],
    records: &mut [u8],
    texts: &mut [u8],
    line: Line,
    log: Log,
    start: usize,
    end: usize,
) -> EditAnswer
    ensures { Answers (lent text.old records.old texts.old line log) (λ F l. delete_range_call catalogue F l start end)
        result text.new records.new texts.new }
{
    let len = line.len;
    let split = is_split(text, len, start) | is_split(text, len, end);
    let own = Own {
        place: (len < end) | (end < start),
        split,
        ..Own::NONE
    };
    let f = format_for(text.len());
    let checked = match admit(f, text, records, texts, line, log, own) {
        Ok(checked) => checked,
        Err(why) => return refused(why, line, log),
    };
    cut_out(checked, text, records, texts, start, end)
}

// Wrong answers ruled out: nothing by nothing left unrecorded; the cursor left at the start.
pub fn replace(
    text: &mut [u8],
    records: &mut [u8],
    texts: &mut [u8],
    line: Line,
    log: Log,
    start: usize,
    end: usize,
    buf: &[u8],
) -> EditAnswer
    ensures { Answers (lent text.old records.old texts.old line log) (λ F l. replace_call catalogue F l start end buf.now)
        result text.new records.new texts.new }
{
    let len = line.len;
    let split = is_split(text, len, start) | is_split(text, len, end);
    let own = Own {
        sizes: text.len() < buf.len(),
        foreign: !check_text(buf),
        place: (len < end) | (end < start),
        split,
        ..Own::NONE
    };
    let f = format_for(text.len());
    let checked = match admit(f, text, records, texts, line, log, own) {
        Ok(checked) => checked,
        Err(why) => return refused(why, line, log),
    };
    change(
        checked,
        text,
        records,
        texts,
        true,
        EditKind::Replace,
        start,
        end,
        buf,
        start + buf.len(),
    )
}
