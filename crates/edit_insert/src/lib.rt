// The calls of LineBuffer that put a text in: a character typed, n copies of a text, or a text in place of another. Any text, cursor,
// log and place may be handed over: what is unfit is turned away by a number of document 01.
#![tactic(auto)]

ghost use Rattle.std.specs.Prelude.{◌≡◌, ◌+◌, ◌-◌, ◌*◌, ◌≤◌, true, length, take};
ghost use Rattle.repertoire.specs.Repertoire.{catalogue};
ghost use Rattle.edit.specs.Calls.{lent, Ready, Answers, Makes};
ghost use Rattle.edit_insert.specs.Inserts.{empty_is, insert_plan, insert_call, yank_plan, yank_call, yank_pop_plan, yank_pop_call};
ghost use Rattle.edit_insert.specs.Inserts.{update_call};
ghost use Rattle.utf8.specs.Chars.{boundary};
ghost use Rattle.utf8.specs.Encode.{encode};
ghost use Rattle.repertoire.specs.Text.{is_text, is_char};
ghost use Rattle.formats.specs.Formats.{text_max};
ghost use Rattle.log_records.specs.Walks.{LastAt};
ghost use Rattle.edit.specs.Plan.{typed, pasted, once};
ghost use Rattle.buffer.specs.Edit.{copies as Inserts·copies};

use buffer::insert_copies;
use checks::{Line, Refused};
use edit::{
    Checked, EditAnswer, Own, admit, change, cut_and_put, is_split, put_in, refused, room_now,
    room_put, says,
};
use formats::format_for;
use keymap::RepeatCount;
use log_records::EditKind;
use log_state::Log;
use repertoire::{check_char, check_text, is_alnum};
use utf8::{encode_at, is_boundary};

// A character typed at the cursor, which goes behind it; s are its bytes.
pub fn type_char(
    checked: Checked,
    text: &mut [u8],
    records: &mut [u8],
    texts: &mut [u8],
    ch: u32,
    s: &[u8],
) -> EditAnswer
    requires ready { Ready checked.format (lent text.old records.old texts.old checked.line checked.log) }
    requires last_at { LastAt catalogue checked.format (take checked.log.undo.records records.old) checked.last }
    requires ch_value { is_char catalogue ch ≡ true }
    requires s_value { s.now ≡ encode ch }
    ensures { Makes checked.format (lent text.old records.old texts.old checked.line checked.log)
        (once (typed checked.line.cursor ch) (checked.line.cursor + length (encode ch)))
        result text.new records.new texts.new }
{
    let pos = checked.line.cursor;
    change(
        checked,
        text,
        records,
        texts,
        is_alnum(ch),
        EditKind::Insert,
        pos,
        pos,
        s,
        pos + s.len(),
    )
}

// n copies of a text put in at the cursor, in place: 9 is answered before one is made, and 10 before a byte changes.
pub fn put_copies(
    checked: Checked,
    text: &mut [u8],
    records: &mut [u8],
    texts: &mut [u8],
    s: &[u8],
    n: usize,
) -> EditAnswer
    requires ready { Ready checked.format (lent text.old records.old texts.old checked.line checked.log) }
    requires last_at { LastAt catalogue checked.format (take checked.log.undo.records records.old) checked.last }
    requires s_value { is_text catalogue s.now ≡ true }
    requires s_len_bound { (length s.now ≤ text_max) × (n ≤ 65535) }
    ensures { Makes checked.format (lent text.old records.old texts.old checked.line checked.log)
        (once (pasted checked.line.cursor (Inserts·copies n s.now)) (checked.line.cursor + length (Inserts·copies n s.now)))
        result text.new records.new texts.new }
{
    let len = checked.line.len;
    let pos = checked.line.cursor;
    let size = s.len() * n;
    if text.len() - len < size {
        return refused(Refused::Full, checked.line, checked.log);
    }
    let none = [0u8; 1];
    let end = pos + size;
    if size == 0 {
        return put_in(checked, text, records, texts, pos, &none[..0], end);
    }
    let now = room_now(checked.format, records, texts, checked.log, checked.last);
    if room_put(checked.format, records, texts, now, pos, size).is_err() {
        return refused(Refused::LogFull, checked.line, checked.log);
    }
    insert_copies(text, len, pos, s, n);
    let a = checked.log.record(
        checked.format,
        records,
        texts,
        0,
        false,
        EditKind::Insert,
        pos,
        &none[..0],
        &text[pos..end],
    );
    let noted = a.log;
    let made = Line {
        len: len + size,
        cursor: end,
    };
    says(0, made, noted)
}

// insert, where the checks have passed.
pub fn insert_checked(
    checked: Checked,
    text: &mut [u8],
    records: &mut [u8],
    texts: &mut [u8],
    ch: u32,
    n: RepeatCount,
) -> EditAnswer
    requires ready { Ready checked.format (lent text.old records.old texts.old checked.line checked.log) }
    requires last_at { LastAt catalogue checked.format (take checked.log.undo.records records.old) checked.last }
    requires ch_value { is_char catalogue ch ≡ true }
    ensures { Makes checked.format (lent text.old records.old texts.old checked.line checked.log)
        (insert_plan checked.line.cursor ch n)
        result text.new records.new texts.new }
{
    let mut buf = [0u8; 4];
    let size = encode_at(&mut buf, 0, ch).unwrap();
    let s = &buf[..size];
    if n == 1 {
        return type_char(checked, text, records, texts, ch, s);
    }
    put_copies(checked, text, records, texts, s, usize::from(n))
}

// Wrong answers ruled out: n = 0 that keeps the redo list; two characters merged as if they were typed.
pub fn insert(
    text: &mut [u8],
    records: &mut [u8],
    texts: &mut [u8],
    line: Line,
    log: Log,
    ch: u32,
    n: RepeatCount,
) -> EditAnswer
    ensures { Answers (lent text.old records.old texts.old line log) (λ F l. insert_call catalogue F l ch n)
        result text.new records.new texts.new }
{
    let own = Own {
        foreign: !check_char(ch),
        ..Own::NONE
    };
    let f = format_for(text.len());
    let checked = match admit(f, text, records, texts, line, log, own) {
        Ok(checked) => checked,
        Err(why) => return refused(why, line, log),
    };
    insert_checked(checked, text, records, texts, ch, n)
}

// yank, where the checks have passed.
pub fn yank_checked(
    checked: Checked,
    text: &mut [u8],
    records: &mut [u8],
    texts: &mut [u8],
    buf: &[u8],
    n: RepeatCount,
) -> EditAnswer
    requires ready { Ready checked.format (lent text.old records.old texts.old checked.line checked.log) }
    requires last_at { LastAt catalogue checked.format (take checked.log.undo.records records.old) checked.last }
    requires buf_value { is_text catalogue buf.now ≡ true }
    requires buf_in_bounds { length buf.now ≤ length text.old }
    ensures { Makes checked.format (lent text.old records.old texts.old checked.line checked.log)
        (yank_plan checked.line.cursor buf.now n)
        result text.new records.new texts.new }
{
    if buf.len() == 0 {
        return says(1, checked.line, checked.log);
    }
    put_copies(checked, text, records, texts, buf, usize::from(n))
}

// Wrong answers ruled out: an empty text answered 0; 10 where n copies pass the text's room (9).
pub fn yank(
    text: &mut [u8],
    records: &mut [u8],
    texts: &mut [u8],
    line: Line,
    log: Log,
    buf: &[u8],
    n: RepeatCount,
) -> EditAnswer
    ensures { Answers (lent text.old records.old texts.old line log) (λ F l. yank_call catalogue F l buf.now n)
        result text.new records.new texts.new }
{
    let own = Own {
        sizes: text.len() < buf.len(),
        foreign: !check_text(buf),
        ..Own::NONE
    };
    let f = format_for(text.len());
    let checked = match admit(f, text, records, texts, line, log, own) {
        Ok(checked) => checked,
        Err(why) => return refused(why, line, log),
    };
    yank_checked(checked, text, records, texts, buf, n)
}

// The place so many bytes before another, 0 where there are not so many.
pub fn back(pos: usize, size: usize) -> usize
    ensures { result ≡ pos - size }
{
    if pos < size {
        return 0;
    }
    pos - size
}

// The number of a call whose text may be empty.
fn empty_is(s: &[u8]) -> u32
    ensures { result ≡ empty_is s.now }
{
    if s.len() == 0 {
        return 1;
    }
    0
}

// yank_pop, where the checks have passed.
pub fn yank_pop_checked(
    checked: Checked,
    text: &mut [u8],
    records: &mut [u8],
    texts: &mut [u8],
    size: usize,
    buf: &[u8],
) -> EditAnswer
    requires ready { Ready checked.format (lent text.old records.old texts.old checked.line checked.log) }
    requires last_at { LastAt catalogue checked.format (take checked.log.undo.records records.old) checked.last }
    requires buf_value { is_text catalogue buf.now ≡ true }
    requires buf_in_bounds { length buf.now ≤ length text.old }
    requires size_le_cursor { size ≤ checked.line.cursor }
    requires size_value { boundary (take checked.line.len text.old) (checked.line.cursor - size) ≡ true }
    ensures { Makes checked.format (lent text.old records.old texts.old checked.line checked.log)
        (yank_pop_plan checked.line.cursor size buf.now)
        result text.new records.new texts.new }
{
    let pos = checked.line.cursor;
    let at = pos - size;
    let number = empty_is(buf);
    cut_and_put(
        checked,
        text,
        records,
        texts,
        at,
        pos,
        at,
        buf,
        at + buf.len(),
        number,
    )
}

// Wrong answers ruled out: an empty text that leaves the old one; a size over the cursor held at 0.
pub fn yank_pop(
    text: &mut [u8],
    records: &mut [u8],
    texts: &mut [u8],
    line: Line,
    log: Log,
    size: usize,
    buf: &[u8],
) -> EditAnswer
    ensures { Answers (lent text.old records.old texts.old line log) (λ F l. yank_pop_call catalogue F l size buf.now)
        result text.new records.new texts.new }
{
    let len = line.len;
    let pos = line.cursor;
    let at = back(pos, size);
    let split = is_split(text, len, at);
    let own = Own {
        sizes: text.len() < buf.len(),
        foreign: !check_text(buf),
        place: pos < size,
        split,
        ..Own::NONE
    };
    let f = format_for(text.len());
    let checked = match admit(f, text, records, texts, line, log, own) {
        Ok(checked) => checked,
        Err(why) => return refused(why, line, log),
    };
    yank_pop_checked(checked, text, records, texts, size, buf)
}

// Wrong answers ruled out: the new cursor tried against the old text; the old text and the new one in one Replace record.
pub fn update(
    text: &mut [u8],
    records: &mut [u8],
    texts: &mut [u8],
    line: Line,
    log: Log,
    buf: &[u8],
    pos: usize,
) -> EditAnswer
    ensures { Answers (lent text.old records.old texts.old line log) (λ F l. update_call catalogue F l buf.now pos)
        result text.new records.new texts.new }
{
    let own = Own {
        sizes: text.len() < buf.len(),
        foreign: !check_text(buf),
        place: buf.len() < pos,
        split: !is_boundary(buf, pos),
        ..Own::NONE
    };
    let f = format_for(text.len());
    let checked = match admit(f, text, records, texts, line, log, own) {
        Ok(checked) => checked,
        Err(why) => return refused(why, line, log),
    };
    let len = line.len;
    cut_and_put(checked, text, records, texts, 0, len, 0, buf, pos, 0)
}
