// The calls of Changeset that are lent a log. Any state and any bytes may be handed over: what is unfit is turned away by a number
// of document 01. Checks 2, 4 and 8 come first, then 10.
#![tactic(auto)]

ghost use Rattle.std.specs.Prelude.{◌≡◌};
ghost use Rattle.repertoire.specs.Repertoire.{catalogue};
ghost use Rattle.formats.specs.Formats.{log_format};
ghost use Rattle.log_state.specs.Calls.{lent, Logged, answer_of, begin_call, end_call, insert_call, insert_str_call, delete_call};
ghost use Rattle.log_state.specs.Calls.{replace_call, truncate_call, last_insert_call};

use formats::format_for;
use log_records::EditKind;
use log_state::{Log, LogAnswer, check, is_single, refused, says};
use repertoire::{check_char, check_text, is_alnum};
use utf8::encode_at;

// Wrong answers ruled out: 10 while there is space; a mark one too high.
pub fn begin(records: &mut [u8], texts: &mut [u8], log: Log) -> LogAnswer
    ensures { Logged log_format (lent records.old texts.old log)
        (begin_call catalogue log_format (lent records.old texts.old log)) result records.new texts.new }
{
    let f = format_for(0);
    let newest = match check(f, records, texts, log, false) {
        Ok(newest) => newest,
        Err(why) => return refused(why, log),
    };
    log.begin(f, records, texts, newest)
}

// Wrong answers ruled out: the level kept; an empty group closed by an End.
pub fn end(records: &mut [u8], texts: &mut [u8], log: Log) -> LogAnswer
    ensures { Logged log_format (lent records.old texts.old log)
        (end_call catalogue log_format (lent records.old texts.old log)) result records.new texts.new }
{
    let f = format_for(0);
    let newest = match check(f, records, texts, log, false) {
        Ok(newest) => newest,
        Err(why) => return refused(why, log),
    };
    log.end(f, records, texts, newest)
}

// Wrong answers ruled out: a space merged with the letters before it; a letter merged across a Begin.
pub fn insert(records: &mut [u8], texts: &mut [u8], log: Log, idx: usize, ch: u32) -> LogAnswer
    ensures { Logged log_format (lent records.old texts.old log)
        (insert_call catalogue log_format (lent records.old texts.old log) idx ch) result records.new texts.new }
{
    let f = format_for(0);
    let newest = match check(f, records, texts, log, !check_char(ch)) {
        Ok(newest) => newest,
        Err(why) => return refused(why, log),
    };
    let mut buf = [0u8; 4];
    let n = encode_at(&mut buf, 0, ch).unwrap();
    let s = &buf[..n];
    log.record(
        f,
        records,
        texts,
        newest.last,
        is_alnum(ch),
        EditKind::Insert,
        idx,
        &s[..0],
        s,
    )
}

// Wrong answers ruled out: the redo list kept where the text is empty; a text merged with the one before it.
pub fn insert_str(
    records: &mut [u8],
    texts: &mut [u8],
    log: Log,
    idx: usize,
    buf: &[u8],
) -> LogAnswer
    ensures { Logged log_format (lent records.old texts.old log)
        (insert_str_call catalogue log_format (lent records.old texts.old log) idx buf.now) result records.new texts.new }
{
    let f = format_for(0);
    match check(f, records, texts, log, !check_text(buf)) {
        Ok(_) => {}
        Err(why) => return refused(why, log),
    }
    if buf.len() == 0 {
        return says(0, log.drop_redo());
    }
    log.record(
        f,
        records,
        texts,
        0,
        false,
        EditKind::Insert,
        idx,
        &buf[..0],
        buf,
    )
}

// Wrong answers ruled out: a backspaced letter put behind the one cut before; a cut of two letters merged.
pub fn delete(records: &mut [u8], texts: &mut [u8], log: Log, idx: usize, buf: &[u8]) -> LogAnswer
    ensures { Logged log_format (lent records.old texts.old log)
        (delete_call catalogue log_format (lent records.old texts.old log) idx buf.now) result records.new texts.new }
{
    let f = format_for(0);
    let newest = match check(f, records, texts, log, !check_text(buf)) {
        Ok(newest) => newest,
        Err(why) => return refused(why, log),
    };
    if buf.len() == 0 {
        return says(0, log.drop_redo());
    }
    log.record(
        f,
        records,
        texts,
        newest.last,
        is_single(buf),
        EditKind::Delete,
        idx,
        buf,
        &buf[..0],
    )
}

// Wrong answers ruled out: nothing recorded where both texts are empty; the new text merged in front of the one before.
pub fn replace(
    records: &mut [u8],
    texts: &mut [u8],
    log: Log,
    idx: usize,
    old: &[u8],
    new: &[u8],
) -> LogAnswer
    ensures { Logged log_format (lent records.old texts.old log)
        (replace_call catalogue log_format (lent records.old texts.old log) idx old.now new.now) result
        records.new texts.new }
{
    let f = format_for(0);
    let newest = match check(f, records, texts, log, !check_text(old) | !check_text(new)) {
        Ok(newest) => newest,
        Err(why) => return refused(why, log),
    };
    log.record(
        f,
        records,
        texts,
        newest.last,
        true,
        EditKind::Replace,
        idx,
        old,
        new,
    )
}

// Wrong answers ruled out: the redo list dropped; the level lowered by the Begins cut off.
pub fn truncate(records: &mut [u8], texts: &mut [u8], log: Log, len: usize) -> LogAnswer
    ensures { Logged log_format (lent records.old texts.old log)
        (truncate_call catalogue log_format (lent records.old texts.old log) len) result records.new texts.new }
{
    let f = format_for(0);
    match check(f, records, texts, log, false) {
        Ok(_) => {}
        Err(why) => return refused(why, log),
    }
    log.truncate(f, records, texts, len)
}

// Wrong answers ruled out: the old text of a replacement; a text behind a Begin.
pub fn last_insert(records: &[u8], texts: &[u8], log: Log) -> LogAnswer
    ensures { result ≡ answer_of log_format (lent records.now texts.now log)
        (last_insert_call catalogue log_format (lent records.now texts.now log)) }
{
    let f = format_for(0);
    let newest = match check(f, records, texts, log, false) {
        Ok(newest) => newest,
        Err(why) => return refused(why, log),
    };
    log.last_insert(f, records, texts, newest)
}
