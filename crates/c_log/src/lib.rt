// The entries for C and Rust callers to the log: each is the call of the same name.
#![tactic(auto)]

ghost use Rattle.std.specs.Prelude.{ℕ, ◌≡◌, List};
ghost use Rattle.repertoire.specs.Repertoire.{catalogue};
ghost use Rattle.formats.specs.Formats.{log_format};
ghost use Rattle.log_state.specs.Calls.{lent, Logged, insert_call, insert_str_call, delete_call, replace_call, truncate_call};
ghost use Rattle.edit.specs.Calls as edits;
ghost use Rattle.checks.specs.declared.Line as declared;
ghost use Rattle.calls.specs.Calls as asked;
ghost use Rattle.calls.specs.Calls.{begin, end, last_insert, undo, redo, cancel};
ghost use Rattle.calls.specs.CallContracts.{Meets, buffers};

use checks::Line;
use edit::EditAnswer;
use log_state::{Log, LogAnswer};

#[unsafe(no_mangle)]
pub extern "C" fn tlf_log_new() -> Log
    ensures { result ≡ record { undo = record { records = 0; texts = 0 }; redo = record { records = 0; texts = 0 }; level = 0 } }
{
    Log::new()
}

#[unsafe(no_mangle)]
pub extern "C" fn tlf_log_begin(records: &mut [u8], texts: &mut [u8], log: Log) -> LogAnswer
    ensures { (text : List ℕ) (line : declared.Line) → Meets catalogue (asked.log begin) (edits.lent text records.old texts.old line log)
        result (buffers text records.new texts.new) }
{
    log_calls::begin(records, texts, log)
}

#[unsafe(no_mangle)]
pub extern "C" fn tlf_log_end(records: &mut [u8], texts: &mut [u8], log: Log) -> LogAnswer
    ensures { (text : List ℕ) (line : declared.Line) → Meets catalogue (asked.log end) (edits.lent text records.old texts.old line log)
        result (buffers text records.new texts.new) }
{
    log_calls::end(records, texts, log)
}

#[unsafe(no_mangle)]
pub extern "C" fn tlf_log_insert(
    records: &mut [u8],
    texts: &mut [u8],
    log: Log,
    idx: usize,
    ch: u32,
) -> LogAnswer
    ensures { Logged log_format (lent records.old texts.old log)
        (insert_call catalogue log_format (lent records.old texts.old log) idx ch) result records.new texts.new }
{
    log_calls::insert(records, texts, log, idx, ch)
}

#[unsafe(no_mangle)]
pub extern "C" fn tlf_log_insert_str(
    records: &mut [u8],
    texts: &mut [u8],
    log: Log,
    idx: usize,
    buf: &[u8],
) -> LogAnswer
    ensures { Logged log_format (lent records.old texts.old log)
        (insert_str_call catalogue log_format (lent records.old texts.old log) idx buf.now) result records.new texts.new }
{
    log_calls::insert_str(records, texts, log, idx, buf)
}

#[unsafe(no_mangle)]
pub extern "C" fn tlf_log_delete(
    records: &mut [u8],
    texts: &mut [u8],
    log: Log,
    idx: usize,
    buf: &[u8],
) -> LogAnswer
    ensures { Logged log_format (lent records.old texts.old log)
        (delete_call catalogue log_format (lent records.old texts.old log) idx buf.now) result records.new texts.new }
{
    log_calls::delete(records, texts, log, idx, buf)
}

#[unsafe(no_mangle)]
pub extern "C" fn tlf_log_replace(
    records: &mut [u8],
    texts: &mut [u8],
    log: Log,
    idx: usize,
    old: &[u8],
    new: &[u8],
) -> LogAnswer
    ensures { Logged log_format (lent records.old texts.old log)
        (replace_call catalogue log_format (lent records.old texts.old log) idx old.now new.now) result
        records.new texts.new }
{
    log_calls::replace(records, texts, log, idx, old, new)
}

#[unsafe(no_mangle)]
pub extern "C" fn tlf_log_truncate(
    records: &mut [u8],
    texts: &mut [u8],
    log: Log,
    len: usize,
) -> LogAnswer
    ensures { Logged log_format (lent records.old texts.old log)
        (truncate_call catalogue log_format (lent records.old texts.old log) len) result records.new texts.new }
{
    log_calls::truncate(records, texts, log, len)
}

#[unsafe(no_mangle)]
pub extern "C" fn tlf_log_last_insert(records: &[u8], texts: &[u8], log: Log) -> LogAnswer
    ensures { (text : List ℕ) (line : declared.Line) → Meets catalogue (asked.log last_insert) (edits.lent text records.now texts.now line log)
        result (buffers text records.now texts.now) }
{
    log_calls::last_insert(records, texts, log)
}

#[unsafe(no_mangle)]
pub extern "C" fn tlf_log_undo(
    text: &mut [u8],
    records: &[u8],
    texts: &[u8],
    line: Line,
    log: Log,
    n: u16,
) -> EditAnswer
    ensures outcome { Meets catalogue (undo n) (edits.lent text.old records.now texts.now line log)
        result (buffers text.new records.now texts.now) }
    ensures still { result.log ≡ log → text.new ≡ text.old }
{
    undo::undo(text, records, texts, line, log, n)
}

#[unsafe(no_mangle)]
pub extern "C" fn tlf_log_redo(
    text: &mut [u8],
    records: &[u8],
    texts: &[u8],
    line: Line,
    log: Log,
    n: u16,
) -> EditAnswer
    ensures outcome { Meets catalogue (redo n) (edits.lent text.old records.now texts.now line log)
        result (buffers text.new records.now texts.now) }
    ensures still { result.log ≡ log → text.new ≡ text.old }
{
    undo_redo::redo(text, records, texts, line, log, n)
}

#[unsafe(no_mangle)]
pub extern "C" fn tlf_log_cancel(
    text: &mut [u8],
    records: &[u8],
    texts: &[u8],
    line: Line,
    log: Log,
    mark: usize,
) -> EditAnswer
    ensures outcome { Meets catalogue (cancel mark) (edits.lent text.old records.now texts.now line log)
        result (buffers text.new records.now texts.now) }
    ensures still { result.log ≡ log → text.new ≡ text.old }
{
    undo_cancel::cancel(text, records, texts, line, log, mark)
}
