// The entries for C and Rust callers that put text in or rewrite it: each is the call of the same name.
#![tactic(auto)]

ghost use Rattle.std.specs.Prelude.{not, eqb};
ghost use Rattle.keymap.specs.Codes.{codes};
ghost use Rattle.repertoire.specs.Repertoire.{catalogue};
ghost use Rattle.edit.specs.Calls.{lent};
ghost use Rattle.calls.specs.CallContracts.{Meets, buffers};
ghost use Rattle.calls.specs.Calls.{delete_range, replace, update, insert, yank, yank_pop, transpose_chars, edit_word};
ghost use Rattle.calls.specs.Calls.{transpose_words, indent, edit};

use checks::Line;
use edit::EditAnswer;
use keymap::MovementCodes;
use log_state::Log;

#[unsafe(no_mangle)]
pub extern "C" fn tlf_line_delete_range(
    text: &mut [u8],
    records: &mut [u8],
    texts: &mut [u8],
    line: Line,
    log: Log,
    start: usize,
    end: usize,
) -> EditAnswer
    ensures { Meets catalogue (edit (delete_range start end)) (lent text.old records.old texts.old line log)
        result (buffers text.new records.new texts.new) }
{
    edit_range::delete_range(text, records, texts, line, log, start, end)
}

#[unsafe(no_mangle)]
pub extern "C" fn tlf_line_replace(
    text: &mut [u8],
    records: &mut [u8],
    texts: &mut [u8],
    line: Line,
    log: Log,
    start: usize,
    end: usize,
    buf: &[u8],
) -> EditAnswer
    ensures { Meets catalogue (edit (replace start end buf.now)) (lent text.old records.old texts.old line log)
        result (buffers text.new records.new texts.new) }
{
    edit_range::replace(text, records, texts, line, log, start, end, buf)
}

#[unsafe(no_mangle)]
pub extern "C" fn tlf_line_update(
    text: &mut [u8],
    records: &mut [u8],
    texts: &mut [u8],
    line: Line,
    log: Log,
    buf: &[u8],
    pos: usize,
) -> EditAnswer
    ensures { Meets catalogue (edit (update buf.now pos)) (lent text.old records.old texts.old line log)
        result (buffers text.new records.new texts.new) }
{
    edit_insert::update(text, records, texts, line, log, buf, pos)
}

#[unsafe(no_mangle)]
pub extern "C" fn tlf_line_insert(
    text: &mut [u8],
    records: &mut [u8],
    texts: &mut [u8],
    line: Line,
    log: Log,
    ch: u32,
    n: u16,
) -> EditAnswer
    ensures { Meets catalogue (edit (insert ch n)) (lent text.old records.old texts.old line log)
        result (buffers text.new records.new texts.new) }
{
    edit_insert::insert(text, records, texts, line, log, ch, n)
}

#[unsafe(no_mangle)]
pub extern "C" fn tlf_line_yank(
    text: &mut [u8],
    records: &mut [u8],
    texts: &mut [u8],
    line: Line,
    log: Log,
    buf: &[u8],
    n: u16,
) -> EditAnswer
    ensures { Meets catalogue (edit (yank buf.now n)) (lent text.old records.old texts.old line log)
        result (buffers text.new records.new texts.new) }
{
    edit_insert::yank(text, records, texts, line, log, buf, n)
}

#[unsafe(no_mangle)]
pub extern "C" fn tlf_line_yank_pop(
    text: &mut [u8],
    records: &mut [u8],
    texts: &mut [u8],
    line: Line,
    log: Log,
    yank_size: usize,
    buf: &[u8],
) -> EditAnswer
    ensures { Meets catalogue (edit (yank_pop yank_size buf.now)) (lent text.old records.old texts.old line log)
        result (buffers text.new records.new texts.new) }
{
    edit_insert::yank_pop(text, records, texts, line, log, yank_size, buf)
}

#[unsafe(no_mangle)]
pub extern "C" fn tlf_line_transpose_chars(
    text: &mut [u8],
    records: &mut [u8],
    texts: &mut [u8],
    line: Line,
    log: Log,
) -> EditAnswer
    ensures { Meets catalogue (edit transpose_chars) (lent text.old records.old texts.old line log)
        result (buffers text.new records.new texts.new) }
{
    edit_transpose::transpose_chars(text, records, texts, line, log)
}

#[unsafe(no_mangle)]
pub extern "C" fn tlf_line_edit_word(
    text: &mut [u8],
    records: &mut [u8],
    texts: &mut [u8],
    line: Line,
    log: Log,
    action: u32,
) -> EditAnswer
    ensures { Meets catalogue (edit (edit_word action)) (lent text.old records.old texts.old line log)
        result (buffers text.new records.new texts.new) }
{
    edit_case::edit_word(text, records, texts, line, log, action)
}

#[unsafe(no_mangle)]
pub extern "C" fn tlf_line_transpose_words(
    text: &mut [u8],
    records: &mut [u8],
    texts: &mut [u8],
    line: Line,
    log: Log,
    n: u16,
) -> EditAnswer
    ensures { Meets catalogue (edit (transpose_words n)) (lent text.old records.old texts.old line log)
        result (buffers text.new records.new texts.new) }
{
    edit_transpose::transpose_words(text, records, texts, line, log, n)
}

// A dedent of 0 indents, any other dedents.
#[unsafe(no_mangle)]
pub extern "C" fn tlf_line_indent(
    text: &mut [u8],
    records: &mut [u8],
    texts: &mut [u8],
    line: Line,
    log: Log,
    mvt: u32,
    n: u16,
    at: u32,
    word: u32,
    search: u32,
    ch: u32,
    amount: u8,
    dedent: u8,
) -> EditAnswer
    ensures { Meets catalogue (edit (indent (codes mvt n at word search ch) amount (not (eqb dedent 0))))
        (lent text.old records.old texts.old line log)
        result (buffers text.new records.new texts.new) }
{
    let codes = MovementCodes {
        mvt,
        n,
        at,
        word,
        search,
        ch,
    };
    edit_indent::indent(text, records, texts, line, log, codes, amount, dedent != 0)
}
