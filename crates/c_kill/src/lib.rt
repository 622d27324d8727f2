// The entries for C and Rust callers that cut text out by a movement: each is the call of the same name in
// `edit_kill`.
#![tactic(auto)]

ghost use Rattle.keymap.specs.Codes.{codes};
ghost use Rattle.repertoire.specs.Repertoire.{catalogue};
ghost use Rattle.edit.specs.Calls.{lent};
ghost use Rattle.calls.specs.CallContracts.{Meets, buffers};
ghost use Rattle.calls.specs.Calls.{kill, kill_line, kill_buffer, discard_line, discard_buffer, backspace, delete_prev_word};
ghost use Rattle.calls.specs.Calls.{delete_word, delete_to, delete, edit};

use checks::Line;
use edit::EditAnswer;
use keymap::MovementCodes;
use log_state::Log;

#[unsafe(no_mangle)]
pub extern "C" fn tlf_line_kill(
    text: &mut [u8],
    records: &mut [u8],
    texts: &mut [u8],
    line: Line,
    log: Log,
    mvt: u32,
    n: u16,
    at: u32,
    word: u32,
    search: u32,
    ch: u32,
) -> EditAnswer
    ensures { Meets catalogue (edit (kill (codes mvt n at word search ch))) (lent text.old records.old texts.old line log)
        result (buffers text.new records.new texts.new) }
{
    let codes = MovementCodes {
        mvt,
        n,
        at,
        word,
        search,
        ch,
    };
    edit_kill::kill(text, records, texts, line, log, codes)
}

#[unsafe(no_mangle)]
pub extern "C" fn tlf_line_kill_line(
    text: &mut [u8],
    records: &mut [u8],
    texts: &mut [u8],
    line: Line,
    log: Log,
) -> EditAnswer
    ensures { Meets catalogue (edit kill_line) (lent text.old records.old texts.old line log)
        result (buffers text.new records.new texts.new) }
{
    edit_kill::kill_line(text, records, texts, line, log)
}

#[unsafe(no_mangle)]
pub extern "C" fn tlf_line_kill_buffer(
    text: &mut [u8],
    records: &mut [u8],
    texts: &mut [u8],
    line: Line,
    log: Log,
) -> EditAnswer
    ensures { Meets catalogue (edit kill_buffer) (lent text.old records.old texts.old line log)
        result (buffers text.new records.new texts.new) }
{
    edit_kill::kill_buffer(text, records, texts, line, log)
}

#[unsafe(no_mangle)]
pub extern "C" fn tlf_line_discard_line(
    text: &mut [u8],
    records: &mut [u8],
    texts: &mut [u8],
    line: Line,
    log: Log,
) -> EditAnswer
    ensures { Meets catalogue (edit discard_line) (lent text.old records.old texts.old line log)
        result (buffers text.new records.new texts.new) }
{
    edit_kill::discard_line(text, records, texts, line, log)
}

#[unsafe(no_mangle)]
pub extern "C" fn tlf_line_discard_buffer(
    text: &mut [u8],
    records: &mut [u8],
    texts: &mut [u8],
    line: Line,
    log: Log,
) -> EditAnswer
    ensures { Meets catalogue (edit discard_buffer) (lent text.old records.old texts.old line log)
        result (buffers text.new records.new texts.new) }
{
    edit_kill::discard_buffer(text, records, texts, line, log)
}

#[unsafe(no_mangle)]
pub extern "C" fn tlf_line_backspace(
    text: &mut [u8],
    records: &mut [u8],
    texts: &mut [u8],
    line: Line,
    log: Log,
    n: u16,
) -> EditAnswer
    ensures { Meets catalogue (edit (backspace n)) (lent text.old records.old texts.old line log)
        result (buffers text.new records.new texts.new) }
{
    edit_kill::backspace(text, records, texts, line, log, n)
}

#[unsafe(no_mangle)]
pub extern "C" fn tlf_line_delete_prev_word(
    text: &mut [u8],
    records: &mut [u8],
    texts: &mut [u8],
    line: Line,
    log: Log,
    word: u32,
    n: u16,
) -> EditAnswer
    ensures { Meets catalogue (edit (delete_prev_word word n)) (lent text.old records.old texts.old line log)
        result (buffers text.new records.new texts.new) }
{
    edit_kill::delete_prev_word(text, records, texts, line, log, word, n)
}

#[unsafe(no_mangle)]
pub extern "C" fn tlf_line_delete_word(
    text: &mut [u8],
    records: &mut [u8],
    texts: &mut [u8],
    line: Line,
    log: Log,
    at: u32,
    word: u32,
    n: u16,
) -> EditAnswer
    ensures { Meets catalogue (edit (delete_word at word n)) (lent text.old records.old texts.old line log)
        result (buffers text.new records.new texts.new) }
{
    edit_kill::delete_word(text, records, texts, line, log, at, word, n)
}

#[unsafe(no_mangle)]
pub extern "C" fn tlf_line_delete_to(
    text: &mut [u8],
    records: &mut [u8],
    texts: &mut [u8],
    line: Line,
    log: Log,
    search: u32,
    ch: u32,
    n: u16,
) -> EditAnswer
    ensures { Meets catalogue (edit (delete_to search ch n)) (lent text.old records.old texts.old line log)
        result (buffers text.new records.new texts.new) }
{
    edit_kill::delete_to(text, records, texts, line, log, search, ch, n)
}

#[unsafe(no_mangle)]
pub extern "C" fn tlf_line_delete(
    text: &mut [u8],
    records: &mut [u8],
    texts: &mut [u8],
    line: Line,
    log: Log,
    n: u16,
) -> EditAnswer
    ensures { Meets catalogue (edit (delete n)) (lent text.old records.old texts.old line log)
        result (buffers text.new records.new texts.new) }
{
    edit_kill::delete(text, records, texts, line, log, n)
}
