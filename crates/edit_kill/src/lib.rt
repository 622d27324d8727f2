// The calls of LineBuffer that cut: kill, for all fourteen movements, and those that cut by one movement. Any text, cursor, log, code
// and number may be handed over: what is unfit is turned away by a number of document 01. The range is found in the text as it is,
// then cut out and recorded.
#![tactic(auto)]

ghost use Rattle.std.specs.Prelude.{◌≡◌, true, ◌≤◌, length, take};
ghost use Rattle.repertoire.specs.Repertoire.{catalogue};
ghost use Rattle.motion.specs.Steps.{IsPlace};
ghost use Rattle.keymap.specs.declared.Movement.TheVariants.{ForwardChar};
ghost use Rattle.log_records.specs.Walks.{LastAt};
ghost use Rattle.edit.specs.Calls.{lent, Ready, Answers, Makes};
ghost use Rattle.edit_kill.specs.Kills.{kill_line, discard_line, kill_range, kill_of, kill_call, delete_call, kill_line_call};
ghost use Rattle.edit_kill.specs.Kills.{kill_buffer_call};
ghost use Rattle.edit_kill.specs.Kills.{discard_line_call, discard_buffer_call, backspace_call, delete_prev_word_call, delete_word_call};
ghost use Rattle.edit_kill.specs.Kills.{delete_to_call, cut_plan, places_plan};

use checks::Line;
use edit::{Checked, EditAnswer, Own, admit, cut_out, refused, says, unnamed};
use formats::format_for;
use keymap::{Movement, MovementCodes, RepeatCount};
use log_state::Log;
use motion::{next_pos, prev_pos};
use motion_lines::{Span, end_of_line, start_of_line};
use motion_ranges::{copied, is_foreign};

// kill_line from a place.
#[tactic(auto, unfolding(crate::specs::Kills::kill_line))]
fn kill_line_range(s: &[u8], pos: usize) -> Option<Span>
    requires { pos ≤ length s.now }
    ensures { result ≡ kill_line catalogue s.now pos }
{
    let end = end_of_line(s, pos);
    if pos != end {
        return Some(Span { start: pos, end });
    }
    next_pos(s, pos, 1).map(|p| Span { start: pos, end: p })
}

// discard_line from a place.
#[tactic(auto, unfolding(crate::specs::Kills::discard_line))]
fn discard_line_range(s: &[u8], pos: usize) -> Option<Span>
    requires { IsPlace s.now pos }
    ensures { result ≡ discard_line catalogue s.now pos }
{
    let start = start_of_line(s, pos);
    if start != pos {
        return Some(Span { start, end: pos });
    }
    prev_pos(s, pos, 1).map(|p| Span { start: p, end: pos })
}

// What kill cuts, by the movement.
pub fn kill_range(s: &[u8], pos: usize, m: Movement) -> Option<Span>
    requires { IsPlace s.now pos }
    ensures { result ≡ kill_range catalogue s.now pos m }
{
    match m {
        Movement::WholeLine => kill_line_range(s, start_of_line(s, pos)),
        Movement::BeginningOfLine => discard_line_range(s, pos),
        Movement::EndOfLine => kill_line_range(s, pos),
        Movement::ViFirstPrint => None,
        Movement::BackwardWord(_, _)
        | Movement::ForwardWord(_, _, _)
        | Movement::ViCharSearch(_, _)
        | Movement::BackwardChar(_)
        | Movement::ForwardChar(_)
        | Movement::LineUp(_)
        | Movement::LineDown(_)
        | Movement::WholeBuffer
        | Movement::BeginningOfBuffer
        | Movement::EndOfBuffer => copied(s, pos, m),
    }
}

// kill of a movement, where the checks have passed.
pub fn kill_checked(
    checked: Checked,
    text: &mut [u8],
    records: &mut [u8],
    texts: &mut [u8],
    m: Movement,
) -> EditAnswer
    requires ready { Ready checked.format (lent text.old records.old texts.old checked.line checked.log) }
    requires last_at { LastAt catalogue checked.format (take checked.log.undo.records records.old) checked.last }
    ensures { Makes checked.format (lent text.old records.old texts.old checked.line checked.log)
        (cut_plan checked.line.cursor (kill_range catalogue (take checked.line.len text.old) checked.line.cursor m))
        result text.new records.new texts.new }
{
    let len = checked.line.len;
    let cursor = checked.line.cursor;
    let r = kill_range(&text[..len], cursor, m);
    match r {
        Some(cut) => cut_out(checked, text, records, texts, cut.start, cut.end),
        None => says(1, checked.line, checked.log),
    }
}

// kill of a movement.
pub fn kill_movement(
    text: &mut [u8],
    records: &mut [u8],
    texts: &mut [u8],
    line: Line,
    log: Log,
    m: Movement,
) -> EditAnswer
    ensures { Answers (lent text.old records.old texts.old line log) (λ F l. kill_of catalogue F l m)
        result text.new records.new texts.new }
{
    let own = Own {
        foreign: is_foreign(m),
        ..Own::NONE
    };
    let f = format_for(text.len());
    let checked = match admit(f, text, records, texts, line, log, own) {
        Ok(checked) => checked,
        Err(why) => return refused(why, line, log),
    };
    kill_checked(checked, text, records, texts, m)
}

// Wrong answers ruled out: a kill of ViFirstPrint that cuts; WholeLine from the cursor on.
pub fn kill(
    text: &mut [u8],
    records: &mut [u8],
    texts: &mut [u8],
    line: Line,
    log: Log,
    codes: MovementCodes,
) -> EditAnswer
    ensures { Answers (lent text.old records.old texts.old line log) (λ F l. kill_call catalogue F l codes)
        result text.new records.new texts.new }
{
    let Ok(m) = Movement::try_from(codes) else {
        return unnamed(text, records, texts, line, log);
    };
    kill_movement(text, records, texts, line, log, m)
}

// Wrong answers ruled out: a line whose end is the cursor left alone; the \n cut with the line.
pub fn kill_line(
    text: &mut [u8],
    records: &mut [u8],
    texts: &mut [u8],
    line: Line,
    log: Log,
) -> EditAnswer
    ensures { Answers (lent text.old records.old texts.old line log) (λ F l. kill_line_call catalogue F l)
        result text.new records.new texts.new }
{
    kill_movement(text, records, texts, line, log, Movement::EndOfLine)
}

// Wrong answers ruled out: 0 at the end of the text; the cursor moved.
pub fn kill_buffer(
    text: &mut [u8],
    records: &mut [u8],
    texts: &mut [u8],
    line: Line,
    log: Log,
) -> EditAnswer
    ensures { Answers (lent text.old records.old texts.old line log) (λ F l. kill_buffer_call catalogue F l)
        result text.new records.new texts.new }
{
    kill_movement(text, records, texts, line, log, Movement::EndOfBuffer)
}

// Wrong answers ruled out: 1 at the start of a line that is not the first; only the \n of "\r\n" cut there.
pub fn discard_line(
    text: &mut [u8],
    records: &mut [u8],
    texts: &mut [u8],
    line: Line,
    log: Log,
) -> EditAnswer
    ensures { Answers (lent text.old records.old texts.old line log) (λ F l. discard_line_call catalogue F l)
        result text.new records.new texts.new }
{
    kill_movement(text, records, texts, line, log, Movement::BeginningOfLine)
}

// Wrong answers ruled out: 0 at the start of the text; the text behind the cursor cut.
pub fn discard_buffer(
    text: &mut [u8],
    records: &mut [u8],
    texts: &mut [u8],
    line: Line,
    log: Log,
) -> EditAnswer
    ensures { Answers (lent text.old records.old texts.old line log) (λ F l. discard_buffer_call catalogue F l)
        result text.new records.new texts.new }
{
    kill_movement(text, records, texts, line, log, Movement::BeginningOfBuffer)
}

// Wrong answers ruled out: one byte cut for each n; the cursor left where it was.
pub fn backspace(
    text: &mut [u8],
    records: &mut [u8],
    texts: &mut [u8],
    line: Line,
    log: Log,
    n: RepeatCount,
) -> EditAnswer
    ensures { Answers (lent text.old records.old texts.old line log) (λ F l. backspace_call catalogue F l n)
        result text.new records.new texts.new }
{
    kill_movement(text, records, texts, line, log, Movement::BackwardChar(n))
}

// Wrong answers ruled out: 1 for n = 0; n times one word for Vi words.
pub fn delete_prev_word(
    text: &mut [u8],
    records: &mut [u8],
    texts: &mut [u8],
    line: Line,
    log: Log,
    word: u32,
    n: RepeatCount,
) -> EditAnswer
    ensures { Answers (lent text.old records.old texts.old line log) (λ F l. delete_prev_word_call catalogue F l word n)
        result text.new records.new texts.new }
{
    let codes = MovementCodes {
        mvt: 3,
        n,
        at: 0,
        word,
        search: 0,
        ch: 0,
    };
    kill(text, records, texts, line, log, codes)
}

// Wrong answers ruled out: the stop code not tried; the cursor moved to the word's end.
pub fn delete_word(
    text: &mut [u8],
    records: &mut [u8],
    texts: &mut [u8],
    line: Line,
    log: Log,
    at: u32,
    word: u32,
    n: RepeatCount,
) -> EditAnswer
    ensures { Answers (lent text.old records.old texts.old line log) (λ F l. delete_word_call catalogue F l at word n)
        result text.new records.new texts.new }
{
    let codes = MovementCodes {
        mvt: 4,
        n,
        at,
        word,
        search: 0,
        ch: 0,
    };
    kill(text, records, texts, line, log, codes)
}

// Wrong answers ruled out: Forward without the match; 1 where BackwardAfter cuts nothing.
pub fn delete_to(
    text: &mut [u8],
    records: &mut [u8],
    texts: &mut [u8],
    line: Line,
    log: Log,
    search: u32,
    ch: u32,
    n: RepeatCount,
) -> EditAnswer
    ensures { Answers (lent text.old records.old texts.old line log) (λ F l. delete_to_call catalogue F l search ch n)
        result text.new records.new texts.new }
{
    let codes = MovementCodes {
        mvt: 5,
        n,
        at: 0,
        word: 0,
        search,
        ch,
    };
    kill(text, records, texts, line, log, codes)
}

// delete, where the checks have passed: the cut of ForwardChar, and its two places.
pub fn delete_checked(
    checked: Checked,
    text: &mut [u8],
    records: &mut [u8],
    texts: &mut [u8],
    n: RepeatCount,
) -> EditAnswer
    requires ready { Ready checked.format (lent text.old records.old texts.old checked.line checked.log) }
    requires last_at { LastAt catalogue checked.format (take checked.log.undo.records records.old) checked.last }
    ensures { Makes checked.format (lent text.old records.old texts.old checked.line checked.log)
        (places_plan checked.line.cursor (kill_range catalogue (take checked.line.len text.old) checked.line.cursor (ForwardChar n)))
        result text.new records.new texts.new }
{
    let a = kill_checked(checked, text, records, texts, Movement::ForwardChar(n));
    if a.number != 0 {
        return a;
    }
    let left = a.line;
    let log = a.log;
    let cursor = checked.line.cursor;
    EditAnswer {
        number: 0,
        from: cursor,
        to: cursor + (checked.line.len - left.len),
        line: left,
        log,
    }
}

// Wrong answers ruled out: the cursor twice for the two places; places where nothing was cut.
pub fn delete(
    text: &mut [u8],
    records: &mut [u8],
    texts: &mut [u8],
    line: Line,
    log: Log,
    n: RepeatCount,
) -> EditAnswer
    ensures { Answers (lent text.old records.old texts.old line log) (λ F l. delete_call catalogue F l n)
        result text.new records.new texts.new }
{
    let f = format_for(text.len());
    let checked = match admit(f, text, records, texts, line, log, Own::NONE) {
        Ok(checked) => checked,
        Err(why) => return refused(why, line, log),
    };
    delete_checked(checked, text, records, texts, n)
}
