// The movements of LineBuffer, and copy: calls that are lent a text and change at most the cursor. Any text, cursor, code and number
// may be handed over: what is unfit is turned away by a number of document 01.
#![tactic(auto)]

ghost use Rattle.std.specs.Prelude.{◌≡◌, ◌≤◌, Some, length};
ghost use Rattle.std.specs.Fn.{FnOnceReturnsAt, FnOnceTakesAt};
ghost use Rattle.repertoire.specs.Repertoire.{catalogue};
ghost use Rattle.checks.specs.Checks.{refusal as Checks·refusal, both, lent_text, no_tests};
ghost use Rattle.checks.specs.Answers.{line_answer, says as Answers·says};
ghost use Rattle.checks.specs.Refused.{refused_by};
ghost use Rattle.motion_calls.specs.Moves.{next_pos_call, move_forward, move_backward, move_buffer_start, move_buffer_end, move_home};
ghost use Rattle.motion_calls.specs.Moves.{move_end, is_cursor_at_end, is_end_of_input, set_pos};
ghost use Rattle.motion_calls.specs.Moves.{move_to_line_up, move_to_line_down, move_to_prev_word, move_to_next_word, move_to};
ghost use Rattle.motion_calls.specs.Copy.{ranged as Copy·ranged, copy_tests, copy_by, copy_call};
ghost use Rattle.motion_calls.specs.Moves.{prev_word_by, next_word_by, search_by};
ghost use Rattle.motion_calls.specs.Moves.{elsewhere as Moves·elsewhere, tells as Moves·tells, lent, place_tests, prompt_tests, unnamed};

use checks::{Line, LineAnswer, Refused, moved_to, number, place_of, refusal, says};
use keymap::{At, CharSearch, Movement, MovementCodes, RepeatCount, Word};
use motion_lines::{Span, end_of_line, line_down, line_up, start_of_line};
use motion_ranges::{copied, is_foreign, starts_after};
use repertoire::check_char;
use utf8::is_boundary;

// To a place, unless the cursor is there.
pub fn elsewhere(line: Line, p: usize) -> Option<usize>
    ensures { result ≡ Moves·elsewhere line p }
{
    if line.cursor == p { None } else { Some(p) }
}

// 0 where a test is met, else 1.
fn tells(line: Line, met: bool) -> LineAnswer
    ensures { result ≡ line_answer line (Moves·tells line met) }
{
    says(if met { 0 } else { 1 }, line)
}

// The checks of a call that tries nothing but the text and the cursor.
fn lent_refusal(text: &[u8], line: Line) -> Result<(), Refused>
    ensures { refused_by result ≡ Checks·refusal (both (lent catalogue text.now line) no_tests) }
{
    refusal(text, line, false, false, false)
}

// The answer of a call whose checks came to this: their number where they refuse, else what it does with the text that it is lent.
fn on_text<F: FnOnce(&[u8]) -> LineAnswer>(
    text: &[u8],
    line: Line,
    tested: Result<(), Refused>,
    call: F,
) -> LineAnswer
    requires used { refused_by tested ≡ 0 → line.len ≤ length text.now }
    requires takes { refused_by tested ≡ 0 → FnOnceTakesAt F.FnOnce call (lent_text text.now line) }
    ensures refused { (refused_by tested ≡ 0 → ⊥) → result ≡ Answers·says (refused_by tested) line }
    ensures done { refused_by tested ≡ 0 → FnOnceReturnsAt F.FnOnce call (lent_text text.now line) result }
{
    if let Err(why) = tested {
        return says(why.into(), line);
    }
    call(&text[..line.len])
}

// Wrong answers ruled out: the cursor itself; the place one byte on.
pub fn next_pos(text: &[u8], line: Line, n: RepeatCount) -> LineAnswer
    ensures { result ≡ line_answer line (next_pos_call catalogue text.now line n) }
{
    on_text(text, line, lent_refusal(text, line), |s| {
        place_of(line, motion::next_pos(s, line.cursor, n))
    })
}

// Wrong answers ruled out: 1 before looking; the text's end for every n.
pub fn move_forward(text: &[u8], line: Line, n: RepeatCount) -> LineAnswer
    ensures { result ≡ line_answer line (move_forward catalogue text.now line n) }
{
    on_text(text, line, lent_refusal(text, line), |s| {
        moved_to(line, motion::next_pos(s, line.cursor, n))
    })
}

// Wrong answers ruled out: 0 for every n; one step for every n.
pub fn move_backward(text: &[u8], line: Line, n: RepeatCount) -> LineAnswer
    ensures { result ≡ line_answer line (move_backward catalogue text.now line n) }
{
    on_text(text, line, lent_refusal(text, line), |s| {
        moved_to(line, motion::prev_pos(s, line.cursor, n))
    })
}

// Wrong answers ruled out: 0 where the cursor is at the start; the line's start.
pub fn move_buffer_start(text: &[u8], line: Line) -> LineAnswer
    ensures { result ≡ line_answer line (move_buffer_start catalogue text.now line) }
{
    on_text(text, line, lent_refusal(text, line), |_| {
        moved_to(line, elsewhere(line, 0))
    })
}

// Wrong answers ruled out: the buffer's length; the line's end.
pub fn move_buffer_end(text: &[u8], line: Line) -> LineAnswer
    ensures { result ≡ line_answer line (move_buffer_end catalogue text.now line) }
{
    on_text(text, line, lent_refusal(text, line), |_| {
        moved_to(line, elsewhere(line, line.len))
    })
}

// Wrong answers ruled out: the text's start on every line; the place of the \n.
pub fn move_home(text: &[u8], line: Line) -> LineAnswer
    ensures { result ≡ line_answer line (move_home catalogue text.now line) }
{
    on_text(text, line, lent_refusal(text, line), |s| {
        moved_to(line, elsewhere(line, start_of_line(s, line.cursor)))
    })
}

// Wrong answers ruled out: the text's end on every line; behind the \n.
pub fn move_end(text: &[u8], line: Line) -> LineAnswer
    ensures { result ≡ line_answer line (move_end catalogue text.now line) }
{
    on_text(text, line, lent_refusal(text, line), |s| {
        moved_to(line, elsewhere(line, end_of_line(s, line.cursor)))
    })
}

// Wrong answers ruled out: always 1; 0 at the buffer's end instead of the text's.
pub fn is_cursor_at_end(text: &[u8], line: Line) -> LineAnswer
    ensures { result ≡ line_answer line (is_cursor_at_end catalogue text.now line) }
{
    on_text(text, line, lent_refusal(text, line), |_| {
        tells(line, line.cursor == line.len)
    })
}

// Wrong answers ruled out: 0 only at the text's end; U+00A0 not white.
pub fn is_end_of_input(text: &[u8], line: Line) -> LineAnswer
    ensures { result ≡ line_answer line (is_end_of_input catalogue text.now line) }
{
    on_text(text, line, lent_refusal(text, line), |s| {
        tells(line, motion::trim_end(s) <= line.cursor)
    })
}

// The checks of a call with a place of its own, which is tried by 5 and 6 with the lent cursor's.
fn place_refusal(text: &[u8], line: Line, pos: usize) -> Result<(), Refused>
    ensures { refused_by result ≡ Checks·refusal (both (lent catalogue text.now line) (place_tests (lent_text text.now line) line.len pos)) }
{
    refusal(text, line, false, false, line.len < pos)?;
    if !is_boundary(&text[..line.len], pos) {
        return Err(Refused::Split);
    }
    Ok(())
}

// Wrong answers ruled out: 1 where nothing moves; 6 before 5.
pub fn set_pos(text: &[u8], line: Line, pos: usize) -> LineAnswer
    ensures { result ≡ line_answer line (set_pos catalogue text.now line pos) }
{
    on_text(text, line, place_refusal(text, line, pos), |_| {
        moved_to(line, Some(pos))
    })
}

// The checks of a call with a prompt, whose column is tried by 7.
fn prompt_refusal(text: &[u8], line: Line, prompt: usize) -> Result<(), Refused>
    ensures { refused_by result ≡ Checks·refusal (both (lent catalogue text.now line) (prompt_tests prompt)) }
{
    refusal(text, line, false, false, false)?;
    if 1024 < prompt {
        return Err(Refused::Prompt);
    }
    Ok(())
}

// Wrong answers ruled out: a too short line's own end; the prompt left out on the first line.
pub fn move_to_line_up(text: &[u8], line: Line, n: RepeatCount, prompt: usize) -> LineAnswer
    ensures { result ≡ line_answer line (move_to_line_up catalogue text.now line n prompt) }
{
    on_text(text, line, prompt_refusal(text, line, prompt), |s| {
        moved_to(line, line_up(s, line.cursor, n, prompt))
    })
}

// Wrong answers ruled out: n = 0 as no move; the last line's end wherever the target is short.
pub fn move_to_line_down(text: &[u8], line: Line, n: RepeatCount, prompt: usize) -> LineAnswer
    ensures { result ≡ line_answer line (move_to_line_down catalogue text.now line n prompt) }
{
    on_text(text, line, prompt_refusal(text, line, prompt), |s| {
        moved_to(line, line_down(s, line.cursor, n, prompt))
    })
}

// A number that names nothing is 3, behind the lent text's 2.
fn unnamed(text: &[u8], line: Line) -> LineAnswer
    ensures { result ≡ line_answer line (unnamed catalogue text.now line) }
{
    says(number(refusal(text, line, true, false, false)), line)
}

// Wrong answers ruled out: n times one word for Vi; an unknown code as Big.
pub fn move_to_prev_word(text: &[u8], line: Line, word: u32, n: RepeatCount) -> LineAnswer
    ensures { result ≡ line_answer line (move_to_prev_word catalogue text.now line word n) }
{
    let Ok(word) = Word::try_from(word) else {
        return unnamed(text, line);
    };
    on_text(text, line, lent_refusal(text, line), |s| {
        moved_to(line, motion_words::prev_word_pos(s, line.cursor, word, n))
    })
}

// Wrong answers ruled out: the start of the last cluster read where the text ran out behind an Emacs word; 3 for a stop that
// is known.
pub fn move_to_next_word(text: &[u8], line: Line, at: u32, word: u32, n: RepeatCount) -> LineAnswer
    ensures { result ≡ line_answer line (move_to_next_word catalogue text.now line at word n) }
{
    let Ok(at) = At::try_from(at) else {
        return unnamed(text, line);
    };
    let Ok(word) = Word::try_from(word) else {
        return unnamed(text, line);
    };
    on_text(text, line, lent_refusal(text, line), |s| {
        let place = motion_words::next_word_pos(s, line.cursor, at, word, n);
        moved_to(line, place)
    })
}

// Wrong answers ruled out: the cursor's own cluster matched; the first match for every n.
pub fn move_to(text: &[u8], line: Line, search: u32, ch: u32, n: RepeatCount) -> LineAnswer
    ensures { result ≡ line_answer line (move_to catalogue text.now line search ch n) }
{
    let Ok(cs) = CharSearch::from_code(search, ch) else {
        return unnamed(text, line);
    };
    let tested = refusal(text, line, false, !check_char(ch), false);
    on_text(text, line, tested, |s| {
        moved_to(line, motion::search_char_pos(s, line.cursor, cs, n))
    })
}

fn ranged(line: Line, f: Option<Span>) -> LineAnswer
    ensures { result ≡ line_answer line (Copy·ranged line f) }
{
    match f {
        Some(span) => LineAnswer {
            number: 0,
            from: span.start,
            to: span.end,
            line,
        },
        None => says(1, line),
    }
}

// The checks of copy. ViFirstPrint's 5 comes with the cursor's, before its 6.
fn copy_refusal(text: &[u8], line: Line, m: Movement) -> Result<(), Refused>
    ensures { refused_by result ≡ Checks·refusal (both (lent catalogue text.now line) (copy_tests catalogue text.now line m)) }
{
    let tested = refusal(text, line, false, is_foreign(m), false);
    // Of an or-pattern with a guard in one `if`, the proof keeps no fact where it fails: so the test has a name.
    let only_split = match tested {
        Ok(()) => true,
        Err(why) => matches!(why, Refused::Split),
    };
    if only_split && starts_after(&text[..line.len], line.cursor, m) {
        return Err(Refused::Place);
    }
    tested
}

// Wrong answers ruled out: ForwardBefore up to the character before the match; LineDown from the line's own start.
pub fn copy(text: &[u8], line: Line, codes: MovementCodes) -> LineAnswer
    ensures { result ≡ line_answer line (copy_call catalogue text.now line codes) }
{
    let Ok(m) = Movement::try_from(codes) else {
        return unnamed(text, line);
    };
    on_text(text, line, copy_refusal(text, line, m), |s| {
        ranged(line, copied(s, line.cursor, m))
    })
}
