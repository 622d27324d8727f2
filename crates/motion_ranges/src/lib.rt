// The range of a movement, for all fourteen: the two places between which copy answers the text and most kills cut it.
// line_buffer.rs, copy.
#![tactic(auto)]

ghost use Rattle.std.specs.Prelude.{◌≡◌, true, ◌+◌, ◌≤◌, ◌<◌, length};
ghost use Rattle.repertoire.specs.Repertoire.{catalogue};
ghost use Rattle.motion.specs.Steps.{IsPlace};
ghost use Rattle.motion_ranges.specs.Ranges.{up_to, back_to, between as Ranges·between, search_range, range_of, copied as Ranges·copied};
ghost use Rattle.motion_ranges.specs.Ranges.{starts_after, char_of, is_foreign};

use keymap::{At, CharSearch, Movement, RepeatCount, Word};
use motion::{match_backward, match_forward, next_pos, prev_pos, search_char_pos};
use motion_lines::{Span, end_of_line, n_lines_down, n_lines_up, start_of_line};
use motion_words::{next_word_pos, prev_word_pos};
use repertoire::check_char;
use utf8::char_size;

// Two places that differ.
fn between(a: usize, b: usize) -> Option<Span>
    ensures { result ≡ Ranges·between a b }
{
    if a == b {
        None
    } else {
        Some(Span { start: a, end: b })
    }
}

// From the cursor to a place that is found.
fn up_to(pos: usize, f: Option<usize>) -> Option<Span>
    ensures { result ≡ up_to pos 0 f }
{
    f.map(|p| Span { start: pos, end: p })
}

// From a place that is found to the cursor.
fn back_to(pos: usize, f: Option<usize>) -> Option<Span>
    ensures { result ≡ back_to pos 0 f }
{
    f.map(|p| Span { start: p, end: pos })
}

// From the cursor to behind the n-th match of c.
fn past_match(s: &[u8], pos: usize, c: u32, n: RepeatCount) -> Option<Span>
    requires { IsPlace s.now pos }
    ensures { result ≡ search_range catalogue s.now pos n (CharSearch.Forward c) }
{
    match_forward(s, pos, c, n).map(|p| Span {
        start: pos,
        end: p + char_size(c),
    })
}

fn search_range(s: &[u8], pos: usize, n: RepeatCount, cs: CharSearch) -> Option<Span>
    requires { IsPlace s.now pos }
    ensures { result ≡ search_range catalogue s.now pos n cs }
{
    match cs {
        CharSearch::Forward(c) => past_match(s, pos, c, n),
        CharSearch::ForwardBefore(c) => up_to(pos, match_forward(s, pos, c, n)),
        CharSearch::Backward(c) => back_to(pos, match_backward(s, pos, c, n)),
        CharSearch::BackwardAfter(c) => back_to(pos, search_char_pos(s, pos, cs, n)),
    }
}

// From the line's start to the cursor; nowhere on an empty line.
fn whole_line(s: &[u8], pos: usize) -> Option<Span>
    requires { pos ≤ length s.now }
    ensures { result ≡ range_of catalogue s.now pos Movement.WholeLine }
{
    let start = start_of_line(s, pos);
    if start == end_of_line(s, pos) {
        None
    } else {
        Some(Span { start, end: pos })
    }
}

// From the first printable word to the cursor.
fn first_print(s: &[u8], pos: usize) -> Option<Span>
    ensures { result ≡ range_of catalogue s.now pos Movement.ViFirstPrint }
{
    if pos == 0 {
        return None;
    }
    back_to(pos, next_word_pos(s, 0, At::Start, Word::Big, 1))
}

fn range_of(s: &[u8], pos: usize, m: Movement) -> Option<Span>
    requires { IsPlace s.now pos }
    ensures { result ≡ range_of catalogue s.now pos m }
{
    match m {
        Movement::WholeLine => whole_line(s, pos),
        Movement::BeginningOfLine => between(start_of_line(s, pos), pos),
        Movement::EndOfLine => between(pos, end_of_line(s, pos)),
        Movement::BackwardWord(n, w) => back_to(pos, prev_word_pos(s, pos, w, n)),
        Movement::ForwardWord(n, at, w) => up_to(pos, next_word_pos(s, pos, at, w, n)),
        Movement::ViCharSearch(n, cs) => search_range(s, pos, n, cs),
        Movement::ViFirstPrint => first_print(s, pos),
        Movement::BackwardChar(n) => back_to(pos, prev_pos(s, pos, n)),
        Movement::ForwardChar(n) => up_to(pos, next_pos(s, pos, n)),
        Movement::LineUp(n) => n_lines_up(s, pos, n),
        Movement::LineDown(n) => n_lines_down(s, pos, n),
        Movement::WholeBuffer => Some(Span {
            start: 0,
            end: s.len(),
        }),
        Movement::BeginningOfBuffer => between(0, pos),
        Movement::EndOfBuffer => between(pos, s.len()),
    }
}

// The places of copy; nowhere in an empty text.
#[tactic(auto, unfolding(crate::specs::Ranges::copied))]
pub fn copied(s: &[u8], pos: usize, m: Movement) -> Option<Span>
    requires { IsPlace s.now pos }
    ensures { result ≡ Ranges·copied catalogue s.now pos m }
{
    if s.is_empty() {
        return None;
    }
    range_of(s, pos, m)
}

// Check 5: does ViFirstPrint start after the cursor?
#[tactic(auto, unfolding(crate::specs::Ranges::starts_after, crate::specs::Ranges::copied))]
pub fn starts_after(s: &[u8], pos: usize, m: Movement) -> bool
    ensures { result ≡ starts_after catalogue s.now pos m }
{
    matches!(m, Movement::ViFirstPrint)
        && !s.is_empty()
        && first_print(s, pos).is_some_and(|range| pos < range.start)
}

fn char_of(cs: CharSearch) -> u32
    ensures { result ≡ char_of cs }
{
    match cs {
        CharSearch::Forward(c)
        | CharSearch::ForwardBefore(c)
        | CharSearch::Backward(c)
        | CharSearch::BackwardAfter(c) => c,
    }
}

// Check 4: is the character of a search outside the repertoire?
pub fn is_foreign(m: Movement) -> bool
    ensures { result ≡ is_foreign catalogue m }
{
    let Movement::ViCharSearch(_, cs) = m else {
        return false;
    };
    !check_char(char_of(cs))
}
