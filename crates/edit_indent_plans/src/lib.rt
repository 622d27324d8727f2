// What indent of line_buffer.rs finds before it changes a byte: the lines that a movement touches, the white space that they begin with,
// and whether the log has room. The changes themselves are definitions, in specs/.
#![tactic(auto)]

ghost use Rattle.std.specs.Prelude.{◌≡◌, ◌&&◌, true, ◌+◌, ◌*◌, ◌≤◌, leb, length};
ghost use Rattle.formats.specs.Formats.{Fit};
ghost use Rattle.edit_indent_plans.specs.IndentPlans.{change_size, changes_max};
ghost use Rattle.utf8.specs.Chars.{valid};
ghost use Rattle.repertoire.specs.Repertoire.{catalogue};
ghost use Rattle.motion.specs.Steps.{IsPlace};
ghost use Rattle.edit_indent_plans.specs.Touched.{or_cursor, span_of, last_newline, split_lines};
ghost use Rattle.edit_indent_plans.specs.Touched.{touched as Touched·touched, deleting as Touched·deleting, splits as Touched·splits};
ghost use Rattle.edit_indent_plans.specs.Counts.{cuts_in, bytes_in};

use formats::Format;
use keymap::Movement;
use log_state::Log;
use motion_lines::{Span, n_lines_down, n_lines_up, start_of_line};
use motion_words::{next_word_pos, prev_word_pos};
use repertoire::is_white;
use utf8::{Char, decode_at, is_boundary};

// At the last \n at or after a place, the text's end where there is none.
fn last_newline(s: &[u8], pos: usize) -> usize
    requires { pos ≤ length s.now }
    ensures { result ≡ last_newline s.now pos }
{
    for i in (pos..s.len()).rev() {
        if s[i] == b'\n' {
            return i;
        }
    }
    s.len()
}

// The span of a range, the cursor twice where it is nowhere.
fn or_cursor(pos: usize, r: Option<Span>) -> Span
    ensures { result ≡ or_cursor pos r }
{
    r.unwrap_or(Span {
        start: pos,
        end: pos,
    })
}

// The span of a movement.
fn span_of(s: &[u8], pos: usize, m: Movement) -> Span
    requires { IsPlace s.now pos }
    ensures { result ≡ span_of catalogue s.now pos m }
{
    match m {
        Movement::WholeLine
        | Movement::BeginningOfLine
        | Movement::EndOfLine
        | Movement::ViCharSearch(_, _)
        | Movement::ViFirstPrint
        | Movement::BackwardChar(_)
        | Movement::ForwardChar(_) => Span {
            start: pos,
            end: pos,
        },
        Movement::BackwardWord(n, w) => Span {
            start: prev_word_pos(s, pos, w, n).unwrap_or(pos),
            end: pos,
        },
        Movement::ForwardWord(n, at, w) => Span {
            start: pos,
            end: next_word_pos(s, pos, at, w, n).unwrap_or(pos),
        },
        Movement::LineUp(n) => or_cursor(pos, n_lines_up(s, pos, n)),
        Movement::LineDown(n) => or_cursor(pos, n_lines_down(s, pos, n)),
        Movement::WholeBuffer => Span {
            start: 0,
            end: s.len(),
        },
        Movement::BeginningOfBuffer => Span { start: 0, end: pos },
        Movement::EndOfBuffer => Span {
            start: pos,
            end: s.len(),
        },
    }
}

// The lines that a movement touches: where they begin and end.
pub fn touched(s: &[u8], pos: usize, m: Movement) -> Span
    requires { IsPlace s.now pos }
    ensures { result ≡ Touched·touched catalogue s.now pos m }
{
    let r = span_of(s, pos, m);
    let start = r.start;
    let end = r.end;
    Span {
        start: start_of_line(s, start),
        end: last_newline(s, end),
    }
}

// The bytes that a dedent by m cuts from a line.
pub fn deleting(x: &[u8], m: usize) -> usize
    ensures { (result ≡ Touched·deleting catalogue m x.now) × (result ≤ length x.now) }
{
    let mut i = 0;
    // A turn passes a character, and stops where none stands: no index is counted, and std has no iterator over these.
    while i < m {
        let Some(Char { cp, len }) = decode_at(x, i) else {
            return i;
        };
        if !is_white(cp) {
            return i;
        }
        i += len;
    }
    m
}

// Check 6: does a dedent's cut of one of a part's lines end inside a character?
pub fn splits(p: &[u8], m: usize) -> bool
    requires { valid p.now ≡ true }
    ensures { result ≡ Touched·splits catalogue m (split_lines p.now) }
{
    p.split(|b| *b == b'\n')
        .any(|line| !is_boundary(line, deleting(line, m)))
}

// How many lines a part has.
pub fn count_lines(p: &[u8]) -> usize
    ensures { result ≡ length (split_lines p.now) }
{
    p.split(|b| *b == b'\n').count()
}

// What is recorded: how many records, and the bytes of their texts.
#[derive(Clone, Copy)]
pub struct Counts {
    pub records: usize,
    pub bytes: usize,
}

// What a dedent of a part's lines by m records.
pub fn count_cuts(p: &[u8], m: usize) -> Counts
    ensures { (result.records ≡ cuts_in catalogue m (split_lines p.now)) × (result.bytes ≡ bytes_in catalogue m (split_lines p.now)) }
{
    let mut records = 0;
    let mut bytes = 0;
    for line in p.split(|b| *b == b'\n') {
        let d = deleting(line, m);
        if 0 < d {
            records += 1;
        }
        bytes += d;
    }
    Counts { records, bytes }
}

// Is there room in the log for the records of n more insertions or cuts, with so many bytes of text?
pub fn has_room(f: Format, records: &[u8], texts: &[u8], log: Log, n: usize, bytes: usize) -> bool
    requires fit { Fit f }
    requires records_in_bounds { (log.undo.records ≤ length records.now) × (log.undo.texts ≤ length texts.now) × (n ≤ changes_max) }
    ensures { result ≡ (leb (log.undo.records + change_size f * n) (length records.now) && leb (log.undo.texts + bytes) (length texts.now)) }
{
    let u = log.undo;
    ((1 + f.width + f.width) * n <= records.len() - u.records) & (bytes <= texts.len() - u.texts)
}
