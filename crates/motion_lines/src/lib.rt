// Lines: line_buffer.rs, start_of_line, end_of_line, n_lines_up, n_lines_down, move_to_line_up and move_to_line_down.
#![tactic(auto)]

ghost use Rattle.std.specs.Prelude.{◌≡◌, ◌+◌, ◌-◌, ◌≤◌, ◌<◌, length};
ghost use Rattle.repertoire.specs.Repertoire.{catalogue};
ghost use Rattle.motion_lines.specs.Lines.{start_of_line, end_of_line, behind_line, lines_up, lines_down, n_lines_up, n_lines_down};
ghost use Rattle.motion_lines.specs.Columns.{offset, nth_cluster, line_above, line_below, line_up, line_down};

use cluster::next_cluster;
use keymap::RepeatCount;
use layout::width;

// Two places of a text: those of a line, without its \n, or of some lines.
#[derive(Clone, Copy)]
pub struct Span {
    pub start: usize,
    pub end: usize,
}

pub fn start_of_line(s: &[u8], pos: usize) -> usize
    requires { pos ≤ length s.now }
    ensures { (result ≡ start_of_line s.now pos) × (result ≤ pos) }
{
    for i in (0..pos).rev() {
        if s[i] == b'\n' {
            return i + 1;
        }
    }
    0
}

pub fn end_of_line(s: &[u8], pos: usize) -> usize
    requires { pos ≤ length s.now }
    ensures { (result ≡ end_of_line s.now pos) × (pos ≤ result) × (result ≤ length s.now) }
{
    for i in pos..s.len() {
        if s[i] == b'\n' {
            return i;
        }
    }
    s.len()
}

// Behind the line's own \n, the text's end where it has none.
#[tactic(auto, unfolding(crate::specs::Lines::behind_line))]
fn behind_line(s: &[u8], pos: usize) -> usize
    requires { pos ≤ length s.now }
    ensures { (result ≡ behind_line s.now pos) × (result ≤ length s.now) }
{
    let e = end_of_line(s, pos);
    if e < s.len() { e + 1 } else { s.len() }
}

// The start of the n-th line above the one that starts at a.
fn lines_up(s: &[u8], n: RepeatCount, a: usize) -> usize
    requires { a ≤ length s.now }
    ensures { (result ≡ lines_up s.now n a) × (result ≤ a) }
{
    let mut start = a;
    for _ in 0..n {
        if start == 0 {
            break;
        }
        start = start_of_line(s, start - 1);
    }
    start
}

// The end, behind its \n, of the n-th line below the one that ends at e.
fn lines_down(s: &[u8], n: RepeatCount, e: usize) -> usize
    requires { e ≤ length s.now }
    ensures { (result ≡ lines_down s.now n e) × (e ≤ result) × (result ≤ length s.now) }
{
    let mut end = e;
    for _ in 0..n {
        let x = end_of_line(s, end);
        if s.len() <= x {
            return s.len();
        }
        end = x + 1;
    }
    end
}

#[tactic(auto, unfolding(crate::specs::Lines::n_lines_up))]
pub fn n_lines_up(s: &[u8], pos: usize, n: RepeatCount) -> Option<Span>
    requires { pos ≤ length s.now }
    ensures { result ≡ n_lines_up s.now pos n }
{
    let a = start_of_line(s, pos);
    if a == 0 {
        return None;
    }
    Some(Span {
        start: lines_up(s, n, a),
        end: behind_line(s, pos),
    })
}

#[tactic(auto, unfolding(crate::specs::Lines::n_lines_down))]
pub fn n_lines_down(s: &[u8], pos: usize, n: RepeatCount) -> Option<Span>
    requires { pos ≤ length s.now }
    ensures { result ≡ n_lines_down s.now pos n }
{
    let e = end_of_line(s, pos);
    if s.len() <= e {
        return None;
    }
    Some(Span {
        start: start_of_line(s, pos).saturating_sub(1),
        end: lines_down(s, n, e + 1),
    })
}

// Where cluster number n of a line starts, other where there are no more than n.
fn nth_cluster(s: &[u8], line: Span, n: usize, other: usize) -> usize
    requires { (line.start ≤ line.end) × (line.end ≤ length s.now) }
    ensures { result ≡ nth_cluster catalogue s.now line.start line.end n other }
{
    let t = &s[line.start..line.end];
    let mut at = 0;
    for _ in 0..n {
        let len = next_cluster(&t[at..]).len;
        if len == 0 {
            return other;
        }
        at += len;
    }
    if next_cluster(&t[at..]).len == 0 {
        other
    } else {
        line.start + at
    }
}

// The line n lines above, or the first.
fn line_above(s: &[u8], n: RepeatCount, line: Span) -> Span
    requires { (line.start ≤ line.end) × (line.end ≤ length s.now) }
    ensures { (result ≡ line_above s.now n line.start line.end) × (result.start ≤ result.end) × (result.end ≤ line.end) }
{
    let mut above = line;
    for _ in 0..n {
        if above.start == 0 {
            break;
        }
        let end = above.start - 1;
        above = Span {
            start: start_of_line(s, end),
            end,
        };
    }
    above
}

// The line n lines below, or the last.
fn line_below(s: &[u8], n: RepeatCount, line: Span) -> Span
    requires { (line.start ≤ line.end) × (line.end ≤ length s.now) }
    ensures { (result ≡ line_below s.now n line.start line.end) × (result.start ≤ result.end) × (result.end ≤ length s.now) }
{
    let mut below = line;
    for _ in 0..n {
        if below.end == s.len() {
            break;
        }
        let start = below.end + 1;
        below = Span {
            start,
            end: end_of_line(s, start),
        };
    }
    below
}

// The columns before a line: the prompt's before the first.
fn columns_before(start: usize, prompt: usize) -> usize
    ensures { result ≡ offset start prompt }
{
    if start == 0 { prompt } else { 0 }
}

pub fn line_up(s: &[u8], pos: usize, n: RepeatCount, prompt: usize) -> Option<usize>
    requires { (pos ≤ length s.now) × (length s.now ≤ 131072) × (prompt ≤ 1024) }
    ensures { result ≡ line_up catalogue s.now pos n prompt }
{
    let own = start_of_line(s, pos);
    if own == 0 {
        return None;
    }
    let column = width(&s[own..pos], 0);
    let off = own - 1;
    let before = Span {
        start: start_of_line(s, off),
        end: off,
    };
    // The line before the cursor's needs no round, and n = 0 acts as 1.
    let line = line_above(s, n.saturating_sub(1), before);
    let wanted = column.saturating_sub(columns_before(line.start, prompt));
    Some(nth_cluster(s, line, wanted, off))
}

pub fn line_down(s: &[u8], pos: usize, n: RepeatCount, prompt: usize) -> Option<usize>
    requires { (pos ≤ length s.now) × (length s.now ≤ 131072) × (prompt ≤ 1024) }
    ensures { result ≡ line_down catalogue s.now pos n prompt }
{
    let e = end_of_line(s, pos);
    if s.len() <= e {
        return None;
    }
    let own = start_of_line(s, pos);
    let before = columns_before(own, prompt);
    let column = width(&s[own..pos], before) + before;
    let first = e + 1;
    let after = Span {
        start: first,
        end: end_of_line(s, first),
    };
    let line = line_below(s, n.saturating_sub(1), after);
    Some(nth_cluster(s, line, column, line.end))
}
