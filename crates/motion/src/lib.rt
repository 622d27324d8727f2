// Places that steps over clusters and searches for a character reach: line_buffer.rs, next_pos, prev_pos and
// search_char_pos.
#![tactic(auto)]

ghost use Rattle.std.specs.Prelude.{◌≡◌, true, ◌+◌, ◌≤◌, ◌<◌, length, drop};
ghost use Rattle.utf8.specs.Chars.{valid, chars};
ghost use Rattle.utf8.specs.Encode.{size};
ghost use Rattle.repertoire.specs.Repertoire.{catalogue};
ghost use Rattle.motion.specs.Steps.{IsPlace, next_pos, prev_pos};
ghost use Rattle.motion.specs.Search.{matches, nth_match, after_cluster, match_forward, match_backward, search_char_pos};
ghost use Rattle.motion.specs.Trim.{trim_end, skip_whitespace};

use cluster::{next_cluster, prev_cluster};
use keymap::{CharSearch, RepeatCount};
use repertoire::is_white;
use utf8::{Char, char_size, decode_at, prev_char};

// n clusters forward from pos.
pub fn next_pos(s: &[u8], pos: usize, n: RepeatCount) -> Option<usize>
    ensures { result ≡ next_pos catalogue s.now pos n }
{
    if s.len() <= pos || n == 0 {
        return None;
    }
    let mut at = pos;
    for _ in 0..n {
        let len = next_cluster(&s[at..]).len;
        if len == 0 {
            break;
        }
        at += len;
    }
    Some(at)
}

// n clusters back from pos.
pub fn prev_pos(s: &[u8], pos: usize, n: RepeatCount) -> Option<usize>
    requires { IsPlace s.now pos }
    ensures { result ≡ prev_pos catalogue s.now pos n }
{
    if pos == 0 || n == 0 {
        return None;
    }
    let mut at = pos;
    for _ in 0..n {
        let len = prev_cluster(&s[..at]).len;
        if len == 0 {
            break;
        }
        at -= len;
    }
    Some(at)
}

// The n-th match of c from a place on, the last one where there are fewer. Each turn passes a character, and only a match takes
// one off what is left.
fn match_from(s: &[u8], from: usize, c: u32, n: RepeatCount) -> Option<usize>
    requires { from ≤ length s.now }
    ensures { result ≡ nth_match n (matches c from (chars (drop from s.now))) }
{
    let mut found = None;
    let mut at = from;
    let mut left = n;
    while 0 < left {
        let Some(Char { cp, len }) = decode_at(s, at) else {
            return found;
        };
        if cp == c {
            found = Some(at);
            left -= 1;
        }
        at += len;
    }
    found
}

// The n-th match of c before pos, counted backward, the first one where there are fewer.
pub fn match_backward(s: &[u8], pos: usize, c: u32, n: RepeatCount) -> Option<usize>
    requires { IsPlace s.now pos }
    ensures { result ≡ match_backward s.now pos c n }
{
    let mut found = None;
    let mut at = pos;
    let mut left = n;
    while 0 < left {
        if at == 0 {
            return found;
        }
        at = prev_char(s, at);
        let Some(Char { cp, .. }) = decode_at(s, at) else {
            return found;
        };
        if cp == c {
            found = Some(at);
            left -= 1;
        }
    }
    found
}

// Behind the cluster at the cursor.
fn after_cluster(s: &[u8], pos: usize) -> usize
    requires { pos ≤ length s.now }
    ensures { (result ≡ after_cluster catalogue s.now pos) × (result ≤ length s.now) }
{
    let k = next_cluster(&s[pos..]);
    pos + k.len
}

// The n-th match of c behind the cursor's cluster, the last one where there are fewer.
pub fn match_forward(s: &[u8], pos: usize, c: u32, n: RepeatCount) -> Option<usize>
    requires { pos ≤ length s.now }
    ensures { result ≡ match_forward catalogue s.now pos c n }
{
    match_from(s, after_cluster(s, pos), c, n)
}

pub fn search_char_pos(s: &[u8], pos: usize, cs: CharSearch, n: RepeatCount) -> Option<usize>
    requires { IsPlace s.now pos }
    ensures { result ≡ search_char_pos catalogue s.now pos cs n }
{
    match cs {
        CharSearch::Forward(c) => match_forward(s, pos, c, n),
        CharSearch::ForwardBefore(c) => match_forward(s, pos, c, n).map(|p| prev_char(s, p)),
        CharSearch::Backward(c) => match_backward(s, pos, c, n),
        CharSearch::BackwardAfter(c) => match_backward(s, pos, c, n).map(|p| p + char_size(c)),
    }
}

// The length of s without the white space at its end.
pub fn trim_end(s: &[u8]) -> usize
    requires { valid s.now ≡ true }
    ensures { result ≡ trim_end catalogue s.now }
{
    let mut at = s.len();
    // A turn goes back over a character: no index is counted.
    while 0 < at {
        let i = prev_char(s, at);
        let Some(Char { cp, .. }) = decode_at(s, i) else {
            return at;
        };
        if !is_white(cp) {
            return at;
        }
        at = i;
    }
    0
}

// The first all-alphanumeric cluster from pos on.
pub fn skip_whitespace(s: &[u8], pos: usize) -> Option<usize>
    requires { pos ≤ length s.now }
    ensures { result ≡ skip_whitespace catalogue s.now pos }
{
    let mut at = pos;
    // A turn passes a cluster: no index is counted.
    while at < s.len() {
        let k = next_cluster(&s[at..]);
        let len = k.len;
        if len == 0 {
            return None;
        }
        if k.alnum {
            return Some(at);
        }
        at += len;
    }
    None
}
