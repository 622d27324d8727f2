// Word motions: line_buffer.rs, prev_word_pos and next_word_pos with their rules. Each leaves both loops when the text runs
// out. Then the place that a movement over clusters or words comes to, or the place where it began.
#![tactic(auto)]

ghost use Rattle.std.specs.Prelude.{◌≡◌, true, ◌+◌, ◌≤◌, ◌<◌, length};
ghost use Rattle.utf8.specs.Chars.{valid};
ghost use Rattle.repertoire.specs.Repertoire.{catalogue};
ghost use Rattle.cluster.specs.Clusters.{first_size};
ghost use Rattle.motion.specs.Steps.{IsPlace};
ghost use Rattle.motion_words.specs.Rules.{is_word_char, is_other_char, is_start_of_word, stops_at, lands_behind};
ghost use Rattle.motion_words.specs.Words.{lands_on, next_word, next_word_pos, prev_word, prev_word_pos};
ghost use Rattle.motion_words.specs.Places.{on_from, back_from, words_on, words_back};

use cluster::{Cluster, next_cluster, prev_cluster};
use keymap::{At, RepeatCount, Word};
use motion::{next_pos, prev_pos};

// Where going over clusters came to: the place found, and the start of the last cluster read where the text ran out behind it,
// else 0. No Option: `walk` of specs/ has its 0 from line_buffer.rs, where a place of 0 says none forward (`wp == 0`) and is the
// text's start backward (`sow`).
#[derive(Clone, Copy)]
pub struct Landing {
    pub found: usize,
    pub last: usize,
}

fn is_word_char(word: Word, k: Cluster) -> bool
    ensures { result ≡ is_word_char word k }
{
    match word {
        Word::Big => !k.white,
        Word::Emacs => k.alnum,
        Word::Vi => k.alnum || k.underscore,
    }
}

fn is_other_char(k: Cluster) -> bool
    ensures { result ≡ is_other_char k }
{
    !(k.white || k.alnum || k.underscore)
}

#[tactic(auto, unfolding(crate::specs::Rules::is_start_of_word))]
fn is_start_of_word(word: Word, previous: Cluster, k: Cluster) -> bool
    ensures { result ≡ is_start_of_word word previous k }
{
    let starts = !is_word_char(word, previous) && is_word_char(word, k);
    match word {
        Word::Vi => starts || (!is_other_char(previous) && is_other_char(k)),
        Word::Big | Word::Emacs => starts,
    }
}

// Does a forward motion stop between x and the y that follows it?
fn stops_at(at: At, word: Word, x: Cluster, y: Cluster) -> bool
    ensures { result ≡ stops_at at word x y }
{
    match at {
        At::Start => is_start_of_word(word, x, y),
        At::BeforeEnd | At::AfterEnd => is_start_of_word(word, y, x),
    }
}

// Emacs words and the stop AfterEnd land behind a word.
#[tactic(auto, unfolding(crate::specs::Rules::lands_behind))]
fn lands_behind(at: At, word: Word) -> bool
    ensures { result ≡ lands_behind at word }
{
    matches!(word, Word::Emacs) || matches!(at, At::AfterEnd)
}

// The place of a stop between the clusters that start at i and j.
#[tactic(auto, unfolding(crate::specs::Words::lands_on, crate::specs::Rules::lands_behind))]
fn lands_on(at: At, word: Word, i: usize, j: usize) -> usize
    ensures { result ≡ lands_on at word i j }
{
    match at {
        At::Start => j,
        At::BeforeEnd => if lands_behind(at, word) { j } else { i },
        At::AfterEnd => j,
    }
}

// n words forward over a part of a text.
fn next_word(t: &[u8], at: At, word: Word, n: RepeatCount) -> Landing
    ensures { result ≡ next_word catalogue t.now at word n }
{
    let mut next = if matches!(at, At::BeforeEnd) {
        first_len(t)
    } else {
        0
    };
    let mut found = 0;
    let mut last = 0;
    'outer: for _ in 0..n {
        found = 0;
        last = 0;
        let mut x = next_cluster(&t[next..]);
        if x.len == 0 {
            break 'outer;
        }
        let mut i = next;
        next += x.len;
        'inner: loop {
            let y = next_cluster(&t[next..]);
            if y.len == 0 {
                last = i;
                break 'outer;
            }
            let j = next;
            next += y.len;
            if stops_at(at, word, x, y) {
                found = lands_on(at, word, i, j);
                break 'inner;
            }
            x = y;
            i = j;
        }
    }
    Landing { found, last }
}

// The length of the first cluster.
fn first_len(t: &[u8]) -> usize
    ensures { (result ≡ first_size catalogue t.now) × (result ≤ length t.now) }
{
    next_cluster(t).len
}

pub fn next_word_pos(s: &[u8], pos: usize, at: At, word: Word, n: RepeatCount) -> Option<usize>
    requires { pos ≤ length s.now }
    ensures { result ≡ next_word_pos catalogue s.now pos at word n }
{
    if pos == s.len() {
        return None;
    }
    let l = next_word(&s[pos..], at, word, n);
    let found = l.found;
    if found != 0 {
        return Some(found + pos);
    }
    if lands_behind(at, word) {
        return Some(s.len());
    }
    let last = l.last;
    if last == 0 {
        return None;
    }
    Some(last + pos)
}

// n words back over the part before a place.
fn prev_word(t: &[u8], word: Word, n: RepeatCount) -> usize
    requires { valid t.now ≡ true }
    ensures { result ≡ prev_word catalogue t.now word n }
{
    let mut rest = t.len();
    let mut found = 0;
    'outer: for _ in 0..n {
        found = 0;
        let mut y = prev_cluster(&t[..rest]);
        if y.len == 0 {
            break 'outer;
        }
        rest -= y.len;
        let mut j = rest;
        'inner: loop {
            let x = prev_cluster(&t[..rest]);
            if x.len == 0 {
                break 'outer;
            }
            rest -= x.len;
            if is_start_of_word(word, x, y) {
                found = j;
                break 'inner;
            }
            y = x;
            j = rest;
        }
    }
    found
}

pub fn prev_word_pos(s: &[u8], pos: usize, word: Word, n: RepeatCount) -> Option<usize>
    requires { IsPlace s.now pos }
    ensures { result ≡ prev_word_pos catalogue s.now pos word n }
{
    if pos == 0 {
        return None;
    }
    Some(prev_word(&s[..pos], word, n))
}

// One cluster on from a place.
pub fn on_from(s: &[u8], pos: usize) -> usize
    ensures { result ≡ on_from catalogue s.now pos }
{
    next_pos(s, pos, 1).unwrap_or(pos)
}

// One cluster back.
pub fn back_from(s: &[u8], pos: usize) -> usize
    requires { IsPlace s.now pos }
    ensures { result ≡ back_from catalogue s.now pos }
{
    prev_pos(s, pos, 1).unwrap_or(pos)
}

// Behind the n-th word from a place on.
pub fn words_on(s: &[u8], pos: usize, n: RepeatCount) -> usize
    requires { pos ≤ length s.now }
    ensures { result ≡ words_on catalogue s.now n pos }
{
    next_word_pos(s, pos, At::AfterEnd, Word::Emacs, n).unwrap_or(pos)
}

// At the start of the n-th word before a place.
pub fn words_back(s: &[u8], pos: usize, n: RepeatCount) -> usize
    requires { IsPlace s.now pos }
    ensures { result ≡ words_back catalogue s.now n pos }
{
    prev_word_pos(s, pos, Word::Emacs, n).unwrap_or(pos)
}
