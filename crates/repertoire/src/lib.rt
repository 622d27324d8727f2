// The repertoire of document 01, texts over it, and their upper and lower case.
#![tactic(auto)]

ghost use Rattle.std.specs.Prelude.{◌≡◌, ◌<◌, ◌≤◌, length, drop};
ghost use Rattle.lists.specs.Lists.{all};
ghost use Rattle.utf8.specs.Utf8.{first};
ghost use Rattle.repertoire.specs.Repertoire.{catalogue};
ghost use Rattle.repertoire.specs.Text.{is_text, is_char, member_len, plain, ReadTo};
ghost use Rattle.repertoire.specs.Case.{as_chars, case_of, MappedFits, MappedAt, CasedInto};

use utf8::{Char, decode_at, encode_at, is_scalar};

#[tactic(auto, unfolding(crate::specs::Repertoire::is_member, utf8::specs::Utf8::within))]
pub fn in_repertoire(cp: u32) -> bool
    ensures { result ≡ catalogue.member cp }
{
    matches!(cp, 0x09..=0x0A | 0x0D | 0x20..=0x7E | 0xA0..=0xAC | 0xAE..=0xB4 | 0xB6..=0xFF | 0x178 | 0x300..=0x333)
}

#[tactic(auto, unfolding(crate::specs::Repertoire::is_control, utf8::specs::Utf8::within))]
pub fn is_control(cp: u32) -> bool
    ensures { result ≡ catalogue.control cp }
{
    matches!(cp, 0x09..=0x0A | 0x0D)
}

#[tactic(auto, unfolding(crate::specs::Repertoire::is_mark, utf8::specs::Utf8::within))]
pub fn is_mark(cp: u32) -> bool
    ensures { result ≡ catalogue.mark cp }
{
    matches!(cp, 0x300..=0x333)
}

#[tactic(auto, unfolding(crate::specs::Repertoire::is_alnum, utf8::specs::Utf8::within))]
pub fn is_alnum(cp: u32) -> bool
    ensures { result ≡ catalogue.alnum cp }
{
    matches!(
        cp,
        0x30..=0x39
            | 0x41..=0x5A
            | 0x61..=0x7A
            | 0xAA
            | 0xB2..=0xB3
            | 0xB9..=0xBA
            | 0xBC..=0xBE
            | 0xC0..=0xD6
            | 0xD8..=0xF6
            | 0xF8..=0xFF
            | 0x178
    )
}

#[tactic(auto, unfolding(crate::specs::Repertoire::is_white, utf8::specs::Utf8::within))]
pub fn is_white(cp: u32) -> bool
    ensures { result ≡ catalogue.white cp }
{
    matches!(cp, 0x09..=0x0A | 0x0D | 0x20 | 0xA0)
}

// The columns that a character takes.
pub fn char_width(cp: u32) -> usize
    ensures { result ≡ catalogue.width cp }
{
    if is_mark(cp) { 0 } else { 1 }
}

// A character that may be put in: check 4 of a single character.
#[tactic(auto, unfolding(crate::specs::Text::is_char))]
pub fn check_char(cp: u32) -> bool
    ensures { result ≡ is_char catalogue cp }
{
    is_scalar(cp) && in_repertoire(cp)
}

// A byte of ASCII that is a character of the repertoire. It is said without a branch, as all_plain's loop has none.
fn is_plain(b: u8) -> bool
    ensures { result ≡ plain b }
{
    ((0x20 <= b) & (b <= 0x7E)) | ((0x09 <= b) & (b <= 0x0A)) | (b == 0x0D)
}

// Are all bytes of s plain? The loop has no exit but its end, so that the back end can take many bytes at a time.
fn all_plain(s: &[u8]) -> bool
    ensures { result ≡ all plain s.now }
{
    let mut ok = true;
    for b in s {
        ok &= is_plain(*b);
    }
    ok
}

// The length of the character at a place, if one of the repertoire stands there.
pub fn member_len(s: &[u8], at: usize) -> Option<usize>
    ensures { result ≡ member_len catalogue (first (drop at s.now)) }
{
    if is_plain(*s.get(at)?) {
        return Some(1);
    }
    let Char { cp, len } = decode_at(s, at)?;
    if in_repertoire(cp) { Some(len) } else { None }
}

// Reads characters of the repertoire from i on until end is reached, and answers where: none where something else stands.
fn read_chars(s: &[u8], i: usize, end: usize) -> Option<usize>
    requires { (i ≤ end) × (end ≤ length s.now) }
    ensures { ReadTo s.now i end result }
{
    let mut at = i;
    // A turn passes a character, and stops where none stands: no index is counted, and std has no iterator over these.
    while at < end {
        at += member_len(s, at)?;
    }
    Some(at)
}

// The end of the block of at most 32 bytes that begins at i.
fn block_end(i: usize, len: usize) -> usize
    requires { i < len }
    ensures { (i < result) × (result ≤ len) }
{
    i.saturating_add(32).min(len)
}

// Is s a text of the repertoire? Block by block: plain ones are passed, the characters of the others are read.
pub fn check_text(s: &[u8]) -> bool
    ensures { result ≡ is_text catalogue s.now }
{
    let mut i = 0;
    // A turn passes a block, or the characters that reach over its end: no chunk of even length.
    while i < s.len() {
        let end = block_end(i, s.len());
        if all_plain(&s[i..end]) {
            i = end;
        } else {
            let Some(j) = read_chars(s, i, end) else {
                return false;
            };
            i = j;
        }
    }
    true
}

// The two full case mappings.
#[derive(Clone, Copy)]
pub enum Case {
    Upper,
    Lower,
}

// What a character is mapped to: one character, or two, as upper case of U+00DF is SS.
#[derive(Clone, Copy)]
pub enum Mapped {
    One(u32),
    Two(u32, u32),
}

#[tactic(auto, unfolding(crate::specs::Repertoire::upper_of, crate::specs::Repertoire::is_lowercase, utf8::specs::Utf8::within))]
pub fn upper_of(cp: u32) -> Mapped
    ensures { as_chars result ≡ catalogue.upper cp }
{
    match cp {
        0xDF => Mapped::Two(0x53, 0x53),
        0xFF => Mapped::One(0x178),
        0x61..=0x7A | 0xE0..=0xF6 | 0xF8..=0xFE => Mapped::One(cp - 32),
        _ => Mapped::One(cp),
    }
}

#[tactic(auto, unfolding(crate::specs::Repertoire::lower_of, crate::specs::Repertoire::is_uppercase, utf8::specs::Utf8::within))]
pub fn lower_of(cp: u32) -> Mapped
    ensures { as_chars result ≡ catalogue.lower cp }
{
    match cp {
        0x178 => Mapped::One(0xFF),
        0x41..=0x5A | 0xC0..=0xD6 | 0xD8..=0xDE => Mapped::One(cp + 32),
        _ => Mapped::One(cp),
    }
}

pub fn case_of(cp: u32, case: Case) -> Mapped
    ensures { as_chars result ≡ case_of catalogue case cp }
{
    match case {
        Case::Upper => upper_of(cp),
        Case::Lower => lower_of(cp),
    }
}

// Writes a mapping at the place at of out, and answers how many bytes.
fn write_mapped(out: &mut [u8], at: usize, m: Mapped) -> usize
    requires { MappedFits (length out.old) at m }
    ensures { MappedAt out.old at m out.new result }
{
    match m {
        Mapped::One(a) => encode_at(out, at, a).unwrap(),
        Mapped::Two(a, b) => {
            let n = encode_at(out, at, a).unwrap();
            n + encode_at(out, at + n, b).unwrap()
        }
    }
}

// Writes s in upper or in lower case to the front of out, and answers how many bytes. Where out is shorter than s, nothing
// is written, and the answer is None.
pub fn change_case(s: &[u8], case: Case, out: &mut [u8]) -> Option<usize>
    ensures { CasedInto out.old case s.now out.new result }
{
    if out.len() < s.len() {
        return None;
    }
    let mut i = 0;
    let mut n = 0;
    while let Some(Char { cp, len }) = decode_at(s, i) {
        n += write_mapped(out, n, case_of(cp, case));
        i += len;
    }
    Some(n)
}
