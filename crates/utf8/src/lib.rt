// UTF-8 as RFC 3629 defines it: the character at a place of a slice, the places between characters, and the bytes of a
// code point.
#![tactic(auto)]

ghost use Rattle.std.specs.Prelude.{◌≡◌, true, false, ◌+◌, ◌*◌, ◌%◌, ◌<◌, ◌^◌, get_or, drop};
ghost use Rattle.utf8.specs.Utf8.{within, tail, lead_len, two, lead3, three, lead4, four, first_of, first};
ghost use Rattle.utf8.specs.Answer.{as_first};
ghost use Rattle.utf8.specs.Chars.{valid, boundary, no_tail, start_before};
ghost use Rattle.utf8.specs.Encode.{scalar, size, EncodedAt};

// A character that stands at a place: its code point, and how many bytes it has.
#[derive(Clone, Copy)]
pub struct Char {
    pub cp: u32,
    pub len: usize,
}

// Is x in lo ..= hi?
#[tactic(auto, unfolding(crate::specs::Utf8::within))]
pub fn between(x: u32, lo: u32, hi: u32) -> bool
    ensures { result ≡ within lo hi x }
{
    (lo..=hi).contains(&x)
}

// The length that the leading one bits of a first byte announce; none means one byte. Document 01 names `leading_zeros` as
// the form for it.
pub fn char_len(b: u8) -> usize
    ensures { result ≡ lead_len b }
{
    match u8::leading_zeros(!b) {
        0 => 1,
        ones => ones as usize,
    }
}

// The bits so far, with the low six bits of the next byte behind them.
fn join(bits: u32, b: u32) -> u32
    requires { bits < 2 ^ 26 }
    ensures { result ≡ bits * 64 + b % 64 }
{
    (bits << 6) | (b & 0x3f)
}

// UTF8-tail, section 4; a number past 255 is none.
fn is_tail(b: u32) -> bool
    ensures { result ≡ tail b }
{
    between(b, 0x80, 0xBF)
}

fn two_bytes(a: u32, b: u32) -> Option<Char>
    ensures { as_first result ≡ two a b }
{
    if between(a, 0xC2, 0xDF) && is_tail(b) {
        return Some(Char {
            cp: join(a & 0x1f, b),
            len: 2,
        });
    }
    None
}

#[tactic(auto, unfolding(crate::specs::Utf8::lead3, crate::specs::Utf8::within))]
fn starts_three(a: u32, b: u32) -> bool
    ensures { result ≡ lead3 a b }
{
    match a {
        0xE0 => between(b, 0xA0, 0xBF),
        0xE1..=0xEC => is_tail(b),
        0xED => between(b, 0x80, 0x9F),
        0xEE..=0xEF => is_tail(b),
        _ => false,
    }
}

fn three_bytes(a: u32, b: u32, c: u32) -> Option<Char>
    ensures { as_first result ≡ three a b c }
{
    if starts_three(a, b) && is_tail(c) {
        return Some(Char {
            cp: join(join(a & 0x0f, b), c),
            len: 3,
        });
    }
    None
}

#[tactic(auto, unfolding(crate::specs::Utf8::lead4, crate::specs::Utf8::within))]
fn starts_four(a: u32, b: u32) -> bool
    ensures { result ≡ lead4 a b }
{
    match a {
        0xF0 => between(b, 0x90, 0xBF),
        0xF1..=0xF3 => is_tail(b),
        0xF4 => between(b, 0x80, 0x8F),
        _ => false,
    }
}

fn four_bytes(a: u32, b: u32, c: u32, d: u32) -> Option<Char>
    ensures { as_first result ≡ four a b c d }
{
    if starts_four(a, b) && is_tail(c) && is_tail(d) {
        return Some(Char {
            cp: join(join(join(a & 0x07, b), c), d),
            len: 4,
        });
    }
    None
}

// The character that four bytes begin with, if any; 256 stands for a byte past the end.
fn decode(a: u32, b: u32, c: u32, d: u32) -> Option<Char>
    ensures { as_first result ≡ first_of a b c d }
{
    if 0xF7 < a {
        return None;
    }
    match char_len(a as u8) {
        1 if a <= 0x7F => Some(Char { cp: a, len: 1 }),
        1 => None,
        2 => two_bytes(a, b),
        3 => three_bytes(a, b, c),
        _ => four_bytes(a, b, c, d),
    }
}

fn byte_at(s: &[u8], i: usize) -> u32
    ensures { result ≡ get_or s.now i 256 }
{
    match s.get(i) {
        Some(b) => u32::from(*b),
        None => 256,
    }
}

// The character at the place i of s, if one that RFC 3629 allows stands there.
pub fn decode_at(s: &[u8], i: usize) -> Option<Char>
    ensures { as_first result ≡ first (drop i s.now) }
{
    if s.len() <= i {
        return None;
    }
    decode(
        byte_at(s, i),
        byte_at(s, i + 1),
        byte_at(s, i + 2),
        byte_at(s, i + 3),
    )
}

// Is the place i of s a character boundary? Where s is UTF-8, it is one exactly where no UTF8-tail stands.
pub fn is_boundary(s: &[u8], i: usize) -> bool
    ensures any { result ≡ no_tail s.now i }
    ensures text { valid s.now ≡ true → result ≡ boundary s.now i }
{
    !is_tail(byte_at(s, i))
}

// The start of the character that ends at i.
pub fn prev_char(s: &[u8], i: usize) -> usize
    ensures { result ≡ start_before s.now i }
{
    for j in (0..i).rev() {
        if !is_tail(byte_at(s, j)) {
            return j;
        }
    }
    0
}

// A code point that has a form in UTF-8: at most U+10FFFF, and no surrogate.
#[tactic(auto, unfolding(crate::specs::Encode::scalar))]
pub fn is_scalar(cp: u32) -> bool
    ensures { result ≡ scalar cp }
{
    cp <= 0x10FFFF && !between(cp, 0xD800, 0xDFFF)
}

// How many bytes the form of a code point has.
#[tactic(auto, unfolding(crate::specs::Encode::size))]
pub fn char_size(cp: u32) -> usize
    ensures { result ≡ size cp }
{
    match cp {
        0x00..=0x7F => 1,
        0x80..=0x7FF => 2,
        0x800..=0xFFFF => 3,
        _ => 4,
    }
}

// Writes the bytes of a code point at the place at of out, and answers how many. Where it has none, or they do not fit,
// nothing is written, and the answer is None.
pub fn encode_at(out: &mut [u8], at: usize, cp: u32) -> Option<usize>
    ensures { EncodedAt out.old at cp out.new result }
{
    let n = char_size(cp);
    if !is_scalar(cp) || out.len() < at || out.len() - at < n {
        return None;
    }
    match n {
        1 => {
            out[at] = cp as u8;
            Some(1)
        }
        2 => {
            out[at] = (0xC0 + cp / 64) as u8;
            out[at + 1] = (0x80 + cp % 64) as u8;
            Some(2)
        }
        3 => {
            out[at] = (0xE0 + cp / 4096) as u8;
            out[at + 1] = (0x80 + cp / 64 % 64) as u8;
            out[at + 2] = (0x80 + cp % 64) as u8;
            Some(3)
        }
        _ => {
            out[at] = (0xF0 + cp / 262144) as u8;
            out[at + 1] = (0x80 + cp / 4096 % 64) as u8;
            out[at + 2] = (0x80 + cp / 64 % 64) as u8;
            out[at + 3] = (0x80 + cp % 64) as u8;
            Some(4)
        }
    }
}
