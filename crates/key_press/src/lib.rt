// Order 1 of document 02: which bytes are a key, what its n is, and what it stands for. ESC is 0x1B.
#![tactic(auto)]

ghost use Rattle.std.specs.Prelude.{◌≡◌, true, length, drop};
ghost use Rattle.utf8.specs.Utf8.{first};
ghost use Rattle.repertoire.specs.Repertoire.{catalogue};
ghost use Rattle.repertoire.specs.Text.{member_len};
ghost use Rattle.key_press.specs.Keys.{is_digit, with_digit, CountedAs, control as Keys·control, escaped as Keys·escaped};
ghost use Rattle.key_press.specs.Keys.{character as Keys·character};
ghost use Rattle.key_press.specs.Keys.{press_by, press_of, is_untried, untried, foreign_key};

use keymap::RepeatCount;
use repertoire::{check_char, in_repertoire};
use utf8::{Char, decode_at};

// A key that moves the cursor. The n of a key is 0 to 65,535.
#[derive(Clone, Copy)]
pub enum MoveKey {
    Home,
    End,
    Backward(RepeatCount),
    Forward(RepeatCount),
    PrevWord(RepeatCount),
    NextWord(RepeatCount),
}

// A key that edits the text and leaves the ring's slots alone.
#[derive(Clone, Copy)]
pub enum EditKey {
    Typed(u32, RepeatCount),
    Delete(RepeatCount),
    TransposeChars,
    TransposeWords(RepeatCount),
    Capitalize,
    Lowercase,
    Uppercase,
}

// A key that kills.
#[derive(Clone, Copy)]
pub enum KillKey {
    Line,
    Discard,
    PrevWord(RepeatCount),
    Word(RepeatCount),
}

// What a key stands for.
#[derive(Clone, Copy)]
pub enum Press {
    Unbound,
    Move(MoveKey),
    Edit(EditKey),
    Undo(RepeatCount),
    Kill(KillKey),
    Yank(RepeatCount),
    YankPop,
}

// A count, and where the key behind it begins.
#[derive(Clone, Copy)]
pub struct Count {
    pub n: RepeatCount,
    pub at: usize,
}

#[tactic(auto, unfolding(utf8::specs::Utf8::within))]
fn is_digit(b: u8) -> bool
    ensures { result ≡ is_digit b }
{
    b.is_ascii_digit()
}

// A digit more, held at 65,535.
#[tactic(auto, unfolding(crate::specs::Keys::with_digit, utf8::specs::Utf8::within))]
fn with_digit(n: RepeatCount, digit: u8) -> RepeatCount
    requires { is_digit digit ≡ true }
    ensures { result ≡ with_digit n digit }
{
    n.saturating_mul(10).saturating_add(u16::from(digit - 0x30))
}

// The count of a key: the digits behind an ESC, all that stand there; without them 1.
fn count_of(key: &[u8]) -> Count
    ensures { CountedAs key.now result }
{
    if key.len() < 2 || key[0] != 0x1B || !is_digit(key[1]) {
        return Count { n: 1, at: 0 };
    }
    let mut n: RepeatCount = 0;
    for at in 1..key.len() {
        if !is_digit(key[at]) {
            return Count { n, at };
        }
        n = with_digit(n, key[at]);
    }
    Count { n, at: key.len() }
}

// A byte below 0x20 by itself.
fn control(b: u8, n: RepeatCount) -> Press
    ensures { result ≡ Keys·control n b }
{
    match b {
        0x01 => Press::Move(MoveKey::Home),
        0x02 => Press::Move(MoveKey::Backward(n)),
        0x04 => Press::Edit(EditKey::Delete(n)),
        0x05 => Press::Move(MoveKey::End),
        0x06 => Press::Move(MoveKey::Forward(n)),
        0x09 => Press::Edit(EditKey::Typed(0x09, n)),
        0x0A => Press::Edit(EditKey::Typed(0x0A, n)),
        0x0B => Press::Kill(KillKey::Line),
        0x0D => Press::Edit(EditKey::Typed(0x0D, n)),
        0x14 => Press::Edit(EditKey::TransposeChars),
        0x15 => Press::Kill(KillKey::Discard),
        0x17 => Press::Kill(KillKey::PrevWord(n)),
        0x19 => Press::Yank(n),
        0x1F => Press::Undo(n),
        _ => Press::Unbound,
    }
}

// ESC and a byte.
fn escaped(b: u8, n: RepeatCount) -> Press
    ensures { result ≡ Keys·escaped n b }
{
    match b {
        0x62 => Press::Move(MoveKey::PrevWord(n)),
        0x63 => Press::Edit(EditKey::Capitalize),
        0x64 => Press::Kill(KillKey::Word(n)),
        0x66 => Press::Move(MoveKey::NextWord(n)),
        0x6C => Press::Edit(EditKey::Lowercase),
        0x74 => Press::Edit(EditKey::TransposeWords(n)),
        0x75 => Press::Edit(EditKey::Uppercase),
        0x79 => Press::YankPop,
        _ => Press::Unbound,
    }
}

// One character of the repertoire and nothing behind it.
fn character(key: &[u8], n: RepeatCount) -> Press
    ensures { result ≡ Keys·character catalogue n key.now }
{
    match decode_at(key, 0) {
        Some(Char { cp, len }) if len == key.len() && check_char(cp) => Press::Edit(EditKey::Typed(
            cp, n,
        )),
        _ => Press::Unbound,
    }
}

// A key without its count: a control key, ESC and a letter, or a character.
fn press_by(key: &[u8], n: RepeatCount) -> Press
    ensures { result ≡ press_by catalogue n key.now }
{
    match key {
        [] => Press::Unbound,
        [b] if *b < 0x20 => control(*b, n),
        [0x1B, b] => escaped(*b, n),
        _ => character(key, n),
    }
}

// What the bytes of one call stand for.
//
// Wrong answers ruled out: the last digit taken for the key; ESC B as ESC b.
pub fn press_of(key: &[u8]) -> Press
    ensures { result ≡ press_of catalogue key.now }
{
    let Count { n, at } = count_of(key);
    press_by(&key[at..], n)
}

fn is_untried(cp: u32) -> bool
    ensures { result ≡ is_untried cp }
{
    cp < 0x20 || cp == 0x7F
}

// The length of the character at a place, if one stands there that check 4 lets pass.
fn tried_len(key: &[u8], at: usize) -> Option<usize>
    ensures { result ≡ member_len (untried catalogue) (first (drop at key.now)) }
{
    let Char { cp, len } = decode_at(key, at)?;
    if is_untried(cp) || in_repertoire(cp) {
        Some(len)
    } else {
        None
    }
}

// Check 4 of a key's bytes.
//
// Wrong answers ruled out: U+0085 passed as a byte below 0x20; the bytes behind a whole key not looked at.
pub fn is_foreign_key(key: &[u8]) -> bool
    ensures { result ≡ foreign_key catalogue key.now }
{
    let mut at = 0;
    // A turn passes a character, and stops where none stands: no index is counted, and std has no iterator over these.
    while at < key.len() {
        let Some(n) = tried_len(key, at) else {
            return true;
        };
        at += n;
    }
    false
}
