// The texts that fields say, each in a buffer that the caller lends.
ghost use Rattle.std.specs.Prelude.{◌≡◌, ◌<◌, ◌≤◌, length, take, IfOk, OnErr};

use super::{Malformed, number_of};

// The value of a hexadecimal digit; letters are small.
fn digit_of(b: u8) -> Result<u8, Malformed>
    ensures { IfOk result (λ digit. digit < 16) }
{
    match b {
        b'0'..=b'9' => Ok(b - b'0'),
        b'a'..=b'f' => Ok(b - b'a' + 10),
        _ => Err(Malformed),
    }
}

// Puts a byte so many times behind the first len bytes of out, where there is room, and answers how many bytes there are then.
fn add(out: &mut [u8], len: usize, b: u8, count: usize) -> Result<usize, Malformed>
    ensures { IfOk result (λ n. (len ≤ n) × (n ≤ length out.old)) }
{
    let end = len.checked_add(count).ok_or(Malformed)?;
    out.get_mut(len..end).ok_or(Malformed)?.fill(b);
    Ok(end)
}

// Puts the bytes that digits say behind the first len bytes of out, and answers how many bytes there are then.
fn add_bytes(out: &mut [u8], len: usize, digits: &str) -> Result<usize, Malformed>
    requires { len ≤ length out.old }
    ensures { IfOk result (λ n. (len ≤ n) × (n ≤ length out.old)) }
{
    let mut end = len;
    for pair in digits.as_bytes().chunks(2) {
        let &[high, low] = pair else {
            return Err(Malformed);
        };
        end = add(out, end, digit_of(high)? * 16 + digit_of(low)?, 1)?;
    }
    Ok(end)
}

// Puts a run behind the first len bytes of out, and answers how many bytes there are then: bytes, the last of them so many times in
// all as stands behind a '*'.
fn add_run(out: &mut [u8], len: usize, run: &str) -> Result<usize, Malformed>
    requires { len ≤ length out.old }
    ensures { IfOk result (λ n. n ≤ length out.old) }
{
    let Some((digits, count)) = run.split_once('*') else {
        return add_bytes(out, len, run);
    };
    let end = add_bytes(out, len, digits)?;
    let more = number_of(count)?.checked_sub(1).ok_or(Malformed)?;
    let last = out[len..end].last().copied().ok_or(Malformed)?;
    add(out, end, last, more)
}

// Writes the text that a field says into out from its start, and answers its length. One that does not fit is malformed too.
pub fn text_of(field: &str, out: &mut [u8]) -> Result<usize, Malformed>
    ensures { IfOk result (λ n. n ≤ length out.old) }
{
    if field == "-" {
        return Ok(0);
    }
    let mut len = 0;
    for run in field.split(',') {
        len = add_run(out, len, run)?;
    }
    Ok(len)
}

// Writes a text into out from its start.
fn put(out: &mut [u8], text: &[u8])
    requires { length text.now ≤ length out.old }
    ensures { take (length text.now) out.new ≡ text.now }
{
    out[..text.len()].copy_from_slice(text);
}

// The bytes of the longest text.
const LONGEST: usize = 65536;

// A text in the frame of who reads it.
#[derive(Clone, Copy)]
pub struct Text {
    bytes: [u8; LONGEST],
    len: usize,
    ghost fits: { len ≤ 65536 },
}

impl Text {
    // The empty text.
    pub fn new() -> Self
        ensures { result.len ≡ 0 }
    {
        Text {
            bytes: [0; LONGEST],
            len: 0,
        }
    }

    // The bytes of the text.
    pub fn as_slice(&self) -> &[u8]
        ensures { result.now ≡ take self.now.len self.now.bytes }
    {
        &self.bytes[..self.len]
    }

    // The bytes of the text, to be written.
    pub fn as_mut_slice(&mut self) -> &mut [u8]
        ensures { result.now ≡ take self.old.len self.old.bytes }
    {
        let len = self.len;
        let bytes = &mut self.bytes;
        &mut bytes[..len]
    }

    // Reads the text that a field says. Where it has another form, the text keeps its length.
    pub fn read(&mut self, field: &str) -> Result<(), Malformed>
        ensures { OnErr result (self.new.len ≡ self.old.len) }
    {
        self.len = text_of(field, &mut self.bytes)?;
        Ok(())
    }

    // Copies another text.
    pub fn copy_from(&mut self, text: &Text)
        ensures { take self.new.len self.new.bytes ≡ take text.now.len text.now.bytes }
    {
        put(&mut self.bytes, text.as_slice());
        self.len = text.len;
    }
}
