// The fields of a recorded answer's line, a space between them: decimal numbers, and texts in hexadecimal. A text is '-' where it is
// empty; '*' and a number behind a byte say how often it stands there in all, and a comma begins the next bytes: 0a61*3,62 is
// 0a61616162.
#![tactic(auto)]

mod buffers;
mod text;

ghost use Rattle.std.specs.Prelude.{◌≡◌, ◌⊎◌, ◌↔◌, ◌+◌, ◌-◌, ◌<◌, ◌≤◌, ◌^◌, false, min, length, take, [], ◌∷◌, IfOk, IsOkAnd, IsTrue};
ghost use Rattle.std.specs.Io.KnownBytes.{Consumes, IsAtEnd};
ghost use Rattle.test_fields.specs.Fields.{has_field, most_left};

pub use buffers::{Buffers, Lend};
use std::io::{self, Read};
use std::num::ParseIntError;
use std::str::{Split, Utf8Error};
pub use text::{Text, text_of};

// A line or a field has another form.
#[derive(Clone, Copy, Debug)]
pub struct Malformed;

impl From<Utf8Error> for Malformed {
    fn from(_e: Utf8Error) -> Malformed {
        Malformed
    }
}

impl From<ParseIntError> for Malformed {
    fn from(_e: ParseIntError) -> Malformed {
        Malformed
    }
}

// A decimal number of at most 64 bits. It has no sign, but `parse` takes a '+'.
fn number_of(field: &str) -> Result<usize, Malformed> {
    if field.starts_with('+') {
        return Err(Malformed);
    }
    Ok(field.parse::<usize>()?)
}

// The most numbers of one side of a line.
const MOST: usize = 24;

// The numbers of one side of a line.
#[derive(Clone, Copy)]
pub struct Numbers {
    values: [usize; MOST],
    count: usize,
    ghost fits: { count ≤ 24 },
}

impl Numbers {
    // The numbers in their order.
    pub fn as_slice(&self) -> &[usize]
        ensures { result.now ≡ take self.now.count self.now.values }
    {
        &self.values[..self.count]
    }

    // Puts a number behind the others, where there is room.
    fn push(&mut self, number: usize) -> Result<(), Malformed> {
        *self.values.get_mut(self.count).ok_or(Malformed)? = number;
        self.count += 1;
        Ok(())
    }
}

// The fields of one side of a line that are still to be read.
#[derive(Drop)]
pub struct Fields<'a> {
    rest: Split<'a, char>,
}

impl<'a> Fields<'a> {
    // The fields of a side, none of them read yet.
    pub fn new(side: &'a str) -> Self {
        Fields {
            rest: side.split(' '),
        }
    }

    // The next field. Behind the last it is empty, which says an empty text and no number.
    pub fn next_field(&mut self) -> &'a str {
        self.rest.next().unwrap_or("")
    }

    // The numbers of all fields that are left. No call has more than there is room for; more are malformed.
    pub fn numbers(self) -> Result<Numbers, Malformed> {
        let mut numbers = Numbers {
            values: [0; MOST],
            count: 0,
        };
        for field in self.rest {
            numbers.push(number_of(field)?)?;
        }
        Ok(numbers)
    }

    // Reads the next numbers into out, as many as it has room for, and answers how many: fewer only where no field is left.
    // Wrong answers ruled out: an end before a field that is left; a number counted where no field is left.
    pub fn read_numbers(&mut self, out: &mut [usize]) -> Result<usize, Malformed>
        ensures bound { IfOk result (λ n. n ≤ length out.old) }
        ensures end { IfOk result (λ n. n < length out.old → has_field self.new ≡ false) }
        ensures left { IfOk result (λ n. most_left self.new + n ≤ most_left self.old) }
    {
        for i in 0..out.len() {
            let Some(field) = self.rest.next() else {
                return Ok(i);
            };
            out[i] = number_of(field)?;
        }
        Ok(out.len())
    }
}

// Is a buffer left as a field says: its used part as the field, or the whole as it was lent where the field is '='? The text of the
// field is read in place of what was lent.
pub fn is_left(due: &str, lent: &mut Text, left: &[u8], used: usize) -> Result<bool, Malformed> {
    if due == "=" {
        return Ok(left == lent.as_slice());
    }
    lent.read(due)?;
    Ok(left.get(..used).is_some_and(|part| part == lent.as_slice()))
}

// The same of a buffer of any length, and what was lent is kept: the text of the field is read into room, and is malformed where it does
// not fit there. 61 is '='.
// Wrong answers ruled out: the lengths compared, and not the bytes; more bytes in use than the buffer has, and those that it has compared.
pub fn is_left_in(
    due: &str,
    lent: &[u8],
    left: &[u8],
    used: usize,
    room: &mut [u8],
) -> Result<bool, Malformed>
    ensures whole { due.now ≡ 61 ∷ [] → IsOkAnd result (λ b. IsTrue b ↔ (left.now ≡ lent.now)) }
    ensures part { IfOk result (λ b. IsTrue b
        → (due.now ≡ 61 ∷ []) ⊎ ((used ≤ length left.now) × (take used left.now ≡ take used room.new))) }
{
    if due == "=" {
        return Ok(left == lent);
    }
    let len = text_of(due, room)?;
    Ok(left.get(..used).is_some_and(|part| part == &room[..len]))
}

// A code or a code point: 4,294,967,295 where the number is over it.
pub fn code_of(x: usize) -> u32
    ensures { result ≡ min x (2 ^ 32 - 1) }
{
    u32::try_from(x).unwrap_or(u32::MAX)
}

// A repeat count: 65,535 where the number is over it.
pub fn count_of(x: usize) -> u16
    ensures { result ≡ min x (2 ^ 16 - 1) }
{
    u16::try_from(x).unwrap_or(u16::MAX)
}

// An amount of columns: 255 where the number is over it.
pub fn amount_of(x: usize) -> u8
    ensures { result ≡ min x (2 ^ 8 - 1) }
{
    u8::try_from(x).unwrap_or(u8::MAX)
}

// Fills a buffer from its start with what a reader gives, to the reader's end or the buffer's, and answers how many bytes came.
// Wrong answers ruled out: a byte's room left where the reader has more; a read of one byte taken for the reader's end.
pub fn fill_from<R: Read>(reader: &mut R, out: &mut [u8]) -> io::Result<usize>
    ensures bound { IfOk result (λ n. n ≤ length out.old) }
    ensures bytes { IfOk result (λ n. Consumes (R.remaining reader.old) (R.remaining reader.new) (take n out.new)) }
    ensures end { IfOk result (λ n. n < length out.old → IsAtEnd (R.remaining reader.new)) }
{
    let mut filled: usize = 0;
    while filled < out.len() {
        let n = reader.read(&mut out[filled..])?;
        if n == 0 {
            return Ok(filled);
        }
        filled += n;
    }
    Ok(filled)
}
