// Reads test lines in the form of Unicode's GraphemeBreakTest.txt from standard input, and prints how many agree with
// the clusters found forward and backward. A line of the form
//     SIGN (SPACE CODE-POINT SPACE SIGN)+ LINE-FEED
// gives a text by its code points, 4 to 6 hexadecimal digits each, and says by its signs whether there is a break
// before, between and after them: U+00F7 for yes, U+00D7 for no. A line that begins with '#' is a comment. A line of
// any other form, or whose text is over 64 bytes, agrees in neither direction. The last line may lack its line feed.
#![tactic(auto)]

ghost use Rattle.std.specs.Prelude.{◌≡◌, ◌≤◌, length, IfSome};

use cluster::{next_cluster, prev_cluster};
use repertoire::check_text;
use std::io;
use std::str::from_utf8;
use test_fields::{Malformed, fill_from};

// The bytes of standard input that are read.
const LARGEST: usize = 65536;

// The bytes of the longest text.
const LONGEST: usize = 64;

// Does a sign say that there is a break?
fn is_break(sign: &str) -> Result<bool, Malformed> {
    match sign {
        "÷" => Ok(true),
        "×" => Ok(false),
        _ => Err(Malformed),
    }
}

// The character of a code point. Letters are large, but `from_str_radix` takes small ones and a '+' too.
fn char_of(point: &str) -> Result<char, Malformed> {
    let is_digit = |b: u8| matches!(b, b'0'..=b'9' | b'A'..=b'F');
    if !(4..=6).contains(&point.len()) || !point.bytes().all(is_digit) {
        return Err(Malformed);
    }
    char::from_u32(u32::from_str_radix(point, 16)?).ok_or(Malformed)
}

// The length of the last cluster, none where the bytes are no text.
fn last_len(s: &[u8]) -> Option<usize>
    ensures { IfSome result (λ len. len ≤ length s.now) }
{
    if !check_text(s) {
        return None;
    }
    Some(prev_cluster(s).len)
}

// A text, and the lengths of its clusters in order, as a test line says them.
#[derive(Clone, Copy)]
struct Case {
    bytes: [u8; LONGEST],
    len: usize,
    lens: [usize; LONGEST],
    clusters: usize,
    ghost fits: { (len ≤ 64) × (clusters ≤ 64) },
}

impl Case {
    // The case of a test line. Both the start and the end of a text are breaks.
    fn read(line: &[u8]) -> Result<Self, Malformed> {
        let steps = from_utf8(line)?.strip_prefix('÷').ok_or(Malformed)?;
        let mut case = Case {
            bytes: [0; LONGEST],
            len: 0,
            lens: [0; LONGEST],
            clusters: 0,
        };
        let mut start = 0;
        for step in steps.split_inclusive(|c| matches!(c, '÷' | '×')) {
            let (point, sign) = step
                .strip_prefix(' ')
                .and_then(|rest| rest.split_once(' '))
                .ok_or(Malformed)?;
            case.push(char_of(point)?)?;
            if is_break(sign)? {
                let end = case.len;
                case.push_cluster(end - start)?;
                start = end;
            }
        }
        if start != case.len || case.len == 0 {
            return Err(Malformed);
        }
        Ok(case)
    }

    // Puts a character behind the text, where there is room.
    fn push(&mut self, c: char) -> Result<(), Malformed>
        ensures { self.old.len ≤ self.new.len }
    {
        let mut room = [0; 4];
        let bytes = c.encode_utf8(&mut room).as_bytes();
        let end = self.len + bytes.len();
        self.bytes
            .get_mut(self.len..end)
            .ok_or(Malformed)?
            .copy_from_slice(bytes);
        self.len = end;
        Ok(())
    }

    // Puts a cluster's length behind the others, where there is room.
    fn push_cluster(&mut self, len: usize) -> Result<(), Malformed>
        ensures { self.new.len ≡ self.old.len }
    {
        *self.lens.get_mut(self.clusters).ok_or(Malformed)? = len;
        self.clusters += 1;
        Ok(())
    }

    // Do steps by the next cluster from the start find these clusters?
    fn agrees_forward(&self) -> bool {
        let mut rest = &self.bytes[..self.len];
        for len in &self.lens[..self.clusters] {
            let found = next_cluster(rest).len;
            if found != *len {
                return false;
            }
            rest = &rest[found..];
        }
        rest.is_empty()
    }

    // Do steps by the previous cluster from the end find these clusters?
    fn agrees_backward(&self) -> bool {
        let mut rest = &self.bytes[..self.len];
        for len in self.lens[..self.clusters].iter().rev() {
            match last_len(rest) {
                Some(found) if found == *len => rest = &rest[..rest.len() - found],
                _ => return false,
            }
        }
        rest.is_empty()
    }
}

// The lines counted, and those of them that agree.
#[derive(Clone, Copy)]
struct Tally {
    lines: usize,
    forward: usize,
    backward: usize,
}

// The tally of all lines but the comments.
fn tally_of(s: &[u8]) -> Tally {
    let mut tally = Tally {
        lines: 0,
        forward: 0,
        backward: 0,
    };
    for line in s.split_inclusive(|b| *b == b'\n') {
        if line.starts_with(b"#") {
            continue;
        }
        tally.lines = tally.lines.saturating_add(1);
        if let Ok(case) = Case::read(line.strip_suffix(b"\n").unwrap_or(line)) {
            tally.forward = tally
                .forward
                .saturating_add(usize::from(case.agrees_forward()));
            tally.backward = tally
                .backward
                .saturating_add(usize::from(case.agrees_backward()));
        }
    }
    tally
}

fn main(rt: HostRuntime) -> io::Result<()> {
    let mut input = [0u8; LARGEST];
    let n = fill_from(&mut rt.reader(), &mut input)?;
    let tally = tally_of(&input[..n]);
    println!(rt;
        "{} lines: {} agree forward, {} agree backward",
        tally.lines, tally.forward, tally.backward
    )
}
