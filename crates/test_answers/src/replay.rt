// Replays recorded answers: makes the call of each line of a file, and prints of each call how many of its lines agree and
// which do not. The comments at the head of a data file say what a line is. A line that begins with '#' is a comment; a line of any
// other form is one that differs, and so is one with a text of over 65,536 bytes. The lines of one call stand together.
use super::counts::Count;
use std::fs::File;
use std::io;
use std::rt::Files;
use std::str::from_utf8;
use test_fields::{Fields, Malformed, fill_from};

// What is found of a line.
#[derive(Clone, Copy, PartialEq, Eq)]
enum Found {
    Comment,
    Agrees,
    Differs,
}

// What stands before the first such byte, and what stands behind it.
fn split_once(s: &[u8], b: u8) -> Option<(&[u8], &[u8])> {
    let at = s.iter().position(|x| *x == b)?;
    Some((&s[..at], &s[at + 1..]))
}

// Does a line agree: a call's name, what it is lent, and behind '>' what is due? The byte at either side of '>' is skipped.
fn agrees(line: &[u8]) -> Result<bool, Malformed> {
    let (name, sides) = split_once(line, b' ').ok_or(Malformed)?;
    let (lent, due) = split_once(sides, b'>').ok_or(Malformed)?;
    let lent = Fields::new(from_utf8(&lent[..lent.len().saturating_sub(1)])?);
    let due = Fields::new(from_utf8(&due[due.len().min(1)..])?);
    Ok(match from_utf8(name)?.split_once('_') {
        Some(("ring", call)) => test_ring_line::agrees(call, lent, due),
        Some(("line", "key")) => test_key_line::agrees(lent, due),
        Some(("text", "slip")) => test_slip_line::agrees(lent, due),
        Some((kind, call)) => test_state_line::agrees(kind, call, lent, due),
        None => false,
    })
}

fn judged(line: &[u8]) -> Found {
    if line.starts_with(b"#") {
        return Found::Comment;
    }
    match agrees(line) {
        Ok(true) => Found::Agrees,
        _ => Found::Differs,
    }
}

// Replays all lines. The count of a call is printed where that of another begins, and at the end.
fn replay(rt: &impl Print, s: &[u8]) -> io::Result<()> {
    let mut count = Count::of(b"");
    for (i, line) in s.split_inclusive(|b| *b == b'\n').enumerate() {
        let line = line.strip_suffix(b"\n").unwrap_or(line);
        let found = judged(line);
        if found == Found::Comment {
            continue;
        }
        if found == Found::Differs {
            let number = i + 1;
            println!(rt; "line {number} differs")?;
        }
        let name = split_once(line, b' ').map_or(line, |(name, _sides)| name);
        if name != count.name {
            count.print(rt)?;
            count = Count::of(name);
        }
        if found == Found::Agrees {
            count.agreed = count.agreed.saturating_add(1);
        }
    }
    count.print(rt)
}

// The bytes of a file that are read.
const LARGEST: usize = 262144;

// Replays a file.
pub fn run(rt: &(impl Files + Print), path: &str) -> io::Result<()> {
    let mut input = [0u8; LARGEST];
    let n = fill_from(&mut File::open(rt, path)?, &mut input)?;
    replay(rt, &input[..n])
}
