// The longest slip, which no line of a data file has room for: 4,096 newlines are 4,096 lines of 60 spaces.
use slip_calls::slip;

// The bytes of the text, and of the slip: its lines with their newlines.
const TEXT: usize = 4096;

const SLIP: usize = 249856;

// The columns of a line.
const COLUMNS: usize = 60;

// Is it a line of spaces, with its newline?
fn is_blank_line(line: &[u8]) -> bool {
    line.strip_suffix(b"\n").is_some_and(|spaces| spaces.len() == COLUMNS
        && spaces.iter().all(|b| *b == b' '))
}

// A page as long as the slip.
fn fills_the_page() -> bool {
    let mut page = [0x9Fu8; SLIP];
    let a = slip(&[b'\n'; TEXT], &mut page);
    a.number == 0 && a.value == SLIP && page.chunks(COLUMNS + 1).all(is_blank_line)
}

// A page one byte short.
fn is_refused() -> bool {
    let mut page = [0x9Fu8; SLIP - 1];
    let a = slip(&[b'\n'; TEXT], &mut page);
    a.number == 14 && a.value == 0 && page.iter().all(|b| *b == 0x9F)
}

// How many of the two agree.
pub fn agreed() -> usize {
    usize::from(fills_the_page()) + usize::from(is_refused())
}
