// Order 2 of document 02: a text as a slip of 60 columns on a lent page. One pass adds up the slip's length, and a second one
// writes it; both go by the same steps.
#![tactic(auto)]

ghost use Rattle.std.specs.Prelude.{◌≡◌, true, ◌+◌, ◌≤◌, ◌<◌, eqb, length, drop};
ghost use Rattle.std.proofs.lemmas.List.Edits.{sets};
ghost use Rattle.lists.specs.Lists.{any, part};
ghost use Rattle.formats.specs.Formats.{format_for};
ghost use Rattle.utf8.specs.Chars.{valid};
ghost use Rattle.repertoire.specs.Repertoire.{catalogue};
ghost use Rattle.slip_model.specs.Slip.{spaced as Slip·spaced, slip as Slip·slip};
ghost use Rattle.slip_calls.specs.Places.{filled_to, space_before, line_end, place_for, white_place, closing_place, placed};
ghost use Rattle.slip_calls.specs.Pieces.{PieceAt};
ghost use Rattle.slip_calls.specs.Steps.{Standing, StepAt};
ghost use Rattle.slip_calls.specs.Answer.{Slips};

use buffer::{copy_at, fill};
use checks::{Refused, ValueAnswer, text_refusal};
use cluster::next_cluster;
use layout::width;
use slip_model::Filled;

// The columns of a line.
const COLUMNS: usize = 60;

// Where a piece of a word ends, and its columns.
#[derive(Clone, Copy)]
pub struct Piece {
    pub end: usize,
    pub columns: usize,
}

// What stands on the page in front of a word, or at a line's end: spaces, and a \n or none; and how far the line is filled then.
// `newline` is no sign that another field counts: spaces stand in front of a \n as well as of a word.
#[derive(Clone, Copy)]
pub struct Place {
    pub spaces: usize,
    pub newline: bool,
    pub filled: Filled,
}

// What a step prints: a place, and the bytes of the text between two places. The text goes on behind them.
#[derive(Clone, Copy)]
pub struct Step {
    pub place: Place,
    pub from: usize,
    pub end: usize,
}

// The piece of a word at a place: clusters without white space, of at most 60 columns together.
fn piece_at(s: &[u8], at: usize) -> Piece
    requires { (at ≤ length s.now) × (length s.now ≤ 131072) × (valid (drop at s.now) ≡ true) }
    ensures { PieceAt catalogue s.now at result }
{
    let mut end = at;
    let mut columns: usize = 0;
    // A turn passes a cluster: no index is counted.
    while end < s.len() {
        let k = next_cluster(&s[end..]);
        if k.white {
            return Piece { end, columns };
        }
        let n = width(&s[end..end + k.len], 0);
        if COLUMNS < columns + n {
            return Piece { end, columns };
        }
        columns += n;
        end += k.len;
    }
    Piece { end, columns }
}

// White space behind what a line has.
fn spaced(filled: Filled) -> Filled
    ensures { result ≡ Slip·spaced filled }
{
    match filled {
        Filled::Fresh | Filled::Blank => Filled::Blank,
        Filled::UpTo(c) => Filled::UpTo(c),
    }
}

// The columns that a line has.
fn filled_to(filled: Filled) -> usize
    ensures { result ≡ filled_to filled }
{
    match filled {
        Filled::Fresh | Filled::Blank => 0,
        Filled::UpTo(c) => c,
    }
}

// The space between words.
fn space_before(filled: Filled) -> usize
    ensures { result ≡ space_before filled }
{
    match filled {
        Filled::Fresh | Filled::Blank => 0,
        Filled::UpTo(_) => 1,
    }
}

// A line padded to 60 columns and ended; the next one is filled as `next` says.
fn line_end(filled: Filled, next: Filled) -> Place
    requires { filled_to filled ≤ 60 }
    ensures { result ≡ line_end filled next }
{
    Place {
        spaces: COLUMNS - filled_to(filled),
        newline: true,
        filled: next,
    }
}

// Where a word of n columns goes: behind those of the line, one space between, or where it does not fit on the next line.
fn place_for(filled: Filled, n: usize) -> Place
    requires { (filled_to filled ≤ 60) × (n ≤ 60) }
    ensures { result ≡ place_for filled n }
{
    let spaces = space_before(filled);
    let columns = filled_to(filled) + spaces + n;
    if columns <= COLUMNS {
        return Place {
            spaces,
            newline: false,
            filled: Filled::UpTo(columns),
        };
    }
    line_end(filled, Filled::UpTo(n))
}

// At the text's end: the line begun is ended, and there is none where nothing has come since the last \n.
fn closing_place(filled: Filled) -> Place
    requires { filled_to filled ≤ 60 }
    ensures { result ≡ closing_place filled }
{
    match filled {
        Filled::Fresh => Place {
            spaces: 0,
            newline: false,
            filled: Filled::Fresh,
        },
        Filled::Blank | Filled::UpTo(_) => line_end(filled, Filled::Fresh),
    }
}

// What stands on the page for the white space between two places: a line's end where \n is in it, else nothing.
fn over_white(s: &[u8], at: usize, end: usize, filled: Filled) -> Place
    requires { (at ≤ end) × (end ≤ length s.now) × (filled_to filled ≤ 60) }
    ensures { result ≡ white_place (any (eqb 0x0A) (part s.now at end)) filled }
{
    if s[at..end].contains(&b'\n') {
        return line_end(filled, Filled::Fresh);
    }
    Place {
        spaces: 0,
        newline: false,
        filled: spaced(filled),
    }
}

// The step at a place: over a cluster with white space, or over a piece of a word.
fn step_at(s: &[u8], at: usize, filled: Filled) -> Step
    requires { (at < length s.now) × (length s.now ≤ 131072) × Standing s.now at filled }
    ensures { StepAt catalogue s.now at filled result }
{
    let k = next_cluster(&s[at..]);
    if k.white {
        let end = at + k.len;
        return Step {
            place: over_white(s, at, end, filled),
            from: end,
            end,
        };
    }
    let piece = piece_at(s, at);
    Step {
        place: place_for(filled, piece.columns),
        from: at,
        end: piece.end,
    }
}

// The bytes of a place.
fn place_len(place: Place) -> usize
    requires { place.spaces ≤ 60 }
    ensures { result ≡ length (placed place) }
{
    if place.newline {
        place.spaces + 1
    } else {
        place.spaces
    }
}

// The length of the slip of s.
fn slip_len(s: &[u8]) -> usize
    requires { (valid s.now ≡ true) × (length s.now ≤ 131072) }
    ensures { result ≡ length (Slip·slip catalogue s.now) }
{
    let mut at: usize = 0;
    let mut filled = Filled::Fresh;
    let mut len: usize = 0;
    // A turn passes a cluster or a piece of a word: no index is counted.
    while at < s.len() {
        let step = step_at(s, at, filled);
        len += place_len(step.place) + (step.end - step.from);
        at = step.end;
        filled = step.place.filled;
    }
    len + place_len(closing_place(filled))
}

// Writes a place from `at` on, and says where it ends.
fn write_place(page: &mut [u8], at: usize, place: Place) -> usize
    requires { at + length (placed place) ≤ length page.old }
    ensures { (page.new ≡ sets page.old at (placed place)) × (result ≡ at + length (placed place)) }
{
    let end = at + place.spaces;
    fill(page, at, place.spaces, b' ');
    if !place.newline {
        return end;
    }
    page[end] = b'\n';
    end + 1
}

// Writes the slip of s over the front of the page.
fn write_slip(s: &[u8], page: &mut [u8])
    requires { (valid s.now ≡ true) × (length s.now ≤ 131072) × (length (Slip·slip catalogue s.now) ≤ length page.old) }
    ensures { page.new ≡ sets page.old 0 (Slip·slip catalogue s.now) }
{
    let mut at: usize = 0;
    let mut filled = Filled::Fresh;
    let mut out: usize = 0;
    // A turn passes a cluster or a piece of a word: no index is counted.
    while at < s.len() {
        let step = step_at(s, at, filled);
        out = write_place(page, out, step.place);
        copy_at(page, out, &s[step.from..step.end]);
        out += step.end - step.from;
        at = step.end;
        filled = step.place.filled;
    }
    write_place(page, out, closing_place(filled));
}

// The slip of a text on the page, and its length.
// Wrong answers ruled out: a line broken one word early; a page full that has written its first lines.
pub fn slip(text: &[u8], page: &mut [u8]) -> ValueAnswer
    ensures { Slips catalogue (format_for (length text.now)) text.now page.old result page.new }
{
    if let Err(why) = text_refusal(text) {
        return ValueAnswer {
            number: why.into(),
            value: 0,
        };
    }
    let len = slip_len(text);
    if page.len() < len {
        return ValueAnswer {
            number: Refused::PageFull.into(),
            value: 0,
        };
    }
    write_slip(text, page);
    ValueAnswer {
        number: 0,
        value: len,
    }
}
