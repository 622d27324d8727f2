// Document 01, "What a call says": the checks of a lent text in number order, and the answers of calls that are lent one.
#![tactic(auto)]

ghost use Rattle.std.specs.Prelude.{◌≡◌, length};
ghost use Rattle.formats.specs.Formats.{format_for};
ghost use Rattle.repertoire.specs.Repertoire.{catalogue};
ghost use Rattle.checks.specs.Checks.{refusal as Checks·refusal, lower as Checks·lower, both, line_tests, own_tests, text_tests};
ghost use Rattle.checks.specs.Answers.{says as Answers·says, line_answer, moved_to, place_of};
ghost use Rattle.checks.specs.Refused.{number_of, refused_by};

use formats::{Format, format_for};
use repertoire::check_text;
use utf8::is_boundary;

// Why a call is refused or stopped: the numbers of document 01, and behind them those of the orders.
#[derive(Clone, Copy)]
pub enum Refused {
    Sizes = 2,
    Code = 3,
    Foreign = 4,
    Place = 5,
    Split = 6,
    Prompt = 7,
    Damaged = 8,
    Full = 9,
    LogFull = 10,
    RingFull = 11,
    Misfit = 12,
    Unbound = 13,
    PageFull = 14,
}

impl From<Refused> for u32 {
    ghost from_gives = { λ r n. n ≡ number_of r };

    fn from(why: Refused) -> u32 {
        why as u32
    }
}

// A text's used length, and the cursor.
#[repr(C)]
#[derive(Clone, Copy)]
pub struct Line {
    pub len: usize,
    pub cursor: usize,
}

// The number is 0 (done), 1 (nothing to be done, or nothing found) or that of a Refused: a plain number, since C reads it.
#[repr(C)]
#[derive(Clone, Copy)]
pub struct LineAnswer {
    pub number: u32,
    pub from: usize,
    pub to: usize,
    pub line: Line,
}

// The answer of a call that answers one number beside its own; 0 in `value` where it refuses. C reads it.
#[repr(C)]
#[derive(Clone, Copy)]
pub struct ValueAnswer {
    pub number: u32,
    pub value: usize,
}

// The first check that a lent text, its cursor and the call's own tests meet, and which therefore refuses. `code` says that a
// number names nothing, `foreign` that a character is outside the repertoire, `place` that a place is unfit.
pub fn refusal_in(
    f: Format,
    text: &[u8],
    line: Line,
    code: bool,
    foreign: bool,
    place: bool,
) -> Result<(), Refused>
    ensures { refused_by result ≡ Checks·refusal (both (line_tests catalogue f text.now line) (own_tests code foreign place)) }
{
    if f.text < text.len() || text.len() < line.len {
        return Err(Refused::Sizes);
    }
    if code {
        return Err(Refused::Code);
    }
    let lent = &text[..line.len];
    if !check_text(lent) || foreign {
        return Err(Refused::Foreign);
    }
    if line.len < line.cursor || place {
        return Err(Refused::Place);
    }
    if !is_boundary(lent, line.cursor) {
        return Err(Refused::Split);
    }
    Ok(())
}

// The same in the format that the text's buffer brings.
pub fn refusal(
    text: &[u8],
    line: Line,
    code: bool,
    foreign: bool,
    place: bool,
) -> Result<(), Refused>
    ensures { refused_by result ≡ Checks·refusal (both (line_tests catalogue (format_for (length text.now)) text.now line) (own_tests code foreign place)) }
{
    refusal_in(format_for(text.len()), text, line, code, foreign, place)
}

// The first check that a text lent without a cursor meets.
pub fn text_refusal(text: &[u8]) -> Result<(), Refused>
    ensures { refused_by result ≡ Checks·refusal (text_tests catalogue (format_for (length text.now)) text.now) }
{
    if format_for(text.len()).text < text.len() {
        return Err(Refused::Sizes);
    }
    if !check_text(text) {
        return Err(Refused::Foreign);
    }
    Ok(())
}

// The number of a call whose checks came to this: that of the refusal, 0 where they pass.
pub fn number<T: Drop>(checked: Result<T, Refused>) -> u32
    ensures { result ≡ refused_by checked }
{
    match checked {
        Ok(_) => 0,
        Err(why) => why.into(),
    }
}

// The lower of two numbers, where 0 is none. Numbers, and no Refused: a Refused has no order, and the lower number decides.
pub fn lower(a: u32, b: u32) -> u32
    ensures { result ≡ Checks·lower a b }
{
    if a == 0 {
        return b;
    }
    if b == 0 {
        return a;
    }
    if b < a { b } else { a }
}

// A number alone: the line is as it was.
pub fn says(number: u32, line: Line) -> LineAnswer
    ensures { result ≡ Answers·says number line }
{
    LineAnswer {
        number,
        from: 0,
        to: 0,
        line,
    }
}

// The cursor goes to the place found; 1 where there is none.
pub fn moved_to(line: Line, f: Option<usize>) -> LineAnswer
    ensures { result ≡ line_answer line (moved_to line f) }
{
    match f {
        Some(p) => says(
            0,
            Line {
                len: line.len,
                cursor: p,
            },
        ),
        None => says(1, line),
    }
}

// The place found is answered; 1 where there is none.
pub fn place_of(line: Line, f: Option<usize>) -> LineAnswer
    ensures { result ≡ line_answer line (place_of line f) }
{
    match f {
        Some(p) => LineAnswer {
            number: 0,
            from: p,
            to: 0,
            line,
        },
        None => says(1, line),
    }
}
