// keymap.rs: the word rules, stops, searches and movements, and the codes that name them (check 3): from 0 in the order of
// declaration.
#![tactic(auto)]

ghost use Rattle.std.specs.Prelude.{◌≡◌};
ghost use Rattle.std.specs.Result.{result_ok};
ghost use Rattle.keymap.specs.Codes.{word_of, at_of, search_of, movement_of};

pub type RepeatCount = u16;

// A word is made of non-blanks (Big), alphanumeric clusters (Emacs), or these and "_" (Vi).
#[derive(Clone, Copy)]
pub enum Word {
    Big,
    Emacs,
    Vi,
}

// Where a forward word motion stops.
#[derive(Clone, Copy)]
pub enum At {
    Start,
    BeforeEnd,
    AfterEnd,
}

// A search carries its character, a code point.
#[derive(Clone, Copy)]
pub enum CharSearch {
    Forward(u32),
    ForwardBefore(u32),
    Backward(u32),
    BackwardAfter(u32),
}

#[derive(Clone, Copy)]
pub enum Movement {
    WholeLine,
    BeginningOfLine,
    EndOfLine,
    BackwardWord(RepeatCount, Word),
    ForwardWord(RepeatCount, At, Word),
    ViCharSearch(RepeatCount, CharSearch),
    ViFirstPrint,
    BackwardChar(RepeatCount),
    ForwardChar(RepeatCount),
    LineUp(RepeatCount),
    LineDown(RepeatCount),
    WholeBuffer,
    BeginningOfBuffer,
    EndOfBuffer,
}

// A code that names nothing.
#[derive(Clone, Copy)]
pub struct UnknownCode;

// A movement by numbers: its own code, a count, the codes of a stop, a word rule and a search, and a search's character. Those
// that it does not use are not looked at.
#[derive(Clone, Copy)]
pub struct MovementCodes {
    pub mvt: u32,
    pub n: RepeatCount,
    pub at: u32,
    pub word: u32,
    pub search: u32,
    pub ch: u32,
}

impl TryFrom<u32> for Word {
    type Error = UnknownCode;

    ghost try_from_gives = { λ code r. result_ok r ≡ word_of code };

    #[tactic(auto, unfolding(crate::specs::Codes::word_list))]
    fn try_from(code: u32) -> Result<Self, UnknownCode> {
        match code {
            0 => Ok(Word::Big),
            1 => Ok(Word::Emacs),
            2 => Ok(Word::Vi),
            _ => Err(UnknownCode),
        }
    }
}

impl TryFrom<u32> for At {
    type Error = UnknownCode;

    ghost try_from_gives = { λ code r. result_ok r ≡ at_of code };

    #[tactic(auto, unfolding(crate::specs::Codes::at_list))]
    fn try_from(code: u32) -> Result<Self, UnknownCode> {
        match code {
            0 => Ok(At::Start),
            1 => Ok(At::BeforeEnd),
            2 => Ok(At::AfterEnd),
            _ => Err(UnknownCode),
        }
    }
}

impl CharSearch {
    // The search that a code names, for the character ch.
    #[tactic(auto, unfolding(crate::specs::Codes::search_list))]
    pub fn from_code(code: u32, ch: u32) -> Result<CharSearch, UnknownCode>
        ensures { result_ok result ≡ search_of code ch }
    {
        match code {
            0 => Ok(CharSearch::Forward(ch)),
            1 => Ok(CharSearch::ForwardBefore(ch)),
            2 => Ok(CharSearch::Backward(ch)),
            3 => Ok(CharSearch::BackwardAfter(ch)),
            _ => Err(UnknownCode),
        }
    }
}

impl TryFrom<MovementCodes> for Movement {
    type Error = UnknownCode;

    ghost try_from_gives = { λ codes r. result_ok r ≡ movement_of codes };

    #[tactic(auto, unfolding(crate::specs::Codes::movements))]
    fn try_from(codes: MovementCodes) -> Result<Self, UnknownCode> {
        let n = codes.n;
        match codes.mvt {
            0 => Ok(Movement::WholeLine),
            1 => Ok(Movement::BeginningOfLine),
            2 => Ok(Movement::EndOfLine),
            3 => Ok(Movement::BackwardWord(n, Word::try_from(codes.word)?)),
            4 => Ok(Movement::ForwardWord(n, At::try_from(codes.at)?, Word::try_from(codes.word)?)),
            5 => Ok(Movement::ViCharSearch(n, CharSearch::from_code(codes.search, codes.ch)?)),
            6 => Ok(Movement::ViFirstPrint),
            7 => Ok(Movement::BackwardChar(n)),
            8 => Ok(Movement::ForwardChar(n)),
            9 => Ok(Movement::LineUp(n)),
            10 => Ok(Movement::LineDown(n)),
            11 => Ok(Movement::WholeBuffer),
            12 => Ok(Movement::BeginningOfBuffer),
            13 => Ok(Movement::EndOfBuffer),
            _ => Err(UnknownCode),
        }
    }
}
