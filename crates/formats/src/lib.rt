// What goes with a text buffer of C bytes: how its log is written, and the most bytes of each buffer. Document 01, check 2 and
// "Log and ring".
#![tactic(auto)]

ghost use Rattle.std.specs.Prelude.{◌≡◌};
ghost use Rattle.formats.specs.Formats.{format_for};

// The bytes of a number, and by how much the kinds of edits are raised; the most bytes of a text, of a log's records and of its
// texts. That they are sound is `Fit`, a premise of each theorem over all formats, and so no invariant of the type.
#[derive(Clone, Copy)]
pub struct Format {
    pub width: usize,
    pub offset: usize,
    pub text: usize,
    pub records: usize,
    pub texts: usize,
}

// The most bytes of any text, and of any log's records: an array of a call's own frame is so long.
pub const TEXT_MAX: usize = 4096;

pub const RECORDS_MAX: usize = 32768;

// The format that goes with a text buffer of c bytes. One over 4,096 is refused by check 2.
pub fn format_for(c: usize) -> Format
    ensures { result ≡ format_for c }
{
    Format {
        width: 2,
        offset: 0,
        text: 4096,
        records: 32768,
        texts: 65535,
    }
}
