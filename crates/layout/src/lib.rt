// layout.rs: the columns that a part of a text takes.
#![tactic(auto)]

ghost use Rattle.std.specs.Prelude.{◌≡◌, ◌*◌, ◌≤◌, ◌<◌, length};
ghost use Rattle.repertoire.specs.Repertoire.{catalogue};
ghost use Rattle.layout.specs.Width.{advance as Width·advance, most_columns, width as Width·width};

use repertoire::char_width;
use utf8::{Char, decode_at};

// The column behind a character that stands at a column.
fn advance(col: usize, cp: u32) -> usize
    requires { col < 4294967296 }
    ensures { result ≡ Width·advance catalogue col cp }
{
    col + char_width(cp)
}

// The width of s, which starts at a column.
pub fn width(s: &[u8], col: usize) -> usize
    requires { (col ≤ 1024) × (length s.now ≤ 131072) }
    ensures { (result ≡ Width·width catalogue col s.now) × (result ≤ most_columns * length s.now) }
{
    let mut at = 0;
    let mut column = col;
    while let Some(Char { cp, len }) = decode_at(s, at) {
        column = advance(column, cp);
        at += len;
    }
    column - col
}
