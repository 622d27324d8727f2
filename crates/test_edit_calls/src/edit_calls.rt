// The calls of `edit_insert`, `edit_range`, `edit_transpose`, `edit_case` and `edit_indent`.
ghost use Rattle.std.specs.Prelude.{◌≤◌, length, IsSome};

use crate::kill_calls::movement_codes;
use checks::Line;
use edit::EditAnswer;
use log_state::Log;
use test_fields::{Lend, amount_of, code_of, count_of};

// The answer of the call with a name, with this text to put in and these other arguments; none where there is no such call. No call has
// more than 8.
// Wrong answers ruled out: a call made whatever stands behind its arguments; a call that takes a ninth.
pub fn call(
    name: &str,
    lent: &mut impl Lend,
    line: Line,
    log: Log,
    buf: &[u8],
    args: &[usize],
) -> Option<EditAnswer>
    ensures { IsSome result → length args.now ≤ 8 }
{
    let (text, records, texts) = lent.lend();
    let answer = match (name, args) {
        ("insert", [ch, n]) => {
            edit_insert::insert(text, records, texts, line, log, code_of(*ch), count_of(*n))
        }
        ("yank", [n]) => edit_insert::yank(text, records, texts, line, log, buf, count_of(*n)),
        ("yank_pop", [size]) => {
            edit_insert::yank_pop(text, records, texts, line, log, *size, buf)
        }
        ("update", [pos]) => edit_insert::update(text, records, texts, line, log, buf, *pos),
        ("delete_range", [from, to]) => {
            edit_range::delete_range(text, records, texts, line, log, *from, *to)
        }
        ("replace", [from, to]) => {
            edit_range::replace(text, records, texts, line, log, *from, *to, buf)
        }
        ("transpose_chars", []) => {
            edit_transpose::transpose_chars(text, records, texts, line, log)
        }
        ("edit_word", [action]) => {
            edit_case::edit_word(text, records, texts, line, log, code_of(*action))
        }
        ("transpose_words", [n]) => {
            edit_transpose::transpose_words(text, records, texts, line, log, count_of(*n))
        }
        ("indent", [mvt, n, at, word, search, ch, amount, dedent]) => edit_indent::indent(
            text,
            records,
            texts,
            line,
            log,
            movement_codes(*mvt, *n, *at, *word, *search, *ch),
            amount_of(*amount),
            *dedent != 0,
        ),
        _ => return None,
    };
    Some(answer)
}
