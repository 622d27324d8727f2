// The calls of `edit_kill`.
ghost use Rattle.std.specs.Prelude.{◌≤◌, length, IsSome};

use checks::Line;
use edit::EditAnswer;
use keymap::MovementCodes;
use log_state::Log;
use test_fields::{Lend, code_of, count_of};

// The numbers that name a movement, in the order of a call's arguments.
pub fn movement_codes(
    mvt: usize,
    n: usize,
    at: usize,
    word: usize,
    search: usize,
    ch: usize,
) -> MovementCodes {
    MovementCodes {
        mvt: code_of(mvt),
        n: count_of(n),
        at: code_of(at),
        word: code_of(word),
        search: code_of(search),
        ch: code_of(ch),
    }
}

// The answer of the call with a name and these arguments, none where there is no such call. No call has more than 6.
// Wrong answers ruled out: a call made whatever stands behind its arguments; a call that takes a seventh.
pub fn call(
    name: &str,
    lent: &mut impl Lend,
    line: Line,
    log: Log,
    args: &[usize],
) -> Option<EditAnswer>
    ensures { IsSome result → length args.now ≤ 6 }
{
    let (text, records, texts) = lent.lend();
    let answer = match (name, args) {
        ("kill_line", []) => edit_kill::kill_line(text, records, texts, line, log),
        ("kill_buffer", []) => edit_kill::kill_buffer(text, records, texts, line, log),
        ("discard_line", []) => edit_kill::discard_line(text, records, texts, line, log),
        ("discard_buffer", []) => edit_kill::discard_buffer(text, records, texts, line, log),
        ("backspace", [n]) => {
            edit_kill::backspace(text, records, texts, line, log, count_of(*n))
        }
        ("delete", [n]) => edit_kill::delete(text, records, texts, line, log, count_of(*n)),
        ("delete_prev_word", [word, n]) => edit_kill::delete_prev_word(
            text,
            records,
            texts,
            line,
            log,
            code_of(*word),
            count_of(*n),
        ),
        ("delete_word", [at, word, n]) => edit_kill::delete_word(
            text,
            records,
            texts,
            line,
            log,
            code_of(*at),
            code_of(*word),
            count_of(*n),
        ),
        ("delete_to", [search, ch, n]) => edit_kill::delete_to(
            text,
            records,
            texts,
            line,
            log,
            code_of(*search),
            code_of(*ch),
            count_of(*n),
        ),
        ("kill", [mvt, n, at, word, search, ch]) => edit_kill::kill(
            text,
            records,
            texts,
            line,
            log,
            movement_codes(*mvt, *n, *at, *word, *search, *ch),
        ),
        _ => return None,
    };
    Some(answer)
}
