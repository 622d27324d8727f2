// The calls of `Changeset`.
ghost use Rattle.std.specs.Prelude.{◌≤◌, length, IsSome};

use checks::Line;
use edit::EditAnswer;
use log_state::{Log, LogAnswer};
use test_fields::{Lend, code_of, count_of};

// The answer of a call that is lent a log alone, and the empty log of new; none where there is no such call.
fn log_call(
    name: &str,
    lent: &mut impl Lend,
    log: Log,
    buf: &[u8],
    new: &[u8],
    args: &[usize],
) -> Option<LogAnswer>
    ensures { IsSome result → length args.now ≤ 2 }
{
    let (_text, records, texts) = lent.lend();
    let answer = match (name, args) {
        ("new", []) => log_state::says(0, Log::new()),
        ("begin", []) => log_calls::begin(records, texts, log),
        ("end", []) => log_calls::end(records, texts, log),
        ("last_insert", []) => log_calls::last_insert(records, texts, log),
        ("insert_str", [idx]) => log_calls::insert_str(records, texts, log, *idx, buf),
        ("delete", [idx]) => log_calls::delete(records, texts, log, *idx, buf),
        ("replace", [idx]) => log_calls::replace(records, texts, log, *idx, buf, new),
        ("truncate", [len]) => log_calls::truncate(records, texts, log, *len),
        ("insert", [idx, ch]) => log_calls::insert(records, texts, log, *idx, code_of(*ch)),
        _ => return None,
    };
    Some(answer)
}

// The answer of a call that is lent a log alone: the line is as it was.
fn with_line(a: LogAnswer, line: Line) -> EditAnswer {
    EditAnswer {
        number: a.number,
        from: a.from,
        to: a.to,
        line,
        log: a.log,
    }
}

// The answer of the call with a name, with these texts and these other arguments; none where there is no such call.
pub fn call(
    name: &str,
    lent: &mut impl Lend,
    line: Line,
    log: Log,
    buf: &[u8],
    new: &[u8],
    args: &[usize],
) -> Option<EditAnswer>
    ensures { IsSome result → length args.now ≤ 2 }
{
    if let Some(a) = log_call(name, lent, log, buf, new, args) {
        return Some(with_line(a, line));
    }
    let (text, records, texts) = lent.lend();
    match (name, args) {
        ("undo", [n]) => Some(undo::undo(text, records, texts, line, log, count_of(*n))),
        ("redo", [n]) => Some(undo_redo::redo(text, records, texts, line, log, count_of(*n))),
        ("cancel", [mark]) => Some(undo_cancel::cancel(text, records, texts, line, log, *mark)),
        _ => None,
    }
}
