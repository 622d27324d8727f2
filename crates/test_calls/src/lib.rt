// The calls that are lent a text or a log by their names in the interface for C, without its first word: each is called at one place.
// The arguments besides texts stand in the order of the call's parameters.
#![tactic(auto)]

ghost use Rattle.std.specs.Prelude.{◌≤◌, length, IsSome};

mod changeset_calls;
mod line_calls;

use checks::{Line, LineAnswer};
use edit::EditAnswer;
use log_state::Log;
use test_edit_calls::{edit_calls, kill_calls};
use test_fields::Lend;

// The answer of a call that is lent a text alone: the log is as it was.
fn with_log(a: LineAnswer, log: Log) -> EditAnswer {
    EditAnswer {
        number: a.number,
        from: a.from,
        to: a.to,
        line: a.line,
        log,
    }
}

// The answer of a call of `line`, as insert, with this text and these other arguments; none where there is no such call.
fn line_call(
    name: &str,
    lent: &mut impl Lend,
    line: Line,
    log: Log,
    buf: &[u8],
    args: &[usize],
) -> Option<EditAnswer>
    ensures { IsSome result → length args.now ≤ 8 }
{
    let (text, _records, _texts) = lent.lend();
    if let Some(a) = line_calls::call(name, text, line, args) {
        return Some(with_log(a, log));
    }
    if let Some(a) = kill_calls::call(name, lent, line, log, args) {
        return Some(a);
    }
    edit_calls::call(name, lent, line, log, buf, args)
}

// The answer of a call of `line` or `log`, with these texts and these other arguments; none where there is no such call. No call has
// more than 8.
// Wrong answers ruled out: a call made whatever stands behind its arguments; a call that takes a ninth.
pub fn call(
    kind: &str,
    name: &str,
    lent: &mut impl Lend,
    line: Line,
    log: Log,
    buf: &[u8],
    new: &[u8],
    args: &[usize],
) -> Option<EditAnswer>
    ensures { IsSome result → length args.now ≤ 8 }
{
    match kind {
        "line" => line_call(name, lent, line, log, buf, args),
        "log" => changeset_calls::call(name, lent, line, log, buf, new, args),
        _ => None,
    }
}
