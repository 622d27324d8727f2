// A line of a call that is lent a text or a log:
//     NAME TEXT RECORDS TEXTS BUF NEW LEN CURSOR UR UT RR RT LEVEL ARGUMENT* > TEXT RECORDS TEXTS NUMBER FROM TO LEN CURSOR UR UT RR RT LEVEL
// The head of a data file of `test_answers` says what its fields are.
#![tactic(auto)]

ghost use Rattle.std.specs.Prelude.{◌≡◌, ◌+◌, ◌-◌, ◌^◌, ◌<◌, min, length, [], ◌∷◌, IfOk, OnErr, slice_index_or};
ghost use Rattle.test_state_line.specs.Numbers.{log_numbers};

use checks::Line;
use edit::EditAnswer;
use log_state::{Log, Used};
use test_calls::call;
use test_fields::{Buffers, Fields, Malformed, Text};

// The line and the log that the first numbers say, and the numbers behind them.
pub fn state_of(numbers: &[usize]) -> Result<(Line, Log, &[usize]), Malformed>
    ensures ok { IfOk result (λ r. numbers.now ≡ r.0.len ∷ r.0.cursor ∷ log_numbers r.1 r.2.now) }
    ensures err { OnErr result (length numbers.now < 7) }
{
    match numbers {
        [len, cursor, ur, ut, rr, rt, level, rest @ ..] => {
            let line = Line {
                len: *len,
                cursor: *cursor,
            };
            let log = Log {
                undo: Used {
                    records: *ur,
                    texts: *ut,
                },
                redo: Used {
                    records: *rr,
                    texts: *rt,
                },
                level: *level,
            };
            Ok((line, log, rest))
        }
        _ => Err(Malformed),
    }
}

// The numbers that say an answer.
pub fn answer_numbers(a: EditAnswer) -> [usize; 10]
    ensures { result ≡ a.number ∷ a.from ∷ a.to ∷ a.line.len ∷ a.line.cursor ∷ log_numbers a.log [] }
{
    [
        a.number as usize,
        a.from,
        a.to,
        a.line.len,
        a.line.cursor,
        a.log.undo.records,
        a.log.undo.texts,
        a.log.redo.records,
        a.log.redo.texts,
        a.log.level,
    ]
}

// How many bytes of the text, the records and the texts a line and a log use.
pub fn used(line: Line, log: Log) -> [usize; 3]
    ensures text { slice_index_or result 0 0 ≡ line.len }
    ensures records { slice_index_or result 1 0 ≡ min (log.undo.records + log.redo.records) (2 ^ 64 - 1) }
    ensures texts { slice_index_or result 2 0 ≡ min (log.undo.texts + log.redo.texts) (2 ^ 64 - 1) }
{
    [
        line.len,
        log.undo.records.saturating_add(log.redo.records),
        log.undo.texts.saturating_add(log.redo.texts),
    ]
}

// Replays a line: does the call of a name, with what it is lent, leave and answer what is due? Err of a line of another form.
pub fn replays(
    kind: &str,
    name: &str,
    mut lent: Fields<'_>,
    mut due: Fields<'_>,
) -> Result<bool, Malformed> {
    let mut before = Buffers::new();
    let mut after = Buffers::new();
    let mut buf = Text::new();
    let mut new = Text::new();
    before.read(&mut lent)?;
    buf.read(lent.next_field())?;
    new.read(lent.next_field())?;
    let numbers = lent.numbers()?;
    let (line, log, args) = state_of(numbers.as_slice())?;
    after.copy_from(&before);
    let a = call(
        kind,
        name,
        &mut after,
        line,
        log,
        buf.as_slice(),
        new.as_slice(),
        args,
    )
    .ok_or(Malformed)?;
    Ok(
        after.are_left(&mut due, &mut before, used(a.line, a.log))?
            && due.numbers()?.as_slice() == answer_numbers(a).as_slice(),
    )
}

// Does a line agree: the call of a name, what it is lent, and what is due? One of another form does not.
pub fn agrees(kind: &str, name: &str, lent: Fields<'_>, due: Fields<'_>) -> bool {
    replays(kind, name, lent, due).unwrap_or(false)
}
