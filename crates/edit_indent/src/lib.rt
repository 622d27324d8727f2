// The lines that a movement touches, indented and dedented one after the other: indent of line_buffer.rs. Each piece of spaces is an
// insertion and each dedent a cut, made and recorded as edits make them. Any text, cursor, log, code and number may be handed over:
// what is unfit is turned away by a number of document 01.
#![tactic(auto)]

ghost use Rattle.std.specs.Prelude.{◌≡◌, false, cond, true, ◌≤◌, ◌+◌, ◌<◌, take, length};
ghost use Rattle.repertoire.specs.Repertoire.{catalogue};
ghost use Rattle.checks.specs.Checks.{refusal as Checks·refusal, both, line_tests, own_tests};
ghost use Rattle.formats.specs.Formats.{Fit, text_max};
ghost use Rattle.edit.specs.Calls.{lent, Edited, sizes_of, state_of, Ready, Answers, Makes};
ghost use Rattle.edit_indent_plans.specs.Touched.{touched as Touched·touched, splits as Touched·splits, split_lines};
ghost use Rattle.edit_indent_plans.specs.IndentPlans.{lines_in, piece_of, indent_lines, indented as Plans·indented, indent_plan};
ghost use Rattle.edit_indent_plans.specs.IndentPlans.{dedented as Plans·dedented, dedent_lines};
ghost use Rattle.edit_indent.specs.Indents.{indent_of, indent_call};
ghost use Rattle.lists.specs.Lists.{part};
ghost use Rattle.utf8.specs.Chars.{In};
ghost use Rattle.log_model.specs.UndoBytes.{fits};
ghost use Rattle.edit.specs.Plan.{AllSuit, too_long, list_after};

use checks::{Line, Refused, refusal_in};
use edit::{Checked, EditAnswer, Own, admit, cut_out, put_in, refused, says, unnamed};
use edit_indent_plans::{count_cuts, count_lines, deleting, has_room, splits, touched};
use formats::{Format, format_for};
use keymap::{Movement, MovementCodes};
use log_state::Log;
use motion_lines::end_of_line;
use motion_ranges::is_foreign;

// Where a cursor goes as a line that begins at a place is indented by m.
fn indented(at: usize, m: usize, pos: usize) -> usize
    requires { pos + m ≤ text_max + text_max + 256 }
    ensures { result ≡ Plans·indented at m pos }
{
    if pos < at { pos } else { pos + m }
}

// The spaces of a line's next piece, where m are left.
fn piece(m: usize) -> usize
    ensures { result ≡ piece_of m }
{
    if m < 32 { m } else { 32 }
}

// The lines of a part indented by m, one after the other. A turn puts a piece in, or goes to the next line.
fn indent_lines(
    checked: Checked,
    text: &mut [u8],
    records: &mut [u8],
    texts: &mut [u8],
    m: usize,
    from: usize,
    to: usize,
) -> EditAnswer
    requires m_bound { m ≤ 256 }
    requires ready { Ready checked.format (lent text.old records.old texts.old checked.line checked.log) }
    requires from_le_to { (from ≤ to) × (to ≤ checked.line.len) }
    requires all_suit { AllSuit catalogue (indent_lines m from (split_lines (part (take checked.line.len text.old) from to))) (take checked.line.len text.old) }
    requires text_value { too_long (length text.old) (indent_lines m from (split_lines (part (take checked.line.len text.old) from to))) (take checked.line.len text.old) ≡ false }
    requires log_value { fits checked.format (sizes_of (lent text.old records.old texts.old checked.line checked.log))
        (list_after catalogue (indent_lines m from (split_lines (part (take checked.line.len text.old) from to))) (take checked.line.len text.old)
        (state_of catalogue checked.format (lent text.old records.old texts.old checked.line checked.log)).log.undo) ≡ true }
    ensures { Makes checked.format (lent text.old records.old texts.old checked.line checked.log)
        (indent_plan catalogue m false checked.line.cursor from (split_lines (part (take checked.line.len text.old) from to)))
        result text.new records.new texts.new }
{
    let spaces = [0x20u8; 32];
    let mut line_now = checked.line;
    let mut log_now = checked.log;
    let mut cursor = indented(from, m, checked.line.cursor);
    let mut at = from;
    let mut end = to;
    let mut left = m;
    // A turn changes the text that the next one reads: no iterator can hold it.
    loop {
        if left == 0 {
            let e = end_of_line(&text[..end], at + m);
            if e == end {
                let len = line_now.len;
                return says(0, Line { len, cursor }, log_now);
            }
            at = e + 1;
            left = m;
            cursor = indented(at, m, cursor);
            continue;
        }
        let n = piece(left);
        let a = put_in(
            Checked {
                line: line_now,
                log: log_now,
                ..checked
            },
            text,
            records,
            texts,
            at,
            &spaces[..n],
            at,
        );
        line_now = a.line;
        log_now = a.log;
        end += n;
        left -= n;
    }
}

// Checks 9 and 10 of indenting the lines of a part, and then the lines themselves.
pub fn indent_range(
    checked: Checked,
    text: &mut [u8],
    records: &mut [u8],
    texts: &mut [u8],
    m: usize,
    from: usize,
    to: usize,
) -> EditAnswer
    requires m_bound { m ≤ 256 }
    requires ready { Ready checked.format (lent text.old records.old texts.old checked.line checked.log) }
    requires in_text { In (take checked.line.len text.old) from to }
    ensures { Makes checked.format (lent text.old records.old texts.old checked.line checked.log)
        (indent_plan catalogue m false checked.line.cursor from (split_lines (part (take checked.line.len text.old) from to)))
        result text.new records.new texts.new }
{
    let k = count_lines(&text[from..to]);
    if text.len() - checked.line.len < k * m {
        return refused(Refused::Full, checked.line, checked.log);
    }
    if !has_room(
        checked.format,
        records,
        texts,
        checked.log,
        k * ((m + 31) / 32),
        k * m,
    ) {
        return refused(Refused::LogFull, checked.line, checked.log);
    }
    indent_lines(checked, text, records, texts, m, from, to)
}

// Where a cursor goes as d bytes are cut from the line that begins at a place.
fn dedented(at: usize, d: usize, pos: usize) -> usize
    ensures { result ≡ Plans·dedented at d pos }
{
    if pos < at {
        return pos;
    }
    if pos - at < d { at } else { pos - d }
}

// The lines of a part dedented by m, one after the other.
fn dedent_lines(
    checked: Checked,
    text: &mut [u8],
    records: &mut [u8],
    texts: &mut [u8],
    m: usize,
    from: usize,
    to: usize,
) -> EditAnswer
    requires ready { Ready checked.format (lent text.old records.old texts.old checked.line checked.log) }
    requires from_le_to { (from ≤ to) × (to ≤ checked.line.len) }
    requires all_suit { AllSuit catalogue (dedent_lines catalogue m from (split_lines (part (take checked.line.len text.old) from to))) (take checked.line.len text.old) }
    requires text_value { too_long (length text.old) (dedent_lines catalogue m from (split_lines (part (take checked.line.len text.old) from to))) (take checked.line.len text.old) ≡ false }
    requires log_value { fits checked.format (sizes_of (lent text.old records.old texts.old checked.line checked.log))
        (list_after catalogue (dedent_lines catalogue m from (split_lines (part (take checked.line.len text.old) from to))) (take checked.line.len text.old)
        (state_of catalogue checked.format (lent text.old records.old texts.old checked.line checked.log)).log.undo) ≡ true }
    ensures { Makes checked.format (lent text.old records.old texts.old checked.line checked.log)
        (indent_plan catalogue m true checked.line.cursor from (split_lines (part (take checked.line.len text.old) from to)))
        result text.new records.new texts.new }
{
    let mut line_now = checked.line;
    let mut log_now = checked.log;
    let mut cursor = checked.line.cursor;
    let mut at = from;
    let mut end = to;
    // A turn changes the text that the next one reads: no iterator can hold it.
    loop {
        let e = end_of_line(&text[..end], at);
        let d = deleting(&text[at..e], m);
        let a = cut_out(
            Checked {
                line: line_now,
                log: log_now,
                last: 0,
                ..checked
            },
            text,
            records,
            texts,
            at,
            at + d,
        );
        line_now = a.line;
        log_now = a.log;
        cursor = dedented(at, d, cursor);
        if e == end {
            let len = line_now.len;
            return says(0, Line { len, cursor }, log_now);
        }
        at = e - d + 1;
        end -= d;
    }
}

// Checks 9 and 10 of dedenting the lines of a part, and then the lines themselves.
pub fn dedent_range(
    checked: Checked,
    text: &mut [u8],
    records: &mut [u8],
    texts: &mut [u8],
    m: usize,
    from: usize,
    to: usize,
) -> EditAnswer
    requires ready { Ready checked.format (lent text.old records.old texts.old checked.line checked.log) }
    requires in_text { In (take checked.line.len text.old) from to }
    requires not_split { Touched·splits catalogue m (split_lines (part (take checked.line.len text.old) from to)) ≡ false }
    ensures { Makes checked.format (lent text.old records.old texts.old checked.line checked.log)
        (indent_plan catalogue m true checked.line.cursor from (split_lines (part (take checked.line.len text.old) from to)))
        result text.new records.new texts.new }
{
    let n = count_cuts(&text[from..to], m);
    if !has_room(
        checked.format,
        records,
        texts,
        checked.log,
        n.records,
        n.bytes,
    ) {
        return refused(Refused::LogFull, checked.line, checked.log);
    }
    dedent_lines(checked, text, records, texts, m, from, to)
}

// Check 6: does a cut of the dedent end inside a character? It is asked of a text and a cursor that pass the checks before it.
fn is_split(f: Format, text: &[u8], line: Line, m: Movement, amount: usize, dedent: bool) -> bool
    ensures { Checks·refusal (both (line_tests catalogue f text.now line) (own_tests false false false)) ≡ 0
        → result ≡ cond dedent (Touched·splits catalogue amount (lines_in (take line.len text.now)
        (Touched·touched catalogue (take line.len text.now) line.cursor m))) false }
{
    if !dedent {
        return false;
    }
    if refusal_in(f, text, line, false, false, false).is_err() {
        return false;
    }
    let len = line.len;
    let r = touched(&text[..len], line.cursor, m);
    let start = r.start;
    let end = r.end;
    splits(&text[start..end], amount)
}

// indent of a movement.
fn indent_movement(
    f: Format,
    text: &mut [u8],
    records: &mut [u8],
    texts: &mut [u8],
    line: Line,
    log: Log,
    m: Movement,
    amount: usize,
    dedent: bool,
) -> EditAnswer
    requires amount_bound { amount ≤ 256 }
    requires fit { Fit f }
    ensures { Edited f (lent text.old records.old texts.old line log)
        (indent_of catalogue f (lent text.old records.old texts.old line log) amount dedent m)
        result text.new records.new texts.new }
{
    let own = Own {
        foreign: is_foreign(m),
        split: is_split(f, text, line, m, amount, dedent),
        ..Own::NONE
    };
    let checked = match admit(f, text, records, texts, line, log, own) {
        Ok(checked) => checked,
        Err(why) => return refused(why, line, log),
    };
    let len = line.len;
    let r = touched(&text[..len], line.cursor, m);
    if dedent {
        return dedent_range(checked, text, records, texts, amount, r.start, r.end);
    }
    indent_range(checked, text, records, texts, amount, r.start, r.end)
}

// Wrong answers ruled out: the lines ended at the next \n; a dedent that takes more than the white space.
pub fn indent(
    text: &mut [u8],
    records: &mut [u8],
    texts: &mut [u8],
    line: Line,
    log: Log,
    codes: MovementCodes,
    amount: u8,
    dedent: bool,
) -> EditAnswer
    ensures { Answers (lent text.old records.old texts.old line log) (λ F l. indent_call catalogue F l amount dedent codes)
        result text.new records.new texts.new }
{
    let Ok(m) = Movement::try_from(codes) else {
        return unnamed(text, records, texts, line, log);
    };
    indent_movement(
        format_for(text.len()),
        text,
        records,
        texts,
        line,
        log,
        m,
        usize::from(amount),
        dedent,
    )
}
