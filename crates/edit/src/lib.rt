// What edits share: the checks of a lent text and log together, one change made in the text and recorded in the log, and an edit of
// two changes, a cut and then a text put in, of which it is decided before the first whether both fit.
#![tactic(auto)]

ghost use Rattle.std.specs.Prelude.{◌≡◌, true, not, ◌≤◌, ◌<◌, ◌+◌, ◌-◌, length, take, [], ◌∷◌, Ok, IfOk, OnOk};
ghost use Rattle.checks.specs.Refused.{number_of, refused_by};
ghost use Rattle.lists.specs.Lists.{part};
ghost use Rattle.utf8.specs.Chars.{valid, boundary, In};
ghost use Rattle.repertoire.specs.Repertoire.{catalogue};
ghost use Rattle.repertoire.specs.Text.{is_text};
ghost use Rattle.cluster.specs.Clusters.{clusters_of};
ghost use Rattle.log_model.specs.Change.{edit};
ghost use Rattle.log_model.specs.Recording.{is_single};
ghost use Rattle.numbers.specs.Numbers.{top};
ghost use Rattle.log_model.specs.Layout.{ok_change};
ghost use Rattle.formats.specs.Formats.{Fit, text_max};
ghost use Rattle.log_state.specs.Calls.{edit_of, Numbered, lent as Log·lent, value_of, Ready as Log-as-Ready};
ghost use Rattle.log_records.specs.Walks.{LastAt, NewestAt};
ghost use Rattle.log_recording.specs.Tails.{InRange, tail_of};
ghost use Rattle.edit.specs.Plan.{cutting, pasted, once, change_out, AllSuit, list_after};
ghost use Rattle.edit.specs.Room.{sizes_by, room_for, tail_cut, tail_put, room_cut, room_put};
ghost use Rattle.edit.specs.Calls.{lent, sizes_of, state_of, says as Calls·says, checked, own, Edited, Ready, Makes, Passes, Answers, unnamed};
ghost use Rattle.log_model.specs.UndoBytes.{fits};

use buffer::{cut_bytes, insert_bytes};
use checks::{Line, Refused, refusal_in};
use formats::{Format, format_for};
use log_recording::{Tail, tail_at};
use log_records::{EditKind, EditRecord, Newest};
use log_state::{Log, is_single, look, over_sizes};
use utf8::is_boundary;

// As a LineAnswer, with the log beside the line. C reads it.
#[repr(C)]
#[derive(Clone, Copy)]
pub struct EditAnswer {
    pub number: u32,
    pub from: usize,
    pub to: usize,
    pub line: Line,
    pub log: Log,
}

// A number alone.
pub fn says(number: u32, line: Line, log: Log) -> EditAnswer
    ensures { result ≡ Calls·says number line log }
{
    EditAnswer {
        number,
        from: 0,
        to: 0,
        line,
        log,
    }
}

// A check refuses.
pub fn refused(why: Refused, line: Line, log: Log) -> EditAnswer
    ensures { result ≡ Calls·says (number_of why) line log }
{
    says(why.into(), line, log)
}

// What the tests of a call's own arguments say.
#[derive(Clone, Copy)]
pub struct Own {
    pub sizes: bool,
    pub code: bool,
    pub foreign: bool,
    pub place: bool,
    pub split: bool,
}

impl Own {
    // A call without arguments to try.
    pub const NONE: Own = Own {
        sizes: false,
        code: false,
        foreign: false,
        place: false,
        split: false,
    };
}

// The checks 2 to 8 of a lent text, a lent log and the call's own tests, in number order; and what stands at the end of the undo list.
pub fn check(
    f: Format,
    text: &[u8],
    records: &[u8],
    texts: &[u8],
    line: Line,
    log: Log,
    o: Own,
) -> Result<Newest, Refused>
    requires { Fit f }
    ensures number { refused_by result ≡ checked catalogue f (lent text.now records.now texts.now line log) (own o) }
    ensures ready { OnOk result (Ready f (lent text.now records.now texts.now line log)) }
    ensures newest { IfOk result (λ n. NewestAt catalogue f (take log.undo.records records.now) n) }
{
    if over_sizes(f, records, texts, log) {
        return Err(Refused::Sizes);
    }
    if o.sizes {
        return Err(Refused::Sizes);
    }
    refusal_in(f, text, line, o.code, o.foreign, o.place)?;
    if o.split {
        return Err(Refused::Split);
    }
    match look(f, records, texts, log) {
        Some(newest) => Ok(newest),
        None => Err(Refused::Damaged),
    }
}

// What the checks of a lent text and log pass: the format that the text's buffer brings, the line, the log, and where the
// newest record of its undo list begins. The three buffers stay parameters: of a struct that held them, `&mut lent.records`
// and `&lent.text` cannot be lent to one call, a form that the borrow checker does not cover.
#[derive(Clone, Copy)]
pub struct Checked {
    pub format: Format,
    pub line: Line,
    pub log: Log,
    pub last: usize,
}

// What is lent, where the checks pass it.
pub fn admit(
    f: Format,
    text: &[u8],
    records: &[u8],
    texts: &[u8],
    line: Line,
    log: Log,
    o: Own,
) -> Result<Checked, Refused>
    requires { Fit f }
    ensures number { refused_by result ≡ checked catalogue f (lent text.now records.now texts.now line log) (own o) }
    ensures passes { IfOk result (Passes f (lent text.now records.now texts.now line log)) }
{
    match check(f, text, records, texts, line, log, o) {
        Ok(newest) => Ok(Checked {
            format: f,
            line,
            log,
            last: newest.last,
        }),
        Err(why) => Err(why),
    }
}

// A call with a code that names nothing: check 3 refuses, where none before it does.
pub fn unnamed(text: &[u8], records: &[u8], texts: &[u8], line: Line, log: Log) -> EditAnswer
    ensures { Answers (lent text.now records.now texts.now line log) (λ F l. unnamed catalogue F l) result text.now records.now texts.now }
{
    let own = Own {
        code: true,
        ..Own::NONE
    };
    match check(format_for(text.len()), text, records, texts, line, log, own) {
        Ok(_) => says(0, line, log),
        Err(why) => refused(why, line, log),
    }
}

// Does a place lie inside a character of the text's first len bytes?
pub fn is_split(text: &[u8], len: usize, pos: usize) -> bool
    ensures { len ≤ length text.now → valid (take len text.now) ≡ true → result ≡ not (boundary (take len text.now) pos) }
{
    if text.len() < len {
        return false;
    }
    !is_boundary(&text[..len], pos)
}

// The bytes from a place up to another replaced by a text, and recorded as an edit of a kind. The cursor goes to a
// place.
pub fn change(
    checked: Checked,
    text: &mut [u8],
    records: &mut [u8],
    texts: &mut [u8],
    joins: bool,
    kind: EditKind,
    from: usize,
    to: usize,
    new: &[u8],
    cursor: usize,
) -> EditAnswer
    requires fit { Fit checked.format }
    requires ready { Ready checked.format (lent text.old records.old texts.old checked.line checked.log) }
    requires from_le_to { (from ≤ to) × (to ≤ checked.line.len) }
    requires last_at { joins ≡ true → LastAt catalogue checked.format (take checked.log.undo.records records.old) checked.last }
    requires numbered { Numbered (edit_of kind from (part (take checked.line.len text.old) from to) new.now) kind from (part (take checked.line.len text.old) from to) new.now }
    requires ok { ok_change catalogue (edit (edit_of kind from (part (take checked.line.len text.old) from to) new.now)) ≡ true }
    ensures { Edited checked.format (lent text.old records.old texts.old checked.line checked.log)
        (change_out checked.format (sizes_of (lent text.old records.old texts.old checked.line checked.log)) (length text.old) joins
        (edit_of kind from (part (take checked.line.len text.old) from to) new.now) cursor
        (state_of catalogue checked.format (lent text.old records.old texts.old checked.line checked.log)))
        result text.new records.new texts.new }
{
    let len = checked.line.len;
    let left = len - (to - from);
    if text.len() - left < new.len() {
        return refused(Refused::Full, checked.line, checked.log);
    }
    if (kind != EditKind::Replace) & (from == to) & (new.len() == 0) {
        return says(0, Line { len, cursor }, checked.log.drop_redo());
    }
    let a = checked.log.record(
        checked.format,
        records,
        texts,
        checked.last,
        joins,
        kind,
        from,
        &text[from..to],
        new,
    );
    if a.number != 0 {
        return refused(Refused::LogFull, checked.line, checked.log);
    }
    cut_bytes(text, len, from, to);
    insert_bytes(text, left, from, new);
    says(
        0,
        Line {
            len: left + new.len(),
            cursor,
        },
        a.log,
    )
}

// The bytes from a place up to another cut out, and the cursor left where they were. A single character that is cut may
// join the newest record.
pub fn cut_out(
    checked: Checked,
    text: &mut [u8],
    records: &mut [u8],
    texts: &mut [u8],
    from: usize,
    to: usize,
) -> EditAnswer
    requires fit { Fit checked.format }
    requires ready { Ready checked.format (lent text.old records.old texts.old checked.line checked.log) }
    requires in_text { In (take checked.line.len text.old) from to }
    requires last_at { is_single catalogue (clusters_of catalogue (part (take checked.line.len text.old) from to)) ≡ true
        → LastAt catalogue checked.format (take checked.log.undo.records records.old) checked.last }
    ensures { Makes checked.format (lent text.old records.old texts.old checked.line checked.log)
        (once (cutting from to) from)
        result text.new records.new texts.new }
{
    let joins = is_single(&text[from..to]);
    let none = [0u8; 1];
    change(
        checked,
        text,
        records,
        texts,
        joins,
        EditKind::Delete,
        from,
        to,
        &none[..0],
        from,
    )
}

// A text put in at a place, and the cursor sent to another.
pub fn put_in(
    checked: Checked,
    text: &mut [u8],
    records: &mut [u8],
    texts: &mut [u8],
    at: usize,
    new: &[u8],
    cursor: usize,
) -> EditAnswer
    requires fit { Fit checked.format }
    requires ready { Ready checked.format (lent text.old records.old texts.old checked.line checked.log) }
    requires in_text { In (take checked.line.len text.old) at at }
    requires new_text { is_text catalogue new.now ≡ true }
    ensures { Makes checked.format (lent text.old records.old texts.old checked.line checked.log)
        (once (pasted at new.now) cursor)
        result text.new records.new texts.new }
{
    change(
        Checked { last: 0, ..checked },
        text,
        records,
        texts,
        false,
        EditKind::Insert,
        at,
        at,
        new,
        cursor,
    )
}

// The dry run of a plan is the tail of the undo list after its changes so far: Ok where the log has room for them, else Err of the first
// for which it has none. It begins with the list as it is, whose newest record begins at last.
pub fn room_now(
    f: Format,
    records: &[u8],
    texts: &[u8],
    log: Log,
    last: usize,
) -> Result<Tail, Tail>
    requires fit { Fit f }
    requires log_ready { Log-as-Ready f (Log·lent records.now texts.now log) }
    requires last_at { LastAt catalogue f (take log.undo.records records.now) last }
    ensures { result ≡ Ok (tail_of f (value_of catalogue f (Log·lent records.now texts.now log)).undo) }
{
    let ur = log.undo.records;
    Ok(tail_at(f, &records[..ur], last, log.undo.texts))
}

// Has the log room for the list with a tail?
fn room_for(records: &[u8], texts: &[u8], t: Tail) -> Result<Tail, Tail>
    ensures { result ≡ room_for (sizes_by records.now texts.now) t }
{
    if (t.records <= records.len()) & (t.texts <= texts.len()) {
        return Ok(t);
    }
    Err(t)
}

// The tail after a cut.
fn tail_cut(f: Format, t: Tail, joins: bool, from: usize, to: usize) -> Tail
    requires fit { Fit f }
    requires from_le_to { from ≤ to }
    requires in_range { InRange t (to - from) 0 }
    ensures { result ≡ tail_cut f joins from to t }
{
    if from == to {
        return t;
    }
    let edit = EditRecord {
        kind: EditKind::Delete,
        place: from,
        old: to - from,
        new: 0,
    };
    t.note(f, joins, edit).tail()
}

// The tail after a text of so many bytes is put in.
fn tail_put(f: Format, t: Tail, at: usize, size: usize) -> Tail
    requires fit { Fit f }
    requires in_range { InRange t 0 size }
    ensures { result ≡ tail_put f at size t }
{
    if size == 0 {
        return t;
    }
    let edit = EditRecord {
        kind: EditKind::Insert,
        place: at,
        old: 0,
        new: size,
    };
    t.note(f, false, edit).tail()
}

// The dry run of a cut.
pub fn room_cut(
    f: Format,
    records: &[u8],
    texts: &[u8],
    room: Result<Tail, Tail>,
    joins: bool,
    from: usize,
    to: usize,
) -> Result<Tail, Tail>
    requires fit { Fit f }
    requires from_le_to { from ≤ to }
    requires in_range { IfOk room (λ t. InRange t (to - from) 0) }
    ensures { result ≡ room_cut f (sizes_by records.now texts.now) joins from to room }
{
    let t = tail_cut(f, room?, joins, from, to);
    room_for(records, texts, t)
}

// The dry run of a text put in.
pub fn room_put(
    f: Format,
    records: &[u8],
    texts: &[u8],
    room: Result<Tail, Tail>,
    at: usize,
    size: usize,
) -> Result<Tail, Tail>
    requires fit { Fit f }
    requires in_range { IfOk room (λ t. InRange t 0 size) }
    ensures { result ≡ room_put f (sizes_by records.now texts.now) at size room }
{
    let t = tail_put(f, room?, at, size);
    room_for(records, texts, t)
}

// Has the log room for a cut and then a text put in?
fn pair_fits(
    checked: Checked,
    text: &[u8],
    records: &[u8],
    texts: &[u8],
    from: usize,
    to: usize,
    at: usize,
    new: &[u8],
) -> bool
    requires fit { Fit checked.format }
    requires ready { Ready checked.format (lent text.now records.now texts.now checked.line checked.log) }
    requires last_at { LastAt catalogue checked.format (take checked.log.undo.records records.now) checked.last }
    requires all_suit { AllSuit catalogue (cutting from to ∷ pasted at new.now ∷ []) (take checked.line.len text.now) }
    requires len_bound { length new.now ≤ text_max }
    ensures { result ≡ fits checked.format (sizes_of (lent text.now records.now texts.now checked.line checked.log))
        (list_after catalogue (cutting from to ∷ pasted at new.now ∷ []) (take checked.line.len text.now)
        (state_of catalogue checked.format (lent text.now records.now texts.now checked.line checked.log)).log.undo) }
{
    let joins = is_single(&text[from..to]);
    let a = room_now(checked.format, records, texts, checked.log, checked.last);
    let b = room_cut(checked.format, records, texts, a, joins, from, to);
    room_put(checked.format, records, texts, b, at, new.len()).is_ok()
}

// The bytes from a place up to another cut out, then a text put in at a place of what is left. 9 and 10 are decided
// over both before a byte changes.
pub fn cut_and_put(
    checked: Checked,
    text: &mut [u8],
    records: &mut [u8],
    texts: &mut [u8],
    from: usize,
    to: usize,
    at: usize,
    new: &[u8],
    cursor: usize,
    number: u32,
) -> EditAnswer
    requires fit { Fit checked.format }
    requires ready { Ready checked.format (lent text.old records.old texts.old checked.line checked.log) }
    requires last_at { LastAt catalogue checked.format (take checked.log.undo.records records.old) checked.last }
    requires all_suit { AllSuit catalogue (cutting from to ∷ pasted at new.now ∷ []) (take checked.line.len text.old) }
    ensures { Makes checked.format (lent text.old records.old texts.old checked.line checked.log)
        (record { changes = cutting from to ∷ pasted at new.now ∷ []; cursor = cursor; number = number; from = 0; to = 0 })
        result text.new records.new texts.new }
{
    let left = checked.line.len - (to - from);
    if text.len() - left < new.len() {
        return refused(Refused::Full, checked.line, checked.log);
    }
    if !pair_fits(checked, text, records, texts, from, to, at, new) {
        return refused(Refused::LogFull, checked.line, checked.log);
    }
    let a = cut_out(checked, text, records, texts, from, to);
    let cut = a.line;
    let cut_log = a.log;
    let b = put_in(
        Checked {
            line: cut,
            log: cut_log,
            ..checked
        },
        text,
        records,
        texts,
        at,
        new,
        at,
    );
    let put = b.line;
    let log = b.log;
    let line = Line {
        len: put.len,
        cursor,
    };
    EditAnswer {
        number,
        from: 0,
        to: 0,
        line,
        log,
    }
}
