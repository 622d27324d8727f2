// One record undone or redone: undo.rs, undo and redo of Change. Records and their texts are only read.
#![tactic(auto)]

ghost use Rattle.std.specs.Prelude.{◌≡◌, true, ◌+◌, ◌≤◌, ◌<◌, None, length, take};
ghost use Rattle.repertoire.specs.Repertoire.{catalogue};
ghost use Rattle.repertoire.specs.Text.{is_text};
ghost use Rattle.checks.specs.Refused.{refused_by};
ghost use Rattle.log_model.specs.Change.{Change};
ghost use Rattle.formats.specs.declared.Format.{Format};
ghost use Rattle.log_records.specs.Records.{Carries};
ghost use Rattle.undo_step.specs.ByNumber.{Carries as ByNumber·Carries};
ghost use Rattle.undo_step.specs.UndoStep.{exchanging, undoing, to_undo, Exchanged, UndoneOrRedone};

use buffer::{cut_bytes, insert_bytes};
use checks::Refused;
use log_records::{EditKind, Kind, Record};
use utf8::is_boundary;

// Takes the bytes at a place out of the text and puts a text in there; or 12, then 9, and nothing is changed.
fn exchange(
    text: &mut [u8],
    len: usize,
    place: usize,
    out: usize,
    put: &[u8],
) -> Result<(), Refused>
    requires len_in_bounds { (len ≤ length text.old) × (place < 4294967296) × (out < 4294967296) }
    requires text_value { is_text catalogue (take len text.old) ≡ true }
    ensures { Exchanged (exchanging (length text.old) place out put.now (take len text.old)) (refused_by result) text.old text.new }
{
    let end = place + out;
    if len < end {
        return Err(Refused::Misfit);
    }
    if !is_boundary(&text[..len], place) {
        return Err(Refused::Misfit);
    }
    if !is_boundary(&text[..len], end) {
        return Err(Refused::Misfit);
    }
    let left = len - out;
    if text.len() - left < put.len() {
        return Err(Refused::Full);
    }
    cut_bytes(text, len, place, end);
    insert_bytes(text, left, place, put);
    Ok(())
}

// The text's length, the cursor and whether a record of a text was undone; and what stopped it, if anything did.
#[derive(Clone, Copy)]
pub struct Step {
    pub stop: Option<Refused>,
    pub len: usize,
    pub cursor: usize,
    pub undone: bool,
}

// A record undone (back) or redone, whose texts begin at t. Inlined, since each record of an undo or redo comes here.
#[inline(always)]
pub fn undo_or_redo(text: &mut [u8], texts: &[u8], s: Step, r: Record, t: usize, back: bool) -> Step
    requires number_value { (s.stop ≡ None) × (s.len ≤ length text.old) × (r.place < 4294967296) × (t + (r.old + r.new) ≤ length texts.now) × (length texts.now < 4294967296) }
    requires text_value { is_text catalogue (take s.len text.old) ≡ true }
    ensures { (F : Format) (c : Change) → Carries F c r texts.now t → UndoneOrRedone
        (undoing (length text.old) (to_undo back c) (record
        { text = take s.len text.old; cursor = s.cursor; undone = s.undone })) s result text.old text.new }
{
    let Kind::Edit(_) = r.kind else {
        return s;
    };
    let mid = t + r.old;
    let mut out = r.old;
    let mut from = mid;
    let mut to = mid + r.new;
    if back {
        out = r.new;
        from = t;
        to = mid;
    }
    let put = to - from;
    match exchange(text, s.len, r.place, out, &texts[from..to]) {
        Ok(()) => Step {
            stop: None,
            len: s.len - out + put,
            cursor: r.place + put,
            undone: true,
        },
        Err(why) => Step {
            stop: Some(why),
            ..s
        },
    }
}

// A record by its numbers, its kind too: 1 Begin, 2 End, 3 Insert, 4 Delete, 5 Replace.
#[derive(Clone, Copy)]
pub struct RecordByNumber {
    pub kind: usize,
    pub place: usize,
    pub old: usize,
    pub new: usize,
    pub size: usize,
}

// A record undone (back) or redone, the same for a kind's number, of which any may come: by one that is no kind's nothing is done.
// Wrong answers ruled out: undone where redone is asked; a Begin or an End that moves the cursor.
pub fn undo_or_redo_by_number(
    text: &mut [u8],
    texts: &[u8],
    s: Step,
    r: RecordByNumber,
    t: usize,
    back: bool,
) -> Step
    requires number_value { (s.stop ≡ None) × (s.len ≤ length text.old) × (r.place < 4294967296)
        × (t + (r.old + r.new) ≤ length texts.now) × (length texts.now < 4294967296) }
    requires text_value { is_text catalogue (take s.len text.old) ≡ true }
    ensures { (F : Format) (c : Change) → ByNumber·Carries F c r texts.now t → UndoneOrRedone
        (undoing (length text.old) (to_undo back c) (record
        { text = take s.len text.old; cursor = s.cursor; undone = s.undone })) s result text.old text.new }
{
    let kind = match r.kind {
        1 => Kind::Begin,
        2 => Kind::End,
        3 => Kind::Edit(EditKind::Insert),
        4 => Kind::Edit(EditKind::Delete),
        5 => Kind::Edit(EditKind::Replace),
        _ => return s,
    };
    let named = Record {
        kind,
        place: r.place,
        old: r.old,
        new: r.new,
        size: r.size,
    };
    undo_or_redo(text, texts, s, named, t, back)
}
