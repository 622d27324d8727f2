// Recording a change: the dry run, which says where its record and its texts go, and the writing. undo.rs, Changeset.
#![tactic(auto)]

ghost use Rattle.std.specs.Prelude.{◌≡◌, true, ◌+◌, ◌≤◌, eqb, length, Some};
ghost use Rattle.repertoire.specs.Repertoire.{catalogue};
ghost use Rattle.formats.specs.Formats.{Fit};
ghost use Rattle.log_records.specs.Walks.{LastAt};
ghost use Rattle.log_records.specs.Written.{edit_size};
ghost use Rattle.log_recording.specs.Tails.{as_edit, tail_after, TailAt, TailFor, apart as Tails·apart, joined, noted, InRange, Wrote};

use buffer::insert_bytes;
use formats::Format;
use log_records::{EditKind, EditRecord, Kind, Record, edit_size, read_record, write_record};

pub mod by_number;

// An undo list by its used lengths, and its newest record where that is an edit's.
#[derive(Clone, Copy)]
pub struct Tail {
    pub records: usize,
    pub texts: usize,
    pub newest: Option<EditRecord>,
}

// The list after a change: its newest record, its used lengths, and where in the texts the change's old text goes.
#[derive(Clone, Copy)]
pub struct Noted {
    pub edit: EditRecord,
    pub records: usize,
    pub texts: usize,
    pub at: usize,
}

// A record, where it is an edit's.
fn as_edit(r: Record) -> Option<EditRecord>
    ensures { result ≡ as_edit r }
{
    match r.kind {
        Kind::Edit(kind) => Some(EditRecord {
            kind,
            place: r.place,
            old: r.old,
            new: r.new,
        }),
        Kind::Begin | Kind::End => None,
    }
}

// The tail of the undo list in records, whose newest record begins at last and whose texts are texts bytes long.
pub fn tail_at(f: Format, records: &[u8], last: usize, texts: usize) -> Tail
    requires fit { Fit f }
    requires last_at { LastAt catalogue f records.now last }
    ensures { TailAt catalogue f records.now texts result }
{
    Tail {
        records: records.len(),
        texts,
        newest: read_record(f, records, last).and_then(as_edit),
    }
}

// The tail as far as recording a change looks at it: the newest record is read only where the change may be joined to it.
pub fn tail_for(f: Format, joins: bool, records: &[u8], last: usize, texts: usize) -> Tail
    requires fit { Fit f }
    requires last_at { joins ≡ true → LastAt catalogue f records.now last }
    ensures { TailFor catalogue f joins records.now texts result }
{
    if joins {
        return tail_at(f, records, last, texts);
    }
    Tail {
        records: records.len(),
        texts,
        newest: None,
    }
}

// Does a cut of size bytes at a place end at next?
fn ends_at(place: usize, size: usize, next: usize) -> bool
    ensures { result ≡ eqb next (place + size) }
{
    if next < place {
        return false;
    }
    next - place == size
}

impl Noted {
    // The list's tail.
    pub fn tail(self) -> Tail
        ensures { result ≡ tail_after self }
    {
        Tail {
            records: self.records,
            texts: self.texts,
            newest: Some(self.edit),
        }
    }
}

impl Tail {
    // The change in a record of its own.
    fn apart(self, f: Format, edit: EditRecord) -> Noted
        requires fit { Fit f }
        requires in_range { InRange self edit.old edit.new }
        ensures { result ≡ Tails·apart f edit self }
    {
        Noted {
            edit,
            records: self.records + edit_size(f, edit.kind),
            texts: self.texts + (edit.old + edit.new),
            at: self.texts,
        }
    }

    // The change joined to the newest record, which is of its kind, where it follows it or is a cut in front of it.
    fn joined(self, f: Format, newest: EditRecord, edit: EditRecord) -> Noted
        requires fit { Fit f }
        requires in_range { InRange self edit.old edit.new }
        requires newest { self.newest ≡ Some newest }
        ensures { result ≡ joined f newest edit self }
    {
        if newest.place + newest.new == edit.place {
            return Noted {
                edit: EditRecord {
                    kind: newest.kind,
                    place: newest.place,
                    old: newest.old + edit.old,
                    new: newest.new + edit.new,
                },
                records: self.records,
                texts: self.texts + (edit.old + edit.new),
                at: self.texts - newest.new,
            };
        }
        if edit.kind == EditKind::Delete && ends_at(edit.place, edit.old, newest.place) {
            return Noted {
                edit: EditRecord {
                    kind: newest.kind,
                    place: edit.place,
                    old: edit.old + newest.old,
                    new: edit.new + newest.new,
                },
                records: self.records,
                texts: self.texts + (edit.old + edit.new),
                at: self.texts - (newest.old + newest.new),
            };
        }
        self.apart(f, edit)
    }

    // A change by its kind, its place and the lengths of its texts: the dry run of recording it.
    pub fn note(self, f: Format, joins: bool, edit: EditRecord) -> Noted
        requires fit { Fit f }
        requires in_range { InRange self edit.old edit.new }
        ensures { result ≡ noted f joins edit self }
    {
        let Some(newest) = self.newest else {
            return self.apart(f, edit);
        };
        if joins && newest.kind == edit.kind {
            return self.joined(f, newest, edit);
        }
        self.apart(f, edit)
    }
}

// Writes what the dry run worked out into the buffers, of whose texts used bytes are used.
pub fn write_noted(
    f: Format,
    records: &mut [u8],
    texts: &mut [u8],
    used: usize,
    n: Noted,
    old: &[u8],
    new: &[u8],
)
    requires fit { Fit f }
    requires kind_bound { (edit_size f n.edit.kind ≤ n.records) × (n.records ≤ length records.old) }
    requires at_le_used { (n.at ≤ used) × (used + length old.now + length new.now ≤ length texts.old) }
    ensures { Wrote f n used old.now new.now records.old texts.old records.new texts.new }
{
    write_record(f, records, n.records - edit_size(f, n.edit.kind), n.edit);
    insert_bytes(texts, used, n.at, old);
    let end = used + old.len();
    insert_bytes(texts, end, end, new);
}
