// Records: document 01, "Log and ring". A record is read at its place by its kind; a list of changes in bytes is checked, walked over
// from its front, and written record by record.
#![tactic(auto)]

ghost use Rattle.std.specs.Prelude.{◌≡◌, true, ◌+◌, ◌≤◌, ◌<◌, length, drop, is_some, IfSome};
ghost use Rattle.std.proofs.lemmas.List.Edits.{sets};
ghost use Rattle.repertoire.specs.Repertoire.{catalogue};
ghost use Rattle.repertoire.specs.Text.{is_text};
ghost use Rattle.log_model.specs.Layout.{decode, is_some as Layout·is_some};
ghost use Rattle.log_model.specs.Holds.{Listed};
ghost use Rattle.formats.specs.Formats.{Fit, records_max};
ghost use Rattle.log_records.specs.Records.{kind_by, kind_size, Read};
ghost use Rattle.log_records.specs.Check.{are_texts_at};
ghost use Rattle.log_records.specs.Walks.{Walks, LastAt, NewestAt, passing, SizesWritten};
ghost use Rattle.log_records.specs.Written.{edit_byte, record_bytes, edit_size};

use formats::Format;
use numbers::{read_num, write_num};
use repertoire::check_text;
use utf8::is_boundary;

// The bytes of a Begin and of an End.
pub const BEGIN: u8 = 1;

pub const END: u8 = 2;

// The kinds of edits, by their bytes in a record of a format that does not raise them.
#[derive(Clone, Copy, PartialEq, Eq)]
pub enum EditKind {
    Insert = 3,
    Delete = 4,
    Replace = 5,
}

// The kinds of records: a group's Begin and End, and the edits.
#[derive(Clone, Copy)]
pub enum Kind {
    Begin,
    End,
    Edit(EditKind),
}

// A record by its numbers: its kind, the place, the lengths of the old and of the new text, and its size in bytes.
#[derive(Clone, Copy)]
pub struct Record {
    pub kind: Kind,
    pub place: usize,
    pub old: usize,
    pub new: usize,
    pub size: usize,
}

// An edit's record by its numbers.
#[derive(Clone, Copy)]
pub struct EditRecord {
    pub kind: EditKind,
    pub place: usize,
    pub old: usize,
    pub new: usize,
}

impl EditKind {
    // Its byte in a record.
    fn byte(self, f: Format) -> u8
        requires { Fit f }
        ensures { result ≡ edit_byte f self }
    {
        self as u8 + f.offset as u8
    }
}

// The size of an edit's record.
pub fn edit_size(f: Format, kind: EditKind) -> usize
    requires { Fit f }
    ensures { (result ≡ edit_size f kind) × (result ≤ 13) }
{
    let w = f.width;
    match kind {
        EditKind::Insert | EditKind::Delete => 1 + w + w,
        EditKind::Replace => 1 + w + w + w,
    }
}

impl Kind {
    // The kind that a record's first byte names.
    #[tactic(auto, unfolding(crate::specs::Records::kind_by))]
    fn named(f: Format, byte: u8) -> Option<Kind>
        requires { Fit f }
        ensures { result ≡ kind_by f byte }
    {
        match byte {
            BEGIN => Some(Kind::Begin),
            END => Some(Kind::End),
            _ if byte == EditKind::Insert.byte(f) => Some(Kind::Edit(EditKind::Insert)),
            _ if byte == EditKind::Delete.byte(f) => Some(Kind::Edit(EditKind::Delete)),
            _ if byte == EditKind::Replace.byte(f) => Some(Kind::Edit(EditKind::Replace)),
            _ => None,
        }
    }

    // The size of a record of this kind: a Begin and an End have no body.
    fn size(self, f: Format) -> usize
        requires { Fit f }
        ensures { (result ≡ kind_size f self) × (result ≤ 13) }
    {
        match self {
            Kind::Begin | Kind::End => 1,
            Kind::Edit(kind) => edit_size(f, kind),
        }
    }
}

// The record at a place, where a whole one stands there.
pub fn read_record(f: Format, records: &[u8], at: usize) -> Option<Record>
    requires { Fit f }
    ensures { Read f records.now at result }
{
    if records.len() <= at {
        return None;
    }
    let kind = Kind::named(f, records[at])?;
    let size = kind.size(f);
    if records.len() - at < size {
        return None;
    }
    let Kind::Edit(edit) = kind else {
        return Some(Record {
            kind,
            place: 0,
            old: 0,
            new: 0,
            size,
        });
    };
    let w = f.width;
    let place = read_num(records, at + 1, w);
    let first = read_num(records, at + 1 + w, w);
    match edit {
        EditKind::Insert => Some(Record {
            kind,
            place,
            old: 0,
            new: first,
            size,
        }),
        EditKind::Delete => Some(Record {
            kind,
            place,
            old: first,
            new: 0,
            size,
        }),
        EditKind::Replace => Some(Record {
            kind,
            place,
            old: first,
            new: read_num(records, at + 1 + w + w, w),
            size,
        }),
    }
}

// Do the texts of a record, old and new bytes long, stand at t? All bytes from t on are a text: bytes of it are one where they end
// between two of its characters. Where one of the two is empty, there is one end.
fn are_texts_at(texts: &[u8], t: usize, old: usize, new: usize) -> bool
    requires t_in_bounds { (t ≤ length texts.now) × (is_text catalogue (drop t texts.now) ≡ true) }
    requires bound { (old < 4294967296) × (new < 4294967296) }
    ensures { result ≡ are_texts_at catalogue texts.now t old new }
{
    let size = old + new;
    if texts.len() - t < size {
        return false;
    }
    if !is_boundary(texts, t + size) {
        return false;
    }
    if (old == 0) | (new == 0) {
        return true;
    }
    is_boundary(texts, t + old)
}

// A list by its records: how many they are and where the newest begins; how many Begins stand last and where the first of them
// begins (begun); where the newest that is no End begins (inside).
#[derive(Clone, Copy, Default)]
pub struct Newest {
    pub count: usize,
    pub last: usize,
    pub begins: usize,
    pub begun: usize,
    pub inside: usize,
}

impl Newest {
    // A record more, from a place up to the next.
    fn pass(self, kind: Kind, at: usize, next: usize) -> Newest
        requires { (self.count < 18446744073709551615) × (self.begins ≤ self.count) }
        ensures { result ≡ passing kind at next self }
    {
        let count = self.count + 1;
        match kind {
            Kind::Begin => Newest {
                count,
                last: at,
                begins: self.begins + 1,
                begun: self.begun,
                inside: at,
            },
            Kind::End => Newest {
                count,
                last: at,
                begins: 0,
                begun: next,
                inside: self.inside,
            },
            Kind::Edit(_) => Newest {
                count,
                last: at,
                begins: 0,
                begun: next,
                inside: at,
            },
        }
    }
}

// Are records and texts the layout of a list of changes? Then what stands at its end. One pass over each: the texts are looked at
// as one text, and of each record's texts it is then asked where they end. A Begin and an End have none.
pub fn check_list(f: Format, records: &[u8], texts: &[u8]) -> Option<Newest>
    requires { Fit f }
    ensures sound { is_some result ≡ Layout·is_some (decode catalogue f records.now texts.now) }
    ensures newest { IfSome result (λ n. NewestAt catalogue f records.now n) }
{
    if !check_text(texts) {
        return None;
    }
    let mut newest = Newest::default();
    let mut at: usize = 0;
    let mut t: usize = 0;
    // A turn passes a record, whose kind says how long it is: no index is counted.
    while at < records.len() {
        let r = read_record(f, records, at)?;
        if matches!(r.kind, Kind::Edit(_)) && !are_texts_at(texts, t, r.old, r.new) {
            return None;
        }
        let next = at + r.size;
        newest = newest.pass(r.kind, at, next);
        at = next;
        t += r.old + r.new;
    }
    if t == texts.len() { Some(newest) } else { None }
}

// Where a walk over records ends: how many it passed, and the size of those records and of their texts.
#[derive(Clone, Copy)]
pub struct Span {
    pub count: usize,
    pub records: usize,
    pub texts: usize,
}

// The first n records of a list, or all of them.
pub fn walk(f: Format, records: &[u8], n: usize) -> Span
    requires fit { Fit f }
    requires listed { Listed catalogue f records.now }
    requires records_len_bound { length records.now ≤ records_max }
    ensures { Walks catalogue f records.now n result }
{
    let mut count: usize = 0;
    let mut at: usize = 0;
    let mut t: usize = 0;
    while let Some(r) = read_record(f, records, at) {
        if count == n {
            break;
        }
        at += r.size;
        t += r.old + r.new;
        count += 1;
    }
    Span {
        count,
        records: at,
        texts: t,
    }
}

// Where the last record of a list begins.
pub fn last_start(f: Format, records: &[u8]) -> usize
    requires fit { Fit f }
    requires listed { Listed catalogue f records.now }
    ensures { LastAt catalogue f records.now result }
{
    let mut at: usize = 0;
    let mut last: usize = 0;
    while let Some(r) = read_record(f, records, at) {
        last = at;
        at += r.size;
    }
    last
}

// The size of each record of a list, written down at the record's last byte, so that the list can be walked from its newest record:
// one pass. Answers the number of records.
pub fn write_sizes(f: Format, records: &[u8], sizes: &mut [u8]) -> usize
    requires fit { Fit f }
    requires listed { Listed catalogue f records.now }
    requires records_in_bounds { length records.now ≤ length sizes.old }
    ensures { SizesWritten catalogue f records.now result sizes.new }
{
    let mut count: usize = 0;
    let mut at: usize = 0;
    // A turn passes a record, as in check_list.
    while at < records.len() {
        let Some(kind) = Kind::named(f, records[at]) else {
            break;
        };
        let size = kind.size(f);
        at += size;
        sizes[at - 1] = size as u8;
        count += 1;
    }
    count
}

// An edit's record at a place.
pub fn write_record(f: Format, records: &mut [u8], at: usize, edit: EditRecord)
    requires fit { Fit f }
    requires kind_in_bounds { at + edit_size f edit.kind ≤ length records.old }
    ensures { records.new ≡ sets records.old at (record_bytes f edit) }
{
    let w = f.width;
    records[at] = edit.kind.byte(f);
    write_num(records, at + 1, edit.place, w);
    match edit.kind {
        EditKind::Insert => write_num(records, at + 1 + w, edit.new, w),
        EditKind::Delete => write_num(records, at + 1 + w, edit.old, w),
        EditKind::Replace => {
            write_num(records, at + 1 + w, edit.old, w);
            write_num(records, at + 1 + w + w, edit.new, w);
        }
    }
}
