// The log: Changeset of undo.rs over two lent buffers. The log's state goes in by value and comes back. Here are the checks of a
// lent log, and what is done with one that they pass, in any format of its records.
#![tactic(auto)]

ghost use Rattle.std.specs.Prelude.{◌≡◌, true, false, not, List, reverse, ℕ, ◌+◌, ◌-◌, ◌≤◌, ◌<◌, ltb, length, take, drop};
ghost use Rattle.std.specs.Prelude.{is_some, IfSome, IfOk, OnOk};
ghost use Rattle.repertoire.specs.Repertoire.{catalogue};
ghost use Rattle.repertoire.specs.Text.{is_text};
ghost use Rattle.cluster.specs.Clusters.{clusters_of};
ghost use Rattle.checks.specs.Checks.{refusal as Checks·refusal, both, own_tests};
ghost use Rattle.checks.specs.Refused.{number_of, refused_by};
ghost use Rattle.log_model.specs.Change.{Change, edit};
ghost use Rattle.log_model.specs.UndoBytes.{undo_records};
ghost use Rattle.log_model.specs.Holds.{Listed};
ghost use Rattle.log_records.specs.Walks.{LastAt, NewestAt};
ghost use Rattle.numbers.specs.Numbers.{top};
ghost use Rattle.log_model.specs.Layout.{Layout, ok_change};
ghost use Rattle.log_model.specs.Recording.{note, is_single};
ghost use Rattle.formats.specs.Formats.{Fit, records_max};
ghost use Rattle.log_state.specs.Logs.{over_sizes, damaged, log_tests};
ghost use Rattle.log_state.specs.Outcomes.{begin_out, end_out, record_out, truncate_out, last_insert_out};
ghost use Rattle.log_state.specs.Calls.{lent, sizes_of, value_of, says as Calls·says, Logged, Ready, edit_of, Numbered, answer_of, put_in};

use buffer::{cut_bytes, fill};
use checks::Refused;
use cluster::next_cluster;
use formats::Format;
use log_recording::{tail_for, write_noted};
use log_records::{
    BEGIN, END, EditKind, EditRecord, Kind, Newest, Record, check_list, read_record, walk,
};
use numbers::top_of;

// The used lengths of a list in the two buffers.
#[repr(C)]
#[derive(Clone, Copy, Default)]
pub struct Used {
    pub records: usize,
    pub texts: usize,
}

// The used lengths of the two lists and the group level.
#[repr(C)]
#[derive(Clone, Copy, Default)]
pub struct Log {
    pub undo: Used,
    pub redo: Used,
    pub level: usize,
}

// Is a length over len, when a and b come together?
fn is_over(len: usize, a: usize, b: usize) -> bool
    ensures { result ≡ ltb len (a + b) }
{
    if len < a {
        return true;
    }
    len - a < b
}

// Check 2 of a lent log.
pub fn over_sizes(f: Format, records: &[u8], texts: &[u8], log: Log) -> bool
    ensures { result ≡ over_sizes f log records.now texts.now }
{
    let u = log.undo;
    let r = log.redo;
    if f.records < records.len() {
        return true;
    }
    if f.texts < texts.len() {
        return true;
    }
    if is_over(records.len(), u.records, r.records) {
        return true;
    }
    is_over(texts.len(), u.texts, r.texts)
}

// Check 8 of a lent log that check 2 passes: what stands at the end of its undo list.
pub fn look(f: Format, records: &[u8], texts: &[u8], log: Log) -> Option<Newest>
    requires fit { Fit f }
    requires records_in_bounds { (log.undo.records + log.redo.records ≤ length records.now) × (log.undo.texts + log.redo.texts ≤ length texts.now) }
    ensures sound { is_some result ≡ not (damaged catalogue f log records.now texts.now) }
    ensures newest { IfSome result (λ n. NewestAt catalogue f (take log.undo.records records.now) n) }
{
    if 255 < log.level {
        return None;
    }
    let ur = log.undo.records;
    let ut = log.undo.texts;
    let newest = check_list(f, &records[..ur], &texts[..ut])?;
    let re = ur + log.redo.records;
    let te = ut + log.redo.texts;
    check_list(f, &records[ur..re], &texts[ut..te])?;
    Some(newest)
}

// As a LineAnswer, with the log in place of the line. C reads it.
#[repr(C)]
#[derive(Clone, Copy)]
pub struct LogAnswer {
    pub number: u32,
    pub from: usize,
    pub to: usize,
    pub log: Log,
}

// A number alone.
pub fn says(number: u32, log: Log) -> LogAnswer
    ensures { result ≡ Calls·says number log }
{
    LogAnswer {
        number,
        from: 0,
        to: 0,
        log,
    }
}

// A check refuses.
pub fn refused(why: Refused, log: Log) -> LogAnswer
    ensures { result ≡ Calls·says (number_of why) log }
{
    says(why.into(), log)
}

// Checks 2, 4 and 8 of a lent log, and what stands at the end of its undo list. `foreign` says that an argument is outside the
// repertoire.
pub fn check(
    f: Format,
    records: &[u8],
    texts: &[u8],
    log: Log,
    foreign: bool,
) -> Result<Newest, Refused>
    requires { Fit f }
    ensures number { refused_by result ≡ Checks·refusal (both (log_tests catalogue f log records.now texts.now) (own_tests false foreign false)) }
    ensures ready { OnOk result (Ready f (lent records.now texts.now log)) }
    ensures newest { IfOk result (λ n. NewestAt catalogue f (take log.undo.records records.now) n) }
{
    if over_sizes(f, records, texts, log) {
        return Err(Refused::Sizes);
    }
    if foreign {
        return Err(Refused::Foreign);
    }
    match look(f, records, texts, log) {
        Some(newest) => Ok(newest),
        None => Err(Refused::Damaged),
    }
}

// single_char: is the text one cluster, all alphanumeric?
pub fn is_single(s: &[u8]) -> bool
    requires { is_text catalogue s.now ≡ true }
    ensures { result ≡ is_single catalogue (clusters_of catalogue s.now) }
{
    let c = next_cluster(s);
    (0 < s.len()) & (c.len == s.len()) & c.alnum
}

// Where a list ends without its newest records, all of them Begins: so many, of those that stand last.
fn end_of(f: Format, records: &[u8], newest: Newest, dropped: usize) -> usize
    requires fit { Fit f }
    requires listed { Listed catalogue f records.now }
    requires records_len_bound { length records.now ≤ records_max }
    requires newest_at { NewestAt catalogue f records.now newest }
    requires dropped_le_begins { dropped ≤ newest.begins }
    ensures { (ts : List ℕ) (us : List Change) → Layout catalogue f records.now ts us → result ≡ length (undo_records f (drop dropped (reverse us))) }
{
    if dropped == 0 {
        return records.len();
    }
    if dropped == newest.begins {
        return newest.begun;
    }
    let kept = walk(f, records, newest.count - dropped);
    kept.records
}

// The length of the text that a record put in, an Insert or a Replace.
fn put_in(r: Record) -> Option<usize>
    ensures { result ≡ put_in r }
{
    match r.kind {
        Kind::Edit(EditKind::Insert) | Kind::Edit(EditKind::Replace) => Some(r.new),
        Kind::Edit(EditKind::Delete) | Kind::Begin | Kind::End => None,
    }
}

impl Log {
    // Wrong answers ruled out: a level left raised; a used length that is not 0.
    pub fn new() -> Log
        ensures { result ≡ record { undo = record { records = 0; texts = 0 }; redo = record { records = 0; texts = 0 }; level = 0 } }
    {
        Log::default()
    }

    // The redo list dropped: undo.rs clears it before it looks at what is to be recorded.
    pub fn drop_redo(mut self) -> Log
        ensures { result ≡ record { undo = self.undo; redo = record { records = 0; texts = 0 }; level = self.level } }
    {
        self.redo = Used::default();
        self
    }

    // The undo list with these used lengths, and no redo list.
    fn only_undo(self, records: usize, texts: usize) -> Log
        ensures { result ≡ record { undo = record { records = records; texts = texts }; redo = record { records = 0; texts = 0 }; level = self.level } }
    {
        Log {
            undo: Used { records, texts },
            ..self.drop_redo()
        }
    }

    // The seam between the two lists moved: the undo list ends there, and the redo list begins there.
    pub fn move_seam(self, records: usize, texts: usize) -> Log
        requires records_bound { (records ≤ self.undo.records + self.redo.records) × (self.undo.records + self.redo.records < 4294967296) }
        requires texts_bound { (texts ≤ self.undo.texts + self.redo.texts) × (self.undo.texts + self.redo.texts < 4294967296) }
        ensures { result ≡ record {
          undo = record { records = records; texts = texts };
          redo = record
              { records = self.undo.records + self.redo.records - records; texts = self.undo.texts + self.redo.texts - texts };
          level = self.level;
        } }
    {
        Log {
            undo: Used { records, texts },
            redo: Used {
                records: self.undo.records + self.redo.records - records,
                texts: self.undo.texts + self.redo.texts - texts,
            },
            level: self.level,
        }
    }

    // cancel: no redo list, and the level lowered by the Begins dropped, never below 0.
    pub fn cancel(mut self, begins: usize) -> Log
        ensures { result ≡ record { undo = self.undo; redo = record { records = 0; texts = 0 }; level = self.level - begins } }
    {
        let level = self.level;
        self = self.drop_redo();
        self.level = level.saturating_sub(begins);
        self
    }

    // A change recorded, by its kind, its place, its old and its new text: merged where it may be and follows. The newest record
    // begins at last.
    pub fn record(
        self,
        f: Format,
        records: &mut [u8],
        texts: &mut [u8],
        last: usize,
        joins: bool,
        kind: EditKind,
        place: usize,
        old: &[u8],
        new: &[u8],
    ) -> LogAnswer
        requires fit { Fit f }
        requires ready { Ready f (lent records.old texts.old self) }
        requires last_at { joins ≡ true → LastAt catalogue f (take self.undo.records records.old) last }
        requires numbered { Numbered (edit_of kind place old.now new.now) kind place old.now new.now }
        requires ok { ok_change catalogue (edit (edit_of kind place old.now new.now)) ≡ true }
        ensures { Logged f (lent records.old texts.old self)
            (record_out f (sizes_of (lent records.old texts.old self))
            (note joins (edit_of kind place old.now new.now) (value_of catalogue f (lent records.old texts.old self)).undo)
            (value_of catalogue f (lent records.old texts.old self)))
            result records.new texts.new }
    {
        let ur = self.undo.records;
        let ut = self.undo.texts;
        let space = texts.len() - ut;
        if space < old.len() {
            return refused(Refused::LogFull, self);
        }
        if space - old.len() < new.len() {
            return refused(Refused::LogFull, self);
        }
        let tail = tail_for(f, joins, &records[..ur], last, ut);
        let edit = EditRecord {
            kind,
            place,
            old: old.len(),
            new: new.len(),
        };
        let n = tail.note(f, joins, edit);
        if records.len() < n.records {
            return refused(Refused::LogFull, self);
        }
        if top_of(f.width) <= n.edit.place {
            return refused(Refused::LogFull, self);
        }
        write_noted(f, records, texts, ut, n, old, new);
        says(0, self.only_undo(n.records, n.texts))
    }

    // begin on a log that the checks pass.
    pub fn begin(mut self, f: Format, records: &mut [u8], texts: &[u8], newest: Newest) -> LogAnswer
        requires fit { Fit f }
        requires ready { Ready f (lent records.old texts.now self) }
        requires newest_at { NewestAt catalogue f (take self.undo.records records.old) newest }
        ensures { Logged f (lent records.old texts.now self)
            (begin_out f (sizes_of (lent records.old texts.now self)) (value_of catalogue f (lent records.old texts.now self)))
            result records.new texts.now }
    {
        let ur = self.undo.records;
        if 255 <= self.level {
            return refused(Refused::LogFull, self);
        }
        if records.len() <= ur {
            return refused(Refused::LogFull, self);
        }
        records[ur] = BEGIN;
        self.level += 1;
        LogAnswer {
            number: 0,
            from: newest.count,
            to: 0,
            log: self.only_undo(ur + 1, self.undo.texts),
        }
    }

    // end on a log that the checks pass: Begins that stand last are dropped, and for each level left an End is put.
    pub fn end(mut self, f: Format, records: &mut [u8], texts: &[u8], newest: Newest) -> LogAnswer
        requires fit { Fit f }
        requires ready { Ready f (lent records.old texts.now self) }
        requires newest_at { NewestAt catalogue f (take self.undo.records records.old) newest }
        ensures { Logged f (lent records.old texts.now self)
            (end_out f (sizes_of (lent records.old texts.now self)) (value_of catalogue f (lent records.old texts.now self)))
            result records.new texts.now }
    {
        let ur = self.undo.records;
        let level = self.level;
        let empty = newest.begins.min(level);
        let ends = level - empty;
        let kept = end_of(f, &records[..ur], newest, empty);
        if records.len() - kept < ends {
            return refused(Refused::LogFull, self);
        }
        fill(records, kept, ends, END);
        self.level = 0;
        let log = self.only_undo(kept + ends, self.undo.texts);
        if ends == 0 {
            return says(1, log);
        }
        says(0, log)
    }

    // truncate on a log that the checks pass: the redo list moves down behind the shorter undo list.
    pub fn truncate(
        mut self,
        f: Format,
        records: &mut [u8],
        texts: &mut [u8],
        len: usize,
    ) -> LogAnswer
        requires fit { Fit f }
        requires ready { Ready f (lent records.old texts.old self) }
        ensures { Logged f (lent records.old texts.old self)
            (truncate_out len (value_of catalogue f (lent records.old texts.old self)))
            result records.new texts.new }
    {
        let ur = self.undo.records;
        let ut = self.undo.texts;
        let kept = walk(f, &records[..ur], len);
        cut_bytes(records, ur + self.redo.records, kept.records, ur);
        cut_bytes(texts, ut + self.redo.texts, kept.texts, ut);
        self.undo = Used {
            records: kept.records,
            texts: kept.texts,
        };
        says(0, self)
    }

    // last_insert on a log that the checks pass: the Ends that stand last are passed.
    pub fn last_insert(self, f: Format, records: &[u8], texts: &[u8], newest: Newest) -> LogAnswer
        requires fit { Fit f }
        requires ready { Ready f (lent records.now texts.now self) }
        requires newest_at { NewestAt catalogue f (take self.undo.records records.now) newest }
        ensures { result ≡ answer_of f (lent records.now texts.now self)
            (last_insert_out (value_of catalogue f (lent records.now texts.now self))) }
    {
        let ur = self.undo.records;
        let ut = self.undo.texts;
        match read_record(f, &records[..ur], newest.inside).and_then(put_in) {
            Some(size) => LogAnswer {
                number: 0,
                from: ut - size,
                to: ut,
                log: self,
            },
            None => says(1, self),
        }
    }
}
