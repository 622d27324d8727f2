// transpose_chars and transpose_words of LineBuffer: two neighbouring clusters exchanged, two words put in for each other. Any text,
// cursor, log and number may be handed over: what is unfit is turned away by a number of document 01.
#![tactic(auto)]

ghost use Rattle.std.specs.Prelude.{◌≡◌, true, false, ◌+◌, ◌≤◌, ltb, length, take};
ghost use Rattle.utf8.specs.Chars.{valid, In};
ghost use Rattle.repertoire.specs.Repertoire.{catalogue};
ghost use Rattle.cluster.specs.Clusters.{clusters_of};
ghost use Rattle.motion.specs.Steps.{IsPlace};
ghost use Rattle.log_records.specs.Walks.{LastAt};
ghost use Rattle.edit.specs.Plan.{list_after, too_long};
ghost use Rattle.edit.specs.Calls.{lent, sizes_of, state_of, Ready, Answers, Makes};
ghost use Rattle.edit_transpose.specs.TransposeChars.{starts_at, exchange, transpose_chars_plan, transpose_chars_call};
ghost use Rattle.edit_transpose.specs.WordPairs.{words_plan, Apart, words_around};
ghost use Rattle.edit_transpose.specs.TransposeWords.{transpose_words_plan, transpose_words_call};
ghost use Rattle.lists.specs.Lists.{part};
ghost use Rattle.log_model.specs.UndoBytes.{fits};

use buffer::insert_bytes;
use checks::{Line, Refused};
use cluster::next_cluster;
use edit::{
    Checked, EditAnswer, Own, admit, cut_and_put, cut_out, put_in, refused, room_cut, room_now,
    room_put, says,
};
use formats::{TEXT_MAX, format_for};
use keymap::RepeatCount;
use log_records::last_start;
use log_state::{Log, is_single};
use motion_words::{back_from, on_from, words_back, words_on};

// Two words of a text, by their places.
#[derive(Clone, Copy)]
pub struct Words {
    pub beg1: usize,
    pub end1: usize,
    pub beg2: usize,
    pub end2: usize,
}

// The words that transpose_words finds from a place.
pub fn words_around(s: &[u8], pos: usize, n: RepeatCount) -> Words
    requires { IsPlace s.now pos }
    ensures { result ≡ words_around catalogue s.now n pos }
{
    let end2 = words_on(s, pos, n);
    let beg2 = words_back(s, end2, 1);
    let beg1 = words_back(s, beg2, n);
    let end1 = words_on(s, beg1, 1);
    Words {
        beg1,
        end1,
        beg2,
        end2,
    }
}

// Has the log room for the two words put in for each other?
pub fn words_fit(checked: Checked, text: &[u8], records: &[u8], texts: &[u8], w: Words) -> bool
    requires ready { Ready checked.format (lent text.now records.now texts.now checked.line checked.log) }
    requires last_at { LastAt catalogue checked.format (take checked.log.undo.records records.now) checked.last }
    requires apart { Apart (take checked.line.len text.now) w }
    requires text_value { too_long (length text.now) (words_plan (take checked.line.len text.now) w).changes (take checked.line.len text.now) ≡ false }
    ensures { result ≡ fits checked.format (sizes_of (lent text.now records.now texts.now checked.line checked.log))
        (list_after catalogue (words_plan (take checked.line.len text.now) w).changes (take checked.line.len text.now)
        (state_of catalogue checked.format (lent text.now records.now texts.now checked.line checked.log)).log.undo) }
{
    let a = w.beg1;
    let b = w.end1;
    let c = w.beg2;
    let d = w.end2;
    let second = is_single(&text[c..d]);
    let first = is_single(&text[a..b]);
    let r0 = room_now(checked.format, records, texts, checked.log, checked.last);
    let r1 = room_cut(checked.format, records, texts, r0, second, c, d);
    let r2 = room_put(checked.format, records, texts, r1, c, b - a);
    let r3 = room_cut(checked.format, records, texts, r2, first, a, b);
    room_put(checked.format, records, texts, r3, a, d - c).is_ok()
}

// The two words put in for each other, where there is room for all four changes. After the first two changes the newest
// record is another, which is sought.
pub fn put_words(
    checked: Checked,
    text: &mut [u8],
    records: &mut [u8],
    texts: &mut [u8],
    w: Words,
    first: &[u8],
    second: &[u8],
) -> EditAnswer
    requires ready { Ready checked.format (lent text.old records.old texts.old checked.line checked.log) }
    requires last_at { LastAt catalogue checked.format (take checked.log.undo.records records.old) checked.last }
    requires apart { Apart (take checked.line.len text.old) w }
    requires first_value { first.now ≡ part (take checked.line.len text.old) w.beg1 w.end1 }
    requires second_value { second.now ≡ part (take checked.line.len text.old) w.beg2 w.end2 }
    requires text_value { too_long (length text.old) (words_plan (take checked.line.len text.old) w).changes (take checked.line.len text.old) ≡ false }
    requires log_value { fits checked.format (sizes_of (lent text.old records.old texts.old checked.line checked.log))
        (list_after catalogue (words_plan (take checked.line.len text.old) w).changes (take checked.line.len text.old)
        (state_of catalogue checked.format (lent text.old records.old texts.old checked.line checked.log)).log.undo) ≡ true }
    ensures { Makes checked.format (lent text.old records.old texts.old checked.line checked.log)
        (words_plan (take checked.line.len text.old) w)
        result text.new records.new texts.new }
{
    let a = w.beg1;
    let b = w.end1;
    let c = w.beg2;
    let d = w.end2;
    let r1 = cut_out(checked, text, records, texts, c, d);
    let line1 = r1.line;
    let log1 = r1.log;
    let r2 = put_in(
        Checked {
            line: line1,
            log: log1,
            ..checked
        },
        text,
        records,
        texts,
        c,
        first,
        c,
    );
    let line2 = r2.line;
    let log2 = r2.log;
    let u = log2.undo;
    let ur = u.records;
    let last2 = last_start(checked.format, &records[..ur]);
    let r3 = cut_out(
        Checked {
            line: line2,
            log: log2,
            last: last2,
            ..checked
        },
        text,
        records,
        texts,
        a,
        b,
    );
    let line3 = r3.line;
    let log3 = r3.log;
    let r4 = put_in(
        Checked {
            line: line3,
            log: log3,
            ..checked
        },
        text,
        records,
        texts,
        a,
        second,
        a,
    );
    let line4 = r4.line;
    let log4 = r4.log;
    let moved = Line {
        len: line4.len,
        cursor: d,
    };
    says(0, moved, log4)
}

// The two words put in for each other: 9 and 10 are decided over all four changes before a byte changes.
fn exchange_words(
    checked: Checked,
    text: &mut [u8],
    records: &mut [u8],
    texts: &mut [u8],
    w: Words,
) -> EditAnswer
    requires ready { Ready checked.format (lent text.old records.old texts.old checked.line checked.log) }
    requires last_at { LastAt catalogue checked.format (take checked.log.undo.records records.old) checked.last }
    requires apart { Apart (take checked.line.len text.old) w }
    ensures { Makes checked.format (lent text.old records.old texts.old checked.line checked.log)
        (words_plan (take checked.line.len text.old) w)
        result text.new records.new texts.new }
{
    let a = w.beg1;
    let b = w.end1;
    let c = w.beg2;
    let d = w.end2;
    let n1 = b - a;
    let n2 = d - c;
    let left = checked.line.len - n2;
    if text.len() - left < n1 {
        return refused(Refused::Full, checked.line, checked.log);
    }
    if !words_fit(checked, text, records, texts, w) {
        return refused(Refused::LogFull, checked.line, checked.log);
    }
    let mut first = [0u8; TEXT_MAX];
    insert_bytes(&mut first, 0, 0, &text[a..b]);
    let mut second = [0u8; TEXT_MAX];
    insert_bytes(&mut second, 0, 0, &text[c..d]);
    put_words(
        checked,
        text,
        records,
        texts,
        w,
        &first[..n1],
        &second[..n2],
    )
}

// transpose_words on what the check passes.
pub fn transpose_words_checked(
    checked: Checked,
    text: &mut [u8],
    records: &mut [u8],
    texts: &mut [u8],
    n: RepeatCount,
) -> EditAnswer
    requires ready { Ready checked.format (lent text.old records.old texts.old checked.line checked.log) }
    requires last_at { LastAt catalogue checked.format (take checked.log.undo.records records.old) checked.last }
    ensures { Makes checked.format (lent text.old records.old texts.old checked.line checked.log)
        (transpose_words_plan catalogue (take checked.line.len text.old) n checked.line.cursor)
        result text.new records.new texts.new }
{
    let len = checked.line.len;
    let cursor = checked.line.cursor;
    let w = words_around(&text[..len], cursor, n);
    if (w.beg1 == w.beg2) | (w.beg2 < w.end1) {
        return says(
            1,
            Line {
                len,
                cursor: w.end1,
            },
            checked.log,
        );
    }
    exchange_words(checked, text, records, texts, w)
}

// Wrong answers ruled out: the cursor where it was on answer 1; 9 decided on the last text alone.
pub fn transpose_words(
    text: &mut [u8],
    records: &mut [u8],
    texts: &mut [u8],
    line: Line,
    log: Log,
    n: RepeatCount,
) -> EditAnswer
    ensures { Answers (lent text.old records.old texts.old line log) (λ F l. transpose_words_call catalogue F l n)
        result text.new records.new texts.new }
{
    let f = format_for(text.len());
    let checked = match admit(f, text, records, texts, line, log, Own::NONE) {
        Ok(checked) => checked,
        Err(why) => return refused(why, line, log),
    };
    transpose_words_checked(checked, text, records, texts, n)
}

// Has a text fewer than two clusters?
fn under_two(s: &[u8]) -> bool
    ensures { valid s.now ≡ true → result ≡ ltb (length (clusters_of catalogue s.now)) 2 }
{
    let k = next_cluster(s);
    s.len() <= k.len
}

// Where the cluster starts that transpose_chars cuts.
fn starts_at(s: &[u8], pos: usize) -> Option<usize>
    requires { IsPlace s.now pos }
    ensures { result ≡ starts_at catalogue s.now pos }
{
    if (pos == 0) | under_two(s) {
        return None;
    }
    if pos == s.len() {
        return Some(back_from(s, pos));
    }
    Some(pos)
}

// The cluster from a place on and the one before it, exchanged.
fn exchange_at(
    checked: Checked,
    text: &mut [u8],
    records: &mut [u8],
    texts: &mut [u8],
    p: usize,
) -> EditAnswer
    requires ready { Ready checked.format (lent text.old records.old texts.old checked.line checked.log) }
    requires last_at { LastAt catalogue checked.format (take checked.log.undo.records records.old) checked.last }
    requires in_text { In (take checked.line.len text.old) p p }
    ensures { Makes checked.format (lent text.old records.old texts.old checked.line checked.log)
        (exchange catalogue (take checked.line.len text.old) p)
        result text.new records.new texts.new }
{
    let len = checked.line.len;
    let q = on_from(&text[..len], p);
    let o = back_from(&text[..len], p);
    let n = q - p;
    let behind = o + n;
    let mut cut = [0u8; TEXT_MAX];
    insert_bytes(&mut cut, 0, 0, &text[p..q]);
    let a = cut_and_put(checked, text, records, texts, p, q, o, &cut[..n], behind, 0);
    if a.number != 0 {
        return a;
    }
    let made = a.line;
    let noted = a.log;
    let used = made.len;
    let line = Line {
        len: used,
        cursor: on_from(&text[..used], behind),
    };
    says(0, line, noted)
}

// transpose_chars on what the check passes.
pub fn transpose_chars_checked(
    checked: Checked,
    text: &mut [u8],
    records: &mut [u8],
    texts: &mut [u8],
) -> EditAnswer
    requires ready { Ready checked.format (lent text.old records.old texts.old checked.line checked.log) }
    requires last_at { LastAt catalogue checked.format (take checked.log.undo.records records.old) checked.last }
    ensures { Makes checked.format (lent text.old records.old texts.old checked.line checked.log)
        (transpose_chars_plan catalogue (take checked.line.len text.old) checked.line.cursor)
        result text.new records.new texts.new }
{
    let len = checked.line.len;
    let cursor = checked.line.cursor;
    let found = starts_at(&text[..len], cursor);
    match found {
        Some(p) => exchange_at(checked, text, records, texts, p),
        None => says(1, checked.line, checked.log),
    }
}

// Wrong answers ruled out: 1 where the two clusters are the same; the cursor left between the two.
pub fn transpose_chars(
    text: &mut [u8],
    records: &mut [u8],
    texts: &mut [u8],
    line: Line,
    log: Log,
) -> EditAnswer
    ensures { Answers (lent text.old records.old texts.old line log) (λ F l. transpose_chars_call catalogue F l)
        result text.new records.new texts.new }
{
    let f = format_for(text.len());
    let checked = match admit(f, text, records, texts, line, log, Own::NONE) {
        Ok(checked) => checked,
        Err(why) => return refused(why, line, log),
    };
    transpose_chars_checked(checked, text, records, texts)
}
