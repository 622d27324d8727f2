// edit_word of LineBuffer: a word put in another case. Any text, cursor, log and code may be handed over: what is unfit is turned
// away by a number of document 01.
#![tactic(auto)]

ghost use Rattle.std.specs.Prelude.{◌≡◌, Some, true, false, ◌+◌, ◌≤◌, length, take};
ghost use Rattle.std.specs.Result.{result_ok};
ghost use Rattle.utf8.specs.Chars.{In};
ghost use Rattle.repertoire.specs.Repertoire.{catalogue};
ghost use Rattle.repertoire.specs.Case.{cased};
ghost use Rattle.formats.specs.Formats.{text_max};
ghost use Rattle.log_records.specs.Walks.{LastAt};
ghost use Rattle.edit.specs.Calls.{lent, Ready, Answers, Makes};
ghost use Rattle.motion_words.specs.Places.{words_on};
ghost use Rattle.edit_case.specs.declared.WordAction.TheVariants.{Capitalize};
ghost use Rattle.edit_case.specs.EditWord.{in_case, Written, WrittenAt, case_plan, action_of, edit_word_plan, edit_word_by};
ghost use Rattle.edit_case.specs.EditWord.{edit_word_call};

use checks::Line;
use cluster::next_cluster;
use edit::{Checked, EditAnswer, Own, admit, cut_and_put, refused, says, unnamed};
use formats::{TEXT_MAX, format_for};
use keymap::UnknownCode;
use log_state::Log;
use motion::skip_whitespace;
use motion_words::words_on;
use repertoire::{Case, change_case};

#[derive(Clone, Copy)]
pub enum WordAction {
    Capitalize,
    Lowercase,
    Uppercase,
}

impl TryFrom<u32> for WordAction {
    type Error = UnknownCode;

    ghost try_from_gives = { λ code r. result_ok r ≡ action_of code };

    #[tactic(auto, unfolding(crate::specs::EditWord::action_list))]
    fn try_from(code: u32) -> Result<Self, UnknownCode> {
        match code {
            0 => Ok(WordAction::Capitalize),
            1 => Ok(WordAction::Lowercase),
            2 => Ok(WordAction::Uppercase),
            _ => Err(UnknownCode),
        }
    }
}

// A text in upper or in lower case, written into out at a place.
fn case_at(s: &[u8], case: Case, out: &mut [u8], at: usize) -> usize
    requires { at + length s.now ≤ length out.old }
    ensures { WrittenAt (cased catalogue case s.now) out.old at out.new result }
{
    change_case(s, case, &mut out[at..]).unwrap()
}

// The first cluster in upper case and the rest in lower case, written to the front of out.
fn capitalize(s: &[u8], out: &mut [u8]) -> usize
    requires s_in_bounds { length s.now ≤ length out.old }
    requires out_len_bound { length out.old ≤ text_max }
    ensures { Written (in_case catalogue Capitalize s.now) out.new result }
{
    let k = next_cluster(s);
    let m = k.len;
    let a = case_at(&s[..m], Case::Upper, out, 0);
    let b = case_at(&s[m..], Case::Lower, out, a);
    a + b
}

// A word in another case, written to the front of out.
fn write_case(s: &[u8], action: WordAction, out: &mut [u8]) -> usize
    requires s_in_bounds { length s.now ≤ length out.old }
    requires out_len_bound { length out.old ≤ text_max }
    ensures { Written (in_case catalogue action s.now) out.new result }
{
    match action {
        WordAction::Capitalize => capitalize(s, out),
        WordAction::Lowercase => case_at(s, Case::Lower, out, 0),
        WordAction::Uppercase => case_at(s, Case::Upper, out, 0),
    }
}

// The word from a place on put in another case.
fn case_from(
    checked: Checked,
    text: &mut [u8],
    records: &mut [u8],
    texts: &mut [u8],
    action: WordAction,
    from: usize,
) -> EditAnswer
    requires ready { Ready checked.format (lent text.old records.old texts.old checked.line checked.log) }
    requires last_at { LastAt catalogue checked.format (take checked.log.undo.records records.old) checked.last }
    requires in_text { In (take checked.line.len text.old) from from }
    ensures { Makes checked.format (lent text.old records.old texts.old checked.line checked.log)
        (case_plan catalogue (take checked.line.len text.old) action from (words_on catalogue (take checked.line.len text.old) 1 from))
        result text.new records.new texts.new }
{
    let len = checked.line.len;
    let to = words_on(&text[..len], from, 1);
    let mut word = [0u8; TEXT_MAX];
    let n = write_case(&text[from..to], action, &mut word);
    let behind = from + n;
    cut_and_put(
        checked,
        text,
        records,
        texts,
        from,
        to,
        from,
        &word[..n],
        behind,
        0,
    )
}

// edit_word by its action, on what the check passes.
pub fn edit_word_checked(
    checked: Checked,
    text: &mut [u8],
    records: &mut [u8],
    texts: &mut [u8],
    action: WordAction,
) -> EditAnswer
    requires ready { Ready checked.format (lent text.old records.old texts.old checked.line checked.log) }
    requires last_at { LastAt catalogue checked.format (take checked.log.undo.records records.old) checked.last }
    ensures { Makes checked.format (lent text.old records.old texts.old checked.line checked.log)
        (edit_word_plan catalogue (take checked.line.len text.old) action checked.line.cursor)
        result text.new records.new texts.new }
{
    let len = checked.line.len;
    let cursor = checked.line.cursor;
    let found = skip_whitespace(&text[..len], cursor);
    match found {
        Some(p) => case_from(checked, text, records, texts, action, p),
        None => says(1, checked.line, checked.log),
    }
}

// edit_word by its action.
fn edit_word_by(
    text: &mut [u8],
    records: &mut [u8],
    texts: &mut [u8],
    line: Line,
    log: Log,
    action: WordAction,
) -> EditAnswer
    ensures { Answers (lent text.old records.old texts.old line log) (λ F l. edit_word_by catalogue F l (Some action))
        result text.new records.new texts.new }
{
    let f = format_for(text.len());
    let checked = match admit(f, text, records, texts, line, log, Own::NONE) {
        Ok(checked) => checked,
        Err(why) => return refused(why, line, log),
    };
    edit_word_checked(checked, text, records, texts, action)
}

// Wrong answers ruled out: the capital of U+00DF left as it is; a word that has its case already left unrecorded.
pub fn edit_word(
    text: &mut [u8],
    records: &mut [u8],
    texts: &mut [u8],
    line: Line,
    log: Log,
    action: u32,
) -> EditAnswer
    ensures { Answers (lent text.old records.old texts.old line log) (λ F l. edit_word_call catalogue F l action)
        result text.new records.new texts.new }
{
    let Ok(action) = WordAction::try_from(action) else {
        return unnamed(text, records, texts, line, log);
    };
    edit_word_by(text, records, texts, line, log, action)
}
