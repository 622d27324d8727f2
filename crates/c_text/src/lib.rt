// The entries for C and Rust callers on texts that are lent without a cursor: each is the call of the same name in `slip_calls`.
#![tactic(auto)]

ghost use Rattle.std.specs.Prelude.{length};
ghost use Rattle.formats.specs.Formats.{format_for};
ghost use Rattle.repertoire.specs.Repertoire.{catalogue};
ghost use Rattle.slip_calls.specs.Answer.{Slips};

use checks::ValueAnswer;

#[unsafe(no_mangle)]
pub extern "C" fn tlf_text_slip(text: &[u8], page: &mut [u8]) -> ValueAnswer
    ensures { Slips catalogue (format_for (length text.now)) text.now page.old result page.new }
{
    slip_calls::slip(text, page)
}
