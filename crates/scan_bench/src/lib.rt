// The scans of a text and of a log, exported for the benchmark in bench/ alone.
#![tactic(auto)]

ghost use Rattle.std.specs.Prelude.{◌≡◌, false};
ghost use Rattle.repertoire.specs.Repertoire.{catalogue};
ghost use Rattle.repertoire.specs.Text.{is_text};
ghost use Rattle.formats.specs.Formats.{log_format};
ghost use Rattle.log_state.specs.Calls.{lent, checked};

use checks::Refused;
use formats::format_for;
use log_state::Log;

#[unsafe(no_mangle)]
pub extern "C" fn tlf_bench_check_text(s: &[u8]) -> bool
    ensures { result ≡ is_text catalogue s.now }
{
    repertoire::check_text(s)
}

// Checks 2 and 8 of a lent log.
#[unsafe(no_mangle)]
pub extern "C" fn tlf_bench_check_log(records: &[u8], texts: &[u8], log: Log) -> u32
    ensures { result ≡ checked catalogue log_format (lent records.now texts.now log) false }
{
    let why: Refused = match log_state::check(format_for(0), records, texts, log, false) {
        Ok(_) => return 0,
        Err(why) => why,
    };
    why.into()
}
