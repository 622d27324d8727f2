// The entry for C and Rust callers that takes a key: the call `key` of `key_calls`.
#![tactic(auto)]

ghost use Rattle.repertoire.specs.Repertoire.{catalogue};
ghost use Rattle.edit.specs.Calls.{lent};
ghost use Rattle.kill_ring.specs.Calls as rings;
ghost use Rattle.key_model.specs.Contract.{key_buffers, Presses};

use checks::Line;
use key_model::KeyAnswer;
use kill_ring::Ring;
use log_state::Log;

#[unsafe(no_mangle)]
pub extern "C" fn tlf_line_key(
    text: &mut [u8],
    records: &mut [u8],
    texts: &mut [u8],
    slots: &mut [u8],
    lens: &mut [u8],
    line: Line,
    log: Log,
    ring: Ring,
    key: &[u8],
) -> KeyAnswer
    ensures { Presses catalogue key.now (lent text.old records.old texts.old line log)
        (rings.lent slots.old lens.old ring)
        result (key_buffers text.new records.new texts.new slots.new lens.new) }
{
    key_calls::key(text, records, texts, slots, lens, line, log, ring, key)
}
