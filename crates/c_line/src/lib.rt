// The entries for C and Rust callers that move the cursor, ask, or copy: each is the call of the same name in `motion_calls`.
#![tactic(auto)]

ghost use Rattle.std.specs.Prelude.{ℕ, List};
ghost use Rattle.keymap.specs.Codes.{codes};
ghost use Rattle.repertoire.specs.Repertoire.{catalogue};
ghost use Rattle.log_state.specs.declared.Log.{Log};
ghost use Rattle.edit.specs.Calls.{lent};
ghost use Rattle.calls.specs.CallContracts.{Meets, buffers};
ghost use Rattle.calls.specs.Calls.{next_pos, copy, is_cursor_at_end, is_end_of_input, set_pos, move_forward, move_backward};
ghost use Rattle.calls.specs.Calls.{move_buffer_start};
ghost use Rattle.calls.specs.Calls.{move_buffer_end, move_home, move_end, move_to_prev_word, move_to_next_word, move_to_line_up};
ghost use Rattle.calls.specs.Calls.{move_to_line_down, move_to};
ghost use Rattle.calls.specs.Calls.{move};

use checks::{Line, LineAnswer};
use keymap::MovementCodes;

#[unsafe(no_mangle)]
pub extern "C" fn tlf_line_next_pos(text: &[u8], line: Line, n: u16) -> LineAnswer
    ensures { (records texts : List ℕ) (log : Log) → Meets catalogue (move (next_pos n)) (lent text.now records texts line log)
        result (buffers text.now records texts) }
{
    motion_calls::next_pos(text, line, n)
}

#[unsafe(no_mangle)]
pub extern "C" fn tlf_line_is_cursor_at_end(text: &[u8], line: Line) -> LineAnswer
    ensures { (records texts : List ℕ) (log : Log) → Meets catalogue (move is_cursor_at_end) (lent text.now records texts line log)
        result (buffers text.now records texts) }
{
    motion_calls::is_cursor_at_end(text, line)
}

#[unsafe(no_mangle)]
pub extern "C" fn tlf_line_is_end_of_input(text: &[u8], line: Line) -> LineAnswer
    ensures { (records texts : List ℕ) (log : Log) → Meets catalogue (move is_end_of_input) (lent text.now records texts line log)
        result (buffers text.now records texts) }
{
    motion_calls::is_end_of_input(text, line)
}

#[unsafe(no_mangle)]
pub extern "C" fn tlf_line_set_pos(text: &[u8], line: Line, pos: usize) -> LineAnswer
    ensures { (records texts : List ℕ) (log : Log) → Meets catalogue (move (set_pos pos)) (lent text.now records texts line log)
        result (buffers text.now records texts) }
{
    motion_calls::set_pos(text, line, pos)
}

#[unsafe(no_mangle)]
pub extern "C" fn tlf_line_move_forward(text: &[u8], line: Line, n: u16) -> LineAnswer
    ensures { (records texts : List ℕ) (log : Log) → Meets catalogue (move (move_forward n)) (lent text.now records texts line log)
        result (buffers text.now records texts) }
{
    motion_calls::move_forward(text, line, n)
}

#[unsafe(no_mangle)]
pub extern "C" fn tlf_line_move_backward(text: &[u8], line: Line, n: u16) -> LineAnswer
    ensures { (records texts : List ℕ) (log : Log) → Meets catalogue (move (move_backward n)) (lent text.now records texts line log)
        result (buffers text.now records texts) }
{
    motion_calls::move_backward(text, line, n)
}

#[unsafe(no_mangle)]
pub extern "C" fn tlf_line_move_buffer_start(text: &[u8], line: Line) -> LineAnswer
    ensures { (records texts : List ℕ) (log : Log) → Meets catalogue (move move_buffer_start) (lent text.now records texts line log)
        result (buffers text.now records texts) }
{
    motion_calls::move_buffer_start(text, line)
}

#[unsafe(no_mangle)]
pub extern "C" fn tlf_line_move_buffer_end(text: &[u8], line: Line) -> LineAnswer
    ensures { (records texts : List ℕ) (log : Log) → Meets catalogue (move move_buffer_end) (lent text.now records texts line log)
        result (buffers text.now records texts) }
{
    motion_calls::move_buffer_end(text, line)
}

#[unsafe(no_mangle)]
pub extern "C" fn tlf_line_move_home(text: &[u8], line: Line) -> LineAnswer
    ensures { (records texts : List ℕ) (log : Log) → Meets catalogue (move move_home) (lent text.now records texts line log)
        result (buffers text.now records texts) }
{
    motion_calls::move_home(text, line)
}

#[unsafe(no_mangle)]
pub extern "C" fn tlf_line_move_end(text: &[u8], line: Line) -> LineAnswer
    ensures { (records texts : List ℕ) (log : Log) → Meets catalogue (move move_end) (lent text.now records texts line log)
        result (buffers text.now records texts) }
{
    motion_calls::move_end(text, line)
}

#[unsafe(no_mangle)]
pub extern "C" fn tlf_line_move_to_prev_word(
    text: &[u8],
    line: Line,
    word: u32,
    n: u16,
) -> LineAnswer
    ensures { (records texts : List ℕ) (log : Log) → Meets catalogue (move (move_to_prev_word word n)) (lent text.now records texts line log)
        result (buffers text.now records texts) }
{
    motion_calls::move_to_prev_word(text, line, word, n)
}

#[unsafe(no_mangle)]
pub extern "C" fn tlf_line_move_to_next_word(
    text: &[u8],
    line: Line,
    at: u32,
    word: u32,
    n: u16,
) -> LineAnswer
    ensures { (records texts : List ℕ) (log : Log) → Meets catalogue (move (move_to_next_word at word n)) (lent text.now records texts line log)
        result (buffers text.now records texts) }
{
    motion_calls::move_to_next_word(text, line, at, word, n)
}

#[unsafe(no_mangle)]
pub extern "C" fn tlf_line_move_to_line_up(
    text: &[u8],
    line: Line,
    n: u16,
    prompt: usize,
) -> LineAnswer
    ensures { (records texts : List ℕ) (log : Log) → Meets catalogue (move (move_to_line_up n prompt)) (lent text.now records texts line log)
        result (buffers text.now records texts) }
{
    motion_calls::move_to_line_up(text, line, n, prompt)
}

#[unsafe(no_mangle)]
pub extern "C" fn tlf_line_move_to_line_down(
    text: &[u8],
    line: Line,
    n: u16,
    prompt: usize,
) -> LineAnswer
    ensures { (records texts : List ℕ) (log : Log) → Meets catalogue (move (move_to_line_down n prompt)) (lent text.now records texts line log)
        result (buffers text.now records texts) }
{
    motion_calls::move_to_line_down(text, line, n, prompt)
}

#[unsafe(no_mangle)]
pub extern "C" fn tlf_line_move_to(
    text: &[u8],
    line: Line,
    search: u32,
    ch: u32,
    n: u16,
) -> LineAnswer
    ensures { (records texts : List ℕ) (log : Log) → Meets catalogue (move (move_to search ch n)) (lent text.now records texts line log)
        result (buffers text.now records texts) }
{
    motion_calls::move_to(text, line, search, ch, n)
}

#[unsafe(no_mangle)]
pub extern "C" fn tlf_line_copy(
    text: &[u8],
    line: Line,
    mvt: u32,
    n: u16,
    at: u32,
    word: u32,
    search: u32,
    ch: u32,
) -> LineAnswer
    ensures { (records texts : List ℕ) (log : Log) → Meets catalogue (move (copy (codes mvt n at word search ch))) (lent text.now records texts line log)
        result (buffers text.now records texts) }
{
    let codes = MovementCodes {
        mvt,
        n,
        at,
        word,
        search,
        ch,
    };
    motion_calls::copy(text, line, codes)
}
