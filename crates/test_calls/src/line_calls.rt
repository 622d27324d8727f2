// The calls that are lent a text and do not write.
ghost use Rattle.std.specs.Prelude.{◌≤◌, length, IsSome};

use checks::{Line, LineAnswer};
use test_edit_calls::kill_calls::movement_codes;
use test_fields::{code_of, count_of};

// The answer of the call with a name and these arguments, none where there is no such call.
pub fn call(name: &str, text: &[u8], line: Line, args: &[usize]) -> Option<LineAnswer>
    ensures { IsSome result → length args.now ≤ 6 }
{
    let answer = match (name, args) {
        ("is_cursor_at_end", []) => motion_calls::is_cursor_at_end(text, line),
        ("is_end_of_input", []) => motion_calls::is_end_of_input(text, line),
        ("move_buffer_start", []) => motion_calls::move_buffer_start(text, line),
        ("move_buffer_end", []) => motion_calls::move_buffer_end(text, line),
        ("move_home", []) => motion_calls::move_home(text, line),
        ("move_end", []) => motion_calls::move_end(text, line),
        ("set_pos", [pos]) => motion_calls::set_pos(text, line, *pos),
        ("next_pos", [n]) => motion_calls::next_pos(text, line, count_of(*n)),
        ("move_forward", [n]) => motion_calls::move_forward(text, line, count_of(*n)),
        ("move_backward", [n]) => motion_calls::move_backward(text, line, count_of(*n)),
        ("move_to_line_up", [n, prompt]) => {
            motion_calls::move_to_line_up(text, line, count_of(*n), *prompt)
        }
        ("move_to_line_down", [n, prompt]) => {
            motion_calls::move_to_line_down(text, line, count_of(*n), *prompt)
        }
        ("move_to_prev_word", [word, n]) => {
            motion_calls::move_to_prev_word(text, line, code_of(*word), count_of(*n))
        }
        ("move_to_next_word", [at, word, n]) => {
            motion_calls::move_to_next_word(text, line, code_of(*at), code_of(*word), count_of(*n))
        }
        ("move_to", [search, ch, n]) => {
            motion_calls::move_to(text, line, code_of(*search), code_of(*ch), count_of(*n))
        }
        ("copy", [mvt, n, at, word, search, ch]) => motion_calls::copy(
            text,
            line,
            movement_codes(*mvt, *n, *at, *word, *search, *ch),
        ),
        _ => return None,
    };
    Some(answer)
}
