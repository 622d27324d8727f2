// Prints what the test crates answer beyond a recorded line: on more numbers than a call has, on buffers of over 65,536 bytes, and on
// lines of another form beside lines that differ.
#![tactic(auto)]

use checks::Line;
use edit::EditAnswer;
use log_state::Log;
use std::io;
use test_calls::call;
use test_edit_calls::{edit_calls, kill_calls};
use test_fields::{Fields, Lend, Malformed, is_left_in};
use test_ring_line::are_slots_left_in;

// What is found of a line or of a buffer.
fn word_of(found: Result<bool, Malformed>) -> &'static str {
    match found {
        Ok(true) => "agrees",
        Ok(false) => "differs",
        Err(Malformed) => "malformed",
    }
}

// The numbers of a side, read 25 at a time.
fn print_numbers(rt: &impl Print) -> io::Result<()> {
    for side in [
        "9",
        "0 1 2 3 4 5 6 7 8 9 10 11 12 13 14 15 16 17 18 19 20 21 22 23 24",
        "0 1 2 3 4 5 6 7 8 9 10 11 12 13 14 15 16 17 18 19 20 21 22 23 24 25",
        "8 +2",
        "8  2",
    ] {
        let mut fields = Fields::new(side);
        let mut front = [0; 25];
        let mut behind = [0; 25];
        match (
            fields.read_numbers(&mut front),
            fields.read_numbers(&mut behind),
        ) {
            (Ok(n), Ok(more)) => {
                println!(rt;
                    "{side}: {n} from {} to {}, {more} from {}",
                    front[0], front[24], behind[0]
                )?
            }
            _ => println!(rt; "{side}: malformed")?,
        }
    }
    Ok(())
}

// A buffer of 65,537 bytes, the last of which is not as it was lent.
fn print_buffers(rt: &impl Print) -> io::Result<()> {
    let lent = [7; 65537];
    let mut left = lent;
    left[65536] = 8;
    let mut room = [0; 4];
    for (due, used) in [
        ("=", 0),
        ("-", 0),
        ("07*4", 3),
        ("07*4", 4),
        ("07*4", 65538),
        ("07*5", 5),
        ("7", 1),
    ] {
        let found = is_left_in(due, &lent, &left, used, &mut room);
        println!(rt; "{used} bytes, due {due}: {}", word_of(found))?;
    }
    let found = is_left_in("=", &lent, &lent, 0, &mut room);
    println!(rt; "as lent, due =: {}", word_of(found))
}

// A ring of 17 slots, the last of which ends in a byte that is not as it was lent.
fn print_slots(rt: &impl Print) -> io::Result<()> {
    let mut slots = [0; 69632];
    let mut lens = [0; 34];
    slots[0] = b'a';
    slots[65536] = b'b';
    lens[0] = 1;
    lens[32] = 1;
    let mut lent = slots;
    lent[69631] = 1;
    let mut room = [0; 2];
    for (due, count) in [
        ("=", 17),
        ("61", 16),
        ("6162", 16),
        ("6162", 17),
        ("6162", 18),
        ("616263", 17),
    ] {
        let found = are_slots_left_in(due, &lent, &slots, &lens, count, &mut room);
        println!(rt; "{count} slots, due {due}: {}", word_of(found))?;
    }
    let found = are_slots_left_in("=", &slots, &slots, &lens, 17, &mut room);
    println!(rt; "as lent, due =: {}", word_of(found))
}

// Buffers of which the text is longer than that of any `Buffers`.
#[derive(Clone, Copy)]
struct Long {
    text: [u8; 65537],
    records: [u8; 16],
    texts: [u8; 16],
}

impl Lend for Long {
    fn lend(&mut self) -> (&mut [u8], &mut [u8], &mut [u8]) {
        let text = &mut self.text;
        let records = &mut self.records;
        let texts = &mut self.texts;
        (&mut text[..], &mut records[..], &mut texts[..])
    }
}

fn print_answer(rt: &impl Print, name: &str, answer: Option<EditAnswer>) -> io::Result<()> {
    match answer {
        Some(a) => println!(rt; "{name}: {}", a.number),
        None => println!(rt; "{name}: no call"),
    }
}

// Calls on a text buffer of over 4,096 bytes, which document 01 refuses by 2; begin is lent a log alone.
fn print_calls(rt: &impl Print) -> io::Result<()> {
    let mut lent = Long {
        text: [b'a'; 65537],
        records: [0; 16],
        texts: [0; 16],
    };
    let line = Line { len: 3, cursor: 1 };
    let log = Log::new();
    for (kind, name) in [
        ("line", "move_end"),
        ("line", "kill_line"),
        ("line", "transpose_chars"),
        ("line", "begin"),
        ("log", "begin"),
    ] {
        let answer = call(kind, name, &mut lent, line, log, &[], &[], &[]);
        print_answer(rt, name, answer)?;
    }
    let too_many = call("line", "kill_line", &mut lent, line, log, &[], &[], &[1]);
    print_answer(rt, "kill_line of 1", too_many)?;
    let yanked = edit_calls::call("yank", &mut lent, line, log, b"b", &[1]);
    print_answer(rt, "yank", yanked)?;
    let backspaced = kill_calls::call("backspace", &mut lent, line, log, &[1]);
    print_answer(rt, "backspace", backspaced)
}

// Lines that agree, that differ and that have another form.
fn print_lines(rt: &impl Print) -> io::Result<()> {
    for (lent, due) in [
        ("20 9f*61", "20*60,0a 0 61"),
        ("20 9f*61", "20*60,0a 0 62"),
        ("20 9f*61 1", "20*60,0a 0 61"),
    ] {
        let found = test_slip_line::replays(Fields::new(lent), Fields::new(due));
        println!(rt; "{lent} > {due}: {}", word_of(found))?;
    }
    for (name, lent, due) in [
        ("new", "- - - 1 1 0 2 0 1", "= = 0 0 0 1 0 0 2 0"),
        ("new", "- - - 1 1 0 2 0 1", "= = 0 0 0 2 0 0 2 0"),
        ("old", "- - - 1 1 0 2 0 1", "= = 0 0 0 1 0 0 2 0"),
    ] {
        let found = test_ring_line::replays(name, Fields::new(lent), Fields::new(due));
        println!(rt; "{name} {lent} > {due}: {}", word_of(found))?;
    }
    for (lent, due) in [
        ("6162 - - - - 2 0 0 0 0 0 0 1", "= = = 0 1 0 2 0 0 0 0 0 0"),
        ("6162 - - - - 2 0 0 0 0 0 0 1", "= = = 0 2 0 2 0 0 0 0 0 0"),
        ("6162 - - - - 2 0 0 0 0 0 0", "= = = 0 1 0 2 0 0 0 0 0 0"),
    ] {
        let found = test_state_line::replays(
            "line",
            "next_pos",
            Fields::new(lent),
            Fields::new(due),
        );
        println!(rt; "next_pos {lent} > {due}: {}", word_of(found))?;
    }
    for (lent, due) in [
        (
            "2042 - - 9f*8192 0000c301 01 2 2 0 0 0 0 0 1 1 0 0 0",
            "= = = = = 0 0 0 2 0 0 0 0 0 0 1 1 0 2 0",
        ),
        (
            "2042 - - 9f*8192 0000c301 01 2 2 0 0 0 0 0 1 1 0 0 0",
            "= = = = = 0 0 0 2 1 0 0 0 0 0 1 1 0 2 0",
        ),
        (
            "2042 - - 9f*8192 0000c301 01 2 2 0 0 0 0 0 1 1 0 0",
            "= = = = = 0 0 0 2 0 0 0 0 0 0 1 1 0 2 0",
        ),
    ] {
        let found = test_key_line::replays(Fields::new(lent), Fields::new(due));
        println!(rt; "{lent} > {due}: {}", word_of(found))?;
    }
    Ok(())
}

fn main(rt: HostRuntime) -> io::Result<()> {
    print_numbers(&rt)?;
    print_buffers(&rt)?;
    print_slots(&rt)?;
    print_calls(&rt)?;
    print_lines(&rt)
}
