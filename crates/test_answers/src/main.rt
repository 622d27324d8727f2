// Replays the files of data/, each below its name: the recorded answers that `differential/record` writes, and the cases that are
// written by hand or by `tools/key_cases` and `tools/slip_cases`; last the longest slips.
#![tactic(auto)]

mod counts;
mod replay;

use counts::Count;
use std::io;

const FILES: [&str; 12] = [
    "line.txt",
    "edit.txt",
    "kill.txt",
    "log.txt",
    "undo.txt",
    "ring.txt",
    "key.txt",
    "slip.txt",
    "movement_cases.txt",
    "edit_cases.txt",
    "key_cases.txt",
    "slip_cases.txt",
];

fn main(rt: HostRuntime) -> io::Result<()> {
    for path in FILES {
        println!(rt; "{path}")?;
        replay::run(&rt, path)?;
    }
    let longest = Count {
        name: b"longest slips",
        agreed: test_slip_line::longest::agreed(),
    };
    longest.print(&rt)
}
