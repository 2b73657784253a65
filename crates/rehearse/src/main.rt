// Rehearse: checks, lowers, runs and draws loop tables, and answers calls of the library. It hands its arguments to the commands, which are a library.
#![tactic(auto)]

use arrayvec::ArrayVec;
use channels::Console;
use std::env::FillError;
use std::io::Write;
use std::rt::Env;

// The arguments, each with a byte 0 behind it; none where one is too long, or all are. A line that fills its memory may have lost letters.
fn read_arguments<R: Env>(rt: &R) -> Option<ArrayVec<u8, 65536>> {
    let mut line = ArrayVec::new();
    for k in 1..usize::MAX {
        let mut argument = [0u8; 4096];
        match rt.arg(k, &mut argument) {
            Ok(count) => {
                let _ = line.write_all(&argument[..count]);
                let _ = line.try_push(0);
            }
            Err(FillError::TooLong) => return None,
            Err(FillError::NotPresent) => break,
        }
    }
    if line.is_full() {
        return None;
    }
    Some(line)
}

fn main(rt: HostRuntime) {
    let console = Console::new(&rt);
    match read_arguments(&rt) {
        Some(line) => commands::obey(&console, line.as_slice()),
        None => commands::refuse_long(&console),
    }
}
