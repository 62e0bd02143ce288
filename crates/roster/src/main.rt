//! The program: answers for rosters by the words of its command line.
#![tactic(auto)]

use command_line::run;
use command_shelf::DiskShelf;
use search_branch_price::{ClockWatch, PlainMaster};
use std::env;
use std::io::ErrorKind;
use std::process::ExitCode;

/// Want of memory before the words are known.
const MEMORY: u8 = 7;

// Notes that a word is no text.
fn note_word(rt: &HostRuntime) {
    let _ = eprintln!(rt; "a word of the command line is not UTF-8");
}

// Does what the words of the command line ask for; the exit status is that of `run`.
fn main(rt: HostRuntime) -> ExitCode {
    let alloc = rt.alloc();
    let mut words = Vec::new(alloc);
    match env::args(&rt) {
        Ok(args) => {
            for word in args.skip(1) {
                if words.push(word).is_err() {
                    return ExitCode::from(MEMORY);
                }
            }
        }
        Err(error) if error.kind() == ErrorKind::OutOfMemory => return ExitCode::from(MEMORY),
        // Where a word is no text, the program passes no words.
        Err(_) => note_word(&rt),
    }
    let Ok(own) = rt.clone() else {
        return ExitCode::from(MEMORY);
    };
    let mut watch = ClockWatch::new(own);
    let mut shelf = DiskShelf::new(rt);
    let mut master = PlainMaster::new();
    ExitCode::from(run(alloc, &mut shelf, words.as_slice(), &mut master, &mut watch))
}
