//! The program: the page of a certificate that it has checked itself.
#![tactic(auto)]

use command_shelf::DiskShelf;
use page_command::run;
use std::env;
use std::io::ErrorKind;
use std::process::ExitCode;

/// Want of memory before the words are known.
const MEMORY: u8 = 7;

// Notes that a word is no text.
fn note_word(rt: &HostRuntime) {
    let _ = eprintln!(rt; "a word of the command line is not UTF-8");
}

// Draws the certificate of the three texts that the words name; the exit status is that of `run`.
fn main(rt: HostRuntime) -> ExitCode {
    let alloc = rt.alloc();
    let mut words = Vec::new(alloc);
    match env::args(&rt) {
        Ok(args) => {
            for word in args.skip(1) {
                if words.push(word).is_err() {
                    return ExitCode::from(MEMORY);
                }
            }
        }
        Err(error) if error.kind() == ErrorKind::OutOfMemory => return ExitCode::from(MEMORY),
        // Where a word is no text, the program passes no words.
        Err(_) => note_word(&rt),
    }
    let mut shelf = DiskShelf::new(rt);
    ExitCode::from(run(alloc, &mut shelf, words.as_slice()))
}
