//! The program `pochvean`: it takes its words, makes the desk of the machine that it runs on, does
//! what the words ask for, and ends with the code of the status.
//!
//! Where its words can't be had as texts it writes nothing, and ends with code 30 where memory is
//! wanting for them and with code 1 otherwise.
//!
//! A stream that was closed stays so: nothing that is meant for it goes to a file that is opened later.
#![tactic(auto)]

use bs_desk::HostDesk;
use bs_top::perform_alone;
use std::io::ErrorKind;
use std::process::ExitCode;
use std::rt::Env;
use std::{env, fs};

// The exit codes of a program that has no words.
const NO_MEMORY: u8 = 30;

const NO_TEXT: u8 = 1;

// A file that can be read, and whose bytes nobody misses.
const NOTHING: &str = "/dev/null";

fn main(rt: HostRuntime) -> ExitCode {
    // The machine gives a file that is opened the place of a stream that is closed. These take such places, for
    // reading alone, so that a write to the stream is refused, and no file gets what it isn't meant to.
    let _input = fs::open(&rt, NOTHING);
    let _output = fs::open(&rt, NOTHING);
    let _errors = fs::open(&rt, NOTHING);
    match words(&rt) {
        Ok(words) => {
            let mut desk = HostDesk::new(&rt);
            let status = perform_alone(rt.alloc(), words.as_slice(), &mut desk);
            ExitCode::from(status.code())
        }
        Err(code) => ExitCode::from(code),
    }
}

// The words behind the program's own name, or the code to end with.
fn words<R: Env + AllocGlobal>(rt: &R) -> Result<Vec<String>, u8> {
    match env::args(rt) {
        Ok(all) => {
            let mut words = Vec::new(rt.alloc());
            for word in all.skip(1) {
                if words.push(word).is_err() {
                    return Err(NO_MEMORY);
                }
            }
            Ok(words)
        }
        Err(e) if e.kind() == ErrorKind::OutOfMemory => Err(NO_MEMORY),
        Err(_) => Err(NO_TEXT),
    }
}
