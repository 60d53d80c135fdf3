//! The command `kudzuawl`: it hands its words to the router, with the files of the system and
//! standard output, and ends with the router's status.
#![tactic(auto)]

mod notice;

use notice::{notice, spoilt};
use router::run_serial;
use shelf::{PlainShelf, PlainSink, Sink};
use std::process::ExitCode;
use std::rt::Runtime;
use std::{env, io};

/// The command line without the program's name.
fn words<R: Runtime + AllocGlobal>(rt: &R) -> io::Result<Vec<String>> {
    let mut args = env::args(rt)?;
    let _name = args.next();
    let mut words = Vec::new(rt.alloc());
    for arg in args {
        words.push(arg)?;
    }
    Ok(words)
}

/// Does what the words ask for, and answers the status.
fn run<R: Runtime + AllocGlobal>(rt: &R) -> u8 {
    let mut out = PlainSink::new(io::writer(rt));
    let words = match words(rt) {
        Ok(words) => words,
        Err(e) => {
            let (line, status) = spoilt(e.kind());
            let _ = out.say(line);
            return status;
        }
    };
    if let Some(text) = notice(&words) {
        return if out.say(text).is_ok() { 0 } else { 9 };
    }
    let mut files = PlainShelf::new(rt);
    run_serial(rt.alloc(), &words, &mut files, &mut out).status
}

fn main(rt: HostRuntime) -> ExitCode {
    ExitCode::from(run(&rt))
}
