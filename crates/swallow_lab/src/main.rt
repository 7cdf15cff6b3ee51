//! The laboratory's program: runs over media in memory, with messages that are lost and a medium that stops.
//! A plan comes from standard input, and what comes of it goes to standard output.
#![tactic(auto)]

use laboratory::lab;
use std::alloc::{AllocError, Global};
use std::io::ErrorKind;
use std::process::ExitCode;
use std::sync::Wait;
use std::thread::Threads;
use std::{env, io};
use stream_port::{ReadSource, WriteSink};

/// The status where memory runs out.
const NO_MEMORY: u8 = 7;

// The words of the command line. A word that isn't UTF-8 is a faulty command line, as no word is.
fn words_of(rt: &HostRuntime, alloc: Global) -> Result<Vec<String>, AllocError> {
    let mut words = Vec::new(alloc);
    match env::args(rt) {
        Ok(args) => {
            for word in args.skip(1) {
                words.push(word)?;
            }
            Ok(words)
        }
        Err(error) if error.kind() == ErrorKind::OutOfMemory => Err(AllocError),
        Err(_) => Ok(words),
    }
}

// The words as the laboratory takes them.
fn shown_of(alloc: Global, words: &[String]) -> Result<Vec<&str>, AllocError> {
    let mut shown = Vec::new(alloc);
    for word in words {
        shown.push(word.as_str())?;
    }
    Ok(shown)
}

// The laboratory between the standard streams. Gives its status. `threads` is the runtime too: the one
// that may make threads and wait.
fn run<R: Threads + Wait + Sync>(
    threads: &R,
    rt: &HostRuntime,
    alloc: Global,
) -> Result<u8, AllocError> {
    let words = words_of(rt, alloc)?;
    let shown = shown_of(alloc, words.as_slice())?;
    let mut source = ReadSource::new(rt.reader());
    let mut sink = WriteSink::new(io::writer(rt));
    let ended = lab(threads, alloc, shown.as_slice(), &mut source, &mut sink);
    Ok(ended.status)
}

fn main(rt: HostRuntime) -> ExitCode {
    let alloc = rt.alloc();
    let Ok(status) = run(&rt, &rt, alloc) else {
        let _said = eprintln!(rt; "swallow_lab: out of memory, and nothing was run");
        return ExitCode::from(NO_MEMORY);
    };
    if status == NO_MEMORY {
        let _said = eprintln!(rt; "swallow_lab: out of memory, so what was asked for is missing");
    }
    ExitCode::from(status)
}
