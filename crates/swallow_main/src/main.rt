//! The program. Its words are a folder, whose files are the media, and then those of the top call; a plan
//! comes from standard input, and its report goes to standard output.
#![tactic(auto)]

mod full_sinks;
mod parts;
mod plain_fates;
mod plan_lines;
mod progress;
mod prompts;

use full_sinks::FullSink;
use held_shelf::HeldShelf;
use medium_port::{FileMedium, FileShelf, Medium, Shelf};
use parts::tell_parts;
use plain_fates::PlainFates;
use plan_lines::{KeptSource, fault_text};
use progress::ToldFates;
use prompts::AskingSource;
use session_command::session;
use std::alloc::{AllocError, Global};
use std::fs::{self, File};
use std::io::{ErrorKind, IsTerminal};
use std::process::ExitCode;
use std::sync::Wait;
use std::thread::Threads;
use std::{env, io};
use stream_port::{MemoryFates, ReadSource, SecondsClock, WriteSink};
use swallow_top::{Finish, Kept, swallow};

/// The status where the report can't be written.
const NO_OUTPUT: u8 = 4;

/// The status where memory runs out.
const NO_MEMORY: u8 = 7;

/// The status where what was given is refused.
const REFUSED: u8 = 2;

/// The folder of a command line that names none: no word follows, so nothing there is touched.
const NO_FOLDER: &str = ".";

// Opens a file for each standard stream that may be closed. The system gives a file the lowest number
// that is free, so that else a medium could be standard output, and the report be written over its log.
// These can't be written to, so a closed output fails; a closed input is empty.
fn hold_streams(rt: &HostRuntime) -> io::Result<(File, File, File)> {
    let first = fs::open(rt, "/dev/null")?;
    let second = fs::open(rt, "/dev/null")?;
    let third = fs::open(rt, "/dev/null")?;
    Ok((first, second, third))
}

// Whether the command looks at the folder alone, which then is left as it is.
fn is_look(words: &[String]) -> bool {
    match words.first() {
        Some(word) => match word.as_str() {
            "history" | "asof" | "audit" | "snapshot" | "replay" => true,
            _ => false,
        },
        None => false,
    }
}

// Whether the command reads a plan.
fn is_run(words: &[String]) -> bool {
    match words.first() {
        Some(word) => word.as_str() == "run",
        None => false,
    }
}

// Whether the words begin a session.
fn is_session(words: &[String]) -> bool {
    match words.first() {
        Some(word) => word.as_str() == "session",
        None => false,
    }
}

// Says which line of a refused plan is faulty, and what was expected there. Nothing is said of a plan that a
// log refuses.
fn tell_fault(rt: &HostRuntime, alloc: Global, plan: Option<&[u8]>) {
    let Some(plan) = plan else {
        return;
    };
    if let Some(text) = fault_text(alloc, plan) {
        let _said = eprintln!(rt; "{}", text.as_str());
    }
}

// The folder that the command line names, and the words behind it. A word that isn't UTF-8 is a faulty
// command line, as no word is.
fn words_of(rt: &HostRuntime, alloc: Global) -> Result<(Option<String>, Vec<String>), AllocError> {
    let mut words = Vec::new(alloc);
    match env::args(rt) {
        Ok(args) => {
            let mut args = args.skip(1);
            let folder = args.next();
            for word in args {
                words.push(word)?;
            }
            Ok((folder, words))
        }
        Err(error) if error.kind() == ErrorKind::OutOfMemory => Err(AllocError),
        Err(_) => Ok((None, words)),
    }
}

// The words as the top call takes them.
fn shown_of(alloc: Global, words: &[String]) -> Result<Vec<&str>, AllocError> {
    let mut shown = Vec::new(alloc);
    for word in words {
        shown.push(word.as_str())?;
    }
    Ok(shown)
}

// Says of each file that grows when it is opened again that it does so.
fn tell_growth(media: Vec<Kept<FileMedium>>) {
    for kept in media {
        let Kept { medium, .. } = kept;
        medium.tell_growth();
    }
}

// A session over the files of a folder. Gives its status. `threads` is the runtime too.
fn hold_session<S: Shelf + Drop, R: Threads + Wait + Sync>(
    threads: &R,
    rt: &HostRuntime,
    alloc: Global,
    shelf: S,
    words: &[&str],
) -> u8
where
    S::Medium: Drop + Send,
{
    let mut shelf = HeldShelf::new(alloc, shelf);
    let mut source = AskingSource::new(
        ReadSource::new(rt.reader()),
        rt.stderr(),
        rt.stdin().is_terminal(),
    );
    let mut sink = WriteSink::new(io::writer(rt));
    let ended = session(
        threads,
        alloc,
        words,
        &mut source,
        &mut sink,
        &mut shelf,
        ToldFates::new(PlainFates::new(), rt, rt.stderr()),
        SecondsClock::new(rt),
    );
    ended.status
}

// The top call over the files of a folder, or a session over them. Gives its status. `threads` is the
// runtime too: the one that may make threads and wait.
fn run<R: Threads + Wait + Sync>(
    threads: &R,
    rt: &HostRuntime,
    alloc: Global,
    folder: &str,
    words: &[String],
) -> Result<u8, AllocError> {
    let shown = shown_of(alloc, words)?;
    let made = if is_look(words) {
        FileShelf::for_a_look(alloc, rt, rt.stderr(), folder)
    } else {
        FileShelf::new(alloc, rt, rt.stderr(), folder)
    };
    let Ok(mut shelf) = made else {
        return Err(AllocError);
    };
    if is_session(words) {
        return Ok(hold_session(threads, rt, alloc, shelf, shown.as_slice()));
    }
    let mut source = KeptSource::new(alloc, ReadSource::new(rt.reader()));
    let mut sink = FullSink::new(WriteSink::new(io::writer(rt)));
    let ended = swallow(
        threads,
        alloc,
        shown.as_slice(),
        &mut source,
        &mut sink,
        &mut shelf,
        ToldFates::new(MemoryFates::new(alloc, Vec::new(alloc)), rt, rt.stderr()),
        SecondsClock::new(rt),
    );
    let Finish {
        status,
        trace,
        media,
        ..
    } = ended;
    if sink.is_full() {
        tell_growth(media.into_vec());
    }
    if is_run(words) {
        tell_parts(rt, alloc, folder, &trace);
        if status == REFUSED {
            tell_fault(rt, alloc, source.kept());
        }
    }
    Ok(status)
}

// The program behind the standard streams. Gives its status.
fn status_of<R: Threads + Wait + Sync>(threads: &R, rt: &HostRuntime) -> u8 {
    let alloc = rt.alloc();
    let Ok((folder, words)) = words_of(rt, alloc) else {
        let _said = eprintln!(rt; "swallow: out of memory, and nothing was run");
        return NO_MEMORY;
    };
    let folder = match &folder {
        Some(folder) => folder.as_str(),
        None => NO_FOLDER,
    };
    let Ok(status) = run(threads, rt, alloc, folder, words.as_slice()) else {
        let _said = eprintln!(rt; "swallow: out of memory, and nothing was run");
        return NO_MEMORY;
    };
    if status == NO_MEMORY {
        let _said = eprintln!(rt;
            "swallow: out of memory, so the report is missing; acts that were committed stand"
        );
    }
    status
}

fn main(rt: HostRuntime) -> ExitCode {
    let _streams = match hold_streams(&rt) {
        Ok(streams) => streams,
        Err(error) => {
            let _said = eprintln!(rt; "swallow: /dev/null: {}", error);
            return ExitCode::from(NO_OUTPUT);
        }
    };
    ExitCode::from(status_of(&rt, &rt))
}
