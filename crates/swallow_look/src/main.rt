//! The program that shows a folder as a page: `swallow_look DIR > page.html`. It opens the media for
//! reading alone.
#![tactic(auto)]

mod options;

use crate::options::{command, look_of};
use folder_look::{Choice, MediumLook, page_of};
use folder_reader::{media_of, warning_of};
use std::alloc::{AllocError, Global};
use std::env;
use std::io::{self, ErrorKind, Write};
use std::process::ExitCode;

/// The status where the words are no command.
const NO_COMMAND: u8 = 1;

/// The status where the page can't be written.
const NO_OUTPUT: u8 = 4;

/// The status where memory runs out.
const NO_MEMORY: u8 = 7;

// The words of the command line. A word that isn't UTF-8 is a faulty command line, as no word is.
fn words_of(rt: &HostRuntime, alloc: Global) -> Result<Vec<String>, AllocError> {
    let mut words = Vec::new(alloc);
    match env::args(rt) {
        Ok(args) => {
            for word in args.skip(1) {
                words.push(word)?;
            }
            Ok(words)
        }
        Err(error) if error.kind() == ErrorKind::OutOfMemory => Err(AllocError),
        Err(_) => Ok(words),
    }
}

// Says on standard error which media can't be read, and which are lost.
fn warn(
    rt: &HostRuntime,
    alloc: Global,
    folder: &str,
    media: &[MediumLook],
) -> Result<(), AllocError> {
    for look in media {
        if let Some(text) = warning_of(alloc, rt, folder, look)? {
            let _said = eprintln!(rt; "swallow_look: {}: {}", folder, text.as_str());
        }
    }
    Ok(())
}

// Writes the page of a folder to standard output. Gives the status.
fn show(rt: &HostRuntime, alloc: Global, folder: &str, choice: &Choice) -> Result<u8, AllocError> {
    let Ok(media) = media_of(alloc, rt, folder) else {
        return Err(AllocError);
    };
    warn(rt, alloc, folder, media.as_slice())?;
    let page = page_of(alloc, folder.as_bytes(), choice, media.as_slice())?;
    let mut out = io::writer(rt);
    match out.write_all(page.as_slice()) {
        Ok(()) => Ok(0),
        Err(error) => {
            let _said = eprintln!(rt; "swallow_look: {}", error);
            Ok(NO_OUTPUT)
        }
    }
}

// Shows what the words ask for. Gives the status.
fn look(rt: &HostRuntime, alloc: Global) -> Result<u8, AllocError> {
    let words = words_of(rt, alloc)?;
    let command = command(alloc)?;
    let matches = match command.try_get_matches_from(words.as_slice()) {
        Ok(matches) => matches,
        Err(error) => {
            let _said = error.print(rt);
            return Ok(if error.use_stderr() { NO_COMMAND } else { 0 });
        }
    };
    let Some((folder, choice)) = look_of(&matches) else {
        let _said = eprintln!(rt; "swallow_look: an object is REPOSITORY.NUMBER");
        return Ok(NO_COMMAND);
    };
    show(rt, alloc, folder, &choice)
}

fn main(rt: HostRuntime) -> ExitCode {
    let alloc = rt.alloc();
    match look(&rt, alloc) {
        Ok(status) => ExitCode::from(status),
        Err(_) => {
            let _said = eprintln!(rt; "swallow_look: out of memory");
            ExitCode::from(NO_MEMORY)
        }
    }
}
