//! Pages of folders, as text: each word is a folder, and its page stands behind a line with that word.
#![tactic(auto)]

use folder_look::{Choice, page_of};
use folder_reader::media_of;
use pseudo_time::LAST_CLOCK;
use std::env;
use std::io::{self, Write};
use std::process::ExitCode;

/// The status where memory runs out, or a word isn't UTF-8.
const NO_WORDS: u8 = 7;

/// The status where a page can't be written.
const NO_OUTPUT: u8 = 4;

// Writes the page of a folder behind a line with its name. The status where that fails.
fn show(rt: &HostRuntime, folder: &str) -> Result<(), u8> {
    let alloc = rt.alloc();
    let choice = Choice {
        object: None,
        repository: None,
        from: 0,
        to: LAST_CLOCK,
    };
    let Ok(media) = media_of(alloc, rt, folder) else {
        return Err(NO_WORDS);
    };
    let Ok(page) = page_of(alloc, folder.as_bytes(), &choice, media.as_slice()) else {
        return Err(NO_WORDS);
    };
    let mut out = io::writer(rt);
    if writeln!(out, "folder {}", folder).is_err() || out.write_all(page.as_slice()).is_err() {
        return Err(NO_OUTPUT);
    }
    Ok(())
}

fn main(rt: HostRuntime) -> ExitCode {
    let Ok(words) = env::args(&rt) else {
        return ExitCode::from(NO_WORDS);
    };
    for word in words.skip(1) {
        if let Err(status) = show(&rt, word.as_str()) {
            return ExitCode::from(status);
        }
    }
    ExitCode::from(0)
}
