//! Carries out cases of what is written down. Standard input names the files of the cases, one a line. Each
//! line of them goes to standard output, and behind it what came of it, or why it can't be carried out. A line
//! that begins with `#` is a remark. HEX are the digits of bytes, in as many words as one likes.
//!
//! `pseudotime HEX`, `value HEX`, `effect HEX` and `message HEX` read bytes and write them again;
//! `cut-effect HEX` and `cut-message HEX` say where each beginning is at fault. `tokens`, `expression`,
//! `row`, `script` and `plan` read the text behind them, or the lines up to `end tokens` and so on, and
//! tell its canonical text; among these lines `\bytes HEX` and `\times N HEX` stand for bytes.
//! `repositories N` says over how many tokens are read, and `made SEED N` makes a plan.
//! `run` reads a script as `script` does, and performs it over the objects of the lines `hold 1.7 10`.
#![tactic(auto)]

mod forms;
mod lines;
mod performances;
mod readings;
mod texts;

use readings::carry_all;
use std::alloc::{AllocError, Global};
use std::process::ExitCode;
use std::rt::Files;
use std::{fs, io};

// Carries out the cases of these files.
fn files<R: Files + AllocGlobal>(rt: &R, alloc: Global, names: &str) -> Result<String, AllocError> {
    let mut said = String::new(alloc);
    for name in names.lines() {
        said.push_str(format!(in alloc; "cases {name}\n")?.as_str())?;
        match fs::read_to_string(rt, name) {
            Ok(text) => carry_all(alloc, text.as_str(), &mut said)?,
            Err(_) => said.push_str("  no file\n")?,
        }
    }
    Ok(said)
}

fn main(rt: HostRuntime) -> ExitCode {
    let alloc = rt.alloc();
    let Ok(names) = io::read_to_string(alloc, rt.reader()) else {
        return ExitCode::from(3);
    };
    match files(&rt, alloc, names.as_str()) {
        Ok(said) => match rt.print(said) {
            Ok(()) => ExitCode::from(0),
            Err(_) => ExitCode::from(4),
        },
        Err(_) => ExitCode::from(7),
    }
}
