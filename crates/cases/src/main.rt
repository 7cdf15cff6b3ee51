//! Carries out cases of whole runs. Standard input names the files of the cases, one a line. Each line of
//! them goes to standard output, and behind it what came of it.
#![tactic(auto)]

mod calls;
mod cases;
mod labs;
mod series;

use cases::Case;
use std::alloc::{AllocError, Global};
use std::process::ExitCode;
use std::rt::Files;
use std::sync::Wait;
use std::thread::Threads;
use std::{fs, io};

// What came of a line, or its fault.
fn come_of<R: Threads + Wait + Sync>(
    rt: &R,
    alloc: Global,
    case: &mut Case,
    line: &str,
) -> Result<String, AllocError> {
    match case.carry_out(rt, line) {
        Ok(said) => Ok(said),
        Err(fault) => fault.text(alloc),
    }
}

// Carries out the cases of a text.
fn all<R: Threads + Wait + Sync>(
    rt: &R,
    alloc: Global,
    text: &str,
    said: &mut String,
) -> Result<(), AllocError> {
    let mut case = Case::new(alloc);
    for line in text.lines() {
        said.push_str(line)?;
        said.push('\n')?;
        said.push_str(come_of(rt, alloc, &mut case, line)?.as_str())?;
    }
    Ok(())
}

// Carries out the cases of a file.
fn file<R: Files + AllocGlobal + Threads + Wait + Sync>(
    rt: &R,
    alloc: Global,
    name: &str,
    said: &mut String,
) -> Result<(), AllocError> {
    said.push_str(format!(in alloc; "cases {name}\n")?.as_str())?;
    match fs::read_to_string(rt, name) {
        Ok(text) => all(rt, alloc, text.as_str(), said),
        Err(_) => said.push_str("  no file\n"),
    }
}

// Carries out the cases of these files.
fn files<R: Files + AllocGlobal + Threads + Wait + Sync>(
    rt: &R,
    alloc: Global,
    names: &str,
) -> Result<String, AllocError> {
    let mut said = String::new(alloc);
    for name in names.lines() {
        file(rt, alloc, name, &mut said)?;
    }
    Ok(said)
}

fn main(rt: HostRuntime) -> ExitCode {
    let alloc = rt.alloc();
    let Ok(names) = io::read_to_string(alloc, rt.reader()) else {
        return ExitCode::from(3);
    };
    match files(&rt, alloc, names.as_str()) {
        Ok(said) => match rt.print(said) {
            Ok(()) => ExitCode::from(0),
            Err(_) => ExitCode::from(4),
        },
        Err(_) => ExitCode::from(7),
    }
}
