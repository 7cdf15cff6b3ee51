//! Carries out cases of media, stores and histories. Standard input tells what the cases of a file are about, and
//! names the file, as `media media.cases`. Each line of it goes to standard output, and behind it what came of
//! it, or why it can't be carried out. A line that begins with `#` is a remark. HEX are the digits of bytes,
//! in as many words as one likes; an EFFECT is such a word.
//!
//! A line begins what those behind it are about:
//! - `medium PAGES`, which meets the stops of the lines `stop call N keep K fill F` and `stop write PAGE AT
//!   keep K fill F`: `write PAGE AT HEX`, `read PAGE AT SIZE`, `sync`, `crash`, `look PAGE`, `put PAGE HEX`;
//!   `open` opens its store, and `append TIMES EFFECT..` adds to it.
//! - `table`, which reads the histories of the store before it, and `histories`, of both kinds:
//!   `read OBJECT TIME`, `write OBJECT TIME NUMBER`, `stands`, `settle STAMP yes`, `settled STAMP`; a table
//!   that was just read also `put OBJECT TIME NUMBER`.
#![tactic(auto)]

mod histories;
mod pages;
mod stored;
mod stores;
mod tables;

use case_words::{Cases, carry_all, carry_out_files};
use histories::HistoryCases;
use std::alloc::{AllocError, Global};
use std::io;
use std::process::ExitCode;
use tables::Tables;

/// Cases of media, stores and histories.
enum Storages {}

impl Cases for Storages {
    fn carry_out(
        alloc: Global,
        about: &str,
        text: &str,
        said: &mut String,
    ) -> Result<(), AllocError> {
        match about {
            "media" | "tables" => carry_all::<Tables>(alloc, text, said),
            "histories" => carry_all::<HistoryCases>(alloc, text, said),
            _ => said.push_str("  no cases\n"),
        }
    }
}

fn main(rt: HostRuntime) -> ExitCode {
    let alloc = rt.alloc();
    let Ok(names) = io::read_to_string(alloc, rt.reader()) else {
        return ExitCode::from(3);
    };
    match carry_out_files::<Storages, _>(&rt, alloc, names.as_str()) {
        Ok(said) => match rt.print(said) {
            Ok(()) => ExitCode::from(0),
            Err(_) => ExitCode::from(4),
        },
        Err(_) => ExitCode::from(7),
    }
}
