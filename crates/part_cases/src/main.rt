//! Carries out cases of the parts of a run. Standard input tells what the cases of a file are about, and names
//! the file, as `records records.cases`. Each line of it goes to standard output, and behind it what came of
//! it, or why it can't be carried out. A line that begins with `#` is a remark. HEX are the digits of bytes,
//! in as many words as one likes; an EFFECT is such a word.
//!
//! A line begins what those behind it are about:
//! - `records`: `begin STAMP DEADLINE`, `commit`, `withdraw`, `restore`, `state`, `due MOMENT`, `hear MOMENT`.
//! - `log`: `put OBJECT TIME NUMBER`, `stretch OBJECT TIME`, `begin STAMP DEADLINE`, `decide STAMP DECISION`,
//!   `learn STAMP committed` or another word, `mark TIME`, `whole`, and `forward TIME`, which retires the log.
//! - `flight`: `send NODE COPIES OVERTAKE HOLD HEX`, `take NODE`, `pass`, `shut NODE`, `empty`.
//! - `repository N`: `take NODE HEX`, `learn STAMP yes`, `hear MOMENT`.
//! - `votes STAMP`, over the first member's log of the line `log EFFECT..`: `go NODE`, `hear NODE MOMENT`,
//!   `take NODE FROM HEX`, `held NODE`.
//! - `broker CLOCK..`, whose acts have the script of the lines from `program` to `end program`, over the log
//!   of the line `log EFFECT..`: `go`, `take NODE HEX`, `hear MOMENT`, `done`.
#![tactic(auto)]

mod brokers;
mod flights;
mod logs;
mod records;
mod repositories;
mod turns;
mod votes;

use brokers::Brokers;
use case_words::{Cases, carry_all, carry_out_files};
use flights::FlightCases;
use logs::LogCases;
use records::RecordCases;
use repositories::RepositoryCases;
use std::alloc::{AllocError, Global};
use std::io;
use std::process::ExitCode;
use votes::Votes;

/// Cases of the parts of a run.
enum Parts {}

impl Cases for Parts {
    fn carry_out(
        alloc: Global,
        about: &str,
        text: &str,
        said: &mut String,
    ) -> Result<(), AllocError> {
        match about {
            "records" => carry_all::<RecordCases>(alloc, text, said),
            "logs" => carry_all::<LogCases>(alloc, text, said),
            "flights" => carry_all::<FlightCases>(alloc, text, said),
            "repositories" => carry_all::<RepositoryCases>(alloc, text, said),
            "votes" => carry_all::<Votes>(alloc, text, said),
            "brokers" => carry_all::<Brokers>(alloc, text, said),
            _ => said.push_str("  no cases\n"),
        }
    }
}

fn main(rt: HostRuntime) -> ExitCode {
    let alloc = rt.alloc();
    let Ok(names) = io::read_to_string(alloc, rt.reader()) else {
        return ExitCode::from(3);
    };
    match carry_out_files::<Parts, _>(&rt, alloc, names.as_str()) {
        Ok(said) => match rt.print(said) {
            Ok(()) => ExitCode::from(0),
            Err(_) => ExitCode::from(4),
        },
        Err(_) => ExitCode::from(7),
    }
}
