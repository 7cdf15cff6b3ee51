//! Carries out cases of watches and of the archive. A case is written in lines on standard input; each line
//! goes to standard output, and behind it what came of it, or why it can't be carried out. A line that
//! begins with `#` is a remark.
//!
//! `log N` begins the log of volume N; `log 0` forgets those before it. To the last log these lines add a
//! mark: `put OBJECT TIME VALUE`, `stretch OBJECT TIME`, `settle STAMP yes` or `no`, `floor TIME`. A value
//! is `nothing`, a number or a text in quotes.
//!
//! - `watch RULE` begins a watch from nothing, by `count`, `sum`, `last` or `latest`, and `finish` ends it
//!   and lists what it came to. Between them `restore OBJECT TIME TOTAL` gives it an object, `advance` and
//!   `advance below TIME` fold the last log, `advance joined` what the archive joins, and `totals` lists
//!   what it has come to; other lines are carried out as they are elsewhere.
//! - `archive` is that of the logs so far. `joined` tells its marks as lines, `holder OBJECT TIME` the
//!   volume that holds a put, and `asof TIME` the map as of the pseudotime. `scan TIME` tells the same map by
//!   a plain scan of the joined marks, and `alike FIRST LAST` whether both agree at each of these clocks.
#![tactic(auto)]

mod archives;
mod cases;
mod plain;
mod shows;
mod watches;
mod words;

use cases::{Case, tell_line};
use std::alloc::{AllocError, Global};
use std::io;
use std::process::ExitCode;
use watches::{Rule, rule_of, watched};

/// A watch whose lines are read.
#[derive(Drop)]
struct Watch {
    /// None where no watch was begun.
    rule: Option<Rule>,
    lines: String,
}

// A line outside of a watch, which may begin one.
fn outside(
    case: &mut Case,
    watch: &mut Watch,
    line: &str,
    said: &mut String,
) -> Result<(), AllocError> {
    match rule_of(line) {
        Some(rule) => {
            watch.rule = Some(rule);
            tell_line(said, line)
        }
        None => case.carry_out(line, said),
    }
}

// The next line.
fn step(
    alloc: Global,
    case: &mut Case,
    watch: &mut Watch,
    line: &str,
    said: &mut String,
) -> Result<(), AllocError> {
    let Some(rule) = watch.rule else {
        return outside(case, watch, line, said);
    };
    if line != "finish" {
        return tell_line(&mut watch.lines, line);
    }
    watched(alloc, case, rule, watch.lines.as_str(), said)?;
    watch.rule = None;
    watch.lines.clear();
    Ok(())
}

fn all(alloc: Global, text: &str) -> Result<String, AllocError> {
    let mut case = Case::new(alloc);
    let mut watch = Watch {
        rule: None,
        lines: String::new(alloc),
    };
    let mut said = String::new(alloc);
    for line in text.lines() {
        step(alloc, &mut case, &mut watch, line, &mut said)?;
    }
    Ok(said)
}

fn main(rt: HostRuntime) -> ExitCode {
    let alloc = rt.alloc();
    let Ok(text) = io::read_to_string(alloc, rt.reader()) else {
        return ExitCode::from(3);
    };
    match all(alloc, text.as_str()) {
        Ok(said) => match rt.print(said) {
            Ok(()) => ExitCode::from(0),
            Err(_) => ExitCode::from(4),
        },
        Err(_) => ExitCode::from(7),
    }
}
