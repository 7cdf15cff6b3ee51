//! Reads the script of an act.
ghost use Rattle.std.specs.Prelude.{◌≡◌, ◌+◌, ◌≤◌, length};
ghost use Rattle.std.specs.List.{list_all};
ghost use Rattle.plan_form.specs.Plans as spec;
ghost use Rattle.plan_form.specs.Reads as reads;

use crate::heads::fault;
use crate::plan_faults::{PlanFault, PlanKind};
use script_form::{ParseFault, ScriptReader, first_line};
use std::alloc::Global;
use value_form::Script;

// The script of an act, what follows its `done`, and the line of `done` in the plan.
#[derive(Drop)]
pub struct ActScript<'a> {
    pub script: Script,
    pub rest: &'a [u8],
    pub at: u32,
}

fn are_spaces(bytes: &[u8]) -> bool
    ensures { result ≡ list_all spec.is_space bytes.now }
{
    bytes.iter().all(|b| *b == b' ')
}

// The word `done` and nothing but spaces behind it.
fn is_done_word(bytes: &[u8]) -> bool
    ensures { result ≡ spec.is_done_word bytes.now }
{
    match bytes.strip_prefix(b"done") {
        Some(rest) => are_spaces(rest),
        None => false,
    }
}

// `done`, with spaces round it.
fn is_done(line: &[u8]) -> bool
    ensures { result ≡ spec.is_done line.now }
{
    for (at, byte) in line.iter().enumerate() {
        if *byte != b' ' {
            return is_done_word(&line[at..]);
        }
    }
    false
}

fn script_fault(line: u32, wrong: ParseFault) -> PlanFault
    ensures { result ≡ reads.script_fault line wrong }
{
    match wrong {
        ParseFault::Fault { line: _, kind } => fault(line, PlanKind::Script(kind)),
        ParseFault::NoMemory => PlanFault::NoMemory,
    }
}

// The script of the lines up to `done`, and what follows that. The first of them stands behind the
// line `before`.
pub fn script_of(
    alloc: Global,
    bytes: &[u8],
    repositories: u8,
    before: u32,
) -> Result<ActScript, PlanFault>
    requires { before + length bytes.now ≤ 4194308 }
    ensures { reads.ReadsScript repositories before bytes.now result }
{
    let mut reader = ScriptReader::new(alloc, repositories);
    let mut rest = bytes;
    let mut at = before;
    while !rest.is_empty() {
        let (line, after) = first_line(rest);
        at += 1;
        if is_done(line) {
            return match reader.end() {
                Ok(script) => Ok(ActScript {
                    script,
                    rest: after,
                    at,
                }),
                Err(wrong) => Err(script_fault(at, wrong)),
            };
        }
        reader = match reader.feed(alloc, line) {
            Ok(next) => next,
            Err(wrong) => return Err(script_fault(at, wrong)),
        };
        rest = after;
    }
    Err(fault(at + 1, PlanKind::End))
}
