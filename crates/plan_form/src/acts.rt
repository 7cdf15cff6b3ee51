//! Reads the acts of a plan.
ghost use Rattle.std.specs.Prelude.{◌≡◌, ◌≤◌, ◌<◌, ◌+◌, length};
ghost use Rattle.plan_form.specs.Plans.{terms};
ghost use Rattle.plan_form.specs.Reads.{ReadsAct, ReadsActs};

use crate::act_lines::{Terms, terms_of};
use crate::act_scripts::{ActScript, script_of};
use crate::heads::fault;
use crate::plan_faults::{PlanFault, PlanKind};
use script_form::{first_line, is_blank};
use std::alloc::Global;
use value_form::{ActSpec, Script};

const MOST_ACTS: u32 = 10_000;

// An act, what follows its `done`, and the line of `done` in the plan.
#[derive(Drop)]
pub struct ReadAct<'a> {
    pub act: ActSpec,
    pub rest: &'a [u8],
    pub at: u32,
}

fn act_with(index: u32, said: Terms, script: Script) -> ActSpec
    ensures index { result.index ≡ index }
    ensures terms { terms result ≡ said }
    ensures script { result.script ≡ script }
{
    ActSpec {
        index,
        broker: said.broker,
        home: said.home,
        timeout: said.timeout,
        tries: said.tries,
        clock: said.clock,
        script,
    }
}

// What an act gives, whose act line is the line `at` of the plan.
fn act_of<'a>(
    alloc: Global,
    index: u32,
    at: u32,
    line: &[u8],
    after: &'a [u8],
    repositories: u8,
    brokers: u8,
) -> Result<ReadAct<'a>, PlanFault>
    requires { at + length after.now ≤ 4194308 }
    ensures { ReadsAct repositories brokers index at line.now after.now result }
{
    let Some(terms) = terms_of(line, repositories, brokers) else {
        return Err(fault(at, PlanKind::Act));
    };
    if index > MOST_ACTS {
        return Err(fault(at, PlanKind::Acts));
    }
    match script_of(alloc, after, repositories, at) {
        Ok(ActScript { script, rest, at }) => Ok(ReadAct {
            act: act_with(index, terms, script),
            rest,
            at,
        }),
        Err(wrong) => Err(wrong),
    }
}

// The acts of a plan, whose first line stands behind the line `before`.
pub fn acts_of(
    alloc: Global,
    bytes: &[u8],
    repositories: u8,
    brokers: u8,
    before: u32,
) -> Result<Vec<ActSpec>, PlanFault>
    requires { before + length bytes.now ≤ 4194308 }
    ensures { ReadsActs repositories brokers before bytes.now result }
{
    let mut acts = Vec::new(alloc);
    let mut rest = bytes;
    let mut at = before;
    while !rest.is_empty() {
        let (line, after) = first_line(rest);
        at += 1;
        if is_blank(line) {
            rest = after;
            continue;
        }
        let index = acts.len() as u32 + 1;
        match act_of(alloc, index, at, line, after, repositories, brokers) {
            Ok(read) => {
                acts.push(read.act)?;
                rest = read.rest;
                at = read.at;
            }
            Err(wrong) => return Err(wrong),
        }
    }
    Ok(acts)
}
