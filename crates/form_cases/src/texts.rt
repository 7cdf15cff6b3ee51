//! Forms in text: what is read from it, and its canonical text.

use crate::forms::push_text;
use case_words::CaseFault;
use expression_form::{ReadFault, print_expression, read_expression};
use plan_form::{Plan, PlanFault, make};
use script_form::{ParseFault, print_row, read_row};
use std::alloc::Global;
use token_form::{LineFault, Token, tokens_of};

/// Of a text of at least so many lines it is said how many they are.
const MANY: usize = 100;

// The fault of a line that isn't a list of tokens.
fn line_fault(alloc: Global, fault: LineFault) -> Result<String, CaseFault> {
    match fault {
        LineFault::NoMemory => Err(CaseFault::NoMemory),
        fault => Ok(format!(in alloc; "  fault {fault:?}\n")?),
    }
}

// The fault of tokens that are no expression or no statement.
fn read_fault(alloc: Global, fault: ReadFault) -> Result<String, CaseFault> {
    match fault {
        ReadFault::NoMemory => Err(CaseFault::NoMemory),
        fault => Ok(format!(in alloc; "  fault {fault:?}\n")?),
    }
}

// How many tokens there are, and those of a line that has few.
fn listed(alloc: Global, tokens: &[Token]) -> Result<String, CaseFault> {
    let count = tokens.len();
    let mut said = format!(in alloc; "  {count} tokens\n")?;
    if count == 0 || count >= MANY {
        return Ok(said);
    }
    let mut text = Vec::new(alloc);
    for token in tokens {
        if !text.is_empty() {
            text.push(b' ')?;
        }
        token.print(alloc, &mut text)?;
    }
    push_text(&mut said, text.as_slice())?;
    Ok(said)
}

/// The tokens of a line, over so many repositories.
pub fn tokens(alloc: Global, line: &[u8], greatest: u8) -> Result<String, CaseFault> {
    match tokens_of(alloc, line, greatest) {
        Ok(tokens) => listed(alloc, tokens.as_slice()),
        Err(fault) => line_fault(alloc, fault),
    }
}

// A text that was printed, with a line about it before it.
fn shown(alloc: Global, head: &str, text: &[u8]) -> Result<String, CaseFault> {
    let mut said = String::new(alloc);
    said.push_str(head)?;
    if text.split(|b| *b == b'\n').count() <= MANY {
        push_text(&mut said, text)?;
    }
    Ok(said)
}

/// The expression on a line.
pub fn expression(alloc: Global, line: &[u8]) -> Result<String, CaseFault> {
    let tokens = match tokens_of(alloc, line, 16) {
        Ok(tokens) => tokens,
        Err(fault) => return line_fault(alloc, fault),
    };
    match read_expression(alloc, tokens.as_slice()) {
        Ok(expression) => {
            let mut text = Vec::new(alloc);
            print_expression(alloc, &mut text, &expression)?;
            shown(alloc, "", text.as_slice())
        }
        Err(fault) => read_fault(alloc, fault),
    }
}

/// The row of a script on a line.
pub fn row(alloc: Global, line: &[u8]) -> Result<String, CaseFault> {
    let tokens = match tokens_of(alloc, line, 16) {
        Ok(tokens) => tokens,
        Err(fault) => return line_fault(alloc, fault),
    };
    match read_row(alloc, tokens.as_slice()) {
        Ok(row) => {
            let mut text = Vec::new(alloc);
            print_row(alloc, &mut text, &row)?;
            shown(alloc, "", text.as_slice())
        }
        Err(fault) => read_fault(alloc, fault),
    }
}

/// A script.
pub fn script(alloc: Global, bytes: &[u8]) -> Result<String, CaseFault> {
    match script_form::parse(alloc, bytes) {
        Ok(script) => {
            let text = script_form::print(alloc, &script)?;
            shown(alloc, "  script\n", text.as_slice())
        }
        Err(ParseFault::Fault { line, kind }) => {
            Ok(format!(in alloc; "  fault line {line} {kind:?}\n")?)
        }
        Err(ParseFault::NoMemory) => Err(CaseFault::NoMemory),
    }
}

// How many acts a plan has, and its text.
fn shown_plan(alloc: Global, plan: &Plan) -> Result<String, CaseFault> {
    let text = plan_form::print(alloc, plan)?;
    let head = format!(in alloc; "  {} acts\n", plan.acts.as_slice().len())?;
    shown(alloc, head.as_str(), text.as_slice())
}

/// A plan.
pub fn plan(alloc: Global, bytes: &[u8]) -> Result<String, CaseFault> {
    match plan_form::parse(alloc, bytes) {
        Ok(plan) => shown_plan(alloc, &plan),
        Err(PlanFault::Fault { line, kind }) => {
            Ok(format!(in alloc; "  fault line {line} {}\n", kind.words())?)
        }
        Err(PlanFault::NoMemory) => Err(CaseFault::NoMemory),
    }
}

/// The plan that is made of so many acts from this seed.
pub fn made(alloc: Global, seed: u64, count: u32) -> Result<String, CaseFault> {
    if count < 1 || count > 9999 {
        return Err(CaseFault::Line);
    }
    let plan = make(alloc, seed, count)?;
    shown_plan(alloc, &plan)
}
