//! Histories of objects, plain ones and those over a store.
ghost use Rattle.std.specs.Prelude.{◌≡◌, IfOk, OnErr};
ghost use Rattle.value_form.specs.ObjectBytes.{IsObject};

use crate::stored::Stored;
use crate::stores::medium;
use case_words::{CaseFault, Subject, number, object, stamp, time, told};
use medium_port::MemoryMedium;
use object_header::HeaderTable;
use object_history::{Histories, HistoryFault, PlainHistories};
use pseudo_time::{PseudoTime, Stamp};
use std::alloc::Global;
use std::fmt::Debug;
use value_form::{ObjectId, Value};

// What histories answer.
fn answered<T: Debug + Drop>(
    alloc: Global,
    answer: Result<T, HistoryFault>,
) -> Result<String, CaseFault> {
    match answer {
        Ok(step) => told(alloc, &step),
        Err(fault) => told(alloc, &fault),
    }
}

// An object and a pseudotime.
fn place(name: &str, at: &str) -> Result<(ObjectId, PseudoTime), CaseFault>
    ensures { IfOk result (λ p. IsObject p.0) }
{
    let object = object(name)?;
    Ok((object, time(at)?))
}

fn read<H: Histories>(
    alloc: Global,
    histories: &mut H,
    name: &str,
    at: &str,
) -> Result<String, CaseFault> {
    let (object, at) = place(name, at)?;
    answered(alloc, histories.read(object, at))
}

fn write<H: Histories>(
    alloc: Global,
    histories: &mut H,
    name: &str,
    at: &str,
    held: &str,
) -> Result<String, CaseFault> {
    let value = Value::Number(number(held)?);
    let (object, at) = place(name, at)?;
    answered(alloc, histories.write(object, at, &value))
}

fn stands<H: Histories>(
    alloc: Global,
    histories: &mut H,
    name: &str,
    at: &str,
    held: &str,
) -> Result<String, CaseFault> {
    let value = Value::Number(number(held)?);
    let (object, at) = place(name, at)?;
    answered(alloc, histories.stands(object, at, &value))
}

// Settles an attempt that isn't decided yet.
fn settle_first<H: Histories>(
    histories: &mut H,
    stamp: Stamp,
    committed: bool,
) -> Result<(), HistoryFault>
    ensures err { OnErr result (H.content histories.new ≡ H.content histories.old) }
    ensures below { H.below histories.new ≡ H.below histories.old }
{
    match histories.settled(stamp) {
        Some(_) => Ok(()),
        None => histories.settle(stamp, committed),
    }
}

// Of a settling nothing is printed but its fault.
fn settle<H: Histories>(
    alloc: Global,
    histories: &mut H,
    name: &str,
    committed: bool,
) -> Result<String, CaseFault> {
    match settle_first(histories, stamp(name)?, committed) {
        Ok(()) => Ok(String::new(alloc)),
        Err(fault) => told(alloc, &fault),
    }
}

// How an attempt is settled.
fn settled<H: Histories>(alloc: Global, histories: &H, name: &str) -> Result<String, CaseFault> {
    told(alloc, &histories.settled(stamp(name)?))
}

/// What comes of a line on histories.
pub fn carry_out<H: Histories>(
    alloc: Global,
    histories: &mut H,
    words: &[&str],
) -> Result<String, CaseFault> {
    match words {
        ["read", name, at] => read(alloc, histories, name, at),
        ["write", name, at, held] => write(alloc, histories, name, at, held),
        ["stands", name, at, held] => stands(alloc, histories, name, at, held),
        ["settle", name, "yes"] => settle(alloc, histories, name, true),
        ["settle", name, "no"] => settle(alloc, histories, name, false),
        ["settled", name] => settled(alloc, histories, name),
        _ => Err(CaseFault::Line),
    }
}

/// Both kinds of histories, to which the same is done.
#[derive(Drop)]
pub struct Pair {
    plain: PlainHistories,
    table: HeaderTable<MemoryMedium>,
}

// What both answered; each answer, where they differ.
fn compared(alloc: Global, plain: String, table: &str) -> Result<String, CaseFault> {
    if plain.as_str() == table {
        return Ok(plain);
    }
    Ok(format!(in alloc; "  plain\n{}  table\n{table}", plain.as_str())?)
}

impl Pair {
    // Histories without marks, over a store without effects.
    fn new(alloc: Global) -> Result<Pair, CaseFault> {
        let sound = medium(alloc, 4, Vec::new(alloc))?;
        let stored: Stored = sound.table(alloc)?;
        Ok(Pair {
            plain: PlainHistories::new(alloc),
            table: stored.into_table(),
        })
    }

    // What comes of a line on both.
    fn carry_out(&mut self, alloc: Global, words: &[&str]) -> Result<String, CaseFault> {
        let plain = carry_out(alloc, &mut self.plain, words)?;
        let table = carry_out(alloc, &mut self.table, words)?;
        compared(alloc, plain, table.as_str())
    }
}

/// Cases of both kinds of histories.
#[derive(Drop)]
pub struct HistoryCases {
    pair: Option<Pair>,
}

impl Subject for HistoryCases {
    fn nothing(_alloc: Global) -> HistoryCases {
        HistoryCases { pair: None }
    }

    fn carry_out(
        &mut self,
        alloc: Global,
        _line: &str,
        words: &[&str],
    ) -> Result<String, CaseFault> {
        if let ["histories"] = words {
            self.pair = Some(Pair::new(alloc)?);
            return Ok(String::new(alloc));
        }
        match &mut self.pair {
            Some(pair) => pair.carry_out(alloc, words),
            None => Err(CaseFault::Subject),
        }
    }
}
