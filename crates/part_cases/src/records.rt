//! Commit records.

use case_words::{CaseFault, Subject, decision, number, stamp, told};
use commit_record::Records;
use std::alloc::Global;

fn anew(alloc: Global, records: &mut Records) -> Result<String, CaseFault> {
    *records = Records::new(alloc);
    Ok(String::new(alloc))
}

fn begin(alloc: Global, records: &mut Records, words: &[&str]) -> Result<String, CaseFault> {
    let [name, deadline] = words else {
        return Err(CaseFault::Line);
    };
    let step = records.begin(stamp(name)?, number(deadline)?)?;
    told(alloc, &step)
}

fn restore(alloc: Global, records: &mut Records, words: &[&str]) -> Result<String, CaseFault> {
    let [name, words @ ..] = words else {
        return Err(CaseFault::Line);
    };
    let step = records.restore(stamp(name)?, decision(words)?);
    told(alloc, &step)
}

fn due(alloc: Global, records: &mut Records, moment: u64) -> Result<String, CaseFault> {
    let due = records.due(moment)?;
    told(alloc, &due.as_slice())
}

fn hear(alloc: Global, records: &mut Records, moment: u64) -> Result<String, CaseFault> {
    let heard = records.hear(moment)?;
    told(alloc, &heard.as_slice())
}

// What comes of a line on a record.
fn on_record(
    alloc: Global,
    records: &mut Records,
    verb: &str,
    words: &[&str],
) -> Result<String, CaseFault> {
    let [name] = words else {
        return Err(CaseFault::Line);
    };
    let stamp = stamp(name)?;
    match verb {
        "state" => told(alloc, &records.state(stamp)),
        "commit" => told(alloc, &records.commit(stamp)),
        "withdraw" => told(alloc, &records.withdraw(stamp)),
        _ => Err(CaseFault::Line),
    }
}

// What comes of a line on a moment.
fn on_moment(
    alloc: Global,
    records: &mut Records,
    verb: &str,
    words: &[&str],
) -> Result<String, CaseFault> {
    let [moment] = words else {
        return Err(CaseFault::Line);
    };
    let moment = number(moment)?;
    match verb {
        "due" => due(alloc, records, moment),
        _ => hear(alloc, records, moment),
    }
}

/// Cases of records.
#[derive(Drop)]
pub struct RecordCases {
    records: Records,
}

impl Subject for RecordCases {
    fn nothing(alloc: Global) -> RecordCases {
        RecordCases {
            records: Records::new(alloc),
        }
    }

    fn carry_out(
        &mut self,
        alloc: Global,
        _line: &str,
        words: &[&str],
    ) -> Result<String, CaseFault> {
        let [verb, rest @ ..] = words else {
            return Err(CaseFault::Line);
        };
        let records = &mut self.records;
        match *verb {
            "records" => anew(alloc, records),
            "begin" => begin(alloc, records, rest),
            "restore" => restore(alloc, records, rest),
            "due" | "hear" => on_moment(alloc, records, verb, rest),
            verb => on_record(alloc, records, verb, rest),
        }
    }
}
