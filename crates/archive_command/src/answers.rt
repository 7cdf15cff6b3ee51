//! What comes of a question, by the repository's volumes as they were opened.
ghost use Rattle.std.specs.Prelude.{◌<◌, ◌≤◌, length, reverse};
ghost use Rattle.archive_store.specs.Joined.{joined};
ghost use Rattle.archive_command.specs.Answers as spec;

use crate::archives::{Archived, archived_of};
use crate::audits::audit_text;
use crate::maps::asof_text;
use crate::outcomes::Outcome;
use crate::questions::{Question, asked_of};
use archive_store::{Archive, AsOfFault};
use medium_port::Medium;
use pseudo_time::PseudoTime;
use report_writer::{down_line, undecided_line};
use run_volumes::{Opening, Standing, stand_of};
use std::alloc::{AllocError, Global};
use value_form::Bytes;

/// The text tells what was done.
pub fn told(text: Result<Bytes, AllocError>) -> Outcome
    ensures { spec.IsTold text result }
{
    match text {
        Ok(text) => Outcome::Told(text),
        Err(_) => Outcome::NoMemory,
    }
}

/// A refusal with this line.
pub fn refused(line: Result<Bytes, AllocError>) -> Outcome
    ensures { spec.IsRefused line result }
{
    match line {
        Ok(line) => Outcome::Refused(line),
        Err(_) => Outcome::NoMemory,
    }
}

/// A medium stopped it, with this line.
pub fn fallen(line: Result<Bytes, AllocError>) -> Outcome
    ensures { spec.IsFallen line result }
{
    match line {
        Ok(line) => Outcome::Fallen(line),
        Err(_) => Outcome::NoMemory,
    }
}

/// Why there is no map.
pub fn refusal(alloc: Global, fault: &AsOfFault) -> Outcome
    ensures { spec.RefusesFor fault.now result }
{
    match fault {
        AsOfFault::Undecided { object, start } => refused(undecided_line(alloc, *object, *start)),
        AsOfFault::NoMemory => Outcome::NoMemory,
    }
}

// The map as of the mark.
fn asof(alloc: Global, repository: u8, mark: PseudoTime, archive: &Archive) -> Outcome
    ensures { spec.GivesMap repository mark (reverse (joined archive.now)) result }
{
    match archive.asof(mark) {
        Ok(list) => told(asof_text(alloc, repository, mark, list.as_slice())),
        Err(fault) => refusal(alloc, &fault),
    }
}

// What the archive answers.
fn answer_of(alloc: Global, question: &Question, archived: &Archived) -> Outcome
    ensures { spec.Gives archived.now.archive archived.now.volumes.items question.now result }
{
    match question {
        Question::AsOf { repository, mark } => asof(alloc, *repository, *mark, &archived.archive),
        Question::Audit { object } => told(audit_text(alloc, *object, archived)),
    }
}

/// What comes of a question to a repository with these volumes.
pub fn answer<M: Medium>(alloc: Global, question: &Question, openings: &[Opening<M>]) -> Outcome
    requires some { 0 < length openings.now }
    requires few { length openings.now ≤ 1000 }
    ensures { spec.Answers question.now openings.now result }
{
    match stand_of(openings) {
        Standing::Shut(cause) => fallen(down_line(alloc, asked_of(question), cause)),
        Standing::Wanting => Outcome::NoMemory,
        Standing::Open => match archived_of(alloc, openings) {
            Ok(archived) => answer_of(alloc, question, &archived),
            Err(_) => Outcome::NoMemory,
        },
    }
}
