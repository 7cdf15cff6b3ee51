//! The input of a session: its head and its batches.
ghost use Rattle.std.specs.Prelude.{◌≡◌, ◌&&◌, ◌≤◌, ◌⊎◌, [], List, ℕ, IfOk, OnErr, IsErrOf};
ghost use Rattle.std.specs.Io.KnownBytes.{prepend_known};
ghost use Rattle.stream_port.specs.Causes.{Rose};
ghost use Rattle.session_form.specs.Sessions.{batch_text};
ghost use Rattle.session_command.specs.Ahead.{ahead};
ghost use Rattle.session_command.specs.Inputs.{EndsIn, HasHead, HasRead, IsJudged};
ghost use Rattle.session_command.specs.Kept.{IsKept};

use crate::keeping::{is_idle, keep_line};
use crate::line_readers::LineReader;
use plan_form::{PlanFault, PlanKind, parse};
use run_command::Stop;
use session_form::{is_go, is_title};
use std::alloc::{AllocError, Global};
use stream_port::Source;

/// What is next in a session.
#[derive(Drop)]
pub enum Next {
    /// A batch, as the text of a plan with the run 1; of one that is longer than a plan may be, a front that
    /// is.
    Batch(Vec<u8>),
    /// The input ended after the last `go`.
    Ended,
    /// It ended in a batch without one, at this line.
    Cut { line: u64 },
}

/// The input of a session, after its head.
#[derive(Drop)]
pub struct SessionInput {
    pub reader: LineReader,
    /// The head of a plan with the run 1 over the session's nodes.
    pub head: Vec<u8>,
    /// How many lines were read.
    pub lines: u64,
}

// The head of a plan with the run 1 and these two lines.
fn head_text(alloc: Global, repositories: &[u8], brokers: &[u8]) -> Result<Vec<u8>, AllocError>
    ensures { IfOk result (λ v. (r b : List ℕ) → IsKept repositories.now r → IsKept brokers.now b →
        IsKept v.items (batch_text r b [])) }
{
    let mut text = Vec::new(alloc);
    text.extend_from_slice(b"swallow plan 1\nrun 1\n")?;
    keep_line(&mut text, repositories)?;
    keep_line(&mut text, brokers)?;
    Ok(text)
}

// Whether the head is a plan without a batch. A plan has one line more before it than a session.
fn judge(alloc: Global, head: &[u8]) -> Result<(), Stop>
    ensures { IsJudged head.now result }
{
    match parse(alloc, head) {
        Ok(_) => Ok(()),
        Err(PlanFault::Fault { line, kind }) => Err(Stop::Fault {
            line: line.saturating_sub(1),
            kind,
        }),
        Err(PlanFault::NoMemory) => Err(Stop::NoMemory),
    }
}

fn fault(line: u32, kind: PlanKind) -> Stop
    ensures { result ≡ Stop.Fault line kind }
{
    Stop::Fault { line, kind }
}

fn are_both(a: bool, b: bool) -> bool
    ensures { result ≡ (a && b) }
{
    a && b
}

// What is next where the input ended after so many lines, idle ones alone or not, and this last one.
fn end_in(lines: u64, are_idle: bool, last: &[u8]) -> Next
    ensures { EndsIn lines are_idle last.now result }
{
    if are_idle {
        return Next::Ended;
    }
    let more = if last.is_empty() { 1 } else { 2 };
    Next::Cut {
        line: lines.saturating_add(more),
    }
}

impl SessionInput {
    /// Reads the head of a session, its three lines.
    pub fn begin<I: Source>(alloc: Global, source: &mut I) -> Result<SessionInput, Stop>
        ensures head { HasHead (I.left source.old) (I.left source.new) result }
        ensures cause { IsErrOf result Stop.Source → Rose (I.faults source.old) (I.faults source.new) }
        ensures later { I.faults source.old ≤ I.faults source.new }
    {
        let mut reader = LineReader::new(alloc);
        let title = reader.read_line(alloc, source)?;
        if !title.is_ended || !is_title(title.bytes.as_slice()) {
            return Err(fault(1, PlanKind::Header));
        }
        let repositories = reader.read_line(alloc, source)?;
        if !repositories.is_ended {
            return Err(fault(2, PlanKind::Repositories));
        }
        let brokers = reader.read_line(alloc, source)?;
        if !brokers.is_ended {
            return Err(fault(3, PlanKind::Brokers));
        }
        let head = head_text(
            alloc,
            repositories.bytes.as_slice(),
            brokers.bytes.as_slice(),
        )?;
        match judge(alloc, head.as_slice()) {
            Ok(()) => Ok(SessionInput {
                reader,
                head,
                lines: 3,
            }),
            Err(stop) => Err(stop),
        }
    }

    /// Reads the next batch, up to the line that ends it.
    pub fn read_batch<I: Source>(&mut self, alloc: Global, source: &mut I) -> Result<Next, Stop>
        ensures next { IfOk result (HasRead (prepend_known (ahead self.old.reader) (I.left source.old))
            (prepend_known (ahead self.new.reader) (I.left source.new)) self.old.head.items self.old.lines
            self.new.lines) }
        ensures head { self.new.head.items ≡ self.old.head.items }
        ensures error { OnErr result (IsErrOf result Stop.Source ⊎ IsErrOf result Stop.NoMemory) }
        ensures cause { IsErrOf result Stop.Source → Rose (I.faults source.old) (I.faults source.new) }
        ensures later { I.faults source.old ≤ I.faults source.new }
    {
        let _lines = self.lines;
        let mut text = Vec::new(alloc);
        text.extend_from_slice(self.head.as_slice())?;
        let mut is_idle_yet = true;
        for _ in 0..u64::MAX {
            let line = self.reader.read_line(alloc, source)?;
            let is_idle_now = are_both(is_idle_yet, is_idle(line.bytes.as_slice()));
            if !line.is_ended {
                return Ok(end_in(self.lines, is_idle_now, line.bytes.as_slice()));
            }
            self.lines = self.lines.saturating_add(1);
            if is_go(line.bytes.as_slice()) {
                return Ok(Next::Batch(text));
            }
            is_idle_yet = is_idle_now;
            keep_line(&mut text, line.bytes.as_slice())?;
        }
        Err(Stop::NoMemory)
    }
}
