//! Cases of one object's history: calls, and what they say.
ghost use Rattle.std.specs.Prelude.{◌≡◌, List, OnErr};
ghost use Rattle.pseudo_time.specs.TimeParts.{TimeParts};
ghost use Rattle.value_form.specs.declared.objects.ObjectId.{ObjectId};
ghost use Rattle.object_history.specs.declared.marks.Mark.{Mark};
ghost use Rattle.object_history.specs.Answers.{after_read};
ghost use Rattle.object_history.specs.Ranges.{IsReadStep};

use object_history::{Histories, HistoryFault, Mark, PlainHistories, ReadStep, WriteStep};
use pseudo_time::{PseudoTime, Stamp};
use std::alloc::{AllocError, Global};
use std::test::*;
use value_form::{ObjectId, Value};

/// The object of every row.
pub const OBJECT: ObjectId = ObjectId {
    repository: 1,
    number: 1,
};

/// A pseudotime of home 1: its clock, its broker and its step.
pub type Time = (u64, u8, u32);

/// A call with its arguments.
#[derive(Clone, Copy)]
pub enum Call {
    Read(Time),
    Write(Time, i64),
    Stands(Time, i64),
    Settle(u64, u8, bool),
    Settled(u64, u8),
}

/// What a call says.
#[derive(Clone, Copy, Debug, PartialEq, Eq)]
pub enum Said {
    Done,
    Nothing(bool),
    Value(i64, bool),
    Wait(u64, u8),
    Put,
    Again,
    LaterVersion(Time),
    LaterRead(Time),
    Stands(bool),
    Settled(Option<bool>),
    Fault,
}

pub fn time((clock, broker, step): Time) -> Result<PseudoTime, HistoryFault> {
    let Some(stamp) = Stamp::new(clock, broker, 1) else {
        return Err(HistoryFault::Medium);
    };
    PseudoTime::new(stamp, step).ok_or(HistoryFault::Medium)
}

fn parts(time: PseudoTime) -> Time {
    let stamp = time.stamp();
    (stamp.clock(), stamp.broker(), time.step())
}

fn said_of_value(value: &Value, stretch: bool) -> Said {
    match value {
        Value::Nothing => Said::Nothing(stretch),
        Value::Number(number) => Said::Value(*number, stretch),
        Value::Text(_) => Said::Fault,
    }
}

fn said_of_read(step: &ReadStep) -> Said {
    match step {
        ReadStep::Answer { value, stretch } => said_of_value(value, *stretch),
        ReadStep::Wait { stamp } => Said::Wait(stamp.clock(), stamp.broker()),
        ReadStep::LaterRead { end } => Said::LaterRead(parts(*end)),
    }
}

fn said_of_write(step: WriteStep) -> Said {
    match step {
        WriteStep::Put => Said::Put,
        WriteStep::Again => Said::Again,
        WriteStep::LaterVersion { start } => Said::LaterVersion(parts(start)),
        WriteStep::LaterRead { end } => Said::LaterRead(parts(end)),
    }
}

// Settles a stamp that isn't decided yet, whatever the histories tell.
fn settle_first<H: Histories>(
    histories: &mut H,
    stamp: Stamp,
    committed: bool,
) -> Result<(), HistoryFault>
    ensures err { OnErr result (H.content histories.new ≡ H.content histories.old) }
    ensures below { H.below histories.new ≡ H.below histories.old }
{
    match histories.settled(stamp) {
        Some(_) => Ok(()),
        None => histories.settle(stamp, committed),
    }
}

// What histories say to a call.
pub fn asked<H: Histories>(histories: &mut H, call: Call) -> Result<Said, HistoryFault> {
    match call {
        Call::Read(at) => {
            let step = histories.read(OBJECT, time(at)?)?;
            Ok(said_of_read(&step))
        }
        Call::Write(at, number) => {
            let step = histories.write(OBJECT, time(at)?, &Value::Number(number))?;
            Ok(said_of_write(step))
        }
        Call::Stands(start, number) => {
            let stands = histories.stands(OBJECT, time(start)?, &Value::Number(number))?;
            Ok(Said::Stands(stands))
        }
        Call::Settle(clock, broker, committed) => {
            settle_first(histories, time((clock, broker, 1))?.stamp(), committed)?;
            Ok(Said::Done)
        }
        Call::Settled(clock, broker) => {
            Ok(Said::Settled(histories.settled(time((clock, broker, 1))?.stamp())))
        }
    }
}

/// The first place at which histories answer otherwise, and what they say there. A fault is an answer,
/// too.
pub fn differs<H: Histories>(histories: &mut H, answers: &[(Call, Said)]) -> Option<(usize, Said)> {
    for (place, (call, want)) in answers.iter().enumerate() {
        let got = asked(histories, *call).unwrap_or(Said::Fault);
        if got != *want {
            return Some((place, got));
        }
    }
    None
}

/// The same of histories that are not wanted any more.
pub fn differ<H: Histories + Drop>(
    histories: H,
    answers: &[(Call, Said)],
) -> Option<(usize, Said)> {
    let mut histories = histories;
    differs(&mut histories, answers)
}

// A committed version, and two floors above it.
fn floored(alloc: Global) -> Result<PlainHistories, HistoryFault> {
    let start = time((1, 1, 1))?;
    let mut marks = Vec::new(alloc);
    marks.push(Mark::Put(OBJECT, start, Value::Number(7)))?;
    marks.push(Mark::Settle(start.stamp(), true))?;
    marks.push(Mark::Floor(time((3, 1, 1))?))?;
    marks.push(Mark::Floor(time((2, 1, 1))?))?;
    Ok(PlainHistories::of(alloc, marks.as_slice())?)
}

/// The greatest floor counts: reads below it are refused, and it is the reach of the version.
pub const OF_FLOORED: &[(Call, Said)] = &[
    (Call::Read((2, 9, 1)), Said::LaterRead((3, 1, 1))),
    (Call::Write((2, 9, 1), 8), Said::LaterRead((3, 1, 1))),
    (Call::Read((3, 1, 1)), Said::Value(7, false)),
    (Call::Read((3, 2, 1)), Said::Value(7, true)),
    (Call::Write((3, 1, 2), 8), Said::LaterRead((3, 2, 1))),
    (Call::Write((4, 1, 1), 8), Said::Put),
];

#[test]
fn reads_below_a_floor(rt: HostRuntime) -> Result<(), Fail> {
    let histories = floored(rt.alloc())?;
    assert_eq!(rt; differ(histories, OF_FLOORED), None);
    Ok(())
}

/// Histories that tell nothing: they answer another value than was written, take no write, and
/// stand on something.
#[derive(Drop)]
struct Silent {
    marks: PlainHistories,
    writes: u64,
    pages: u32,
}

impl Histories for Silent {
    type Below = u32;

    ghost use Rattle.std.specs.Prelude.{false};

    ghost tells = { false };

    ghost content = { λ s. s.marks };

    ghost faults = { λ _. 0 };

    ghost damage = { λ s. s.writes };

    ghost below = { λ s. s.pages };

    fn read(&mut self, object: ObjectId, at: PseudoTime) -> Result<ReadStep, HistoryFault> {
        let step = self.marks.read(object, at)?;
        Ok(other_value(&step))
    }

    fn write(
        &mut self,
        _object: ObjectId,
        _at: PseudoTime,
        _value: &Value,
    ) -> Result<WriteStep, HistoryFault> {
        self.writes = self.writes.saturating_add(1);
        Err(HistoryFault::Damaged { page: 1 })
    }

    fn stands(
        &mut self,
        _object: ObjectId,
        _start: PseudoTime,
        _value: &Value,
    ) -> Result<bool, HistoryFault> {
        Ok(true)
    }

    fn settle(&mut self, stamp: Stamp, committed: bool) -> Result<(), HistoryFault> {
        self.marks.settle(stamp, committed)
    }

    fn settled(&self, stamp: Stamp) -> Option<bool> {
        self.marks.settled(stamp)
    }
}

// The same answer with the value 13.
fn other_value(step: &ReadStep) -> ReadStep
    ensures marks { (m : List Mark) (o : ObjectId) (t : TimeParts) →
        after_read m o t result ≡ after_read m o t step.now }
    ensures in_range { IsReadStep result }
{
    match step {
        ReadStep::Answer { stretch, .. } => ReadStep::Answer {
            value: Value::Number(13),
            stretch: *stretch,
        },
        ReadStep::Wait { stamp } => ReadStep::Wait { stamp: *stamp },
        ReadStep::LaterRead { end } => ReadStep::LaterRead { end: *end },
    }
}

/// What histories that tell nothing answer.
const OF_SILENT: &[(Call, Said)] = &[
    (Call::Read((2, 1, 1)), Said::Value(13, true)),
    (Call::Read((1, 1, 1)), Said::Value(13, false)),
    (Call::Write((1, 1, 1), 7), Said::Fault),
    (Call::Stands((1, 1, 1), 7), Said::Stands(true)),
    (Call::Settle(1, 1, true), Said::Done),
    (Call::Settled(1, 1), Said::Settled(Some(true))),
];

#[test]
fn histories_that_tell_nothing(rt: HostRuntime) {
    let mut histories = Silent {
        marks: PlainHistories::new(rt.alloc()),
        writes: 0,
        pages: 4,
    };
    assert_eq!(rt; differs(&mut histories, OF_SILENT), None);
    assert_eq!(rt; histories.writes, 1);
    assert_eq!(rt; histories.pages, 4);
}
