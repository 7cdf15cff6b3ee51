//! Cases of nodes: steps of a trace, and what they lead to.
ghost use Rattle.std.specs.Prelude.{◌≤◌, ◌^◌, IfOk};
ghost use Rattle.pseudo_time.specs.Lists.{Every};
ghost use Rattle.value_form.specs.Mirror.{block};
ghost use Rattle.script_form.specs.Printable.{IsPrintable};
ghost use Rattle.broker_core.specs.Ledgers.{IsBrokerAct};
ghost use Rattle.trace_logs.specs.Replays.{IsMoment, IsOnce, IsOpened};

use effect_form::{Effect, Outcome};
use pseudo_time::{Decision, NodeId, NodeKind, PseudoTime, Stamp};
use script_form::{law_of_lines, parse, print};
use std::alloc::{AllocError, Global};
use std::test::*;
use trace_logs::logs;
use value_form::{ActSpec, Items, ObjectId, Script, Value};
use world_core::{DownCause, Entry, Opened, Trace};

const HOME: NodeId = NodeId {
    kind: NodeKind::Repository,
    number: 1,
};

const BROKER: NodeId = NodeId {
    kind: NodeKind::Broker,
    number: 1,
};

const STRANGER: NodeId = NodeId {
    kind: NodeKind::Repository,
    number: 2,
};

const OBJECT: ObjectId = ObjectId {
    repository: 1,
    number: 7,
};

/// What happens next, and how many effects the durable logs of the repository and of the broker then
/// have.
type Step = (Next, usize, usize);

#[derive(Clone, Copy)]
enum Next {
    Take(NodeId, u32),
    Go(NodeId),
    Learn(NodeId),
    Hear(NodeId),
    Gate(NodeId),
    Crash(NodeId, u32),
    Down(NodeId),
    Tick(u64),
}

fn script_of(alloc: Global) -> Result<Script, AllocError>
    ensures { IfOk result (λ s. IsPrintable 16 (block s.lines)) }
{
    law_of_lines();
    let text = b"write 1.7 10\nread x 1.7\nprint x\n".as_slice();
    match parse(alloc, text) {
        Ok(script) => Ok(script),
        Err(_) => Err(AllocError),
    }
}

fn act_of(alloc: Global) -> Result<ActSpec, AllocError>
    ensures { IfOk result (λ a. IsBrokerAct a) }
{
    let script = script_of(alloc)?;
    Ok(ActSpec {
        index: 1,
        broker: 1,
        home: 1,
        timeout: 5,
        tries: 3,
        clock: 1,
        script,
    })
}

fn stamp_of() -> Result<Stamp, AllocError> {
    let stamp = Stamp::new(1, 1, 1).ok_or(AllocError)?;
    Ok(stamp)
}

fn time_of(step: u32) -> Result<PseudoTime, AllocError> {
    let time = PseudoTime::new(stamp_of()?, step).ok_or(AllocError)?;
    Ok(time)
}

// The effect of the repository at this place of its log; the record's deadline is 5.
fn home_effect(place: usize) -> Result<Effect, AllocError> {
    match place {
        0 => Ok(Effect::Begin {
            stamp: stamp_of()?,
            deadline: 5,
        }),
        1 => Ok(Effect::Put {
            object: OBJECT,
            start: time_of(1)?,
            value: Value::Number(10),
        }),
        2 => Ok(Effect::Stretch {
            object: OBJECT,
            at: time_of(2)?,
        }),
        _ => Ok(Effect::Decide {
            stamp: stamp_of()?,
            decision: Decision::Committed,
        }),
    }
}

// The effect of the broker at this place of its log.
fn broker_effect(alloc: Global, place: usize) -> Result<Effect, AllocError> {
    match place {
        0 => Ok(Effect::Run { number: 1 }),
        1 => {
            let script = script_of(alloc)?;
            let script = print(alloc, &script)?;
            Ok(Effect::Act {
                index: 1,
                home: 1,
                timeout: 5,
                tries: 3,
                clock: 1,
                script,
            })
        }
        2 => Ok(Effect::Try {
            index: 1,
            stamp: stamp_of()?,
        }),
        3 => Ok(Effect::Acked { step: 1 }),
        4 => Ok(Effect::Got {
            step: 2,
            value: Value::Number(10),
        }),
        _ => Ok(Effect::End {
            index: 1,
            outcome: Outcome::Committed,
        }),
    }
}

fn entry_of(next: Next) -> Result<Entry, AllocError>
    ensures { IfOk result IsMoment }
{
    match next {
        Next::Take(node, number) => Ok(Entry::Take { node, number }),
        Next::Go(node) => Ok(Entry::Go { node }),
        Next::Learn(node) => Ok(Entry::Learn {
            node,
            stamp: stamp_of()?,
            committed: false,
        }),
        Next::Hear(node) => Ok(Entry::Hear { node }),
        Next::Gate(node) => Ok(Entry::Gate { node }),
        Next::Crash(node, kept) => Ok(Entry::Crash { node, kept }),
        Next::Down(node) => Ok(Entry::Down {
            node,
            cause: DownCause::Medium,
        }),
        Next::Tick(moment) => Ok(Entry::Tick {
            moment: moment.min(1000),
        }),
    }
}

fn entries_of(alloc: Global, steps: &[Step]) -> Result<Vec<Entry>, AllocError>
    ensures { IfOk result (λ entries. Every IsMoment entries.items) }
{
    let mut entries = Vec::new(alloc);
    for step in steps {
        let entry = entry_of(step.0)?;
        entries.push(entry)?;
    }
    Ok(entries)
}

// One repository and one broker, with empty logs.
fn blank(alloc: Global) -> Result<Vec<Opened>, AllocError>
    ensures each { IfOk result (λ opened. Every IsOpened opened.items) }
    ensures once { IfOk result (λ opened. IsOnce opened.items) }
{
    let mut opened = Vec::new(alloc);
    opened.push(Opened {
        node: HOME,
        effects: Items::of(Vec::new(alloc)),
    })?;
    opened.push(Opened {
        node: BROKER,
        effects: Items::of(Vec::new(alloc)),
    })?;
    Ok(opened)
}

// The logs after these steps.
fn logs_after(alloc: Global, steps: &[Step]) -> Result<Vec<Opened>, AllocError> {
    let act = act_of(alloc)?;
    let opened = blank(alloc)?;
    let entries = entries_of(alloc, steps)?;
    let trace = Trace {
        start: 0,
        opened: Items::of(opened),
        sent: Items::of(Vec::new(alloc)),
        entries: Items::of(entries),
    };
    logs(alloc, 1, &[act], &trace)
}

fn is_home_log(effects: &[Effect], count: usize) -> Result<bool, AllocError> {
    for place in 0..effects.len() {
        if effects[place] != home_effect(place)? {
            return Ok(false);
        }
    }
    Ok(effects.len() == count)
}

fn is_broker_log(alloc: Global, effects: &[Effect], count: usize) -> Result<bool, AllocError> {
    for place in 0..effects.len() {
        if effects[place] != broker_effect(alloc, place)? {
            return Ok(false);
        }
    }
    Ok(effects.len() == count)
}

// After each step the logs are as it says.
fn goes(alloc: Global, steps: &[Step]) -> Result<bool, AllocError> {
    for place in 0..steps.len() {
        let step = steps[place];
        let logs = logs_after(alloc, &steps[..place + 1])?;
        let [home, broker] = logs.as_slice() else {
            return Ok(false);
        };
        let right = home.node == HOME
            && broker.node == BROKER
            && is_home_log(home.effects.as_slice(), step.1)?
            && is_broker_log(alloc, broker.effects.as_slice(), step.2)?;
        if !right {
            return Ok(false);
        }
    }
    Ok(true)
}

// The act is begun, and writes and reads.
const FRONT: &[Step] = &[
    (Next::Go(BROKER), 0, 0),
    (Next::Gate(BROKER), 0, 3),
    (Next::Take(HOME, 1), 0, 3),
    (Next::Gate(HOME), 1, 3),
    (Next::Take(BROKER, 2), 1, 3),
    (Next::Gate(BROKER), 1, 3),
    (Next::Take(HOME, 3), 1, 3),
    (Next::Gate(HOME), 2, 3),
    (Next::Take(BROKER, 4), 2, 3),
    (Next::Gate(BROKER), 2, 4),
    (Next::Take(HOME, 5), 2, 4),
    (Next::Gate(HOME), 3, 4),
    (Next::Take(BROKER, 6), 3, 4),
    (Next::Gate(BROKER), 3, 5),
    (Next::Take(HOME, 7), 3, 5),
];

// It is carried out, and nothing is lost.
const WHOLE: &[Step] = &[
    (Next::Gate(HOME), 4, 5),
    (Next::Take(BROKER, 8), 4, 5),
    (Next::Gate(BROKER), 4, 6),
];

// The repository stops where it adds its Decide, and the Commit is sent again at the next tick.
const STOPPED: &[Step] = &[
    (Next::Crash(HOME, 0), 3, 5),
    (Next::Tick(1), 3, 5),
    (Next::Hear(HOME), 3, 5),
    (Next::Gate(HOME), 3, 5),
    (Next::Hear(BROKER), 3, 5),
    (Next::Gate(BROKER), 3, 5),
    (Next::Take(HOME, 8), 3, 5),
    (Next::Gate(HOME), 4, 5),
    (Next::Take(BROKER, 9), 4, 5),
    (Next::Gate(BROKER), 4, 6),
];

// After each step of the front and of this rest the logs are as it says.
fn goes_on(alloc: Global, rest: &[Step]) -> Result<bool, AllocError> {
    let mut steps = FRONT.to_vec(alloc)?;
    steps.extend_from_slice(rest)?;
    goes(alloc, steps.as_slice())
}

// Entries that no legal trace has, and that give nothing; and a crash that keeps more than there is.
const IDLE: &[Step] = &[
    (Next::Go(BROKER), 0, 0),
    (Next::Hear(BROKER), 0, 0),
    (Next::Go(HOME), 0, 0),
    (Next::Take(HOME, 1), 0, 0),
    (Next::Take(HOME, 0), 0, 0),
    (Next::Learn(BROKER), 0, 0),
    (Next::Go(STRANGER), 0, 0),
    (Next::Down(BROKER), 0, 0),
    (Next::Gate(STRANGER), 0, 0),
    (Next::Gate(HOME), 0, 0),
    (Next::Crash(BROKER, 9), 0, 3),
    (Next::Gate(BROKER), 0, 3),
    (Next::Take(HOME, 1), 0, 3),
    (Next::Gate(HOME), 0, 3),
];

#[test]
fn logs_after_each_entry(rt: HostRuntime) -> Result<(), Fail> {
    let alloc = rt.alloc();
    assert!(rt; goes_on(alloc, WHOLE)?);
    assert!(rt; goes_on(alloc, STOPPED)?);
    assert!(rt; goes(alloc, IDLE)?);
    Ok(())
}
