//! Cases of reports.
use pseudo_time::{DownCause, NodeId, NodeKind, PseudoTime, Stamp};
use report_writer::{ActReport, Down, Final, Report, TryOutcome, TryReport, Wire, write_report};
use std::alloc::Global;
use std::test::*;
use value_form::{Bytes, FailKind, Items, Line, ObjectId, Value};

const SEVEN: ObjectId = ObjectId {
    repository: 1,
    number: 7,
};

const LAST: ObjectId = ObjectId {
    repository: 16,
    number: 4_294_967_295,
};

fn stamp(clock: u64, broker: u8) -> Result<Stamp, Fail> {
    Ok(Stamp::new(clock, broker, 1).ok_or("in range")?)
}

fn time(clock: u64, broker: u8) -> Result<PseudoTime, Fail> {
    Ok(PseudoTime::new(stamp(clock, broker)?, 1).ok_or("in range")?)
}

fn attempt(clock: u64, outcome: TryOutcome, lines: Vec<Line>) -> Result<TryReport, Fail> {
    Ok(TryReport {
        stamp: stamp(clock, 1)?,
        outcome,
        lines: Items::of(lines),
    })
}

fn act(index: u32, allowed: u8, tries: Vec<TryReport>, spent: Option<u64>) -> ActReport {
    ActReport {
        index,
        broker: 1,
        home: 1,
        allowed,
        tries: Items::of(tries),
        spent,
    }
}

// An act with one attempt that ended so, of so many that are allowed.
fn tried(alloc: Global, index: u32, allowed: u8, outcome: TryOutcome) -> Result<ActReport, Fail> {
    let mut tries = Vec::new(alloc);
    tries.push(attempt(1, outcome, Vec::new(alloc))?)?;
    Ok(act(index, allowed, tries, None))
}

fn text_of(alloc: Global, report: &Report) -> Result<Vec<u8>, Fail> {
    Ok(write_report(alloc, report)?.into_vec())
}

#[test]
fn each_outcome_and_standing(rt: HostRuntime) -> Result<(), Fail> {
    let alloc = rt.alloc();
    let line = 4;
    let kind = FailKind::Overflow;
    let end = time(2, 16)?;
    let refused = TryOutcome::LaterRead { object: SEVEN, end };
    let version = TryOutcome::LaterVersion {
        object: LAST,
        start: time(1, 2)?,
    };
    let expired = TryOutcome::Expired {
        deadline: 1,
        moment: 18_446_744_073_709_551_615,
    };
    let mut acts = Vec::new(alloc);
    acts.push(tried(alloc, 1, 3, TryOutcome::Committed)?)?;
    acts.push(tried(alloc, 2, 3, TryOutcome::Withdrawn { line })?)?;
    acts.push(tried(alloc, 3, 3, TryOutcome::Failed { line, kind })?)?;
    acts.push(tried(alloc, 4, 1, refused)?)?;
    acts.push(tried(alloc, 5, 2, version)?)?;
    acts.push(tried(alloc, 6, 1, expired)?)?;
    acts.push(tried(alloc, 7, 2, expired)?)?;
    acts.push(tried(alloc, 8, 1, TryOutcome::Open)?)?;
    acts.push(act(9, 1, Vec::new(alloc), None))?;
    acts.push(act(10, 1, Vec::new(alloc), Some(1_099_511_627_775)))?;
    let report = Report {
        run: 4_294_967_295,
        acts: Items::of(acts),
        finals: Items::of(Vec::new(alloc)),
        downs: Items::of(Vec::new(alloc)),
        wire: None,
    };
    assert_eq!(rt;
        text_of(alloc, &report)?.as_slice(),
        b"swallow report 1\nrun 4294967295\nact 1 broker 1 home 1\ntry 1.1.1 committed\nact 2 broker 1 home 1\ntry 1.1.1 withdrawn line 4\nact 3 broker 1 home 1\ntry 1.1.1 failed line 4 overflow\nact 4 broker 1 home 1\ntry 1.1.1 refused later-read 1.7 2.16.1/1\nact 5 broker 1 home 1\ntry 1.1.1 refused later-version 16.4294967295 1.2.1/1\nact 6 broker 1 home 1\ntry 1.1.1 expired deadline 1 moment 18446744073709551615\nact 7 broker 1 home 1\ntry 1.1.1 expired deadline 1 moment 18446744073709551615\nact 8 broker 1 home 1\ntry 1.1.1 open\nact 9 broker 1 home 1\nact 10 broker 1 home 1\nspent 1099511627775\ntotals acts 10 committed 1 withdrawn 1 failed 1 refused 1 expired 1 spent 1 open 4\n".as_slice()
    );
    Ok(())
}

#[test]
fn tries_finals_downs_and_the_wire(rt: HostRuntime) -> Result<(), Fail> {
    let alloc = rt.alloc();
    let mut lines = Vec::new(alloc);
    lines.push(Line::Wrote(SEVEN, Value::Number(-10)))?;
    lines.push(Line::Read(LAST, Value::Nothing))?;
    lines.push(Line::Print(Value::Text(Bytes::of(b"a\"".as_slice().to_vec(alloc)?))))?;
    let mut tries = Vec::new(alloc);
    let end = time(1, 2)?;
    tries.push(attempt(
        1,
        TryOutcome::LaterRead { object: SEVEN, end },
        Vec::new(alloc),
    )?)?;
    tries.push(attempt(2, TryOutcome::Committed, lines)?)?;
    let mut acts = Vec::new(alloc);
    acts.push(act(1, 3, tries, None))?;
    let mut finals = Vec::new(alloc);
    for (object, value) in [(SEVEN, Value::Number(-10)), (LAST, Value::Nothing)] {
        finals.push(Final { object, value })?;
    }
    let mut downs = Vec::new(alloc);
    for (kind, number, cause) in [
        (NodeKind::Repository, 1, DownCause::Full { pages: 4 }),
        (NodeKind::Repository, 16, DownCause::Damaged { page: 0 }),
        (NodeKind::Broker, 2, DownCause::Medium),
    ] {
        downs.push(Down {
            node: NodeId { kind, number },
            cause,
        })?;
    }
    let report = Report {
        run: 1,
        acts: Items::of(acts),
        finals: Items::of(finals),
        downs: Items::of(downs),
        wire: Some(Wire {
            messages: 20,
            asks: 0,
            ticks: 1,
            crashes: 4_294_967_295,
        }),
    };
    assert_eq!(rt;
        text_of(alloc, &report)?.as_slice(),
        b"swallow report 1\nrun 1\nact 1 broker 1 home 1\ntry 1.1.1 refused later-read 1.7 1.2.1/1\ntry 2.1.1 committed\nwrote 1.7 -10\nread 16.4294967295 nothing\nprint \"a\\\"\"\nfinal 1.7 -10\ndown repository 1 full 4\ndown repository 16 damaged 0\ndown broker 2 medium\ntotals acts 1 committed 1 withdrawn 0 failed 0 refused 0 expired 0 spent 0 open 0\nwire messages 20 asks 0 ticks 1 crashes 4294967295\n".as_slice()
    );
    Ok(())
}
