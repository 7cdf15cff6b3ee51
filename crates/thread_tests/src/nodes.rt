//! Two nodes at the same time, each on a thread of its own.
ghost use Rattle.std.specs.Prelude.{◌≡◌, true, false, Some, IsTrue, IfOk, IfSome};
ghost use Rattle.pseudo_time.specs.Nodes.{repository, broker};
ghost use Rattle.wire_lock.specs.Sights.{IsWirePass};
ghost use Rattle.thread_tests.specs.Passes.{IsAt};

use crate::passes::{
    BROKER, HOME, Started, TestClosed, TestPass, TestShared, attempt, begin, begun, end, goes,
    out_of, sends, start, takes,
};
use pseudo_time::{NodeId, NodeKind, Stamp};
use std::alloc::{AllocError, Global};
use std::sync::Wait;
use std::test::*;
use std::thread::{self, Threads, join};
use wire_core::Taken;
use world_core::Entry;

/// What a thread owns, and works on beside what it shares with the other.
trait Turns<L> {
    // Where it begins.
    ghost ready: { L → Self → Type 0 };

    // Where it ends.
    ghost done: { L → Self → Type 0 };

    fn turns<R: Wait>(self, rt: &R, alloc: Global, shared: &L) -> Self
        requires ready { ready shared.now self }
        ensures done { done shared.now result };
}

// Both at the same time.
fn by_two<L: Sync, S: Turns<L> + Drop + Send, R: Threads + Wait + Sync>(
    rt: &R,
    alloc: Global,
    shared: &L,
    one: S,
    other: S,
) -> (S, S)
    requires one { S.ready shared.now one }
    requires other { S.ready shared.now other }
    ensures one { S.done shared.now result.0 }
    ensures other { S.done shared.now result.1 }
{
    join(
        rt,
        || -> S
            requires { S.ready shared.now one }
            ensures { S.done shared.entry.now result }
        { one.turns(rt, alloc, shared) },
        || -> S
            requires { S.ready shared.now other }
            ensures { S.done shared.entry.now result }
        { other.turns(rt, alloc, shared) },
    )
}

/// A node with its pass, which is gone where memory ran out.
#[derive(Drop)]
struct Hand {
    node: NodeId,
    pass: Option<TestPass>,
}

impl Turns<TestShared> for Hand {
    ghost use Rattle.std.specs.Prelude.{◌≡◌, false, IfSome};
    ghost use Rattle.wire_lock.specs.Sights.{IsWirePass};
    ghost use Rattle.thread_tests.specs.Passes.{IsAt};
    ghost use Rattle.thread_tests.specs.Passes.{IsOne};

    ghost ready = { λ wire h. IsOne h.node × IfSome h.pass (IsAt wire.lock h.node false false) };

    ghost done = { λ wire h. IfSome h.pass (IsWirePass wire.lock) };

    fn turns<R: Wait>(self, rt: &R, alloc: Global, shared: &TestShared) -> Hand {
        let Hand { node, pass } = self;
        let Some(pass) = pass else {
            return Hand { node, pass: None };
        };
        let pass = match node.kind {
            NodeKind::Broker => asks(rt, alloc, shared, pass).ok(),
            NodeKind::Repository => answers(rt, alloc, shared, pass).ok(),
        };
        Hand { node, pass }
    }
}

// The repository takes until its copy comes.
fn awaits(rt: &impl Wait, wire: &TestShared, pass: TestPass) -> Result<TestPass, AllocError>
    requires { IsAt wire.now.lock (repository 1) false false pass }
    ensures { IfOk result (IsAt wire.now.lock (repository 1) false true) }
{
    let mut pass = pass;
    for _ in rt.forever() {
        let (back, taken) = takes(rt, wire, HOME, pass)?;
        match taken {
            Taken::Arrived(_) => return Ok(back),
            Taken::Nothing => pass = back,
            Taken::Behind => return Err(AllocError),
        }
        thread::yield_now();
    }
    unreachable!()
}

// The repository takes what it is asked, and decides.
fn answers(
    rt: &impl Wait,
    alloc: Global,
    wire: &TestShared,
    pass: TestPass,
) -> Result<TestPass, AllocError>
    requires { IsAt wire.now.lock (repository 1) false false pass }
    ensures { IfOk result (IsWirePass wire.now.lock) }
{
    let pass = awaits(rt, wire, pass)?;
    let message = begun()?;
    let outs = out_of(alloc, BROKER, message)?;
    sends(rt, wire, HOME, pass, outs, &[(attempt()?, true)])
}

// Tests until the decision stands on the board.
fn tests(rt: &impl Wait, wire: &TestShared, pass: TestPass, stamp: Stamp) -> TestPass
    requires { IsAt wire.now.lock (broker 1) true false pass }
    ensures { IsAt wire.now.lock (broker 1) true false result }
{
    let mut pass = pass;
    for _ in rt.forever() {
        if wire.decided(&mut pass, stamp) == Some(true) {
            return pass;
        }
        thread::yield_now();
    }
    unreachable!()
}

// The broker asks, waits for the decision, and takes the answer.
fn asks(
    rt: &impl Wait,
    alloc: Global,
    wire: &TestShared,
    pass: TestPass,
) -> Result<TestPass, AllocError>
    requires { IsAt wire.now.lock (broker 1) false false pass }
    ensures { IfOk result (IsWirePass wire.now.lock) }
{
    let pass = goes(rt, wire, pass)?;
    let message = begin()?;
    let outs = out_of(alloc, HOME, message)?;
    let pass = sends(rt, wire, BROKER, pass, outs, &[])?;
    let pass = tests(rt, wire, pass, attempt()?);
    // The decision was posted after the repository's gate: the answer is due by now.
    let (pass, taken) = takes(rt, wire, BROKER, pass)?;
    let Taken::Arrived(arrival) = taken else {
        return Err(AllocError);
    };
    if arrival.message != begun()? {
        return Err(AllocError);
    }
    sends(rt, wire, BROKER, pass, Vec::new(alloc), &[])
}

/// What happens, however the threads take turns.
const ENTRIES: [Entry; 6] = [
    Entry::Go { node: BROKER },
    Entry::Gate { node: BROKER },
    Entry::Take {
        node: HOME,
        number: 1,
    },
    Entry::Gate { node: HOME },
    Entry::Take {
        node: BROKER,
        number: 2,
    },
    Entry::Gate { node: BROKER },
];

fn two_nodes<R: Threads + Wait + Sync>(rt: &R, alloc: Global) -> Result<TestClosed, Fail> {
    let Started {
        wire,
        home,
        broker,
        conductor,
    } = start(alloc)?;
    let home = Hand {
        node: HOME,
        pass: Some(home),
    };
    let broker = Hand {
        node: BROKER,
        pass: Some(broker),
    };
    let (home, broker) = by_two(rt, alloc, &wire, home, broker);
    let home = home.pass.ok_or("the repository's pass")?;
    let broker = broker.pass.ok_or("the broker's pass")?;
    Ok(end(alloc, wire, home, broker, conductor)?)
}

#[test]
fn two_threads_take_gate_and_test(rt: HostRuntime) -> Result<(), Fail> {
    let closed = two_nodes(&rt, rt.alloc())?;
    let trace = closed.told.trace();
    assert!(rt; trace.entries.as_slice() == ENTRIES.as_slice());
    assert_eq!(rt; trace.sent.as_slice().len(), 2);
    assert!(rt; closed.idle);
    Ok(())
}
