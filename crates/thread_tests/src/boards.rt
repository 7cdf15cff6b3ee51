//! Decisions on the board of a shared wire.
ghost use Rattle.std.specs.Prelude.{◌≡◌, true, false, IfOk};
ghost use Rattle.pseudo_time.specs.Nodes.{broker};
ghost use Rattle.wire_lock.specs.Sights.{IsWirePass};
ghost use Rattle.thread_tests.specs.Passes.{IsAt};

use crate::passes::{BROKER, Started, TestClosed, TestPass, TestShared, end, goes, sends, start};
use pseudo_time::Stamp;
use std::alloc::{AllocError, Global};
use std::sync::Wait;
use std::test::*;
use world_core::Entry;

// The attempt with this clock.
fn stamp_of(clock: u64) -> Result<Stamp, AllocError> {
    Stamp::new(clock, 1, 1).ok_or(AllocError)
}

/// Decisions of two stamps that share a word.
#[derive(Clone, Copy, PartialEq, Eq)]
struct Pair {
    first: Option<bool>,
    later: Option<bool>,
}

/// What is posted, the first one first, and what the board tells then.
const POSTED: &[(Option<bool>, Option<bool>, Option<bool>, Option<bool>)] = &[
    (None, None, None, None),
    (Some(true), None, Some(true), None),
    (Some(false), None, Some(false), None),
    (None, Some(true), None, Some(true)),
    (Some(true), Some(false), None, Some(false)),
];

// The decisions of the stamps 1.1.1 and 4097.1.1.
fn decides_of(alloc: Global, pair: Pair) -> Result<Vec<(Stamp, bool)>, AllocError> {
    let mut decides = Vec::new(alloc);
    if let Some(committed) = pair.first {
        decides.push((stamp_of(1)?, committed))?;
    }
    if let Some(committed) = pair.later {
        decides.push((stamp_of(4097)?, committed))?;
    }
    Ok(decides)
}

// The broker goes, and its gate posts these.
fn posts(
    rt: &impl Wait,
    alloc: Global,
    wire: &TestShared,
    pass: TestPass,
    decides: &[(Stamp, bool)],
) -> Result<TestPass, AllocError>
    requires { IsAt wire.now.lock (broker 1) false false pass }
    ensures { IfOk result (IsAt wire.now.lock (broker 1) true false) }
{
    let pass = goes(rt, wire, pass)?;
    sends(rt, wire, BROKER, pass, Vec::new(alloc), decides)
}

// What the board tells of these stamps.
fn told_of(wire: &TestShared, pass: &mut TestPass, first: Stamp, later: Stamp) -> Pair
    requires { IsWirePass wire.now.lock pass.old }
    ensures { IsWirePass wire.now.lock pass.new }
{
    Pair {
        first: wire.decided(pass, first),
        later: wire.decided(pass, later),
    }
}

// Whether the broker went and gated, and no more happened.
fn went(closed: TestClosed) -> bool {
    let entries = closed.told.trace().entries.as_slice();
    closed.idle && entries == [Entry::Go { node: BROKER }, Entry::Gate { node: BROKER }].as_slice()
}

// Whether the board tells this, to the node that posted and to the other, after a gate of these.
fn tells(rt: &impl Wait, alloc: Global, posted: Pair, told: Pair) -> Result<bool, AllocError> {
    let first = stamp_of(1)?;
    let later = stamp_of(4097)?;
    let decides = decides_of(alloc, posted)?;
    let Started {
        wire,
        mut home,
        broker,
        conductor,
    } = start(alloc)?;
    let before = wire.decided(&mut home, first);
    let mut pass = posts(rt, alloc, &wire, broker, decides.as_slice())?;
    let here = told_of(&wire, &mut pass, first, later);
    let there = told_of(&wire, &mut home, first, later);
    let closed = end(alloc, wire, home, pass, conductor)?;
    Ok(went(closed) && before.is_none() && here == told && there == told)
}

#[test]
fn decisions_that_share_a_word(rt: HostRuntime) -> Result<(), Fail> {
    let alloc = rt.alloc();
    for (first, later, first_told, later_told) in POSTED {
        let posted = Pair {
            first: *first,
            later: *later,
        };
        let told = Pair {
            first: *first_told,
            later: *later_told,
        };
        assert!(rt; tells(&rt, alloc, posted, told)?);
    }
    Ok(())
}
