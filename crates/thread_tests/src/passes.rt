//! A run of one repository and one broker, what their passes may do, and its end.
ghost use Rattle.std.specs.Prelude.{◌≡◌, true, false, length, IfOk, OnOk};
ghost use Rattle.pseudo_time.specs.Nodes.{repository, broker, is_broker};
ghost use Rattle.message_form.specs.Messages.{IsMessage};
ghost use Rattle.message_form.specs.Ranges.{AreOuts};
ghost use Rattle.seat_lock.specs.Words.{base_of};
ghost use Rattle.wire_core.specs.Wires.{IsNew};
ghost use Rattle.wire_lock.specs.Sights.{IsWirePass};
ghost use Rattle.thread_tests.specs.Passes.{AfterTaking, IsAt, blank_two};

use medium_port::MeetMedium;
use message_form::{Message, Out};
use pseudo_time::{NodeId, NodeKind, Stamp};
use std::alloc::{AllocError, Global};
use std::sync::Wait;
use stream_port::{FixedClock, MemoryFates};
use value_form::Items;
use wire_core::{Taken, Wire};
use wire_lock::{Closed, SharedWire, WirePass};
use world_core::Opened;

/// Over media of which contracts know nothing, so that a test may send what it likes.
type TestWire = Wire<MemoryFates, FixedClock, MeetMedium>;

pub type TestShared = SharedWire<MemoryFates, FixedClock, MeetMedium>;

pub type TestPass = WirePass<MemoryFates, FixedClock, MeetMedium>;

pub type TestClosed = Closed<MemoryFates, FixedClock>;

pub const HOME: NodeId = NodeId {
    kind: NodeKind::Repository,
    number: 1,
};

pub const BROKER: NodeId = NodeId {
    kind: NodeKind::Broker,
    number: 1,
};

/// A run that begins.
#[derive(Drop)]
pub struct Started {
    pub wire: TestShared,
    pub home: TestPass,
    pub broker: TestPass,
    pub conductor: TestPass,
}

// One repository and one broker, with empty logs.
fn blank(alloc: Global) -> Result<Vec<Opened>, AllocError>
    ensures { IfOk result (λ opened. opened.items ≡ blank_two) }
{
    let mut opened = Vec::new(alloc);
    opened.push(Opened {
        node: HOME,
        effects: Items::of(Vec::new(alloc)),
    })?;
    opened.push(Opened {
        node: BROKER,
        effects: Items::of(Vec::new(alloc)),
    })?;
    Ok(opened)
}

// A wire of a run of them that begins at moment 0, in which each message has one copy.
fn wire_of(alloc: Global) -> Result<TestWire, AllocError>
    ensures empty { IfOk result IsNew }
    ensures opened { IfOk result (λ w. w.origin.opened ≡ blank_two) }
{
    let fates = MemoryFates::new(alloc, Vec::new(alloc));
    match Wire::new(
        alloc,
        1,
        &Items::of(Vec::new(alloc)),
        blank(alloc)?,
        fates,
        FixedClock::new(0),
    ) {
        Ok(wire) => Ok(wire),
        Err((_, _, failed)) => Err(failed),
    }
}

/// A run of one repository and one broker.
pub fn start(alloc: Global) -> Result<Started, AllocError>
    ensures two { IfOk result (λ s. length (base_of s.wire.lock).origin.opened ≡ 2) }
    ensures home { IfOk result (λ s. IsAt s.wire.lock (repository 1) false false s.home) }
    ensures broker { IfOk result (λ s. IsAt s.wire.lock (broker 1) false false s.broker) }
    ensures conductor { IfOk result (λ s. IsWirePass s.wire.lock s.conductor) }
{
    let Ok((wire, mut passes)) = SharedWire::new(alloc, wire_of(alloc)?) else {
        return Err(AllocError);
    };
    let conductor = passes.pop().ok_or(AllocError)?;
    let broker = passes.pop().ok_or(AllocError)?;
    let home = passes.pop().ok_or(AllocError)?;
    Ok(Started {
        wire,
        home,
        broker,
        conductor,
    })
}

/// Ends it. Its passes all came back, so nothing but memory may run out.
pub fn end(
    alloc: Global,
    wire: TestShared,
    home: TestPass,
    broker: TestPass,
    conductor: TestPass,
) -> Result<TestClosed, AllocError>
    requires two { length (base_of wire.lock).origin.opened ≡ 2 }
    requires home { IsWirePass wire.lock home }
    requires broker { IsWirePass wire.lock broker }
    requires conductor { IsWirePass wire.lock conductor }
{
    let mut passes = Vec::with_capacity(alloc, 3)?;
    passes.push_reserved(broker);
    passes.push_reserved(conductor);
    passes.push_reserved(home);
    match wire.close(passes) {
        Ok(closed) => Ok(closed),
        Err((_, _, failed)) => Err(failed),
    }
}

/// The broker goes, so that it has something to close.
pub fn goes(rt: &impl Wait, wire: &TestShared, pass: TestPass) -> Result<TestPass, AllocError>
    requires { IsAt wire.now.lock (broker 1) false false pass }
    ensures { IfOk result (IsAt wire.now.lock (broker 1) true true) }
{
    let (pass, went) = wire.go(rt, BROKER, pass);
    went?;
    Ok(pass)
}

/// The node sends these messages, and posts these decisions. A broker has gone by then.
pub fn sends(
    rt: &impl Wait,
    wire: &TestShared,
    node: NodeId,
    pass: TestPass,
    outs: Vec<Out>,
    decides: &[(Stamp, bool)],
) -> Result<TestPass, AllocError>
    requires at { IsAt wire.now.lock node (is_broker node.kind) true pass }
    requires outs { AreOuts outs.items }
    ensures { IfOk result (IsAt wire.now.lock node (is_broker node.kind) false) }
{
    let (pass, gated) = wire.gate(rt, node, pass, outs, decides);
    gated?;
    Ok(pass)
}

/// The node takes. A broker has gone by then.
pub fn takes(
    rt: &impl Wait,
    wire: &TestShared,
    node: NodeId,
    pass: TestPass,
) -> Result<(TestPass, Taken), AllocError>
    requires { IsAt wire.now.lock node (is_broker node.kind) false pass }
    ensures { IfOk result (λ r. AfterTaking wire.now.lock node (is_broker node.kind) r.0 r.1) }
{
    let (pass, taken, _) = wire.take(rt, node, pass);
    let taken = taken?;
    Ok((pass, taken))
}

/// The broker's attempt, whose home is the repository.
pub fn attempt() -> Result<Stamp, AllocError> {
    Stamp::new(1, 1, 1).ok_or(AllocError)
}

/// What the broker asks.
pub fn begin() -> Result<Message, AllocError>
    ensures { IfOk result IsMessage }
{
    Ok(Message::Begin {
        stamp: attempt()?,
        timeout: 5,
    })
}

/// What the repository answers.
pub fn begun() -> Result<Message, AllocError>
    ensures { IfOk result IsMessage }
{
    Ok(Message::Begun { stamp: attempt()? })
}

// Adds this message to that node.
fn add_out(outs: &mut Vec<Out>, to: NodeId, message: Message) -> Result<(), AllocError>
    requires message { IsMessage message }
    requires outs { AreOuts outs.old.items }
    ensures { OnOk result (AreOuts outs.new.items) }
{
    outs.push(Out { to, message })?;
    Ok(())
}

/// This message to that node.
pub fn out_of(alloc: Global, to: NodeId, message: Message) -> Result<Vec<Out>, AllocError>
    requires message { IsMessage message }
    ensures { IfOk result (λ outs. AreOuts outs.items) }
{
    let mut outs = Vec::new(alloc);
    add_out(&mut outs, to, message)?;
    Ok(outs)
}
