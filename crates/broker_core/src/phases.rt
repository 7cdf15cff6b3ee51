//! The phases of a try.
ghost use Rattle.std.specs.Prelude.{◌≡◌, ◌≢◌, ◌≤◌, IfOk};
ghost use Rattle.std.specs.Option.{option_map};
ghost use Rattle.broker_ledger.specs.RunParts.{stop_of};
ghost use Rattle.broker_ledger.specs.Tests as tests;
ghost use Rattle.broker_core.specs.Stages as stages;
ghost use Rattle.broker_ledger.specs.Notes as notes;
ghost use Rattle.broker_ledger.specs.Ledgers.{AreNotes, kept};
ghost use Rattle.broker_core.specs.Phases as spec;
ghost use Rattle.broker_ledger.specs.Nodes as nodes;

use broker_ledger::{
    Heard, Last, Ledger, Next, NodeId, ObjectId, Outcome, PseudoTime, Stamp, Value, is_stamp,
};
use message_form::{Message, Out};
use std::alloc::{AllocError, Global};

/// The stage of the last try.
#[derive(Drop)]
pub enum Phase {
    /// There is none, or it is closed.
    Idle,
    /// Ended was heard for its current request.
    Refused,
    /// It has no answer, and no Begun was heard.
    Opening,
    Reading(ObjectId),
    Writing(ObjectId, Value),
    /// The script is finished.
    Finishing,
    /// The script has withdrawn or failed, and this End is owed.
    Stopping(Outcome),
    /// It ended without its home, and no Decided was heard.
    Closing,
}

impl Phase {
    /// Whether no request stands.
    pub fn is_quiet(&self) -> bool
        ensures { result ≡ spec.is_quiet self.now }
    {
        matches!(self, Phase::Idle | Phase::Stopping(_))
    }
}

fn is_time(heard: &Option<PseudoTime>, at: PseudoTime) -> bool
    ensures { result ≡ tests.is_time heard.now at }
{
    match heard {
        Some(known) => known.is_same(at),
        None => false,
    }
}

// The stage of the last try, where none is open.
fn phase_by_last(heard: &Heard, last: &Option<Last>) -> Phase
    ensures { result ≡ spec.phase_by_last heard.now last.now }
{
    match last {
        Some(last) if last.end.is_some() && !last.is_closed(heard) => Phase::Closing,
        _ => Phase::Idle,
    }
}

// The stage of a try that has begun, by where its script stops.
fn phase_of(next: Next) -> Phase
    ensures { result ≡ spec.phase_of (stop_of next) }
{
    match next {
        Next::Read(object) => Phase::Reading(object),
        Next::Write(object, value) => Phase::Writing(object, value),
        Next::Finished => Phase::Finishing,
        Next::Withdrawn { line } => Phase::Stopping(Outcome::Withdrawn { line }),
        Next::Failed { line, kind } => Phase::Stopping(Outcome::Failed { line, kind }),
    }
}

fn is_asking(next: &Next) -> bool
    ensures { result ≡ stages.is_asking (stop_of next.now) }
{
    matches!(next, Next::Read(_) | Next::Write(_, _))
}

// The stage of the open try.
fn phase_by_open(ledger: &mut Ledger, heard: &Heard, last: Last) -> Result<Phase, AllocError>
    requires tried { ledger.old.notes.tries ≢ 0 }
    requires few { last.answered ≤ 10000 }
    ensures same { ledger.new ≡ ledger.old }
    ensures phase { IfOk result (λ p. p ≡
        spec.phase_by_stop heard.now last (notes.stop_at ledger.old.acts ledger.old.notes
        (kept ledger.old.notes ledger.old.answers))) }
{
    let is_over_there = is_time(&heard.ended, last.time());
    let is_opening = last.answered == 0 && !is_stamp(&heard.begun, last.stamp);
    if is_opening && !is_over_there {
        return Ok(Phase::Opening);
    }
    let next = ledger.stop()?;
    if is_over_there && is_asking(&next) {
        return Ok(Phase::Refused);
    }
    if is_opening {
        return Ok(Phase::Opening);
    }
    Ok(phase_of(next))
}

/// The stage of the last try of this run.
pub fn phase_now(ledger: &mut Ledger, heard: &Heard) -> Result<Phase, AllocError>
    ensures same { ledger.new ≡ ledger.old }
    ensures phase { IfOk result (λ p. p ≡ spec.phase_at ledger.old.acts ledger.old.run ledger.old.notes
        (kept ledger.old.notes ledger.old.answers) heard.now) }
{
    if !ledger.is_here() {
        return Ok(Phase::Idle);
    }
    let notes = ledger.notes();
    match notes.open() {
        Some(last) => {
            let phase = phase_by_open(ledger, heard, last)?;
            Ok(phase)
        }
        None => Ok(phase_by_last(heard, &notes.last)),
    }
}

// A message to the home of the try.
fn to_home(last: &Last, message: Message) -> Option<Out>
    ensures { result ≡ spec.home_gets last.now message }
{
    Some(Out {
        to: NodeId::repository(last.stamp.home()),
        message,
    })
}

// A message to the repository of the object.
fn to_object(object: ObjectId, message: Message) -> Option<Out>
    ensures { result ≡ Some (record { to = nodes.repository object.repository; message = message }) }
{
    Some(Out {
        to: NodeId::repository(object.repository),
        message,
    })
}

fn standing_for(
    alloc: Global,
    timeout: u32,
    last: &Last,
    phase: &Phase,
) -> Result<Option<Out>, AllocError>
    requires { last.now.answered ≤ 10000 }
    ensures { IfOk result (λ o. o ≡ spec.standing_for timeout last.now phase.now) }
{
    let stamp = last.stamp;
    match phase {
        Phase::Idle | Phase::Stopping(_) => Ok(None),
        Phase::Refused | Phase::Closing => Ok(to_home(last, Message::Withdraw { stamp })),
        Phase::Opening => Ok(to_home(last, Message::Begin { stamp, timeout })),
        Phase::Finishing => Ok(to_home(last, Message::Commit { stamp })),
        Phase::Reading(object) => {
            let at = last.time();
            let object = *object;
            Ok(to_object(object, Message::Read { at, object }))
        }
        Phase::Writing(object, value) => {
            let at = last.time();
            let object = *object;
            let value = value.copy(alloc)?;
            Ok(to_object(object, Message::Write { at, object, value }))
        }
    }
}

/// The outstanding request at this stage.
pub fn standing(ledger: &Ledger, phase: &Phase) -> Result<Option<Out>, AllocError>
    ensures standing { IfOk result (λ o. o ≡ spec.standing_at ledger.now.acts ledger.now.notes phase.now) }
    ensures are_notes { AreNotes ledger.now.acts ledger.now.notes ledger.now.answers }
{
    let timeout = ledger.last_timeout();
    match ledger.notes().last {
        Some(last) => {
            let out = standing_for(ledger.alloc(), timeout, &last, phase)?;
            Ok(out)
        }
        None => Ok(None),
    }
}
