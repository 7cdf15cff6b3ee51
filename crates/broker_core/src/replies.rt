//! What each message means to a broker in each phase.
ghost use Rattle.std.specs.Prelude.{◌≡◌, ◌≢◌, ◌≤◌, IfOk};
ghost use Rattle.broker_core.specs.Stages.{is_finished};
ghost use Rattle.broker_core.specs.Rows.{when};
ghost use Rattle.broker_ledger.specs.Notes as notes;
ghost use Rattle.broker_core.specs.Phases as spec;
ghost use Rattle.broker_ledger.specs.Ledgers.{kept};
ghost use Rattle.broker_ledger.specs.RunParts.{stop_of};

use crate::phases::Phase;
use broker_ledger::{
    Decision, Effect, Heard, Last, Ledger, Next, ObjectId, Outcome, PseudoTime, Stamp,
};
use message_form::Message;
use std::alloc::{AllocError, Global};

/// What a message comes to.
#[derive(Drop)]
pub enum Reply {
    Ignored,
    /// This was heard.
    Hears(Heard),
    /// This effect is added.
    Adds(Effect),
}

// The reply, where the message fits.
fn when(fits: bool, reply: Reply) -> Reply
    ensures { result ≡ when fits reply }
{
    if fits { reply } else { Reply::Ignored }
}

fn ends(index: u32, outcome: Outcome) -> Reply
    ensures { result ≡ spec.ends_at index outcome }
{
    Reply::Adds(Effect::End { index, outcome })
}

// Decided, while Commit stands.
fn commit_answered(index: u32, decision: Decision) -> Reply
    ensures { result ≡ spec.commit_answered index decision }
{
    match decision {
        Decision::Committed => ends(index, Outcome::Committed),
        Decision::Withdrawn => Reply::Ignored,
        Decision::Expired { deadline, moment } => {
            ends(index, Outcome::Expired { deadline, moment })
        }
    }
}

// Decided, while Begin stands, and while Withdraw stands after Ended.
fn early_answered(finished: bool, index: u32, decision: Decision) -> Reply
    ensures { result ≡ spec.early_answered finished index decision }
{
    match decision {
        Decision::Committed => when(finished, ends(index, Outcome::Committed)),
        Decision::Withdrawn => Reply::Ignored,
        Decision::Expired { deadline, moment } => {
            ends(index, Outcome::Expired { deadline, moment })
        }
    }
}

// While Begin stands; `finished` is whether the script is finished without a request.
fn while_opening(index: u32, finished: bool, last: &Last, heard: &Heard, message: &Message) -> Reply
    ensures { result ≡ spec.opening_row index finished last.now heard.now message.now }
{
    let stamp = last.stamp;
    match message {
        Message::Begun { stamp: other } => when(
            stamp.is_same(*other),
            Reply::Hears(Heard {
                begun: Some(stamp),
                ..*heard
            }),
        ),
        Message::Decided {
            stamp: other,
            decision,
        } => when(
            stamp.is_same(*other),
            early_answered(finished, index, *decision),
        ),
        _ => Reply::Ignored,
    }
}

// Ended was heard for the current request.
fn over_there(last: &Last, heard: &Heard, at: PseudoTime) -> Reply
    requires { last.now.answered ≤ 10000 }
    ensures { result ≡ spec.ended_row last.now heard.now at }
{
    let time = last.time();
    when(
        time.is_same(at),
        Reply::Hears(Heard {
            ended: Some(time),
            ..*heard
        }),
    )
}

fn while_reading(
    alloc: Global,
    index: u32,
    object: ObjectId,
    last: &Last,
    heard: &Heard,
    message: &Message,
) -> Result<Reply, AllocError>
    requires { last.now.answered ≤ 10000 }
    ensures { IfOk result (λ r. r ≡ spec.reading_row index object last.now heard.now message.now) }
{
    match message {
        Message::Value { at, value } => {
            let value = value.copy(alloc)?;
            let step = at.step();
            Ok(when(
                last.time().is_same(*at),
                Reply::Adds(Effect::Got { step, value }),
            ))
        }
        Message::LaterRead { at, end } => Ok(when(
            last.time().is_same(*at),
            ends(index, Outcome::LaterRead { object, end: *end }),
        )),
        Message::Ended { at } => Ok(over_there(last, heard, *at)),
        _ => Ok(Reply::Ignored),
    }
}

fn while_writing(
    index: u32,
    object: ObjectId,
    last: &Last,
    heard: &Heard,
    message: &Message,
) -> Reply
    requires { last.now.answered ≤ 10000 }
    ensures { result ≡ spec.writing_row index object last.now heard.now message.now }
{
    let time = last.time();
    match message {
        Message::Stored { at } => when(
            time.is_same(*at),
            Reply::Adds(Effect::Acked { step: at.step() }),
        ),
        Message::LaterRead { at, end } => when(
            time.is_same(*at),
            ends(index, Outcome::LaterRead { object, end: *end }),
        ),
        Message::LaterVersion { at, start } => when(
            time.is_same(*at),
            ends(
                index,
                Outcome::LaterVersion {
                    object,
                    start: *start,
                },
            ),
        ),
        Message::Ended { at } => over_there(last, heard, *at),
        _ => Reply::Ignored,
    }
}

// A decision of this stamp, if the message is one.
fn decided(stamp: Stamp, message: &Message) -> Option<Decision>
    ensures { result ≡ spec.decided_of stamp message.now }
{
    match message {
        Message::Decided {
            stamp: other,
            decision,
        } if stamp.is_same(*other) => Some(*decision),
        _ => None,
    }
}

fn while_deciding(index: u32, last: &Last, phase: &Phase, heard: &Heard, message: &Message) -> Reply
    ensures { result ≡ spec.deciding_row index last.now phase.now heard.now message.now }
{
    let Some(decision) = decided(last.stamp, message) else {
        return Reply::Ignored;
    };
    match phase {
        Phase::Finishing => commit_answered(index, decision),
        Phase::Refused => early_answered(false, index, decision),
        Phase::Closing => Reply::Hears(Heard {
            closed: Some(last.stamp),
            ..*heard
        }),
        _ => Reply::Ignored,
    }
}

// Whether the script is finished, where the message is a decision that requires it.
fn is_finished_for(ledger: &mut Ledger, message: &Message) -> Result<bool, AllocError>
    requires { ledger.old.notes.tries ≢ 0 }
    ensures same { ledger.new ≡ ledger.old }
    ensures finished { IfOk result (λ f.
        f ≡ spec.finished_for message.now (notes.stop_at ledger.old.acts ledger.old.notes
        (kept ledger.old.notes ledger.old.answers))) }
{
    match message {
        Message::Decided { .. } => {
            let next = ledger.stop()?;
            Ok(matches!(next, Next::Finished))
        }
        _ => Ok(false),
    }
}

/// What a message comes to at the stage of the last try.
pub fn reply_to(
    ledger: &mut Ledger,
    phase: &Phase,
    heard: &Heard,
    message: &Message,
) -> Result<Reply, AllocError>
    requires { phase.now ≡ spec.phase_at ledger.old.acts ledger.old.run ledger.old.notes
        (kept ledger.old.notes ledger.old.answers) heard.now }
    ensures same { ledger.new ≡ ledger.old }
    ensures reply { IfOk result (λ r. r ≡
        spec.reply_at ledger.old.acts ledger.old.notes (kept ledger.old.notes ledger.old.answers) phase.now
        heard.now message.now) }
{
    let Some(last) = ledger.notes().last else {
        return Ok(Reply::Ignored);
    };
    let index = ledger.last_index();
    match phase {
        Phase::Opening => {
            let finished = is_finished_for(ledger, message)?;
            Ok(while_opening(index, finished, &last, heard, message))
        }
        Phase::Reading(object) => {
            let reply = while_reading(ledger.alloc(), index, *object, &last, heard, message)?;
            Ok(reply)
        }
        Phase::Writing(object, _) => {
            let reply = while_writing(index, *object, &last, heard, message);
            Ok(reply)
        }
        _ => Ok(while_deciding(index, &last, phase, heard, message)),
    }
}
