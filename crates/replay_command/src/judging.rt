//! Whether the logs of all nodes say what their scripts do.
ghost use Rattle.std.specs.Prelude.{◌≡◌, ◌<◌, Some, IfOk, length};
ghost use Rattle.script_replay.specs.Replays.{HasReplayed, HaveScripts};
ghost use Rattle.log_replay.specs.Folders.{items_of};
ghost use Rattle.replay_command.specs.Verdicts as spec;

use effect_form::Effect;
use log_replay::{Telling, ToldFault, first_misdecided, told_of};
use pseudo_time::Stamp;
use script_replay::{Difference, Differs, Told};
use serial_model::ObjectMap;
use std::alloc::{AllocError, Global};

/// In what an attempt differs: the first of these.
#[derive(Clone, Copy, Debug, PartialEq, Eq)]
pub enum Kind {
    /// An answer isn't what its script has.
    Answers,
    /// Its End, or its home's decision, isn't what its script comes to.
    Ending,
    /// Its versions aren't its writes.
    Versions,
    /// Logs disagree on how it was decided.
    Decision,
    /// Its broker's log has no such attempt.
    Attempt,
}

/// An attempt that differs.
#[derive(Clone, Copy, Debug, PartialEq, Eq)]
pub struct Found {
    pub stamp: Stamp,
    pub kind: Kind,
}

/// What the logs of a folder come to.
#[derive(Drop)]
pub enum Verdict {
    /// All attempts replay, and leave this map. This is told of their stamps.
    Replayed(Vec<Told>, ObjectMap),
    /// This attempt differs, the first one.
    Differs(Found),
    /// The log of the broker with this number can't be told.
    Log(u8),
}

// The kind of a difference.
fn kind_of(difference: Difference) -> Kind
    ensures { result ≡ spec.kind_of difference }
{
    match difference {
        Difference::Answers => Kind::Answers,
        Difference::Ending => Kind::Ending,
        Difference::Versions => Kind::Versions,
    }
}

// What differs in what was told.
fn found_in(told: &[Told], differs: Differs) -> Found
    requires { differs.place < length told.now }
    ensures { Some result ≡ spec.found_in told.now differs }
{
    Found {
        stamp: told[differs.place].stamp(),
        kind: kind_of(differs.difference),
    }
}

// A stamp that differs so, if there is one.
fn found_at(stamp: Option<Stamp>, kind: Kind) -> Option<Found>
    ensures { result ≡ spec.found_at stamp kind }
{
    match stamp {
        Some(stamp) => Some(Found { stamp, kind }),
        None => None,
    }
}

// The one with the lesser stamp, and of equal ones the first.
#[tactic(auto, unfolding(pseudo_time::specs::Order::stamp_lt))]
fn lesser(one: Found, other: Option<Found>) -> Found
    ensures { result ≡ spec.lesser one other }
{
    match other {
        Some(found) => { if found.stamp < one.stamp { found } else { one } }
        None => one,
    }
}

// What differs beside what the attempts do.
fn other_of(misdecided: Option<Stamp>, untried: Option<Stamp>) -> Option<Found>
    ensures { result ≡ spec.other_of misdecided untried }
{
    let other = found_at(untried, Kind::Attempt);
    match found_at(misdecided, Kind::Decision) {
        Some(found) => Some(lesser(found, other)),
        None => other,
    }
}

// What comes of attempts that replay, or of the first that differs, with what else differs.
fn verdict_of(
    told: Vec<Told>,
    replayed: Result<ObjectMap, Differs>,
    other: Option<Found>,
) -> Verdict
    requires { HasReplayed told.items replayed }
    ensures { spec.IsVerdict told.items replayed other result }
{
    match replayed {
        Ok(map) => match other {
            None => Verdict::Replayed(told, map),
            Some(found) => Verdict::Differs(found),
        },
        Err(differs) => Verdict::Differs(lesser(found_in(told.as_slice(), differs), other)),
    }
}

// What all that was told comes to, with what else differs.
fn judge_told(
    alloc: Global,
    telling: Telling,
    misdecided: Option<Stamp>,
) -> Result<Verdict, AllocError>
    requires { HaveScripts telling.told.items }
    ensures { IfOk result (spec.IsJudged telling.told.items telling.untried misdecided) }
{
    let Telling { told, untried } = telling;
    let replayed = script_replay::replay(alloc, told.as_slice())?;
    let other = other_of(misdecided, untried);
    Ok(verdict_of(told, replayed, other))
}

/// What the logs of repositories 1 to 16 and brokers 1 to 16 come to.
pub fn judge(
    alloc: Global,
    repositories: &[Vec<Effect>],
    brokers: &[Vec<Effect>],
) -> Result<Verdict, AllocError>
    requires repositories { length repositories.now ≡ 16 }
    requires brokers { length brokers.now ≡ 16 }
    ensures { IfOk result (spec.Judges (items_of repositories.now) (items_of brokers.now)) }
{
    let misdecided = first_misdecided(alloc, repositories)?;
    match told_of(alloc, repositories, brokers) {
        Ok(telling) => judge_told(alloc, telling, misdecided),
        Err(ToldFault::Log(number)) => Ok(Verdict::Log(number)),
        Err(ToldFault::NoMemory) => Err(AllocError),
    }
}
