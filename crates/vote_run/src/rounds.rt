//! Rounds, until the run is over.
ghost use Rattle.std.specs.Prelude.{◌≡◌, ◌≤◌, List, length, IsTrue, IfOk, IfSome, OnOk, false};
ghost use Rattle.record_votes.specs.Voting.{Line};
ghost use Rattle.vote_courier.specs.Stations.{hall_of};
ghost use Rattle.vote_run.specs.Ends as spec;
ghost use Rattle.vote_courier.specs.Couriers.{CourierParts};
ghost use Rattle.vote_run.specs.Ends.{Between, Came, Follows, HasCome, HasEnded, HasGoneRound};
ghost use Rattle.vote_run.specs.Fares.{FareOn};
ghost use Rattle.vote_run.specs.Lasts.{LastOn};
ghost use Rattle.vote_run.specs.Members.{MayAllTurn};

use crate::limits::{Limits, Next};
use crate::members::{Members, all_late, members_turn, some_late, some_wants};
use crate::poll_rounds::polls_turn;
use medium_port::Medium;
use record_votes::Poll;
use std::alloc::{AllocError, Global};
use stream_port::{Clock, Fates};
use vote_courier::Courier;

/// Whether each poll holds a decision.
pub fn all_held(polls: &[Poll]) -> bool
    ensures { result ≡ spec.all_held polls.now }
{
    polls.iter().all(|poll| poll.held().is_some())
}

// What follows a round, where it is known whether a tick stands that some member hasn't heard, and how
// many ticks stand.
fn follow<F: Fates, C: Clock>(
    courier: &mut Courier<F, C>,
    polls: &[Poll],
    late: bool,
    ticks: u32,
    limits: Limits,
) -> Result<Next, AllocError>
    ensures { IfOk result (Follows limits late ticks polls.now courier.old courier.new) }
{
    if all_held(polls) || courier.sent_count() >= limits.messages as usize {
        return Ok(Next::Over);
    }
    if late || !courier.is_empty() {
        return Ok(Next::Round);
    }
    if ticks >= limits.ticks {
        return Ok(Next::Over);
    }
    courier.tick()?;
    Ok(Next::Ticked)
}

// A turn of each member, and then of each poll.
fn round<F: Fates, C: Clock, M: Medium>(
    alloc: Global,
    courier: &mut Courier<F, C>,
    members: Members<M>,
    polls: &mut Vec<Poll>,
    behind: bool,
) -> (Members<M>, Result<(), AllocError>)
    requires may { MayAllTurn M.Medium members }
    requires few { length polls.old.items ≤ 255 }
    ensures may { MayAllTurn M.Medium result.0 }
    ensures count { length polls.new.items ≡ length polls.old.items }
    ensures gone { IsTrue M.tells → (lines : List Line) →
        Between M.Medium lines courier.old members polls.old.items behind →
        OnOk result.1 (HasGoneRound M.Medium lines courier.old courier.new result.0 polls.new.items) }
    ensures fares { OnOk result.1 (FareOn M.Medium courier.old.entries members courier.new.entries result.0) }
    ensures lasts { LastOn M.Medium members result.0 }
{
    let members = members_turn(alloc, courier, members);
    if some_wants(&members) {
        return (members, Err(AllocError));
    }
    let turned = polls_turn(courier, polls, behind);
    (members, turned)
}

// A round, and what follows it: whether a tick stands that nobody has heard, and how many ticks stand.
// None where the run is over.
fn step<F: Fates, C: Clock, M: Medium>(
    alloc: Global,
    courier: &mut Courier<F, C>,
    members: Members<M>,
    polls: &mut Vec<Poll>,
    behind: bool,
    ticks: u32,
    limits: Limits,
) -> (Members<M>, Result<Option<(bool, u32)>, AllocError>)
    requires may { MayAllTurn M.Medium members }
    requires polls { length polls.old.items ≤ 255 }
    requires ticks { ticks ≤ limits.ticks }
    ensures may { MayAllTurn M.Medium result.0 }
    ensures count { length polls.new.items ≡ length polls.old.items }
    ensures few { IfOk result.1 (λ next. IfSome next (λ n. n.1 ≤ limits.ticks)) }
    ensures came { IsTrue M.tells → (lines : List Line) (first : CourierParts) → length lines ≡ length polls.old.items →
        HasCome M.Medium lines first courier.old members polls.old.items behind ticks →
        IfOk result.1 (Came M.Medium lines limits first courier.new result.0 polls.new.items) }
    ensures fares { OnOk result.1 (FareOn M.Medium courier.old.entries members courier.new.entries result.0) }
    ensures lasts { LastOn M.Medium members result.0 }
{
    let (after, gone) = round(alloc, courier, members, polls, behind);
    if gone.is_err() {
        return (after, Err(AllocError));
    }
    match follow(courier, polls.as_slice(), some_late(&after), ticks, limits) {
        Err(_) => (after, Err(AllocError)),
        Ok(Next::Over) => (after, Ok(None)),
        Ok(Next::Round) => (after, Ok(Some((false, ticks)))),
        Ok(Next::Ticked) => (all_late(after), Ok(Some((true, ticks + 1)))),
    }
}

/// Rounds, until each poll holds a decision, enough messages were sent, or nobody has anything to do
/// and the ticks have run out. The polls have gone.
pub fn conduct<F: Fates, C: Clock, M: Medium>(
    alloc: Global,
    courier: &mut Courier<F, C>,
    members: Members<M>,
    polls: &mut Vec<Poll>,
    limits: Limits,
) -> (Members<M>, Result<(), AllocError>)
    requires may { MayAllTurn M.Medium members }
    requires few { length polls.old.items ≤ 255 }
    ensures may { MayAllTurn M.Medium result.0 }
    ensures count { length polls.new.items ≡ length polls.old.items }
    ensures ended { IsTrue M.tells → (lines : List Line) → length lines ≡ length polls.old.items →
        Between M.Medium lines courier.old members polls.old.items false → (hall_of lines courier.old).ticks ≡ 0 →
        OnOk result.1 (HasEnded M.Medium lines limits courier.old courier.new result.0 polls.new.items) }
    ensures fares { OnOk result.1 (FareOn M.Medium courier.old.entries members courier.new.entries result.0) }
    ensures lasts { LastOn M.Medium members result.0 }
{
    let mut members = members;
    let mut behind = false;
    let mut ticks = 0u32;
    for _ in 0..u32::MAX {
        let (after, stepped) = step(alloc, courier, members, polls, behind, ticks, limits);
        members = after;
        let Ok(came) = stepped else {
            return (members, Err(AllocError));
        };
        let Some(next) = came else {
            return (members, Ok(()));
        };
        behind = next.0;
        ticks = next.1;
    }
    (members, Err(AllocError))
}
