//! The members, in their order.
ghost use Rattle.std.specs.Prelude.{◌≡◌, List, IsTrue, false};
ghost use Rattle.record_votes.specs.Voting.{Line};
ghost use Rattle.vote_courier.specs.Stations.{Stands};
ghost use Rattle.vote_run.specs.Fares.{FareOn};
ghost use Rattle.vote_run.specs.Lasts.{LastOn};
ghost use Rattle.vote_run.specs.Members as spec;
ghost use Rattle.vote_run.specs.Members.{AllSat, MayAllTurn, SitAll};

use crate::member_turns::turn;
use crate::seats::Seat;
use medium_port::Medium;
use std::alloc::Global;
use stream_port::{Clock, Fates};
use vote_courier::Courier;

/// The three members.
#[derive(Drop)]
pub struct Members<M: Medium> {
    pub first: Seat<M>,
    pub second: Seat<M>,
    pub third: Seat<M>,
}

// Whether memory ran out.
fn wants<M: Medium>(seat: &Seat<M>) -> bool
    ensures { result ≡ spec.wants seat.now }
{
    match seat {
        Seat::Up(_, _, _, _) => false,
        Seat::Fallen(_) => false,
        Seat::Wanting(_) => true,
    }
}

// Whether a tick stands that the member hasn't heard.
fn is_late<M: Medium>(seat: &Seat<M>) -> bool
    ensures { result ≡ spec.is_late seat.now }
{
    match seat {
        Seat::Up(_, _, _, behind) => *behind,
        Seat::Fallen(_) => false,
        Seat::Wanting(_) => false,
    }
}

// A tick stands that the member hasn't heard, if it is up.
fn late<M: Medium>(seat: Seat<M>) -> Seat<M>
    ensures { result ≡ spec.late seat }
{
    match seat {
        Seat::Up(member, store, durable, _) => Seat::Up(member, store, durable, true),
        Seat::Fallen(medium) => Seat::Fallen(medium),
        Seat::Wanting(medium) => Seat::Wanting(medium),
    }
}

/// Whether memory ran out for one of them.
pub fn some_wants<M: Medium>(members: &Members<M>) -> bool
    ensures { result ≡ spec.some_wants members.now }
{
    wants(&members.first) || wants(&members.second) || wants(&members.third)
}

/// Whether a tick stands that one of them hasn't heard.
pub fn some_late<M: Medium>(members: &Members<M>) -> bool
    ensures { result ≡ spec.some_late members.now }
{
    is_late(&members.first) || is_late(&members.second) || is_late(&members.third)
}

/// A tick stands that no member has heard.
pub fn all_late<M: Medium>(members: Members<M>) -> Members<M>
    ensures { result ≡ spec.all_late members }
{
    let Members {
        first,
        second,
        third,
    } = members;
    Members {
        first: late(first),
        second: late(second),
        third: late(third),
    }
}

/// Each member has its turn, in order.
pub fn members_turn<F: Fates, C: Clock, M: Medium>(
    alloc: Global,
    courier: &mut Courier<F, C>,
    members: Members<M>,
) -> Members<M>
    requires { MayAllTurn M.Medium members }
    ensures may { MayAllTurn M.Medium result }
    ensures sat { IsTrue M.tells → (lines : List Line) → Stands lines courier.old →
        SitAll M.Medium lines courier.old members →
        AllSat M.Medium lines courier.old courier.new result }
    ensures fares { spec.some_wants result ≡ false →
        FareOn M.Medium courier.old.entries members courier.new.entries result }
    ensures lasts { LastOn M.Medium members result }
{
    let Members {
        first,
        second,
        third,
    } = members;
    let first = turn(alloc, courier, 1, first);
    let second = turn(alloc, courier, 2, second);
    let third = turn(alloc, courier, 3, third);
    Members {
        first,
        second,
        third,
    }
}
