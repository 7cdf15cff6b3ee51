//! How a run of votes begins: who can't be opened is down, the others sit, and the polls go.
ghost use Rattle.std.specs.Prelude.{◌≡◌, ◌≤◌, ◌^◌, length, IfOk, OnOk};
ghost use Rattle.pseudo_time.specs.Nodes.{repository};
ghost use Rattle.vote_call.specs.Media.{SomeOpened};
ghost use Rattle.vote_call.specs.Starts.{BeginsOver, BegunFor, Fall, Falls, LastFor, SeatsAll, SeatsAs};
ghost use Rattle.vote_run.specs.Members.{MayAllTurn};

use crate::openings::Openings;
use crate::voters::{names, voters};
use medium_port::Medium;
use pseudo_time::NodeId;
use record_votes::{Member, Poll};
use std::alloc::{AllocError, Global};
use stream_port::{Clock, Fates};
use vote_run::{Courier, Members, Opening, Seat, polls_go, some_wants};

/// A courier between the members and so many polls.
pub fn courier_for<F: Fates, C: Clock, M: Medium>(
    alloc: Global,
    openings: &Openings<M>,
    polls: usize,
    fates: F,
    clock: C,
) -> Result<Courier<F, C>, (F, C)>
    requires { polls ≤ 255 }
    ensures { IfOk result (BeginsOver openings.now polls (F.asked fates) (C.answers clock)) }
{
    let Ok(opened) = voters(alloc, openings, polls) else {
        return Err((fates, clock));
    };
    let Ok(names) = names(alloc, opened.as_slice()) else {
        return Err((fates, clock));
    };
    Courier::new(alloc, names.as_slice(), opened, fates, clock)
}

// A member that can't be opened is down.
fn fall<F: Fates, C: Clock, M: Medium>(
    courier: &mut Courier<F, C>,
    number: u8,
    opening: &Opening<M>,
) -> Result<(), AllocError>
    ensures { OnOk result (Falls (repository number) opening.now courier.old courier.new) }
{
    match opening {
        Opening::Shut(_, cause) => courier.down(NodeId::repository(number), *cause),
        _ => Ok(()),
    }
}

// Each member that can't be opened is down.
fn fall_all<F: Fates, C: Clock, M: Medium>(
    courier: &mut Courier<F, C>,
    openings: &Openings<M>,
) -> Result<(), AllocError>
    ensures { OnOk result (Fall openings.now courier.old courier.new) }
{
    fall(courier, 1, &openings.first)?;
    fall(courier, 2, &openings.second)?;
    fall(courier, 3, &openings.third)
}

// The seat of a member.
fn seat<M: Medium>(alloc: Global, number: u8, start: u64, opening: Opening<M>) -> Seat<M>
    requires { start ≤ 2 ^ 63 }
    ensures { SeatsAs number start opening result }
{
    match opening {
        Opening::Open(store, effects) => match Member::open(
            alloc,
            number,
            start,
            effects.as_slice(),
        ) {
            Ok(member) => {
                let count = effects.len();
                Seat::Up(member, store, count, false)
            }
            Err(_) => Seat::Wanting(store.release()),
        },
        Opening::Shut(medium, _) => Seat::Fallen(medium),
        Opening::Wanting(medium) => Seat::Wanting(medium),
    }
}

// All members sit.
fn seat_all<M: Medium>(alloc: Global, start: u64, openings: Openings<M>) -> Members<M>
    requires { start ≤ 2 ^ 63 }
    ensures { SeatsAll start openings result }
{
    let Openings {
        first,
        second,
        third,
    } = openings;
    Members {
        first: seat(alloc, 1, start, first),
        second: seat(alloc, 2, start, second),
        third: seat(alloc, 3, start, third),
    }
}

/// Who can't be opened is down, the others sit, and the polls go.
pub fn begin<F: Fates, C: Clock, M: Medium>(
    alloc: Global,
    courier: &mut Courier<F, C>,
    openings: Openings<M>,
    polls: &mut Vec<Poll>,
) -> (Members<M>, Result<(), AllocError>)
    requires few { length polls.old.items ≤ 255 }
    requires opened { SomeOpened M.Medium openings }
    ensures may { MayAllTurn M.Medium result.0 }
    ensures lasts { LastFor M.Medium openings result.0 }
    ensures count { length polls.new.items ≡ length polls.old.items }
    ensures begun { OnOk result.1 (BegunFor M.Medium openings courier.old polls.old.items courier.new result.0
        polls.new.items) }
{
    let fallen = fall_all(courier, &openings);
    let start = courier.start();
    let members = seat_all(alloc, start, openings);
    if fallen.is_err() {
        return (members, Err(AllocError));
    }
    if some_wants(&members) {
        return (members, Err(AllocError));
    }
    let went = polls_go(courier, polls);
    (members, went)
}
