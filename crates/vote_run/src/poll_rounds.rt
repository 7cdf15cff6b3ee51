//! The turns of all polls.
ghost use Rattle.std.specs.Prelude.{◌≡◌, ◌≤◌, ◌<◌, ◌+◌, Bool, List, length, OnOk};
ghost use Rattle.pseudo_time.specs.Nodes.{broker};
ghost use Rattle.record_votes.specs.Voting.{Line};
ghost use Rattle.vote_courier.specs.Stations.{Stands, hall_of};
ghost use Rattle.vote_run.specs.Fares.{Lengthens};
ghost use Rattle.vote_run.specs.Rounds.{PollsAre, PollsGo, PollsTurned, PollsWent, is_poll};

use pseudo_time::NodeId;
use record_votes::Poll;
use std::alloc::AllocError;
use stream_port::{Clock, Fates};
use vote_courier::{Courier, poll_goes, poll_turn};

// The poll in this place.
fn broker_at(place: usize) -> NodeId
    requires { place < 255 }
    ensures { result ≡ broker (place + 1) }
{
    NodeId::broker((place + 1) as u8)
}

/// All polls go, in order.
pub fn polls_go<F: Fates, C: Clock>(
    courier: &mut Courier<F, C>,
    polls: &mut Vec<Poll>,
) -> Result<(), AllocError>
    requires { length polls.old.items ≤ 255 }
    ensures count { length polls.new.items ≡ length polls.old.items }
    ensures went { (lines : List Line) → Stands lines courier.old →
        PollsGo (hall_of lines courier.old) 0 polls.old.items →
        OnOk result (PollsWent lines courier.old courier.new (length polls.new.items) polls.new.items) }
    ensures adds { OnOk result (Lengthens is_poll courier.old.entries courier.new.entries) }
{
    for i in 0..polls.len() {
        poll_goes(courier, broker_at(i), &mut polls[i])?;
    }
    Ok(())
}

/// Each poll has its turn, in order.
pub fn polls_turn<F: Fates, C: Clock>(
    courier: &mut Courier<F, C>,
    polls: &mut Vec<Poll>,
    behind: bool,
) -> Result<(), AllocError>
    requires { length polls.old.items ≤ 255 }
    ensures count { length polls.new.items ≡ length polls.old.items }
    ensures turned { (lines : List Line) → Stands lines courier.old →
        PollsAre (hall_of lines courier.old) 0 behind polls.old.items →
        OnOk result (PollsTurned lines courier.old courier.new (length polls.new.items) behind polls.new.items) }
    ensures adds { OnOk result (Lengthens is_poll courier.old.entries courier.new.entries) }
{
    let moment = courier.moment();
    for i in 0..polls.len() {
        poll_turn(courier, broker_at(i), &mut polls[i], behind, moment)?;
    }
    Ok(())
}
