//! A poll's turns.
ghost use Rattle.std.specs.Prelude.{false, OnOk};
ghost use Rattle.vote_courier.specs.Turns.{Goes, HearsTick, PollTurns};

use crate::couriers::Courier;
use pseudo_time::NodeId;
use record_votes::Poll;
use std::alloc::AllocError;
use stream_port::{Clock, Fates};

/// The poll goes.
pub fn poll_goes<F: Fates, C: Clock>(
    courier: &mut Courier<F, C>,
    node: NodeId,
    poll: &mut Poll,
) -> Result<(), AllocError>
    ensures { OnOk result (Goes node courier.old courier.new poll.old poll.new) }
{
    courier.go(node)?;
    let turn = poll.go()?;
    courier.gate(node, turn.outs.into_vec())
}

// The poll hears the last tick.
fn poll_hears<F: Fates, C: Clock>(
    courier: &mut Courier<F, C>,
    node: NodeId,
    poll: &mut Poll,
    moment: u64,
) -> Result<(), AllocError>
    ensures { OnOk result (HearsTick node courier.old courier.new poll.old poll.new) }
{
    courier.hear(node)?;
    let turn = poll.hear(moment)?;
    courier.gate(node, turn.outs.into_vec())
}

// The poll takes a copy, if one is due.
fn poll_takes<F: Fates, C: Clock>(
    courier: &mut Courier<F, C>,
    node: NodeId,
    poll: &mut Poll,
) -> Result<(), AllocError>
    ensures { OnOk result (PollTurns false node courier.old courier.new poll.old poll.new) }
{
    let Some(arrival) = courier.take(node)? else {
        return Ok(());
    };
    let turn = poll.take(arrival.from, &arrival.message)?;
    courier.gate(node, turn.outs.into_vec())
}

/// The poll's turn. Behind the last tick, whose moment this is, it hears; else it takes a copy.
pub fn poll_turn<F: Fates, C: Clock>(
    courier: &mut Courier<F, C>,
    node: NodeId,
    poll: &mut Poll,
    behind: bool,
    moment: u64,
) -> Result<(), AllocError>
    ensures { OnOk result (PollTurns behind node courier.old courier.new poll.old poll.new) }
{
    if behind {
        poll_hears(courier, node, poll, moment)
    } else {
        poll_takes(courier, node, poll)
    }
}
