//! Sends messages and asks for their fates.
ghost use Rattle.std.specs.Prelude.{◌≡◌, ◌++◌, ◌∷◌, [], ◌+◌, List, map, IfOk, IfSome};
ghost use Rattle.message_form.specs.Messages.{IsMessage};
ghost use Rattle.message_form.specs.Posts.{posts};
ghost use Rattle.message_form.specs.Ranges.{AreOuts};
ghost use Rattle.message_core.specs.Parts.{state_of};
ghost use Rattle.world_core.specs.declared.traces.Sent.{Sent};
ghost use Rattle.world_core.specs.Walks.{World};
ghost use Rattle.world_core.specs.Legal.{Numbered, post_of, asked_of};
ghost use Rattle.wire_core.specs.Copies.{Marked, IsTied, all_marked};

use message_core::Flight;
use message_form::Out;
use pseudo_time::NodeId;
use std::alloc::{AllocError, Global};
use stream_port::{Fate, Fates};
use world_core::Sent;

// Puts a message with its fate on its way.
fn send(
    flight: &mut Flight,
    number: u32,
    from: NodeId,
    out: Out,
    fate: Fate,
) -> Result<Sent, AllocError>
    requires { IsMessage out.message }
    ensures sent { IfOk result (λ s. s ≡ record {
      number = number;
      from = from;
      to = out.to;
      message = out.message;
      fate = fate;
    }) }
    ensures tied { IfOk result (λ s. (w : World) (sent : List Sent) (marks : List Marked) →
        IsTied (state_of flight.old) w sent marks →
        IsTied (state_of flight.new) w (sent ++ s ∷ []) (marks ++ all_marked w.ticks (s ∷ []))) }
{
    let Out { to, message } = out;
    flight.send(from, to, &message, fate)?;
    Ok(Sent {
        number,
        from,
        to,
        message,
        fate,
    })
}

// The number of the message behind so many. None where numbers end.
fn number_behind(first: u32, count: usize) -> Option<u32>
    ensures { IfSome result (λ n. n ≡ first + count) }
{
    match u32::try_from(count) {
        Ok(count) => first.checked_add(count),
        Err(_) => None,
    }
}

/// Asks for the fate of each message, in order, and puts it on its way. The messages are numbered
/// from `first`, and an error is answered too where numbers end.
pub fn send_all<F: Fates>(
    alloc: Global,
    fates: &mut F,
    flight: &mut Flight,
    first: u32,
    from: NodeId,
    outs: Vec<Out>,
) -> Result<Vec<Sent>, AllocError>
    requires outs { AreOuts outs.items }
    ensures asked { IfOk result (λ news. F.asked fates.new ≡ F.asked fates.old ++ map asked_of news.items) }
    ensures posted { IfOk result (λ news. map post_of news.items ≡ posts from outs.items) }
    ensures numbered { IfOk result (λ news. Numbered first news.items) }
    ensures tied { IfOk result (λ news. (w : World) (sent : List Sent) (marks : List Marked) →
        IsTied (state_of flight.old) w sent marks →
        IsTied (state_of flight.new) w (sent ++ news.items) (marks ++ all_marked w.ticks news.items)) }
{
    let mut news = Vec::new(alloc);
    for out in outs {
        let Some(number) = number_behind(first, news.len()) else {
            return Err(AllocError);
        };
        let fate = fates.fate(number, out.message.tag())?;
        let sent = send(flight, number, from, out, fate)?;
        news.push(sent)?;
    }
    Ok(news)
}
