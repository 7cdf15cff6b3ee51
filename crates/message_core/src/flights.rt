//! The copies of messages on their way.
ghost use Rattle.std.specs.Prelude.{◌≡◌, ◌↔◌, ◌+◌, ◌++◌, ◌==◌, ◌&&◌, not, ℕ, List, [], Some, replicate, IfOk, IfNone, OnOk, OnErr, IsTrue, if◌then◌else◌};
ghost use Rattle.std.specs.Option.{option_map};
ghost use Rattle.stream_port.specs.Fates.{copies_of};
ghost use Rattle.pseudo_time.specs.Nodes.{same_node};
ghost use Rattle.message_core.specs.Queues.{queue_in, held_in};
ghost use Rattle.pseudo_time.specs.declared.nodes.NodeId.{NodeId};
ghost use Rattle.message_form.specs.Messages.{IsMessage, message_bytes};
ghost use Rattle.message_core.specs.Flights.{start, puts, next_number, sent, taken, passed, was_shut, AllEmpty};
ghost use Rattle.message_core.specs.Arrivals.{Arrives};
ghost use Rattle.message_core.specs.Parts.{state_of};

use crate::holds::{Holds, hold_until, release};
use crate::letters::{Arrival, HeldCopy, Letter, arrival_of, forget_last, letter_for};
use crate::queues::{
    Queues, are_empty, arrive, close_queue, drop_front, empty_queues, front_of, put_in,
};
use message_form::Message;
use pseudo_time::NodeId;
use std::alloc::{AllocError, Global};
use std::collections::BTreeMap;
use std::marker::Model;
use stream_port::Fate;

/// The copies of messages on their way: a queue of due copies for each node that is up, and the
/// copies that are held until a tick. Messages are kept as their texts.
///
/// A call that answers an error found no memory and changed nothing. The numbers of messages end at
/// 2^32 - 1 and those of ticks at 2^64 - 1, and a call that would pass them answers the same.
#[derive(Drop)]
pub struct Flight {
    alloc: Global,
    /// The message with number k stands at place k - 1.
    letters: Vec<Letter>,
    ticks: u64,
    queues: Queues,
    held: Holds,
}

impl Model for Flight {
    ghost use Rattle.message_core.specs.Parts.{FlightParts, state_of, parts_of};
    ghost use Rattle.message_core.specs.Sound.{IsSound};

    ghost Value = { FlightParts };

    ghost view = { λ f. parts_of f.letters.items f.ticks f.queues.entries f.held.entries };

    ghost invariant = { λ f. IsSound (state_of (parts_of f.letters.items f.ticks f.queues.entries f.held.entries)) };
}

// The copies of a message go to their queue, or wait for their tick.
fn place(
    alloc: Global,
    queues: &mut Queues,
    held: &mut Holds,
    ticks: u64,
    copy: HeldCopy,
    fate: Fate,
) -> Result<(), AllocError>
    ensures queued { OnOk result ((n : NodeId) →
        queue_in queues.new.entries n ≡ (if (fate.hold == 0) && same_node copy.to n then option_map
        (puts (copies_of fate) copy.number fate.overtake)
        (queue_in queues.old.entries n) else queue_in queues.old.entries n)) }
    ensures waiting { OnOk result ((d : ℕ) →
        held_in held.new.entries d ≡ (if not (fate.hold == 0) &&
        (ticks + fate.hold == d) then held_in held.old.entries d ++
        replicate (copies_of fate) copy else held_in held.old.entries d)) }
    ensures err { OnErr result ((n : NodeId) → queue_in queues.new.entries n ≡ queue_in queues.old.entries n) }
    ensures err_held { OnErr result ((d : ℕ) → held_in held.new.entries d ≡ held_in held.old.entries d) }
{
    let copies = fate.copies.min(3);
    if fate.hold == 0 {
        return put_in(queues, copy.to, copy.number, copies, fate.overtake);
    }
    let Some(due) = ticks.checked_add(u64::from(fate.hold)) else {
        return Err(AllocError);
    };
    hold_until(alloc, held, due, copy, copies)
}

impl Flight {
    /// A flight in a run of these nodes. They are up, and no copy is on its way.
    pub fn new(alloc: Global, nodes: &[NodeId]) -> Result<Flight, AllocError>
        ensures { IfOk result (λ flight. state_of flight ≡ start nodes.now) }
    {
        let queues = empty_queues(alloc, nodes)?;
        Ok(Flight {
            alloc,
            letters: Vec::new(alloc),
            ticks: 0,
            queues,
            held: BTreeMap::new(alloc),
        })
    }

    // The number of the next message.
    fn next_number(&self) -> Result<u32, AllocError>
        ensures { IfOk result (λ number. number ≡ next_number (state_of self.now)) }
    {
        if self.letters.len() >= u32::MAX as usize {
            return Err(AllocError);
        }
        Ok(self.letters.len() as u32 + 1)
    }

    /// Sends a message, and gives its number, from 1. At most three copies go on their way. Those
    /// without a hold are due at once, each before the last `overtake` copies of its queue; the others
    /// are due after so many ticks. A copy to a node that is down or isn't of the run is given up when
    /// it becomes due.
    pub fn send(
        &mut self,
        from: NodeId,
        to: NodeId,
        message: &Message,
        fate: Fate,
    ) -> Result<u32, AllocError>
        requires { IsMessage message.now }
        ensures number { IfOk result (λ number. number ≡ next_number (state_of self.old)) }
        ensures sent { OnOk result (state_of self.new ≡ sent (state_of self.old)
            (record { from = from; to = to; text = message_bytes message.now }) fate) }
        ensures err { OnErr result (state_of self.new ≡ state_of self.old) }
    {
        let number = self.next_number()?;
        self.letters
            .push(letter_for(self.alloc, from, to, message)?)?;
        let copy = HeldCopy { number, to };
        if let Err(failed) = place(
            self.alloc,
            &mut self.queues,
            &mut self.held,
            self.ticks,
            copy,
            fate,
        ) {
            forget_last(&mut self.letters);
            return Err(failed);
        }
        Ok(number)
    }

    /// Takes the front copy of a node's queue. None where no copy is due.
    pub fn take(&mut self, node: NodeId) -> Result<Option<Arrival>, AllocError>
        ensures arrived { IfOk result (Arrives (state_of self.old) node) }
        ensures taken { OnOk result (state_of self.new ≡ taken (state_of self.old) node) }
        ensures none { IfOk result (λ arrival. IfNone arrival (self.new ≡ self.old)) }
        ensures err { OnErr result (state_of self.new ≡ state_of self.old) }
    {
        let Some(number) = front_of(&self.queues, node) else {
            return Ok(None);
        };
        let arrival = arrival_of(self.alloc, &self.letters, number)?;
        drop_front(&mut self.queues, node);
        Ok(Some(arrival))
    }

    /// One tick passes. The copies held until now go to the ends of their queues, in order of number.
    pub fn pass(&mut self) -> Result<(), AllocError>
        ensures ok { OnOk result (state_of self.new ≡ passed (state_of self.old)) }
        ensures err { OnErr result (state_of self.new ≡ state_of self.old) }
    {
        let Some(tick) = self.ticks.checked_add(1) else {
            return Err(AllocError);
        };
        arrive(&mut self.queues, &self.held, tick)?;
        release(&mut self.held, tick);
        self.ticks = tick;
        Ok(())
    }

    /// The node is down from now on, and its due copies are given up.
    pub fn shut(&mut self, node: NodeId)
        ensures { state_of self.new ≡ was_shut (state_of self.old) node }
    {
        close_queue(&mut self.queues, node);
    }

    /// Whether no copy is due at any node.
    pub fn empty(&self) -> bool
        ensures { IsTrue result ↔ AllEmpty (state_of self.now) }
    {
        are_empty(&self.queues)
    }
}
