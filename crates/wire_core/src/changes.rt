//! What happens to nodes, one entry a call.
ghost use Rattle.std.specs.Prelude.{◌≡◌, ◌≤◌, ◌<◌, ◌^◌, [], Some, true, false, map, length, IsTrue, IfOk, OnOk, OnErr};
ghost use Rattle.std.specs.Option.{unwrap_or};
ghost use Rattle.pseudo_time.specs.Nodes.{is_broker};
ghost use Rattle.message_form.specs.Ranges.{AreOuts};
ghost use Rattle.world_core.specs.declared.entries.Entry.TheVariants as entry;
ghost use Rattle.world_core.specs.Walks.{opened_log, sent_by};
ghost use Rattle.world_core.specs.Legal.{HasGone, IsDecidedAs, Idle, is_behind, post_of, fates_of};
ghost use Rattle.wire_core.specs.Learns.{IsNewTo};
ghost use Rattle.wire_core.specs.Wires.{world_of};
ghost use Rattle.wire_core.specs.Changes.{HasMore, HasGated, IsBroken, Takes, IfArrived, IfNothing, IsCopyOf, TookAll, owed, Ticks, JustWhere};

use crate::sendings::send_all;
use crate::takens::Taken;
use crate::wires::Wire;
use medium_port::Medium;
use message_form::Out;
use pseudo_time::{DownCause, NodeId, Stamp};
use std::alloc::AllocError;
use stream_port::{Clock, Fates};
use world_core::Entry;

impl<F: Fates, C: Clock, M: Medium> Wire<F, C, M> {
    /// Takes the node's first due copy.
    pub fn take(&mut self, node: NodeId) -> Result<Taken, AllocError>
        requires up { ((world_of self.old).flags node).up ≡ true }
        requires gone { HasGone (world_of self.old) node }
        ensures takes { IfOk result (Takes self.old self.new node) }
        ensures message { IfOk result (IfArrived (IsCopyOf (map post_of self.old.sent) node)) }
        ensures told { IsTrue M.tells → IfOk result (IfArrived (IsCopyOf (sent_by (world_of self.old)) node)) }
        ensures all { IsTrue M.tells →
            IfOk result (IfNothing (TookAll (fates_of self.old.sent) (world_of self.old) node)) }
        ensures err { OnErr result (IsBroken self.old self.new) }
    {
        if self.broken {
            return Err(AllocError);
        }
        if self.story.standing(node).behind {
            return Ok(Taken::Behind);
        }
        self.broken = true;
        let Some(arrival) = self.flight.take(node)? else {
            self.broken = false;
            return Ok(Taken::Nothing);
        };
        let number = arrival.number;
        self.story.add(Entry::Take { node, number })?;
        self.broken = false;
        Ok(Taken::Arrived(arrival))
    }

    /// The broker goes.
    pub fn go(&mut self, node: NodeId) -> Result<(), AllocError>
        requires up { ((world_of self.old).flags node).up ≡ true }
        requires broker { is_broker node.kind ≡ true }
        requires fresh { ((world_of self.old).flags node).gone ≡ false }
        ensures ok { OnOk result (HasMore self.old self.new (entry.Go node)) }
        ensures err { OnErr result (IsBroken self.old self.new) }
    {
        if self.broken {
            return Err(AllocError);
        }
        self.broken = true;
        self.story.add(Entry::Go { node })?;
        self.broken = false;
        Ok(())
    }

    /// The node hears the moment of the last tick.
    pub fn hear(&mut self, node: NodeId) -> Result<u64, AllocError>
        requires up { ((world_of self.old).flags node).up ≡ true }
        requires behind { is_behind (world_of self.old) node ≡ true }
        ensures ok { IfOk result (λ moment. HasMore self.old self.new (entry.Hear node)) }
        ensures moment { IfOk result (λ moment. (world_of self.old).last ≡ Some moment) }
        ensures small { IfOk result (λ moment. moment < 2 ^ 63) }
        ensures err { OnErr result (IsBroken self.old self.new) }
    {
        let Some(moment) = self.story.last else {
            unreachable!()
        };
        if self.broken {
            return Err(AllocError);
        }
        self.broken = true;
        self.story.add(Entry::Hear { node })?;
        self.broken = false;
        Ok(moment)
    }

    /// The repository learns how an attempt was decided, of which its log doesn't know.
    pub fn learn(&mut self, node: NodeId, stamp: Stamp, committed: bool) -> Result<(), AllocError>
        requires up { ((world_of self.old).flags node).up ≡ true }
        requires repository { is_broker node.kind ≡ false }
        requires stands { IsTrue M.tells → IsDecidedAs (world_of self.old) stamp committed }
        requires new { IsTrue M.tells → IsNewTo ((world_of self.old).life node) stamp }
        ensures ok { OnOk result (HasMore self.old self.new (entry.Learn node stamp committed)) }
        ensures err { OnErr result (IsBroken self.old self.new) }
    {
        if self.broken {
            return Err(AllocError);
        }
        self.broken = true;
        self.story.add(Entry::Learn {
            node,
            stamp,
            committed,
        })?;
        self.broken = false;
        Ok(())
    }

    /// The node stopped, and was opened again with so many of its effects that weren't gated.
    pub fn crash(&mut self, node: NodeId, kept: u32) -> Result<(), AllocError>
        requires up { ((world_of self.old).flags node).up ≡ true }
        requires kept { IsTrue M.tells → kept ≤ length ((world_of self.old).life node).fresh }
        ensures ok { OnOk result (HasMore self.old self.new (entry.Crash node kept)) }
        ensures err { OnErr result (IsBroken self.old self.new) }
    {
        if self.broken {
            return Err(AllocError);
        }
        self.broken = true;
        self.story.add(Entry::Crash { node, kept })?;
        self.broken = false;
        Ok(())
    }

    /// The node stopped for good.
    pub fn down(&mut self, node: NodeId, cause: DownCause) -> Result<(), AllocError>
        requires up { ((world_of self.old).flags node).up ≡ true }
        requires none { (world_of self.old).moved ≡ false → unwrap_or (opened_log self.old.origin.opened node) [] ≡ [] }
        ensures ok { OnOk result (HasMore self.old self.new (entry.Down node cause)) }
        ensures err { OnErr result (IsBroken self.old self.new) }
    {
        if self.broken {
            return Err(AllocError);
        }
        self.broken = true;
        self.story.add(Entry::Down { node, cause })?;
        self.flight.shut(node);
        self.broken = false;
        Ok(())
    }

    /// The node's new effects are durable. Sends the messages, in order, and asks the fates once for
    /// each.
    pub fn gate(&mut self, node: NodeId, outs: Vec<Out>) -> Result<(), AllocError>
        requires up { ((world_of self.old).flags node).up ≡ true }
        requires due { ((world_of self.old).flags node).due ≡ true }
        requires in_range { AreOuts outs.items }
        requires owed { IsTrue M.tells → outs.items ≡ owed (world_of self.old) node }
        ensures ok { OnOk result (HasGated self.old self.new node outs.items) }
        ensures err { OnErr result (IsBroken self.old self.new) }
    {
        if self.broken {
            return Err(AllocError);
        }
        self.broken = true;
        if self.sent.len() + outs.len() >= u32::MAX as usize {
            return Err(AllocError);
        }
        let first = self.sent.len() as u32 + 1;
        let mut news = send_all(
            self.alloc,
            &mut self.fates,
            &mut self.flight,
            first,
            node,
            outs,
        )?;
        let before = self.sent.len();
        self.sent.append(&mut news)?;
        match self.story.add(Entry::Gate { node }) {
            Err(_) => {
                self.sent.truncate(before);
                Err(AllocError)
            }
            Ok(()) => {
                self.broken = false;
                Ok(())
            }
        }
    }

    /// Lets time pass, where the wire is idle: asks the clock once. The new moment is the clock's,
    /// where a later one than 2^62 counts as 2^62, and at least the last one plus 1. None where the
    /// wire isn't idle.
    pub fn tick(&mut self) -> Result<Option<u64>, AllocError>
        ensures ok { IfOk result (Ticks self.old self.new) }
        ensures idle { IsTrue M.tells → IfOk result (JustWhere (Idle (fates_of self.old.sent) (world_of self.old))) }
        ensures err { OnErr result (IsBroken self.old self.new) }
    {
        if self.broken {
            return Err(AllocError);
        }
        if !self.idle() {
            return Ok(None);
        }
        self.broken = true;
        let last = self.story.last.unwrap_or(self.start);
        let answer = self.clock.moment();
        let moment = answer.min(1 << 62).max(last + 1);
        self.flight.pass()?;
        self.story.add(Entry::Tick { moment })?;
        self.broken = false;
        Ok(Some(moment))
    }
}
