//! The visits of nodes.
ghost use Rattle.std.specs.Prelude.{◌≡◌, ◌≤◌, ◌<◌, ◌^◌, Some, true, false, length, IsTrue, IfOk, OnOk, OnErr};
ghost use Rattle.pseudo_time.specs.Nodes.{is_broker};
ghost use Rattle.message_form.specs.Messages.{IsMessage};
ghost use Rattle.seat_lock.specs.Words.{knows};
ghost use Rattle.world_core.specs.Walks.{sent_by};
ghost use Rattle.world_core.specs.Legal.{HasGone, IsDecidedAs, is_behind};
ghost use Rattle.wire_core.specs.Changes.{IfArrived, IfNothing, IsCopyOf};
ghost use Rattle.wire_core.specs.Learns.{IsNewTo};
ghost use Rattle.wire_lock.specs.Sights.{IsWirePass, IsOf, HadNothing, world_at, life_at, flags_at};
ghost use Rattle.wire_lock.specs.Sights.{Looked, TakesOne, Goes, Hears, Learns, Crashes, Falls, IsLeft, HasNoneDue};

use crate::shared::{LeftWire, SharedWire, WirePass};
use medium_port::Medium;
use pseudo_time::{DownCause, NodeId, Stamp};
use std::alloc::AllocError;
use std::snapshot::Snapshot;
use std::sync::Wait;
use stream_port::{Clock, Fates};
use wire_core::Taken;
use world_core::Entry;

impl<F: Fates, C: Clock, M: Medium> SharedWire<F, C, M> {
    /// Takes the node's first due copy. Behind where the node hasn't heard the last tick; over media
    /// that tell their content, Nothing only where no copy is due for it.
    pub fn take<R: Wait>(
        &self,
        rt: &R,
        node: NodeId,
        pass: WirePass<F, C, M>,
    ) -> (
        WirePass<F, C, M>,
        Result<Taken, AllocError>,
        LeftWire<F, C, M>,
    )
        requires pass { IsWirePass self.now.lock pass }
        requires node { IsOf node (knows pass) }
        requires up { (flags_at (knows pass) node).up ≡ true }
        requires gone { HasGone (world_at (knows pass)) node }
        ensures pass { IsWirePass self.now.lock result.0 }
        ensures ok { IfOk result.1 (TakesOne M.tells node (knows pass) (knows result.0)) }
        ensures copy { IsTrue M.tells →
            IfOk result.1 (IfArrived (IsCopyOf (sent_by (world_at (knows result.0))) node)) }
        ensures in_range { IfOk result.1 (IfArrived (λ a. IsMessage a.message)) }
        ensures left { IsLeft result.2.value (knows result.0) }
        ensures nothing { IsTrue M.tells →
            IfOk result.1 (IfNothing (HasNoneDue result.2.value (knows result.0) node)) }
        ensures err { OnErr result.1 (Looked (knows pass) (knows result.0)) }
        ensures broken { OnErr result.1 (result.2.value.broken ≡ true) }
    {
        let mut visit = self.lock.enter(rt, pass);
        let wire = visit.value();
        let taken = wire.take(node);
        let left = Snapshot::of(wire);
        match taken {
            Err(_) => (visit.leave(), Err(AllocError), left),
            Ok(Taken::Behind) => (visit.leave(), Ok(Taken::Behind), left),
            Ok(Taken::Nothing) => (visit.leave(), Ok(Taken::Nothing), left),
            Ok(Taken::Arrived(arrival)) => {
                let number = arrival.number;
                visit.note(&Entry::Take { node, number });
                (visit.leave(), Ok(Taken::Arrived(arrival)), left)
            }
        }
    }

    /// The broker goes.
    pub fn go<R: Wait>(
        &self,
        rt: &R,
        node: NodeId,
        pass: WirePass<F, C, M>,
    ) -> (WirePass<F, C, M>, Result<(), AllocError>)
        requires pass { IsWirePass self.now.lock pass }
        requires node { IsOf node (knows pass) }
        requires up { (flags_at (knows pass) node).up ≡ true }
        requires broker { is_broker node.kind ≡ true }
        requires fresh { (flags_at (knows pass) node).gone ≡ false }
        ensures pass { IsWirePass self.now.lock result.0 }
        ensures ok { OnOk result.1 (Goes M.tells node (knows pass) (knows result.0)) }
        ensures err { OnErr result.1 (Looked (knows pass) (knows result.0)) }
    {
        let mut visit = self.lock.enter(rt, pass);
        match visit.value().go(node) {
            Err(_) => (visit.leave(), Err(AllocError)),
            Ok(()) => {
                visit.note(&Entry::Go { node });
                (visit.leave(), Ok(()))
            }
        }
    }

    /// The node hears the moment of the last tick.
    pub fn hear<R: Wait>(
        &self,
        rt: &R,
        node: NodeId,
        pass: WirePass<F, C, M>,
    ) -> (WirePass<F, C, M>, Result<u64, AllocError>)
        requires pass { IsWirePass self.now.lock pass }
        requires node { IsOf node (knows pass) }
        requires up { (flags_at (knows pass) node).up ≡ true }
        requires behind { is_behind (world_at (knows pass)) node ≡ true }
        ensures pass { IsWirePass self.now.lock result.0 }
        ensures ok { IfOk result.1 (Hears M.tells node (knows pass) (knows result.0)) }
        ensures moment { IfOk result.1 (λ moment. (world_at (knows result.0)).last ≡ Some moment) }
        ensures small { IfOk result.1 (λ moment. moment < 2 ^ 63) }
        ensures err { OnErr result.1 (Looked (knows pass) (knows result.0)) }
    {
        let mut visit = self.lock.enter(rt, pass);
        match visit.value().hear(node) {
            Err(_) => (visit.leave(), Err(AllocError)),
            Ok(moment) => {
                visit.note(&Entry::Hear { node });
                (visit.leave(), Ok(moment))
            }
        }
    }

    /// The repository learns how an attempt was decided, of which its log doesn't know.
    pub fn learn<R: Wait>(
        &self,
        rt: &R,
        node: NodeId,
        pass: WirePass<F, C, M>,
        stamp: Stamp,
        committed: bool,
    ) -> (WirePass<F, C, M>, Result<(), AllocError>)
        requires pass { IsWirePass self.now.lock pass }
        requires node { IsOf node (knows pass) }
        requires up { (flags_at (knows pass) node).up ≡ true }
        requires repository { is_broker node.kind ≡ false }
        requires stands { IsTrue M.tells → IsDecidedAs (world_at (knows pass)) stamp committed }
        requires new { IsTrue M.tells → IsNewTo (life_at (knows pass) node) stamp }
        ensures pass { IsWirePass self.now.lock result.0 }
        ensures ok { OnOk result.1 (Learns M.tells node (knows pass) (knows result.0) stamp committed) }
        ensures err { OnErr result.1 (Looked (knows pass) (knows result.0)) }
    {
        let mut visit = self.lock.enter(rt, pass);
        match visit.value().learn(node, stamp, committed) {
            Err(_) => (visit.leave(), Err(AllocError)),
            Ok(()) => {
                visit.note(&Entry::Learn {
                    node,
                    stamp,
                    committed,
                });
                (visit.leave(), Ok(()))
            }
        }
    }

    /// The node stopped, and was opened again with so many of its effects that weren't gated.
    pub fn crash<R: Wait>(
        &self,
        rt: &R,
        node: NodeId,
        pass: WirePass<F, C, M>,
        kept: u32,
    ) -> (WirePass<F, C, M>, Result<(), AllocError>)
        requires pass { IsWirePass self.now.lock pass }
        requires node { IsOf node (knows pass) }
        requires up { (flags_at (knows pass) node).up ≡ true }
        requires kept { IsTrue M.tells → kept ≤ length (life_at (knows pass) node).fresh }
        ensures pass { IsWirePass self.now.lock result.0 }
        ensures ok { OnOk result.1 (Crashes M.tells node (knows pass) (knows result.0) kept) }
        ensures err { OnErr result.1 (Looked (knows pass) (knows result.0)) }
    {
        let mut visit = self.lock.enter(rt, pass);
        match visit.value().crash(node, kept) {
            Err(_) => (visit.leave(), Err(AllocError)),
            Ok(()) => {
                visit.note(&Entry::Crash { node, kept });
                (visit.leave(), Ok(()))
            }
        }
    }

    /// The node stopped for good.
    pub fn down<R: Wait>(
        &self,
        rt: &R,
        node: NodeId,
        pass: WirePass<F, C, M>,
        cause: DownCause,
    ) -> (WirePass<F, C, M>, Result<(), AllocError>)
        requires pass { IsWirePass self.now.lock pass }
        requires node { IsOf node (knows pass) }
        requires up { (flags_at (knows pass) node).up ≡ true }
        requires none { HadNothing node (knows pass) }
        ensures pass { IsWirePass self.now.lock result.0 }
        ensures ok { OnOk result.1 (Falls M.tells node (knows pass) (knows result.0) cause) }
        ensures err { OnErr result.1 (Looked (knows pass) (knows result.0)) }
    {
        let mut visit = self.lock.enter(rt, pass);
        match visit.value().down(node, cause) {
            Err(_) => (visit.leave(), Err(AllocError)),
            Ok(()) => {
                visit.note(&Entry::Down { node, cause });
                (visit.leave(), Ok(()))
            }
        }
    }
}
