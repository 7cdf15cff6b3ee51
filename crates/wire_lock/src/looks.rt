//! What passes do beside the visits of nodes: ticks, looks and meetings.
ghost use Rattle.std.specs.Prelude.{◌≡◌, ◌↔◌, true, false, length, IsTrue, IfOk, OnErr};
ghost use Rattle.seat_lock.specs.Story.{longer};
ghost use Rattle.seat_lock.specs.Words.{knows};
ghost use Rattle.world_core.specs.Walks.{sent_by};
ghost use Rattle.wire_lock.specs.Sights.{IsWirePass, Looked, TicksOn, HasNothingOpen, IsLeft, IsIdle, IfStill, world_at};

use crate::shared::{LeftWire, SharedWire, WirePass};
use medium_port::Medium;
use std::alloc::AllocError;
use std::snapshot::Snapshot;
use std::sync::Wait;
use stream_port::{Clock, Fates};
use world_core::Entry;

/// What a look tells.
#[derive(Clone, Copy, Debug, PartialEq, Eq)]
pub struct Seen {
    /// How many messages were sent.
    pub sent: u32,
    /// How many entries there are.
    pub entries: u32,
    /// No node that is up has anything to do.
    pub idle: bool,
}

impl<F: Fates, C: Clock, M: Medium> SharedWire<F, C, M> {
    /// Lets time pass, where the wire is idle. Over media that tell their content, None only where it
    /// isn't. The pass is the conductor's.
    pub fn tick<R: Wait>(
        &self,
        rt: &R,
        pass: WirePass<F, C, M>,
    ) -> (
        WirePass<F, C, M>,
        Result<Option<u64>, AllocError>,
        LeftWire<F, C, M>,
    )
        requires pass { IsWirePass self.now.lock pass }
        requires conductor { (knows pass).owner ≡ 0 }
        ensures pass { IsWirePass self.now.lock result.0 }
        ensures ok { IfOk result.1 (TicksOn (knows pass) (knows result.0)) }
        ensures left { IsLeft result.2.value (knows result.0) }
        ensures still { IsTrue M.tells →
            IfOk result.1 (IfStill (IsIdle result.2.value (knows result.0))) }
        ensures err { OnErr result.1 (Looked (knows pass) (knows result.0)) }
        ensures broken { OnErr result.1 (result.2.value.broken ≡ true) }
    {
        let mut visit = self.lock.enter(rt, pass);
        let wire = visit.value();
        let ticked = wire.tick();
        let left = Snapshot::of(wire);
        let Ok(passed) = ticked else {
            return (visit.leave(), Err(AllocError), left);
        };
        let Some(moment) = passed else {
            return (visit.leave(), Ok(None), left);
        };
        visit.note(&Entry::Tick { moment });
        (visit.leave(), Ok(Some(moment)), left)
    }

    /// How many messages the wire has sent, how many entries it has, and whether it is idle: over media that tell their
    /// content, just where no node that is up has anything to do. After memory ran out in an earlier
    /// visit it isn't idle.
    pub fn look<R: Wait>(
        &self,
        rt: &R,
        pass: WirePass<F, C, M>,
    ) -> (WirePass<F, C, M>, Seen, LeftWire<F, C, M>)
        requires pass { IsWirePass self.now.lock pass }
        ensures pass { IsWirePass self.now.lock result.0 }
        ensures looked { Looked (knows pass) (knows result.0) }
        ensures sent { IsTrue M.tells → result.1.sent ≡ length (sent_by (world_at (knows result.0))) }
        ensures entries { result.1.entries ≡ length (knows result.0).story }
        ensures rest { IsTrue result.1.idle → HasNothingOpen (world_at (knows result.0)) }
        ensures left { IsLeft result.2.value (knows result.0) }
        ensures idle { IsTrue M.tells → (IsTrue result.1.idle ↔
            ((result.2.value.broken ≡ false) × IsIdle result.2.value (knows result.0))) }
    {
        let mut visit = self.lock.enter(rt, pass);
        let wire = visit.value();
        let seen = Seen {
            sent: wire.sent(),
            entries: wire.entry_count(),
            idle: wire.idle(),
        };
        let left = Snapshot::of(wire);
        (visit.leave(), seen, left)
    }

    /// Each pass learns what the other has seen, and neither waits. Both have then seen the longer
    /// of the two stories.
    pub fn meet(&self, one: &mut WirePass<F, C, M>, other: &mut WirePass<F, C, M>)
        requires pass { IsWirePass self.now.lock one.old × IsWirePass self.now.lock other.old }
        ensures pass { IsWirePass self.now.lock one.new × IsWirePass self.now.lock other.new }
        ensures one { Looked (knows one.old) (knows one.new) }
        ensures other { Looked (knows other.old) (knows other.new) }
        ensures story { (knows one.new).story ≡ longer (knows one.old).story (knows other.old).story }
        ensures same { (knows other.new).story ≡ (knows one.new).story }
    {
        self.lock.meet(one, other);
    }
}
