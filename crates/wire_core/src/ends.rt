//! Where a wire has nothing to do, what holds of it, and its end.
ghost use Rattle.std.specs.Prelude.{◌≡◌, ◌↔◌, ◌<◌, ◌^◌, ◌++◌, true, false, map, IsTrue};
ghost use Rattle.pseudo_time.specs.Lists.{Every};
ghost use Rattle.plan_form.specs.declared.plans.Plan.{Plan};
ghost use Rattle.world_core.specs.Walks.{sent_by};
ghost use Rattle.world_core.specs.Legal.{Idle, is_behind, Numbered, post_of, fates_of, asked_of};
ghost use Rattle.world_core.specs.Readings.{IsLegal};
ghost use Rattle.wire_core.specs.Learns.{LearnsAreNew};
ghost use Rattle.wire_core.specs.Wires.{base_from, world_of, IsRunOf, trace_of};
ghost use Rattle.wire_core.specs.Changes.{IsQuiet};
ghost use Rattle.wire_core.specs.Clocked.{IsClocked, tick_moments};
ghost use Rattle.wire_core.specs.Sound.{IsFlown};

use crate::flags::Standing;
use crate::stories::Story;
use crate::wires::Wire;
use medium_port::Medium;
use pseudo_time::NodeId;
use stream_port::{Clock, Fates};
use value_form::Items;
use world_core::Trace;

impl<F: Fates, C: Clock, M: Medium> Wire<F, C, M> {
    /// How a node stands, which the conditions of the changes ask.
    pub fn standing(&self, node: NodeId) -> Standing
        ensures up { result.up ≡ ((world_of self.now).flags node).up }
        ensures gone { result.gone ≡ ((world_of self.now).flags node).gone }
        ensures due { result.due ≡ ((world_of self.now).flags node).due }
        ensures behind { ((world_of self.now).flags node).up ≡ true →
            result.behind ≡ is_behind (world_of self.now) node }
    {
        self.story.standing(node)
    }

    /// Whether no node that is up has anything to do. After memory ran out it is false.
    pub fn idle(&self) -> bool
        ensures quiet { IsTrue result ↔ ((self.now.broken ≡ false) × IsQuiet self.now) }
        ensures idle { IsTrue M.tells →
            (IsTrue result ↔ ((self.now.broken ≡ false) × Idle (fates_of self.now.sent) (world_of self.now))) }
    {
        if self.broken {
            return false;
        }
        self.flight.empty() && self.story.is_idle()
    }

    /// A law: what holds of each wire at each moment. Where media tell their content its trace is
    /// legal.
    pub fn stands(&self)
        ensures legal { IsTrue M.tells → (plan : Plan) → IsRunOf plan self.now.origin →
            IsLegal plan (self.now.origin.asked ++ map asked_of self.now.sent) (trace_of self.now) }
        ensures sent { IsTrue M.tells → map post_of self.now.sent ≡ sent_by (world_of self.now) }
        ensures numbers { Numbered 1 self.now.sent }
        ensures moments { Every (λ moment. moment < 2 ^ 63) (tick_moments self.now.entries) }
        ensures copies { self.now.broken ≡ false → IsFlown M.tells self.now }
        ensures fates { self.now.broken ≡ false → self.now.asked ≡ self.now.origin.asked ++ map asked_of self.now.sent }
        ensures clock { self.now.broken ≡ false →
            IsClocked self.now.origin.answers self.now.answers self.now.origin.start self.now.entries }
    {
        let _ = &self.alloc;
    }

    /// The trace, and the fates and the clock, handed back.
    pub fn finish(self) -> (Trace, F, C)
        ensures trace { result.0 ≡ trace_of self }
        ensures legal { IsTrue M.tells → (plan : Plan) → IsRunOf plan self.origin →
            IsLegal plan (self.origin.asked ++ map asked_of self.sent) result.0 }
        ensures learns { IsTrue M.tells → LearnsAreNew (base_from self.origin) self.entries }
        ensures sent { IsTrue M.tells → map post_of self.sent ≡ sent_by (world_of self) }
        ensures numbers { Numbered 1 self.sent }
        ensures moments { Every (λ moment. moment < 2 ^ 63) (tick_moments self.entries) }
        ensures fates { self.broken ≡ false → F.asked result.1 ≡ self.origin.asked ++ map asked_of self.sent }
        ensures clock { self.broken ≡ false →
            IsClocked self.origin.answers (C.answers result.2) self.origin.start self.entries }
    {
        let Wire {
            alloc: _,
            run: _,
            acts: _,
            start,
            opened,
            sent,
            story,
            flight: _,
            fates,
            clock,
            first_fates: _,
            first_clock: _,
            broken: _,
            media: _,
        } = self;
        let Story {
            entries,
            nodes: _,
            ticks: _,
            last: _,
        } = story;
        let trace = Trace {
            start,
            opened: Items::of(opened),
            sent: Items::of(sent),
            entries: Items::of(entries),
        };
        (trace, fates, clock)
    }
}
