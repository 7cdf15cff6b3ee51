//! The visit that makes effects known, and posts the decisions among them.
ghost use Rattle.std.specs.Prelude.{◌≡◌, ◌++◌, true, IsTrue, OnOk, OnErr};
ghost use Rattle.pseudo_time.specs.Lists.{Every};
ghost use Rattle.message_form.specs.Ranges.{AreOuts};
ghost use Rattle.seat_lock.specs.Words.{knows, sees, IsInside, lock_of, base_of, board_size, has_noted};
ghost use Rattle.world_core.specs.Walks.{walk};
ghost use Rattle.world_core.specs.Legal.{IsDecidedAs};
ghost use Rattle.wire_core.specs.Wires.{base_from};
ghost use Rattle.wire_core.specs.Changes.{owed};
ghost use Rattle.wire_lock.specs.Decisions.{posted, decided_by};
ghost use Rattle.wire_lock.specs.Sights.{IsWirePass, IsOf, Looked, Gates, world_at, life_at, flags_at};

use crate::boards::{number_of, place_of};
use crate::shared::{SharedWire, WirePass};
use medium_port::Medium;
use message_form::Out;
use pseudo_time::{NodeId, Stamp};
use seat_lock::Visit;
use std::alloc::AllocError;
use std::sync::Wait;
use stream_port::{Clock, Fates};
use wire_core::Wire;
use world_core::Entry;

// Posts the decisions, in order.
fn post_all<F: Fates, C: Clock, M: Medium>(
    visit: &mut Visit<'_, Wire<F, C, M>>,
    decides: &[(Stamp, bool)],
)
    requires board { board_size (lock_of visit.old) ≡ 4096 }
    requires inside { (x : _) × IsInside visit.old x }
    requires stand { IsTrue M.tells → Every
        (λ d. IsDecidedAs (walk (base_from (base_of (lock_of visit.old)).origin) (sees visit.old).story) d.0 d.1)
        decides.now }
    ensures lock { lock_of visit.new ≡ lock_of visit.old }
    ensures inside { (x : _) → IsInside visit.old x → IsInside visit.new x }
    ensures noted { has_noted visit.new ≡ has_noted visit.old }
    ensures sees { sees visit.new ≡ record (sees visit.old) { posts = (sees visit.old).posts ++ posted decides.now } }
{
    for (stamp, committed) in decides {
        visit.post(place_of(*stamp), number_of(*stamp, *committed));
    }
}

impl<F: Fates, C: Clock, M: Medium> SharedWire<F, C, M> {
    /// The node's new effects are durable. Sends the messages, in order, and then posts the
    /// decisions: those among the effects whose stamp has this node as its home, in order, each with
    /// whether it is committed.
    pub fn gate<R: Wait>(
        &self,
        rt: &R,
        node: NodeId,
        pass: WirePass<F, C, M>,
        outs: Vec<Out>,
        decides: &[(Stamp, bool)],
    ) -> (WirePass<F, C, M>, Result<(), AllocError>)
        requires pass { IsWirePass self.now.lock pass }
        requires node { IsOf node (knows pass) }
        requires up { (flags_at (knows pass) node).up ≡ true }
        requires due { (flags_at (knows pass) node).due ≡ true }
        requires in_range { AreOuts outs.items }
        requires owed { IsTrue M.tells → outs.items ≡ owed (world_at (knows pass)) node }
        requires decides { IsTrue M.tells → decides.now ≡ decided_by node (life_at (knows pass) node).fresh }
        ensures pass { IsWirePass self.now.lock result.0 }
        ensures ok { OnOk result.1 (Gates M.tells node (knows pass) (knows result.0) decides.now) }
        ensures err { OnErr result.1 (Looked (knows pass) (knows result.0)) }
    {
        let mut visit = self.lock.enter(rt, pass);
        match visit.value().gate(node, outs) {
            Err(_) => (visit.leave(), Err(AllocError)),
            Ok(()) => {
                visit.note(&Entry::Gate { node });
                post_all(&mut visit, decides);
                (visit.leave(), Ok(()))
            }
        }
    }
}
