//! What a node runs: a core with its log on a medium.
ghost use Rattle.std.specs.Prelude.{◌≡◌, ◌≤◌, ◌^◌, true, false, IsTrue};
ghost use Rattle.message_form.specs.Messages.{IsMessage};
ghost use Rattle.pseudo_time.specs.Nodes.{is_broker};
ghost use Rattle.message_form.specs.Ranges.{AreEffects};
ghost use Rattle.repository_log.specs.Logs.{knows};
ghost use Rattle.world_core.specs.Nodes.Input.{Going, Taking, Learning, Hearing};
ghost use Rattle.world_core.specs.Walks.{Base, Life, all_effects};
ghost use Rattle.node_inputs.specs.Cores.{IsGiven, IsAppended, IsReopened};

use crate::core_meanings::Meanings;
use effect_form::Effect;
use medium_port::Medium;
use message_form::{Message, Turn};
use object_history::HistoryFault;
use pseudo_time::{NodeId, Stamp};
use std::alloc::Global;
use version_store::{OpenFault, StoreFault};

/// A node's core with its log on a medium, which it always keeps: also where a call failed.
///
/// Over any medium it says when it answers which fault. Where media tell their content, it has the
/// life that the inputs so far gave it, and so gives what the rules give.
pub trait StoredCore<M: Medium>: Meanings<M> {
    /// Its node.
    fn node(&self) -> NodeId
        ensures { result ≡ (Self.parts self.now).node };

    /// A broker goes. Nothing is said of another node's.
    fn go(&mut self) -> Result<Turn, HistoryFault>
        requires able { (Self.parts self.old).able ≡ true }
        ensures given { is_broker (Self.parts self.old).node.kind ≡ true →
            IsGiven M.Medium Self.Meanings self.old self.new Going result };

    /// Takes a message from a node.
    fn take(&mut self, from: NodeId, message: &Message) -> Result<Turn, HistoryFault>
        requires able { (Self.parts self.old).able ≡ true }
        requires message { IsMessage message.now }
        ensures given { IsGiven M.Medium Self.Meanings self.old self.new (Taking from message.now) result };

    /// A repository learns how an attempt was decided. Nothing is said of another node's.
    fn learn(&mut self, stamp: Stamp, committed: bool) -> Result<Turn, HistoryFault>
        requires able { (Self.parts self.old).able ≡ true }
        ensures given { is_broker (Self.parts self.old).node.kind ≡ false →
            IsGiven M.Medium Self.Meanings self.old self.new (Learning stamp committed) result };

    /// Hears a moment of at most 2^63.
    fn hear(&mut self, moment: u64) -> Result<Turn, HistoryFault>
        requires able { (Self.parts self.old).able ≡ true }
        requires moment { moment ≤ 2 ^ 63 }
        ensures given { IsGiven M.Medium Self.Meanings self.old self.new (Hearing moment) result };

    /// Whether a repository's log has a Decide or a Learn of the attempt. Nothing is said of another
    /// node's.
    fn knows(&self, stamp: Stamp) -> bool
        requires able { (Self.parts self.now).able ≡ true }
        ensures { is_broker (Self.parts self.now).node.kind ≡ false → IsTrue M.tells → (b : Base) (l : Life) →
            Self.lives b self.now l → result ≡ knows (all_effects l) stamp };

    /// Adds the effects that it gave since its last append to the log on its medium.
    fn append(self, effects: &[Effect]) -> (Self, Result<(), StoreFault>)
        requires able { (Self.parts self).able ≡ true }
        requires ranges { AreEffects effects.now }
        requires owed { Self.owes self effects.now }
        ensures { IsAppended M.Medium Self.Meanings self result.0 effects.now result.1 };

    /// Opens its medium anew, and the core over the log that is found. Ok tells how many effects
    /// these are.
    fn reopen(self, alloc: Global) -> (Self, Result<usize, OpenFault>)
        ensures { IsReopened M.Medium Self.Meanings self result.0 result.1 };

    /// Its medium.
    fn release(self) -> M
        ensures { result ≡ (Self.parts self).medium };
}
