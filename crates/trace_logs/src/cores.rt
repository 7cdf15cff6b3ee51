//! The core of a node, whichever kind it is.
ghost use Rattle.std.specs.Prelude.{◌≡◌, ◌≤◌, ◌^◌, ◌∷◌, [], List, IfOk, IfErr, Ok};
ghost use Rattle.message_form.specs.Messages.{IsMessage};
ghost use Rattle.pseudo_time.specs.declared.nodes.NodeId.{NodeId};
ghost use Rattle.effect_form.specs.declared.effects.Effect.{Effect};
ghost use Rattle.value_form.specs.declared.acts.ActSpec.{ActSpec};
ghost use Rattle.broker_core.specs.Ledgers.{AreBrokerActs};
ghost use Rattle.broker_core.specs.Tasks.{Scripted};
ghost use Rattle.message_form.specs.Ranges.{AreEffects};
ghost use Rattle.repository_log.specs.Logs.{knows};
ghost use Rattle.world_core.specs.Nodes.{Mind, opened_mind};
ghost use Rattle.world_core.specs.Nodes.Input.{Going, Taking, Learning, Hearing};
ghost use Rattle.world_core.specs.Walks.{Base};
ghost use Rattle.trace_logs.specs.Cores.{StandsFor, IsAble, IsGiven, IsWant, kind_of, own_acts};

use broker_core::{Broker, copy_acts};
use effect_form::Effect;
use message_form::{Message, Turn};
use object_history::PlainHistories;
use pseudo_time::{NodeId, NodeKind, Stamp};
use repository_core::{CoreFault, Repository};
use repository_log::histories_of;
use std::alloc::{AllocError, Global};
use value_form::ActSpec;

/// A node's core.
#[derive(Drop)]
pub enum NodeCore {
    Repository(Repository<PlainHistories>),
    Broker(Broker),
}

// A turn, or that memory ran out: histories in memory fail in no other way.
fn wanted(gave: Result<Turn, CoreFault>) -> Result<Turn, AllocError>
    requires { IfErr gave IsWant }
    ensures ok { IfOk result (λ turn. gave ≡ Ok turn) }
{
    match gave {
        Ok(turn) => Ok(turn),
        Err(_) => Err(AllocError),
    }
}

// Whether the effect is a Decide or a Learn of the stamp.
fn is_of(effect: &Effect, stamp: Stamp) -> bool
    ensures { result ≡ knows (effect.now ∷ []) stamp }
{
    match effect {
        Effect::Decide {
            stamp: of,
            decision: _,
        }
        | Effect::Learn {
            stamp: of,
            committed: _,
        } => *of == stamp,
        _ => false,
    }
}

// Whether a Decide or a Learn of the stamp stands in a log.
fn settles(log: &[Effect], stamp: Stamp) -> bool
    ensures { result ≡ knows log.now stamp }
{
    for effect in log {
        if is_of(effect, stamp) {
            return true;
        }
    }
    false
}

/// The core of a node over its log, whose effects are in range. `acts` are its own.
pub fn open_core(
    alloc: Global,
    run: u32,
    start: u64,
    node: NodeId,
    acts: Vec<ActSpec>,
    log: &[Effect],
) -> Result<NodeCore, AllocError>
    requires low { 1 ≤ node.number }
    requires high { node.number ≤ 16 }
    requires run { 1 ≤ run }
    requires acts { AreBrokerActs acts.items }
    requires log { AreEffects log.now }
    requires start { start ≤ 2 ^ 63 }
    ensures stands { (b : Base) → b.run ≡ run → acts.items ≡ own_acts node b.acts → Scripted b.script acts.items
        → IfOk result (λ core. StandsFor b node log.now (opened_mind start) core) }
    ensures kind { IfOk result (λ core. kind_of core ≡ node.kind) }
    ensures able { IfOk result IsAble }
{
    match node.kind {
        NodeKind::Repository => {
            let histories = histories_of(alloc, log)?;
            match Repository::open(alloc, node.number, start, log, histories) {
                Ok(core) => Ok(NodeCore::Repository(core)),
                Err((_, wanting)) => Err(wanting),
            }
        }
        NodeKind::Broker => match Broker::open_with(alloc, node.number, run, acts, log) {
            Ok(core) => Ok(NodeCore::Broker(core)),
            Err(_) => Err(AllocError),
        },
    }
}

impl NodeCore {
    /// Copies of a broker's own acts of the plan. A repository has none.
    pub fn acts(&self, alloc: Global) -> Result<Vec<ActSpec>, AllocError>
        ensures own { (b : Base) (n : NodeId) (log : List Effect) (mind : Mind) → StandsFor b n log mind self.now
            → IfOk result (λ acts. (acts.items ≡ own_acts n b.acts) × Scripted b.script acts.items) }
        ensures in_range { IfOk result (λ acts. AreBrokerActs acts.items) }
    {
        match self {
            NodeCore::Repository(_) => Ok(Vec::new(alloc)),
            NodeCore::Broker(core) => {
                let acts = copy_acts(alloc, core.acts())?;
                Ok(acts)
            }
        }
    }

    /// Takes a message.
    pub fn take(&mut self, from: NodeId, message: &Message) -> Result<Turn, AllocError>
        requires able { IsAble self.old }
        requires message { IsMessage message.now }
        ensures { IsGiven self.old self.new (Taking from message.now) result }
    {
        match self {
            NodeCore::Repository(core) => wanted(core.take(from, message)),
            NodeCore::Broker(core) => core.take(from, message),
        }
    }

    /// Goes. A repository has nowhere to go.
    pub fn go(&mut self, alloc: Global) -> Result<Turn, AllocError>
        requires able { IsAble self.old }
        ensures { IsGiven self.old self.new Going result }
    {
        match self {
            NodeCore::Repository(core) => Ok(Turn::quiet(alloc)),
            NodeCore::Broker(core) => core.go(),
        }
    }

    /// Learns a decision. A broker has nothing to learn.
    pub fn learn(
        &mut self,
        alloc: Global,
        stamp: Stamp,
        committed: bool,
    ) -> Result<Turn, AllocError>
        requires able { IsAble self.old }
        ensures { IsGiven self.old self.new (Learning stamp committed) result }
    {
        match self {
            NodeCore::Repository(core) => wanted(core.learn(stamp, committed)),
            NodeCore::Broker(core) => Ok(Turn::quiet(alloc)),
        }
    }

    /// Hears a moment, of at most 2^63.
    pub fn hear(&mut self, moment: u64) -> Result<Turn, AllocError>
        requires able { IsAble self.old }
        requires moment { moment ≤ 2 ^ 63 }
        ensures { IsGiven self.old self.new (Hearing moment) result }
    {
        match self {
            NodeCore::Repository(core) => wanted(core.hear(moment)),
            NodeCore::Broker(core) => core.hear(moment),
        }
    }

    /// Whether the log that the core stands for has a Decide or a Learn of the stamp. A broker's core
    /// keeps no log, so it is searched here; a broker asks nobody, so it never is.
    pub fn knows(&self, log: &[Effect], stamp: Stamp) -> bool
        requires able { IsAble self.now }
        ensures { (b : Base) (n : NodeId) (mind : Mind) → StandsFor b n log.now mind self.now →
            result ≡ knows log.now stamp }
    {
        match self {
            NodeCore::Repository(core) => core.known(stamp).is_some(),
            NodeCore::Broker(_) => settles(log, stamp),
        }
    }
}
