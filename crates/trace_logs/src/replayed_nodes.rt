//! A node at a place of a trace.
ghost use Rattle.std.specs.Prelude.{◌≡◌, ◌≤◌, ◌^◌, ◌++◌, ◌∷◌, [], IfOk, OnOk};
ghost use Rattle.std.specs.List.{filter};
ghost use Rattle.effect_form.specs.declared.effects.Effect.{Effect};
ghost use Rattle.pseudo_time.specs.declared.nodes.NodeId.{NodeId};
ghost use Rattle.message_form.specs.Messages.{IsMessage};
ghost use Rattle.message_form.specs.declared.turns.Out.{Out};
ghost use Rattle.message_form.specs.Posts.{posts};
ghost use Rattle.message_form.specs.Ranges.{AreEffects, AreOuts};
ghost use Rattle.broker_core.specs.Ledgers.{AreBrokerActs};
ghost use Rattle.broker_core.specs.Tasks.{Scripted};
ghost use Rattle.world_core.specs.Nodes.{leaves};
ghost use Rattle.world_core.specs.Nodes.Input.{Going, Taking, Learning, Hearing};
ghost use Rattle.world_core.specs.Walks.{Base, Life, all_effects, gated_life, crashed_life, opened_life};
ghost use Rattle.trace_logs.specs.Cores.{own_acts};
ghost use Rattle.trace_logs.specs.Letters.{all_posted, AreLetters};
ghost use Rattle.trace_logs.specs.ReplayedNodes.{Lives, IsSound, LivesOn};

use crate::cores::{NodeCore, open_core};
use crate::letters::SentMessage;
use effect_form::Effect;
use message_form::{Message, Out, Turn};
use pseudo_time::{NodeId, Stamp};
use std::alloc::{AllocError, Global};
use std::mem;
use value_form::ActSpec;

/// A node at a place of a trace.
#[derive(Drop)]
pub struct ReplayedNode {
    pub node: NodeId,
    /// The durable log, oldest effect first.
    pub gated: Vec<Effect>,
    /// The effects that wait for the next gate, and the messages.
    pub fresh: Vec<Effect>,
    pub outs: Vec<Out>,
    pub core: NodeCore,
}

impl ReplayedNode {
    /// A node that is opened with this log. `acts` are a broker's own of the plan, none for a repository.
    pub fn open(
        alloc: Global,
        run: u32,
        start: u64,
        node: NodeId,
        acts: Vec<ActSpec>,
        log: Vec<Effect>,
    ) -> Result<ReplayedNode, AllocError>
        requires low { 1 ≤ node.number }
        requires high { node.number ≤ 16 }
        requires acts { AreBrokerActs acts.items }
        requires run { 1 ≤ run }
        requires log { AreEffects log.items }
        requires start { start ≤ 2 ^ 63 }
        ensures lives { (b : Base) → b.run ≡ run → acts.items ≡ own_acts node b.acts → Scripted b.script acts.items
            → IfOk result (λ s. Lives b s (opened_life start log.items)) }
        ensures node { IfOk result (λ s. s.node ≡ node) }
        ensures sound { IfOk result IsSound }
    {
        let core = open_core(alloc, run, start, node, acts, log.as_slice())?;
        Ok(ReplayedNode {
            node,
            gated: log,
            fresh: Vec::new(alloc),
            outs: Vec::new(alloc),
            core,
        })
    }

    // What a turn gave is added.
    fn add(&mut self, turn: Turn) -> Result<(), AllocError>
        ensures node { OnOk result (self.new.node ≡ self.old.node) }
        ensures gated { OnOk result (self.new.gated ≡ self.old.gated) }
        ensures core { OnOk result (self.new.core ≡ self.old.core) }
        ensures fresh { OnOk result (self.new.fresh.items ≡ self.old.fresh.items ++ turn.effects) }
        ensures outs { OnOk result (self.new.outs.items ≡ self.old.outs.items ++ turn.outs) }
    {
        let Turn { effects, outs } = turn;
        let mut effects = effects.into_vec();
        let mut outs = outs.into_vec();
        self.fresh.append(&mut effects)?;
        self.outs.append(&mut outs)?;
        Ok(())
    }

    /// Takes a message.
    pub fn take(&mut self, from: NodeId, message: &Message) -> Result<(), AllocError>
        requires sound { IsSound self.old }
        requires message { IsMessage message.now }
        ensures { LivesOn self.old self.new (Taking from message.now) result }
    {
        let turn = self.core.take(from, message)?;
        self.add(turn)
    }

    /// Goes, a broker.
    pub fn go(&mut self, alloc: Global) -> Result<(), AllocError>
        requires sound { IsSound self.old }
        ensures { LivesOn self.old self.new Going result }
    {
        let turn = self.core.go(alloc)?;
        self.add(turn)
    }

    /// Learns a decision, a repository.
    pub fn learn(&mut self, alloc: Global, stamp: Stamp, committed: bool) -> Result<(), AllocError>
        requires sound { IsSound self.old }
        ensures { LivesOn self.old self.new (Learning stamp committed) result }
    {
        let turn = self.core.learn(alloc, stamp, committed)?;
        self.add(turn)
    }

    /// Hears a moment of at most 2^63.
    pub fn hear(&mut self, moment: u64) -> Result<(), AllocError>
        requires sound { IsSound self.old }
        requires moment { moment ≤ 2 ^ 63 }
        ensures { LivesOn self.old self.new (Hearing moment) result }
    {
        let turn = self.core.hear(moment)?;
        self.add(turn)
    }

    // Whether a message leaves at a gate: all but an Ask whose stamp the log knows. All effects are
    // durable.
    fn leaves(&self, out: &Out) -> bool
        requires sound { IsSound self.now }
        ensures { (b : Base) (l : Life) → Lives b self.now l → l.fresh ≡ [] → result ≡ leaves l.gated out.now }
    {
        match &out.message {
            Message::Ask { stamp } => !self.core.knows(self.gated.as_slice(), *stamp),
            _ => true,
        }
    }

    // Sends a message, if it leaves.
    fn send(&self, out: Out, letters: &mut Vec<SentMessage>) -> Result<(), AllocError>
        requires sound { IsSound self.now }
        requires message { IsMessage out.message }
        ensures sent { (b : Base) (l : Life) → Lives b self.now l → l.fresh ≡ []
            → OnOk result (all_posted letters.new.items ≡ all_posted letters.old.items ++ posts self.now.node
            (filter (leaves l.gated) (out ∷ []))) }
        ensures in_range { AreLetters letters.old.items → OnOk result (AreLetters letters.new.items) }
    {
        if !self.leaves(&out) {
            return Ok(());
        }
        let from = self.node;
        letters.push(SentMessage { from, out })?;
        Ok(())
    }

    // Sends the messages that leave, in order.
    fn send_all(&self, outs: Vec<Out>, letters: &mut Vec<SentMessage>) -> Result<(), AllocError>
        requires sound { IsSound self.now }
        requires messages { AreOuts outs.items }
        ensures sent { (b : Base) (l : Life) → Lives b self.now l → l.fresh ≡ []
            → OnOk result (all_posted letters.new.items ≡ all_posted letters.old.items ++ posts self.now.node
            (filter (leaves l.gated) outs.items)) }
        ensures in_range { AreLetters letters.old.items → OnOk result (AreLetters letters.new.items) }
    {
        for out in outs {
            self.send(out, letters)?;
        }
        Ok(())
    }

    /// The new effects join the log, and the messages leave.
    pub fn gate(&mut self, alloc: Global, letters: &mut Vec<SentMessage>) -> Result<(), AllocError>
        requires sound { IsSound self.old }
        ensures lives { (b : Base) (l : Life) → Lives b self.old l → OnOk result (Lives b self.new (gated_life l)) }
        ensures sent { (b : Base) (l : Life) → Lives b self.old l
            → OnOk result (all_posted letters.new.items ≡ all_posted letters.old.items ++ posts self.old.node
            (filter (leaves (all_effects l)) l.outs)) }
        ensures in_range { AreLetters letters.old.items → OnOk result (AreLetters letters.new.items) }
        ensures node { OnOk result (self.new.node ≡ self.old.node) }
        ensures sound { OnOk result (IsSound self.new) }
    {
        self.gated.append(&mut self.fresh)?;
        let outs = mem::replace(&mut self.outs, Vec::new(alloc));
        self.send_all(outs, letters)
    }

    /// The first `kept` new effects join the log, the others and the messages are gone, and the node is
    /// opened anew.
    pub fn crash(
        &mut self,
        alloc: Global,
        run: u32,
        start: u64,
        kept: u32,
    ) -> Result<(), AllocError>
        requires sound { IsSound self.old }
        requires run { 1 ≤ run }
        requires start { start ≤ 2 ^ 63 }
        ensures lives { (b : Base) (l : Life) → b.run ≡ run → b.start ≡ start → Lives b self.old l
            → OnOk result (Lives b self.new (crashed_life b.start kept l)) }
        ensures node { OnOk result (self.new.node ≡ self.old.node) }
        ensures sound { OnOk result (IsSound self.new) }
    {
        let mut found = mem::replace(&mut self.fresh, Vec::new(alloc));
        found.truncate(kept as usize);
        self.gated.append(&mut found)?;
        self.outs.clear();
        let acts = self.core.acts(alloc)?;
        self.core = open_core(alloc, run, start, self.node, acts, self.gated.as_slice())?;
        Ok(())
    }
}
