//! A member: a repository that votes.
ghost use Rattle.std.specs.Prelude.{◌≡◌, ◌+◌, ◌++◌, ◌≤◌, ◌^◌, ◌∷◌, [], OnOk, OnErr, IfOk};
ghost use Rattle.message_form.specs.Messages.{IsMessage, IsTimeout};
ghost use Rattle.message_form.specs.Ranges.{IsEffect, AreEffects, AreOuts};
ghost use Rattle.repository_log.specs.Logs.{record_of};
ghost use Rattle.repository_log.specs.Expiries.{expiries};
ghost use Rattle.record_votes.specs.Members as rules;
ghost use Rattle.record_votes.specs.Books.{given};

use crate::votes::Votes;
use commit_record::RecordState;
use effect_form::Effect;
use message_form::{Message, Out, Turn};
use pseudo_time::{Decision, NodeId, NodeKind, Stamp};
use std::alloc::{AllocError, Global};
use std::marker::Model;

/// A member: one of three repositories that vote on each stamp. Its votes are the Decides of its log.
/// Contracts see its number, its log, oldest first, and the last moment that it heard.
#[derive(Drop)]
pub struct Member {
    alloc: Global,
    number: u8,
    moment: u64,
    votes: Votes,
}

impl Model for Member {
    ghost use Rattle.std.specs.Prelude.{◌≤◌, ◌^◌};
    ghost use Rattle.record_votes.specs.Books.{MemberState};

    ghost Value = { MemberState };

    ghost view = { λ m. record { number = m.number; log = m.votes; moment = m.moment } };

    ghost invariant = { λ m. m.moment ≤ 2 ^ 63 };
}

impl Member {
    /// A member that opens over its log, oldest first, at a moment of at most 2^63. Of a log that was
    /// another's, its Begins and Decides alone count. Want of memory is the one error.
    pub fn open(
        alloc: Global,
        number: u8,
        moment: u64,
        effects: &[Effect],
    ) -> Result<Member, AllocError>
        requires { moment ≤ 2 ^ 63 }
        ensures { IfOk result (λ m. m ≡ record { number = number; log = effects.now; moment = moment }) }
    {
        let votes = Votes::open(alloc, effects)?;
        Ok(Member {
            alloc,
            number,
            moment,
            votes,
        })
    }

    // A Begin.
    fn on_begin(&mut self, from: NodeId, stamp: Stamp, timeout: u32) -> Result<Turn, AllocError>
        requires { IsTimeout timeout }
        ensures gives { IfOk result (λ t. given t ≡ rules.begin_by self.old.moment from stamp timeout
            (record_of (rules.book self.old.log) stamp)) }
        ensures log { IfOk result (λ t. self.new ≡ record self.old { log = self.old.log ++ t.effects }) }
        ensures in_range { IfOk result (λ t. AreEffects t.effects × AreOuts t.outs) }
        ensures err { OnErr result (self.new ≡ self.old) }
    {
        let _in_range = stamp.clock();
        match self.votes.state(stamp) {
            Some(RecordState::Unknown { .. }) => answer(self.alloc, from, Message::Begun { stamp }),
            Some(RecordState::Decided(decision)) => {
                answer(self.alloc, from, Message::Decided { stamp, decision })
            }
            None => {
                let deadline = self.moment + u64::from(timeout);
                let effect = Effect::Begin { stamp, deadline };
                let turn = turn_of(self.alloc, effect, from, Message::Begun { stamp })?;
                self.votes.begin(stamp, deadline)?;
                Ok(turn)
            }
        }
    }

    // A Commit or a Withdraw.
    fn on_close(&mut self, from: NodeId, stamp: Stamp, wish: Decision) -> Result<Turn, AllocError>
        ensures gives { IfOk result (λ t. given t ≡ rules.close_by from stamp wish
            (record_of (rules.book self.old.log) stamp)) }
        ensures log { IfOk result (λ t. self.new ≡ record self.old { log = self.old.log ++ t.effects }) }
        ensures in_range { IfOk result (λ t. AreEffects t.effects × AreOuts t.outs) }
        ensures err { OnErr result (self.new ≡ self.old) }
    {
        let _in_range = stamp.clock();
        match self.votes.state(stamp) {
            None => Ok(Turn::quiet(self.alloc)),
            Some(RecordState::Decided(decision)) => {
                answer(self.alloc, from, Message::Decided { stamp, decision })
            }
            Some(RecordState::Unknown { .. }) => {
                let effect = Effect::Decide {
                    stamp,
                    decision: wish,
                };
                let message = Message::Decided {
                    stamp,
                    decision: wish,
                };
                let turn = turn_of(self.alloc, effect, from, message)?;
                self.votes.decide(stamp, wish)?;
                Ok(turn)
            }
        }
    }

    // A message from a broker.
    fn on_row(&mut self, from: NodeId, message: &Message) -> Result<Turn, AllocError>
        requires { IsMessage message.now }
        ensures gives { IfOk result (λ t. given t ≡ rules.row self.old.log self.old.moment from message.now) }
        ensures log { IfOk result (λ t. self.new ≡ record self.old { log = self.old.log ++ t.effects }) }
        ensures in_range { IfOk result (λ t. AreEffects t.effects × AreOuts t.outs) }
        ensures err { OnErr result (self.new ≡ self.old) }
    {
        match message {
            Message::Begin { stamp, timeout } => self.on_begin(from, *stamp, *timeout),
            Message::Commit { stamp } => self.on_close(from, *stamp, Decision::Committed),
            Message::Withdraw { stamp } => self.on_close(from, *stamp, Decision::Withdrawn),
            _ => Ok(Turn::quiet(self.alloc)),
        }
    }

    /// Hears a moment of at most 2^63: each unknown record whose deadline is at most the moment
    /// expires, and nobody is told. Where memory runs out, the member is as before.
    pub fn hear(&mut self, moment: u64) -> Result<Turn, AllocError>
        requires { moment ≤ 2 ^ 63 }
        ensures gives { IfOk result (λ t. given t ≡ rules.on_moment self.old.log moment) }
        ensures log { IfOk result (λ t. self.new ≡ record self.old {
          log = self.old.log ++ t.effects;
          moment = moment;
        }) }
        ensures in_range { IfOk result (λ t. AreEffects t.effects × AreOuts t.outs) }
        ensures err { OnErr result (self.new ≡ self.old) }
    {
        let due = self.votes.due(moment)?;
        self.expire(moment, &due)
    }

    // Hears a moment at which these are due.
    #[tactic(auto, unfolding(crate::specs::Members::on_moment))]
    fn expire(&mut self, moment: u64, due: &[(Stamp, Decision)]) -> Result<Turn, AllocError>
        requires moment { moment ≤ 2 ^ 63 }
        requires due { due.now ≡ expiries moment (rules.book self.old.log) }
        ensures gives { IfOk result (λ t. given t ≡ rules.on_moment self.old.log moment) }
        ensures log { IfOk result (λ t. self.new ≡ record self.old {
          log = self.old.log ++ t.effects;
          moment = moment;
        }) }
        ensures in_range { IfOk result (λ t. AreEffects t.effects × AreOuts t.outs) }
        ensures err { OnErr result (self.new ≡ self.old) }
    {
        let effects = self.votes.expire(self.alloc, due)?;
        self.moment = moment;
        Ok(Turn::of(effects, Vec::new(self.alloc)))
    }

    /// Takes a message, of a broker alone. The effects must be durable before the messages are sent.
    /// Where memory runs out, the member is as before.
    #[tactic(auto, unfolding(crate::specs::Members::on_message))]
    pub fn take(&mut self, from: NodeId, message: &Message) -> Result<Turn, AllocError>
        requires { IsMessage message.now }
        ensures gives { IfOk result (λ t. given t ≡ rules.on_message self.old.log self.old.moment from message.now) }
        ensures log { IfOk result (λ t. self.new ≡ record self.old { log = self.old.log ++ t.effects }) }
        ensures in_range { IfOk result (λ t. AreEffects t.effects × AreOuts t.outs) }
        ensures err { OnErr result (self.new ≡ self.old) }
    {
        match from.kind {
            NodeKind::Broker => self.on_row(from, message),
            NodeKind::Repository => Ok(Turn::quiet(self.alloc)),
        }
    }
}

// One message and no effect.
fn answer(alloc: Global, to: NodeId, message: Message) -> Result<Turn, AllocError>
    requires { IsMessage message }
    ensures in_range { IfOk result (λ t. AreEffects t.effects × AreOuts t.outs) }
    ensures gives { IfOk result (λ t. (t.effects ≡ []) × (t.outs ≡ rules.owed to message)) }
{
    let mut outs = Vec::new(alloc);
    outs.push(Out { to, message })?;
    Ok(Turn::of(Vec::new(alloc), outs))
}

// One effect and one message.
fn turn_of(alloc: Global, effect: Effect, to: NodeId, message: Message) -> Result<Turn, AllocError>
    requires effect { IsEffect effect }
    requires message { IsMessage message }
    ensures in_range { IfOk result (λ t. AreEffects t.effects × AreOuts t.outs) }
    ensures gives { IfOk result (λ t. (t.effects ≡ effect ∷ []) × (t.outs ≡ rules.owed to message)) }
{
    let mut effects = Vec::new(alloc);
    effects.push(effect)?;
    let mut outs = Vec::new(alloc);
    outs.push(Out { to, message })?;
    Ok(Turn::of(effects, outs))
}
