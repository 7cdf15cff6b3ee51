//! A repository's turn while it is in hand.
ghost use Rattle.std.specs.Prelude.{◌≡◌, ◌+◌, ◌≤◌, ◌^◌, not, [], ◌++◌, reverse, IfOk, OnOk};
ghost use Rattle.std.specs.List.{filter};
ghost use Rattle.std.specs.BTreeSet.{insert_key};
ghost use Rattle.pseudo_time.specs.Order.{same_stamp};
ghost use Rattle.value_form.specs.ObjectBytes.{IsObject};
ghost use Rattle.message_form.specs.Messages.{IsMessage};
ghost use Rattle.repository_draft.specs.Hands as hands;
ghost use Rattle.repository_draft.specs.Replies as replies;
ghost use Rattle.repository_draft.specs.Ranges.{AreHeld};
ghost use Rattle.message_form.specs.Ranges.{IsEffect, AreEffects, AreOuts};

use crate::waits::{Asker, HeldRead};
use effect_form::Effect;
use message_form::{Message, Out, SnapshotLog, Turn};
use pseudo_time::{NodeId, PseudoTime, Stamp};
use std::alloc::{AllocError, Global};
use std::collections::{BTreeMap, BTreeSet};
use std::marker::Model;
use std::mem::replace;

/// A turn while it is in hand, with what the repository remembers beside its log. Contracts see a
/// hand. A call that answers an error found no memory; the draft is then of no use.
#[derive(Drop)]
pub struct Draft {
    alloc: Global,
    number: u8,
    moment: u64,
    log: SnapshotLog,
    effects: Vec<Effect>,
    outs: Vec<Out>,
    held: BTreeMap<PseudoTime, HeldRead>,
    askers: BTreeSet<Asker>,
}

impl Model for Draft {
    ghost use Rattle.std.specs.Prelude.{◌≤◌, ◌^◌, reverse};
    ghost use Rattle.repository_draft.specs.Hands.{Hand};
    ghost use Rattle.repository_draft.specs.Ranges.{AreHeld};
    ghost use Rattle.message_form.specs.Ranges.{AreEffects, AreOuts};

    ghost Value = { Hand };

    ghost view = { λ d. record {
      number = d.number;
      past = reverse d.log;
      added = reverse d.effects.items;
      outs = d.outs.items;
      held = d.held.entries;
      askers = d.askers.keys;
      moment = d.moment;
    } };

    ghost invariant = { λ d. (d.moment ≤ 2 ^ 63) × AreHeld d.held.entries × AreEffects d.effects.items ×
        AreOuts d.outs.items };
}

impl Draft {
    /// The draft of a repository that was just opened, with an empty log.
    pub fn new(alloc: Global, number: u8, moment: u64) -> Draft
        requires { moment ≤ 2 ^ 63 }
        ensures { result ≡ record {
          number = number;
          past = [];
          added = [];
          outs = [];
          held = [];
          askers = [];
          moment = moment;
        } }
    {
        Draft {
            alloc,
            number,
            moment,
            log: SnapshotLog::new(alloc),
            effects: Vec::new(alloc),
            outs: Vec::new(alloc),
            held: BTreeMap::new(alloc),
            askers: BTreeSet::new(alloc),
        }
    }

    /// The log has these effects more, the newest last.
    pub fn log(&mut self, effects: &[Effect]) -> Result<(), AllocError>
        ensures { OnOk result (self.new ≡ record self.old { past = reverse effects.now ++ self.old.past }) }
    {
        self.log.add(self.alloc, effects)
    }

    /// Adds an effect.
    pub fn note(&mut self, effect: Effect) -> Result<(), AllocError>
        requires { IsEffect effect }
        ensures { OnOk result (self.new ≡ hands.note effect self.old) }
    {
        self.effects.push(effect)?;
        Ok(())
    }

    /// Owes a message.
    pub fn send(&mut self, to: NodeId, message: Message) -> Result<(), AllocError>
        requires { IsMessage message }
        ensures { OnOk result (self.new ≡ hands.send to message self.old) }
    {
        self.outs.push(Out { to, message })?;
        Ok(())
    }

    /// When a record that begins now expires.
    pub fn deadline(&self, timeout: u32) -> u64
        ensures { result ≡ self.now.moment + timeout }
    {
        self.moment + u64::from(timeout)
    }

    /// The repository's number.
    pub fn number(&self) -> u8
        ensures { result ≡ self.now.number }
    {
        self.number
    }

    /// A moment is heard.
    pub fn hear(&mut self, moment: u64)
        requires { moment ≤ 2 ^ 63 }
        ensures { self.new ≡ record self.old { moment = moment } }
    {
        self.moment = moment;
    }

    /// A read is no longer held.
    pub fn unhold(&mut self, at: PseudoTime)
        ensures { self.new ≡ replies.unhold at self.old }
    {
        self.held.remove(&at);
    }

    /// A read is held.
    pub fn keep(&mut self, at: PseudoTime, held: HeldRead) -> Result<(), AllocError>
        requires { IsObject held.object }
        ensures { OnOk result (self.new ≡ replies.hold at held self.old) }
    {
        self.held.insert(at, held)?;
        Ok(())
    }

    /// Whether a read is held for the attempt.
    pub fn waits_for(&self, stamp: Stamp) -> bool
        ensures { result ≡ replies.waits_for stamp self.now.held }
    {
        for (_, held) in &self.held {
            if held.waits.is_same(stamp) {
                return true;
            }
        }
        false
    }

    // The held reads that wait for the attempt.
    fn waiting(&self, stamp: Stamp) -> Result<Vec<(PseudoTime, HeldRead)>, AllocError>
        ensures waiting { IfOk result (λ v. v.items ≡ filter (λ e. same_stamp e.1.waits stamp) self.now.held) }
        ensures in_range { IfOk result (λ v. AreHeld v.items) }
    {
        let mut waiting = Vec::new(self.alloc);
        for (at, held) in &self.held {
            if held.waits.is_same(stamp) {
                waiting.push((*at, *held))?;
            }
        }
        Ok(waiting)
    }

    // None waits for the attempt any more.
    fn forget_waiting(&mut self, stamp: Stamp)
        ensures { self.new ≡ record self.old { held = filter (λ e. not (same_stamp e.1.waits stamp)) self.old.held } }
    {
        self.held.retain(|_, held| !held.waits.is_same(stamp));
    }

    /// Releases the held reads that wait for the attempt, in rising order of pseudotime.
    pub fn release(&mut self, stamp: Stamp) -> Result<Vec<(PseudoTime, HeldRead)>, AllocError>
        ensures released { IfOk result (λ v. v.items ≡ filter (λ e. same_stamp e.1.waits stamp) self.old.held) }
        ensures rest { OnOk result (self.new ≡ record self.old {
          held = filter
              (λ e. not (same_stamp e.1.waits stamp)) self.old.held;
        }) }
        ensures in_range { IfOk result (λ v. AreHeld v.items) }
    {
        let released = self.waiting(stamp)?;
        self.forget_waiting(stamp);
        Ok(released)
    }

    /// Those who ask for the attempt.
    pub fn asking(&self, stamp: Stamp) -> Result<Vec<Asker>, AllocError>
        ensures { IfOk result (λ v. v.items ≡ filter (λ a. same_stamp a.stamp stamp) self.now.askers) }
    {
        let mut asking = Vec::new(self.alloc);
        for asker in &self.askers {
            if asker.stamp.is_same(stamp) {
                asking.push(*asker)?;
            }
        }
        Ok(asking)
    }

    /// None waits for the attempt any more.
    pub fn forget_asking(&mut self, stamp: Stamp)
        ensures { self.new ≡ record self.old { askers = filter (λ a. not (same_stamp a.stamp stamp)) self.old.askers } }
    {
        self.askers.retain(|asker| !asker.stamp.is_same(stamp));
    }

    /// Keeps an asker, once.
    pub fn add_asker(&mut self, repository: u8, stamp: Stamp) -> Result<(), AllocError>
        ensures { OnOk result (self.new ≡
            record self.old {
              askers = insert_key hands.asker_cmp self.old.askers
                  (record { repository = repository; stamp = stamp });
            }) }
    {
        self.askers.insert(Asker { repository, stamp })?;
        Ok(())
    }

    /// The attempts with another home for which reads are held.
    pub fn waited(&self) -> Result<BTreeSet<Stamp>, AllocError>
        ensures { IfOk result (λ w. w.keys ≡ replies.waited self.now.number self.now.held []) }
    {
        let mut waited = BTreeSet::new(self.alloc);
        for (_, held) in &self.held {
            if held.waits.home() != self.number {
                waited.insert(held.waits)?;
            }
        }
        Ok(waited)
    }

    // The effects of the turn stand in the log.
    fn log_effects(&mut self) -> Result<(), AllocError>
        ensures { OnOk result (self.new ≡ record self.old { past = hands.now self.old }) }
    {
        self.log.add(self.alloc, self.effects.as_slice())
    }

    // The effects and messages of the turn are handed out.
    fn take(&mut self) -> Turn
        ensures effects { result.effects ≡ reverse self.old.added }
        ensures outs { result.outs ≡ self.old.outs }
        ensures closed { self.new ≡ record self.old { added = []; outs = [] } }
        ensures in_range { AreEffects result.effects × AreOuts result.outs }
    {
        let effects = replace(&mut self.effects, Vec::new(self.alloc));
        let outs = replace(&mut self.outs, Vec::new(self.alloc));
        Turn::of(effects, outs)
    }

    /// Ends the turn: its effects stand in the log.
    pub fn close(&mut self) -> Result<Turn, AllocError>
        ensures effects { IfOk result (λ t. t.effects ≡ reverse self.old.added) }
        ensures outs { IfOk result (λ t. t.outs ≡ self.old.outs) }
        ensures closed { OnOk result (self.new ≡ record self.old { past = hands.now self.old; added = []; outs = [] }) }
        ensures in_range { IfOk result (λ t. AreEffects t.effects × AreOuts t.outs) }
    {
        self.log_effects()?;
        let turn = self.take();
        Ok(turn)
    }
}
