//! The commit records of a member.
ghost use Rattle.std.specs.Prelude.{◌≡◌, ◌++◌, ◌∷◌, ℕ, [], OnOk, OnErr, IfOk, Some, None, map};
ghost use Rattle.effect_form.specs.declared.effects.Effect.TheVariants as effect;
ghost use Rattle.commit_record.specs.declared.states.RecordState.TheVariants as record_state;
ghost use Rattle.commit_record.specs.States.{listed_at, begun};
ghost use Rattle.repository_log.specs.Logs.{record_of};
ghost use Rattle.repository_log.specs.Lookups.{restored};
ghost use Rattle.repository_log.specs.Expiries.{expiries};
ghost use Rattle.record_votes.specs.Members.{book, decides};
ghost use Rattle.message_form.specs.Ranges.{AreEffects};
ghost use Rattle.record_votes.specs.Books.{settled_all};

use crate::owned::own_of;
use commit_record::{RecordState, Records};
use effect_form::Effect;
use pseudo_time::{Decision, Stamp};
use repository_log::records_of;
use std::alloc::{AllocError, Global};
use std::collections::BTreeMap;
use std::marker::Model;
use std::snapshot::Snapshot;

/// The commit records of a member. Contracts see its log, oldest first.
#[derive(Drop)]
pub struct Votes {
    /// For contracts alone: a snapshot has no bytes.
    log: Vec<Snapshot<Effect>>,
    records: Records,
    /// Decisions of the opened log whose stamp hasn't begun.
    early: BTreeMap<Stamp, Decision>,
}

impl Model for Votes {
    ghost use Rattle.std.specs.Prelude.{List, map};
    ghost use Rattle.effect_form.specs.declared.effects.Effect.{Effect};
    ghost use Rattle.record_votes.specs.Members.{book};
    ghost use Rattle.record_votes.specs.Books.{IsBook};

    ghost Value = { List Effect };

    ghost view = { λ v. map (λ s. s.value) v.log.items };

    ghost invariant = { λ v. IsBook (book (map (λ s. s.value) v.log.items)) v.records v.early.entries };
}

impl Votes {
    /// The records of this log.
    pub fn open(alloc: Global, effects: &[Effect]) -> Result<Votes, AllocError>
        ensures { IfOk result (λ v. v ≡ effects.now) }
    {
        let log = snapshots_of(alloc, effects)?;
        let owned = own_of(alloc, effects)?;
        let (records, early) = records_of(alloc, owned.as_slice())?;
        Ok(Votes {
            log,
            records,
            early,
        })
    }

    /// What is known of the stamp.
    pub fn state(&self, stamp: Stamp) -> Option<RecordState>
        ensures { result ≡ record_of (book self.now) stamp }
    {
        self.records.state(stamp)
    }

    /// A record begins, where there is none.
    pub fn begin(&mut self, stamp: Stamp, deadline: u64) -> Result<(), AllocError>
        requires { record_of (book self.old) stamp ≡ None }
        ensures begun { OnOk result (self.new ≡ self.old ++ effect.Begin stamp deadline ∷ []) }
        ensures err { OnErr result (self.new ≡ self.old) }
    {
        let effect = Effect::Begin { stamp, deadline };
        self.log.push(Snapshot::of(&effect))?;
        if let Err(wanting) = self.records.begin(stamp, deadline) {
            self.log.pop();
            return Err(wanting);
        }
        if let Some(decision) = self.early.get(&stamp) {
            self.records.restore(stamp, *decision);
        }
        Ok(())
    }

    /// An unknown record is decided.
    pub fn decide(&mut self, stamp: Stamp, decision: Decision) -> Result<(), AllocError>
        requires { (t : ℕ) × (record_of (book self.old) stamp ≡ Some (record_state.Unknown t)) }
        ensures decided { OnOk result (self.new ≡ self.old ++ effect.Decide stamp decision ∷ []) }
        ensures err { OnErr result (self.new ≡ self.old) }
    {
        let effect = Effect::Decide { stamp, decision };
        self.log.push(Snapshot::of(&effect))?;
        self.records.restore(stamp, decision);
        Ok(())
    }

    /// What a moment would expire, in the order of the stamps.
    pub fn due(&self, moment: u64) -> Result<Vec<(Stamp, Decision)>, AllocError>
        ensures { IfOk result (λ due. due.items ≡ expiries moment (book self.now)) }
    {
        let due = self.records.due(moment)?;
        Ok(due)
    }

    /// The records that are due at a moment expire.
    pub fn expire(
        &mut self,
        alloc: Global,
        due: &[(Stamp, Decision)],
    ) -> Result<Vec<Effect>, AllocError>
        requires { (moment : ℕ) × (due.now ≡ expiries moment (book self.old)) }
        ensures effects { IfOk result (λ v. v.items ≡ decides due.now) }
        ensures in_range { IfOk result (λ v. AreEffects v.items) }
        ensures expired { OnOk result (self.new ≡ self.old ++ decides due.now) }
        ensures err { OnErr result (self.new ≡ self.old) }
    {
        let effects = decides_of(alloc, due)?;
        let mut more = snapshots_of(alloc, effects.as_slice())?;
        self.log.append(&mut more)?;
        settle_all(&mut self.records, due);
        Ok(effects)
    }
}

// A Decide for each.
fn decides_of(alloc: Global, due: &[(Stamp, Decision)]) -> Result<Vec<Effect>, AllocError>
    ensures in_range { IfOk result (λ v. AreEffects v.items) }
    ensures gives { IfOk result (λ v. v.items ≡ decides due.now) }
{
    let mut effects = Vec::new(alloc);
    for (stamp, decision) in due {
        push_decide(&mut effects, *stamp, *decision)?;
    }
    Ok(effects)
}

fn push_decide(
    effects: &mut Vec<Effect>,
    stamp: Stamp,
    decision: Decision,
) -> Result<(), AllocError>
    requires { AreEffects effects.old.items }
    ensures pushed { OnOk result (effects.new.items ≡ effects.old.items ++ effect.Decide stamp decision ∷ []) }
    ensures in_range { OnOk result (AreEffects effects.new.items) }
{
    let _in_range = stamp.clock();
    effects.push(Effect::Decide { stamp, decision })?;
    Ok(())
}

fn snapshots_of(alloc: Global, effects: &[Effect]) -> Result<Vec<Snapshot<Effect>>, AllocError>
    ensures { IfOk result (λ v. map (λ s. s.value) v.items ≡ effects.now) }
{
    let mut snapshots = Vec::new(alloc);
    for effect in effects {
        snapshots.push(Snapshot::of(effect))?;
    }
    Ok(snapshots)
}

// Each is decided, if it is unknown.
fn settle_all(records: &mut Records, due: &[(Stamp, Decision)])
    ensures { records.new ≡ settled_all records.old due.now }
{
    for (stamp, decision) in due {
        let _ = records.restore(*stamp, *decision);
    }
}
