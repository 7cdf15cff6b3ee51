//! What a repository looks up: histories and commit records.
ghost use Rattle.std.specs.Prelude.{◌≡◌, ℕ, ◌∷◌, List, Some, None, IsTrue, IfOk, OnOk, IfErr};
ghost use Rattle.pseudo_time.specs.StampParts.{StampParts};
ghost use Rattle.pseudo_time.specs.declared.decisions.Decision.{Decision};
ghost use Rattle.repository_draft.specs.ObjectBytes.{IsObject};
ghost use Rattle.repository_draft.specs.ValueBytes.{IsValue};
ghost use Rattle.repository_draft.specs.Effect.{Effect};
ghost use Rattle.repository_draft.specs.Effect.TheVariants as effect;
ghost use Rattle.commit_record.specs.States.{begin_step, listed_at};
ghost use Rattle.commit_record.specs.declared.states.RecordState.TheVariants as record_state;
ghost use Rattle.repository_draft.specs.Mark.TheVariants as mark;
ghost use Rattle.repository_draft.specs.History.{settle_of};
ghost use Rattle.repository_draft.specs.Answers.{read_step, after_read, write_step, after_write, stands_written};
ghost use Rattle.repository_draft.specs.StepRanges.{IsReadStep};
ghost use Rattle.repository_core.specs.Logs.{wrote, read_by};
ghost use Rattle.repository_log.specs.Logs.{is_commit, known, as_decision, record_of, began};
ghost use Rattle.repository_log.specs.Lookups.{early_or, restored};
ghost use Rattle.repository_log.specs.Expiries.{expiries};

use commit_record::{BeginStep, RecordState, Records};
use pseudo_time::{Decision, PseudoTime, Stamp};
use repository_draft::{Histories, HistoryFault, ObjectId, ReadStep, Value, WriteStep};
use repository_log::{is_commit, learned};
use std::alloc::AllocError;
use std::collections::BTreeMap;
use std::snapshot::Snapshot;

/// What a repository looks up: its histories and commit records.
#[derive(Drop)]
pub struct Books<H: Histories> {
    pub records: Records,
    /// Decisions of the opened log whose attempt hasn't begun there.
    pub early: BTreeMap<Stamp, Decision>,
    pub histories: H,
    /// The histories as the call began, for contracts alone.
    pub first: Snapshot<H>,
}

impl<H: Histories> Books<H> {
    ghost use Rattle.repository_core.specs.Accounts.{AgreeBut, AgreeWith, AreSince, HaveFault, AreOfOneCall};

    /// What a read sees.
    pub fn read(&mut self, object: ObjectId, at: PseudoTime) -> Result<ReadStep, HistoryFault>
        requires object { IsObject object }
        requires since { AreSince H.content H.below H.faults H.damage self.old }
        ensures answer { IsTrue H.tells → IfOk result (λ s. s ≡ read_step (H.content self.old.histories) object at) }
        ensures in_range { IfOk result IsReadStep }
        ensures agree { (pending : List (StampParts × Decision)) (log : List Effect) →
            AgreeBut H.content pending log self.old →
            IfOk result (λ s. AgreeBut H.content pending (read_by log object at s) self.new) }
        ensures since { AreSince H.content H.below H.faults H.damage self.new }
        ensures fault { IfErr result (HaveFault H.tells H.faults H.damage self.new) }
        ensures call { AreOfOneCall self.old self.new }
    {
        let step = self.histories.read(object, at)?;
        Ok(step)
    }

    /// What becomes of a write.
    pub fn write(
        &mut self,
        object: ObjectId,
        at: PseudoTime,
        value: &Value,
    ) -> Result<WriteStep, HistoryFault>
        requires object { IsObject object }
        requires value { IsValue value.now }
        requires since { AreSince H.content H.below H.faults H.damage self.old }
        ensures answer { IsTrue H.tells →
            IfOk result (λ s. s ≡ write_step (H.content self.old.histories) object at value.now) }
        ensures agree { (pending : List (StampParts × Decision)) (log : List Effect) →
            AgreeBut H.content pending log self.old →
            IfOk result (λ s. AgreeBut H.content pending (wrote log object at value.now s) self.new) }
        ensures since { AreSince H.content H.below H.faults H.damage self.new }
        ensures fault { IfErr result (HaveFault H.tells H.faults H.damage self.new) }
        ensures call { AreOfOneCall self.old self.new }
    {
        let step = self.histories.write(object, at, value)?;
        Ok(step)
    }

    /// Whether a version with this start and value stands.
    pub fn stands(
        &mut self,
        object: ObjectId,
        at: PseudoTime,
        value: &Value,
    ) -> Result<bool, HistoryFault>
        requires object { IsObject object }
        requires value { IsValue value.now }
        requires since { AreSince H.content H.below H.faults H.damage self.old }
        ensures answer { IsTrue H.tells →
            IfOk result (λ b. b ≡ stands_written (H.content self.old.histories) object at value.now) }
        ensures agree { (pending : List (StampParts × Decision)) (log : List Effect) →
            AgreeBut H.content pending log self.old →
            AgreeBut H.content pending log self.new }
        ensures since { AreSince H.content H.below H.faults H.damage self.new }
        ensures fault { IfErr result (HaveFault H.tells H.faults H.damage self.new) }
        ensures call { AreOfOneCall self.old self.new }
    {
        let stands = self.histories.stands(object, at, value)?;
        Ok(stands)
    }

    // The histories learn how an attempt was decided.
    fn settle(&mut self, stamp: Stamp, committed: bool) -> Result<(), HistoryFault>
        requires unsettled { settle_of (H.content self.old.histories) stamp ≡ None }
        requires since { AreSince H.content H.below H.faults H.damage self.old }
        ensures grown { OnOk result (H.content self.new.histories ≡ mark.Settle stamp committed ∷
            H.content self.old.histories) }
        ensures rest { (self.new.records ≡ self.old.records) × (self.new.early.entries ≡ self.old.early.entries) }
        ensures since { AreSince H.content H.below H.faults H.damage self.new }
        ensures fault { IfErr result (HaveFault H.tells H.faults H.damage self.new) }
        ensures call { AreOfOneCall self.old self.new }
    {
        self.histories.settle(stamp, committed)?;
        Ok(())
    }

    /// How an attempt was decided, if it is known.
    pub fn known(&self, stamp: Stamp) -> Option<bool>
        ensures settled { result ≡ settle_of (H.content self.now.histories) stamp }
        ensures known { (pending : List (StampParts × Decision)) (log : List Effect) →
            AgreeBut H.content pending log self.now → result ≡ known log stamp }
    {
        self.histories.settled(stamp)
    }

    /// The commit record of an attempt.
    pub fn record(&self, stamp: Stamp) -> Option<RecordState>
        ensures { (log : List Effect) → AgreeWith H.content log self.now → result ≡ record_of log stamp }
    {
        self.records.state(stamp)
    }

    // The decision of an attempt that hasn't begun, if it is known.
    fn decided_early(&self, stamp: Stamp) -> Option<Decision>
        ensures { result ≡ early_or (listed_at self.now.early.entries stamp)
            (settle_of (H.content self.now.histories) stamp) }
    {
        if let Some(decision) = self.early.get(&stamp) {
            return Some(*decision);
        }
        let committed = self.histories.settled(stamp)?;
        Some(learned(committed))
    }

    /// Begins a record where there is none; if the attempt was decided before, it is decided so.
    pub fn begin(&mut self, stamp: Stamp, deadline: u64) -> Result<BeginStep, AllocError>
        ensures step { (log : List Effect) → AgreeWith H.content log self.old →
            IfOk result (λ s. s ≡ begin_step (record_of log stamp)) }
        ensures agree { (log : List Effect) → AgreeWith H.content log self.old →
            OnOk result (AgreeWith H.content (began log stamp deadline) self.new) }
        ensures histories { (self.new.histories ≡ self.old.histories) × (self.new.first.value ≡ self.old.first.value) }
    {
        let early = self.decided_early(stamp);
        let step = self.records.begin(stamp, deadline)?;
        match step {
            BeginStep::New => self.restore(stamp, early),
            BeginStep::Unknown => (),
            BeginStep::Decided(_) => (),
        }
        Ok(step)
    }

    // A record that just began is decided, if its attempt was decided before.
    fn restore(&mut self, stamp: Stamp, early: Option<Decision>)
        ensures records { self.new.records ≡ restored early self.old.records stamp }
        ensures rest { (self.new.histories ≡ self.old.histories) × (self.new.first.value ≡ self.old.first.value) ×
            (self.new.early.entries ≡ self.old.early.entries) }
    {
        if let Some(decision) = early {
            self.records.restore(stamp, decision);
        }
    }

    /// Decides an unknown record.
    pub fn decide(&mut self, stamp: Stamp, decision: Decision) -> Result<(), HistoryFault>
        requires unsettled { settle_of (H.content self.old.histories) stamp ≡ None }
        requires since { AreSince H.content H.below H.faults H.damage self.old }
        ensures agree { (log : List Effect) (t : ℕ) → AgreeWith H.content log self.old →
            record_of log stamp ≡ Some (record_state.Unknown t) →
            OnOk result (AgreeWith H.content (effect.Decide stamp decision ∷ log) self.new) }
        ensures since { AreSince H.content H.below H.faults H.damage self.new }
        ensures fault { IfErr result (HaveFault H.tells H.faults H.damage self.new) }
        ensures call { AreOfOneCall self.old self.new }
    {
        self.settle(stamp, is_commit(decision))?;
        self.records.restore(stamp, decision);
        Ok(())
    }

    /// Learns a decision.
    pub fn learn(&mut self, stamp: Stamp, committed: bool) -> Result<(), HistoryFault>
        requires unsettled { settle_of (H.content self.old.histories) stamp ≡ None }
        requires since { AreSince H.content H.below H.faults H.damage self.old }
        ensures agree { (log : List Effect) → AgreeWith H.content log self.old →
            OnOk result (AgreeWith H.content (effect.Learn stamp committed ∷ log) self.new) }
        ensures since { AreSince H.content H.below H.faults H.damage self.new }
        ensures fault { IfErr result (HaveFault H.tells H.faults H.damage self.new) }
        ensures call { AreOfOneCall self.old self.new }
    {
        self.settle(stamp, committed)?;
        self.records.restore(stamp, learned(committed));
        Ok(())
    }

    /// The records that expire at this moment, in the order of their stamps. From now on they are decided.
    pub fn hear(&mut self, moment: u64) -> Result<Vec<(Stamp, Decision)>, AllocError>
        ensures agree { (log : List Effect) → AgreeWith H.content log self.old →
            IfOk result (λ due. AgreeBut H.content due.items log self.new) }
        ensures due { (log : List Effect) → AgreeWith H.content log self.old →
            IfOk result (λ due. due.items ≡ expiries moment log) }
        ensures histories { (self.new.histories ≡ self.old.histories) × (self.new.first.value ≡ self.old.first.value) }
    {
        let due = self.records.hear(moment)?;
        Ok(due)
    }

    /// The next record expires.
    pub fn expire(&mut self, stamp: Stamp, decision: Decision) -> Result<(), HistoryFault>
        requires unsettled { settle_of (H.content self.old.histories) stamp ≡ None }
        requires since { AreSince H.content H.below H.faults H.damage self.old }
        ensures agree { (rest : List (StampParts × Decision)) (log : List Effect) (t : ℕ) →
            AgreeBut H.content ((stamp, decision) ∷ rest) log self.old →
            record_of log stamp ≡ Some (record_state.Unknown t) → listed_at rest stamp ≡ None →
            OnOk result (AgreeBut H.content rest (effect.Decide stamp decision ∷ log) self.new) }
        ensures since { AreSince H.content H.below H.faults H.damage self.new }
        ensures fault { IfErr result (HaveFault H.tells H.faults H.damage self.new) }
        ensures call { AreOfOneCall self.old self.new }
    {
        self.settle(stamp, is_commit(decision))?;
        Ok(())
    }
}
