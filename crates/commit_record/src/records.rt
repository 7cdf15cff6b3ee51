//! Commit records: open until they are decided or expire.
ghost use Rattle.std.specs.Prelude.{◌≡◌, ◌≢◌, None, IfOk, OnOk, OnErr, map};
ghost use Rattle.std.specs.FinMap as finite;
ghost use Rattle.std.specs.BTreeMap.{IsOrdered};
ghost use Rattle.std.specs.List.Sorted.{IsStrictlySortedBy};
ghost use Rattle.pseudo_time.specs.StampParts.{StampParts, stamp_cmp};
ghost use Rattle.pseudo_time.specs.declared.decisions.Decision.TheVariants as decision;
ghost use Rattle.commit_record.specs.States.{begin_step, begun, decide_step, settled, heard, expiry, expiring, listed_at, deadline_of};

use crate::states::{BeginStep, DecideStep, RecordState};
use pseudo_time::{Decision, Stamp};
use std::alloc::{AllocError, Global};
use std::collections::BTreeMap;
use std::marker::Model;

/// The commit records of a repository. Contracts see a finite map from stamps to states.
#[derive(Drop)]
pub struct Records {
    states: BTreeMap<Stamp, RecordState>,
    /// The deadlines of the unknown records alone: a moment is heard without a walk over the
    /// decided ones, which are kept for good.
    deadlines: BTreeMap<Stamp, u64>,
    alloc: Global,
}

impl Model for Records {
    ghost use Rattle.std.specs.FinMap as finite;
    ghost use Rattle.pseudo_time.specs.StampParts.{stamp_cmp};
    ghost use Rattle.pseudo_time.specs.contracts.stamps.Stamp as stamp;
    ghost use Rattle.commit_record.specs.contracts.states.RecordState as state;
    ghost use Rattle.commit_record.specs.States.{States, AreDeadlines};

    ghost Value = { States };

    ghost coded = { finite.code stamp.the_row.coded state.the_row.coded };

    ghost view = { λ r. finite.from_entries {R = stamp_cmp} r.states.entries };

    ghost invariant = { λ r. AreDeadlines r.deadlines.entries r.states.entries };
}

impl Records {
    /// No records.
    pub fn new(alloc: Global) -> Records
        ensures { result ≡ finite.empty }
    {
        Records {
            states: BTreeMap::new(alloc),
            deadlines: BTreeMap::new(alloc),
            alloc,
        }
    }

    /// What is known of the attempt. None where there is no record of it.
    pub fn state(&self, stamp: Stamp) -> Option<RecordState>
        ensures { result ≡ finite.get self.now stamp }
    {
        self.states.get(&stamp).copied()
    }

    /// Makes a record of an attempt, unknown until this deadline, unless there is one. Where memory
    /// runs out, the records are as before.
    pub fn begin(&mut self, stamp: Stamp, deadline: u64) -> Result<BeginStep, AllocError>
        ensures step { IfOk result (λ s. s ≡ begin_step (finite.get self.old stamp)) }
        ensures begun { OnOk result (self.new ≡ begun self.old stamp deadline) }
        ensures err { OnErr result (self.new ≡ self.old) }
    {
        match self.state(stamp) {
            Some(RecordState::Unknown { .. }) => Ok(BeginStep::Unknown),
            Some(RecordState::Decided(decision)) => Ok(BeginStep::Decided(decision)),
            None => {
                self.add(stamp, deadline)?;
                Ok(BeginStep::New)
            }
        }
    }

    // Adds a record where there is none.
    fn add(&mut self, stamp: Stamp, deadline: u64) -> Result<(), AllocError>
        requires { finite.get self.old stamp ≡ None }
        ensures ok { OnOk result (self.new ≡ finite.insert self.old stamp (RecordState.Unknown deadline)) }
        ensures err { OnErr result (self.new ≡ self.old) }
    {
        self.deadlines.insert(stamp, deadline)?;
        if let Err(failed) = self.states.insert(stamp, RecordState::Unknown { deadline }) {
            self.deadlines.remove(&stamp);
            return Err(failed.into());
        }
        Ok(())
    }

    /// Commits the attempt, if it is unknown. None where there is no record of it.
    pub fn commit(&mut self, stamp: Stamp) -> Option<DecideStep>
        ensures step { result ≡ decide_step (finite.get self.old stamp) decision.Committed }
        ensures settled { self.new ≡ settled self.old stamp decision.Committed }
    {
        self.restore(stamp, Decision::Committed)
    }

    /// Gives the attempt up for its broker, if it is unknown. None where there is no record of it.
    pub fn withdraw(&mut self, stamp: Stamp) -> Option<DecideStep>
        ensures step { result ≡ decide_step (finite.get self.old stamp) decision.Withdrawn }
        ensures settled { self.new ≡ settled self.old stamp decision.Withdrawn }
    {
        self.restore(stamp, Decision::Withdrawn)
    }

    /// Decides the attempt as a log says, if it is unknown. None where there is no record of it.
    pub fn restore(&mut self, stamp: Stamp, decision: Decision) -> Option<DecideStep>
        ensures step { result ≡ decide_step (finite.get self.old stamp) decision }
        ensures settled { self.new ≡ settled self.old stamp decision }
    {
        match self.state(stamp)? {
            RecordState::Decided(before) => Some(DecideStep::Before(before)),
            RecordState::Unknown { .. } => {
                self.decide(stamp, decision);
                Some(DecideStep::Now(decision))
            }
        }
    }

    // Decides an unknown record.
    fn decide(&mut self, stamp: Stamp, decision: Decision)
        requires { deadline_of (finite.get self.old stamp) ≢ None }
        ensures { self.new ≡ finite.insert self.old stamp (RecordState.Decided decision) }
    {
        let _ = self.states.insert(stamp, RecordState::Decided(decision));
        self.deadlines.remove(&stamp);
    }

    /// What a moment would expire, before anything is decided: the unknown records whose deadline
    /// is at most the moment, with their decision, in the order of their stamps.
    pub fn due(&self, moment: u64) -> Result<Vec<(Stamp, Decision)>, AllocError>
        ensures listed { IfOk result (λ l. (q : StampParts) →
            listed_at l.items q ≡ expiry moment (finite.get self.now q)) }
        ensures order { IfOk result (λ l. IsStrictlySortedBy stamp_cmp (map (λ e. e.0) l.items)) }
    {
        let due = due_at(self.alloc, &self.deadlines, moment)?;
        Ok(due)
    }

    /// Every unknown record whose deadline is at most the moment expires. They are listed in the
    /// order of their stamps. Where memory runs out, the records are as before.
    pub fn hear(&mut self, moment: u64) -> Result<Vec<(Stamp, Decision)>, AllocError>
        ensures heard { OnOk result ((q : StampParts) → finite.get self.new q ≡ heard moment (finite.get self.old q)) }
        ensures listed { IfOk result (λ l. (q : StampParts) →
            listed_at l.items q ≡ expiry moment (finite.get self.old q)) }
        ensures order { IfOk result (λ l. IsStrictlySortedBy stamp_cmp (map (λ e. e.0) l.items)) }
        ensures err { OnErr result (self.new ≡ self.old) }
    {
        let due = self.due(moment)?;
        for (stamp, decision) in &due {
            let _ = self.restore(*stamp, *decision);
        }
        Ok(due)
    }
}

// The unknown records whose deadline is at most the moment, with their decision.
fn due_at(
    alloc: Global,
    deadlines: &BTreeMap<Stamp, u64>,
    moment: u64,
) -> Result<Vec<(Stamp, Decision)>, AllocError>
    ensures due { IfOk result (λ v. v.items ≡ expiring moment deadlines.now.entries) }
    ensures ordered { IfOk result (λ _. IsOrdered stamp_cmp deadlines.now) }
{
    let mut due = Vec::with_capacity(alloc, deadlines.len())?;
    for (stamp, deadline) in deadlines {
        if *deadline <= moment {
            let decision = Decision::Expired {
                deadline: *deadline,
                moment,
            };
            due.push((*stamp, decision))?;
        }
    }
    Ok(due)
}
