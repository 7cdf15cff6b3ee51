//! A repository at work in one call.
ghost use Rattle.std.specs.Prelude.{◌≡◌, ◌≤◌, ◌^◌, Some, None, IsTrue, OnOk, List, ◌∷◌, true, false};
ghost use Rattle.pseudo_time.specs.StampParts.{StampParts};
ghost use Rattle.pseudo_time.specs.declared.decisions.Decision.{Decision};
ghost use Rattle.repository_draft.specs.ObjectBytes.{IsObject};
ghost use Rattle.repository_draft.specs.ValueBytes.{IsValue};
ghost use Rattle.repository_draft.specs.Effect.{Effect};
ghost use Rattle.repository_draft.specs.Effect.TheVariants as effect;
ghost use Rattle.repository_draft.specs.Message.TheVariants as message;
ghost use Rattle.repository_draft.specs.Messages.{IsMessage};
ghost use Rattle.commit_record.specs.declared.states.RecordState.TheVariants as record_state;
ghost use Rattle.commit_record.specs.States.{listed_at};
ghost use Rattle.repository_draft.specs.History.{settle_of};
ghost use Rattle.repository_draft.specs.Answers.{read_step, write_step, stands_written};
ghost use Rattle.repository_log.specs.Logs.{is_commit, marks, record_of, HasSameRecords, IsUnknown};
ghost use Rattle.repository_core.specs.Hands.{now, note, send, HasSameLog};
ghost use Rattle.repository_core.specs.Rows as rows;
ghost use Rattle.repository_log.specs.Expiries.{expiries};
ghost use Rattle.repository_core.specs.Hearing as hearing;

use crate::books::Books;
use commit_record::{BeginStep, RecordState};
use pseudo_time::{Decision, NodeId, NodeKind, PseudoTime, Stamp};
use repository_draft::{Draft, Histories, HistoryFault, Message, ObjectId, Value};
use repository_log::is_commit;
use std::alloc::Global;
use std::snapshot::Snapshot;

/// A repository at work in a call: the turn in hand, and what it looks up.
#[derive(Drop)]
pub struct Work<H: Histories> {
    pub alloc: Global,
    pub draft: Draft,
    pub books: Books<H>,
}

impl<H: Histories> Work<H> {
    ghost use Rattle.repository_core.specs.Accounts.{AgreeBut, AgreeWith, AreSince, HaveGoneOn, StillAgree};

    /// A call begins.
    pub fn start(&mut self)
        ensures draft { self.new.draft ≡ self.old.draft }
        ensures histories { self.new.books.histories ≡ self.old.books.histories }
        ensures since { AreSince H.content H.below H.faults H.damage self.new.books }
        ensures first { self.new.books.first.value ≡ self.old.books.histories }
        ensures agreed { (pending : List (StampParts × Decision)) (log : List Effect) →
            AgreeBut H.content pending log self.old.books →
            AgreeBut H.content pending log self.new.books }
    {
        self.books.first = Snapshot::of(&self.books.histories);
    }

    // Carries out a read of an attempt that isn't known aborted.
    fn read(&mut self, from: NodeId, at: PseudoTime, object: ObjectId) -> Result<(), HistoryFault>
        requires object { IsObject object }
        requires since { AreSince H.content H.below H.faults H.damage self.old.books }
        ensures agreed { StillAgree H.content (now self.old.draft) self.old.books
            (now self.new.draft) self.new.books result }
        ensures records { OnOk result (HasSameRecords (now self.old.draft) (now self.new.draft)) }
        ensures went { HaveGoneOn H.tells H.content H.below H.faults H.damage self.old.books self.new.books result }
        ensures log { OnOk result (HasSameLog self.old.draft self.new.draft) }
        ensures gives { IsTrue H.tells → (pending : List (StampParts × Decision)) →
            AgreeBut H.content pending (now self.old.draft) self.old.books →
            OnOk result (self.new.draft ≡
            rows.read_as self.old.draft.held (rows.unhold at self.old.draft) from at object
            (read_step (marks (now self.old.draft)) object at)) }
    {
        let step = self.books.read(object, at)?;
        self.draft.read_as(from, at, object, step)?;
        Ok(())
    }

    /// Carries a read out.
    #[tactic(auto, unfolding(crate::specs::Rows::on_read))]
    pub fn on_read(
        &mut self,
        from: NodeId,
        at: PseudoTime,
        object: ObjectId,
    ) -> Result<(), HistoryFault>
        requires object { IsObject object }
        requires since { AreSince H.content H.below H.faults H.damage self.old.books }
        ensures agreed { StillAgree H.content (now self.old.draft) self.old.books
            (now self.new.draft) self.new.books result }
        ensures records { OnOk result (HasSameRecords (now self.old.draft) (now self.new.draft)) }
        ensures went { HaveGoneOn H.tells H.content H.below H.faults H.damage self.old.books self.new.books result }
        ensures log { OnOk result (HasSameLog self.old.draft self.new.draft) }
        ensures gives { IsTrue H.tells → (pending : List (StampParts × Decision)) →
            AgreeBut H.content pending (now self.old.draft) self.old.books →
            OnOk result (self.new.draft ≡ rows.on_read self.old.draft from at object) }
    {
        match self.books.known(at.stamp()) {
            Some(false) => self.draft.end_read(from, at)?,
            Some(true) => self.read(from, at, object)?,
            None => self.read(from, at, object)?,
        }
        Ok(())
    }

    /// Carries the reads out that wait for the attempt, in rising order of pseudotime.
    #[tactic(auto, unfolding(crate::specs::Rows::release))]
    pub fn release(&mut self, stamp: Stamp) -> Result<(), HistoryFault>
        requires since { AreSince H.content H.below H.faults H.damage self.old.books }
        ensures agreed { StillAgree H.content (now self.old.draft) self.old.books
            (now self.new.draft) self.new.books result }
        ensures records { OnOk result (HasSameRecords (now self.old.draft) (now self.new.draft)) }
        ensures went { HaveGoneOn H.tells H.content H.below H.faults H.damage self.old.books self.new.books result }
        ensures log { OnOk result (HasSameLog self.old.draft self.new.draft) }
        ensures gives { IsTrue H.tells → (pending : List (StampParts × Decision)) →
            AgreeBut H.content pending (now self.old.draft) self.old.books →
            OnOk result (self.new.draft ≡ rows.release stamp self.old.draft) }
    {
        let released = self.draft.release(stamp)?;
        for (at, held) in &released {
            self.on_read(held.from, *at, held.object)?;
        }
        Ok(())
    }

    // Carries out a write of an attempt that is known.
    fn write_known(
        &mut self,
        from: NodeId,
        at: PseudoTime,
        object: ObjectId,
        value: &Value,
    ) -> Result<(), HistoryFault>
        requires object { IsObject object }
        requires value { IsValue value.now }
        requires agreed { AgreeWith H.content (now self.old.draft) self.old.books }
        requires since { AreSince H.content H.below H.faults H.damage self.old.books }
        ensures agreed { OnOk result (AgreeWith H.content (now self.new.draft) self.new.books) }
        ensures went { HaveGoneOn H.tells H.content H.below H.faults H.damage self.old.books self.new.books result }
        ensures log { OnOk result (HasSameLog self.old.draft self.new.draft) }
        ensures gives { IsTrue H.tells →
            OnOk result (self.new.draft ≡
            rows.write_as self.old.draft from at object value.now
            (stands_written (marks (now self.old.draft)) object at value.now) true
            (write_step (marks (now self.old.draft)) object at value.now)) }
    {
        let stands = self.books.stands(object, at, value)?;
        self.draft.write_known(from, at, stands)?;
        Ok(())
    }

    // Carries out a write of an attempt that isn't known.
    fn write(
        &mut self,
        from: NodeId,
        at: PseudoTime,
        object: ObjectId,
        value: &Value,
    ) -> Result<(), HistoryFault>
        requires object { IsObject object }
        requires value { IsValue value.now }
        requires agreed { AgreeWith H.content (now self.old.draft) self.old.books }
        requires since { AreSince H.content H.below H.faults H.damage self.old.books }
        ensures agreed { OnOk result (AgreeWith H.content (now self.new.draft) self.new.books) }
        ensures went { HaveGoneOn H.tells H.content H.below H.faults H.damage self.old.books self.new.books result }
        ensures log { OnOk result (HasSameLog self.old.draft self.new.draft) }
        ensures gives { IsTrue H.tells →
            OnOk result (self.new.draft ≡
            rows.write_as self.old.draft from at object value.now
            (stands_written (marks (now self.old.draft)) object at value.now) false
            (write_step (marks (now self.old.draft)) object at value.now)) }
    {
        let copy = value.copy(self.alloc)?;
        let step = self.books.write(object, at, value)?;
        self.draft.write_as(from, at, object, copy, step)?;
        Ok(())
    }

    /// Carries a write out.
    #[tactic(auto, unfolding(crate::specs::Rows::on_write))]
    pub fn on_write(
        &mut self,
        from: NodeId,
        at: PseudoTime,
        object: ObjectId,
        value: &Value,
    ) -> Result<(), HistoryFault>
        requires object { IsObject object }
        requires value { IsValue value.now }
        requires agreed { AgreeWith H.content (now self.old.draft) self.old.books }
        requires since { AreSince H.content H.below H.faults H.damage self.old.books }
        ensures agreed { OnOk result (AgreeWith H.content (now self.new.draft) self.new.books) }
        ensures went { HaveGoneOn H.tells H.content H.below H.faults H.damage self.old.books self.new.books result }
        ensures log { OnOk result (HasSameLog self.old.draft self.new.draft) }
        ensures gives { IsTrue H.tells →
            OnOk result (self.new.draft ≡ rows.on_write self.old.draft from at object value.now) }
    {
        match self.books.known(at.stamp()) {
            Some(_) => self.write_known(from, at, object, value)?,
            None => self.write(from, at, object, value)?,
        }
        Ok(())
    }

    /// Begins a record, or tells how it stands.
    #[tactic(auto, unfolding(crate::specs::Rows::on_begin))]
    pub fn on_begin(&mut self, from: NodeId, stamp: Stamp, timeout: u32) -> Result<(), HistoryFault>
        requires agreed { AgreeWith H.content (now self.old.draft) self.old.books }
        requires since { AreSince H.content H.below H.faults H.damage self.old.books }
        ensures agreed { OnOk result (AgreeWith H.content (now self.new.draft) self.new.books) }
        ensures went { HaveGoneOn H.tells H.content H.below H.faults H.damage self.old.books self.new.books result }
        ensures log { OnOk result (HasSameLog self.old.draft self.new.draft) }
        ensures gives { IsTrue H.tells →
            OnOk result (self.new.draft ≡ rows.on_begin self.old.draft from stamp timeout) }
    {
        let deadline = self.draft.deadline(timeout);
        match self.books.begin(stamp, deadline)? {
            BeginStep::New => self.draft.begin(from, stamp, deadline)?,
            BeginStep::Unknown => self.draft.begun(from, stamp)?,
            BeginStep::Decided(decision) => self.draft.decided(from, stamp, decision)?,
        }
        Ok(())
    }

    // Decides an unknown record, in the books and in the log.
    fn decide(&mut self, stamp: Stamp, decision: Decision) -> Result<(), HistoryFault>
        requires unsettled { settle_of (H.content self.old.books.histories) stamp ≡ None }
        requires unknown { IsUnknown (now self.old.draft) stamp }
        requires agreed { AgreeWith H.content (now self.old.draft) self.old.books }
        requires since { AreSince H.content H.below H.faults H.damage self.old.books }
        ensures agreed { OnOk result (AgreeWith H.content (now self.new.draft) self.new.books) }
        ensures went { HaveGoneOn H.tells H.content H.below H.faults H.damage self.old.books self.new.books result }
        ensures log { OnOk result (HasSameLog self.old.draft self.new.draft) }
        ensures gives { OnOk result (self.new.draft ≡ note (effect.Decide stamp decision) self.old.draft) }
    {
        self.books.decide(stamp, decision)?;
        self.draft.decide(stamp, decision)?;
        Ok(())
    }

    // Decides an unknown record, and tells and releases those who wait for it.
    fn close(&mut self, from: NodeId, stamp: Stamp, decision: Decision) -> Result<(), HistoryFault>
        requires unsettled { settle_of (H.content self.old.books.histories) stamp ≡ None }
        requires unknown { IsUnknown (now self.old.draft) stamp }
        requires agreed { AgreeWith H.content (now self.old.draft) self.old.books }
        requires since { AreSince H.content H.below H.faults H.damage self.old.books }
        ensures agreed { OnOk result (AgreeWith H.content (now self.new.draft) self.new.books) }
        ensures went { HaveGoneOn H.tells H.content H.below H.faults H.damage self.old.books self.new.books result }
        ensures log { OnOk result (HasSameLog self.old.draft self.new.draft) }
        ensures gives { IsTrue H.tells →
            OnOk result (self.new.draft ≡
            rows.release stamp (rows.tell_askers stamp (is_commit decision)
            (send from (message.Decided stamp decision) (note (effect.Decide stamp decision) self.old.draft)))) }
    {
        self.decide(stamp, decision)?;
        self.draft.decided(from, stamp, decision)?;
        self.draft.tell_askers(stamp, is_commit(decision))?;
        self.release(stamp)?;
        Ok(())
    }

    /// Closes a record with this decision, or tells how it was decided before.
    #[tactic(auto, unfolding(crate::specs::Rows::on_close))]
    pub fn on_close(
        &mut self,
        from: NodeId,
        stamp: Stamp,
        decision: Decision,
    ) -> Result<(), HistoryFault>
        requires agreed { AgreeWith H.content (now self.old.draft) self.old.books }
        requires since { AreSince H.content H.below H.faults H.damage self.old.books }
        ensures agreed { OnOk result (AgreeWith H.content (now self.new.draft) self.new.books) }
        ensures went { HaveGoneOn H.tells H.content H.below H.faults H.damage self.old.books self.new.books result }
        ensures log { OnOk result (HasSameLog self.old.draft self.new.draft) }
        ensures gives { IsTrue H.tells →
            OnOk result (self.new.draft ≡ rows.on_close self.old.draft from stamp decision) }
    {
        match self.books.record(stamp) {
            None => (),
            Some(RecordState::Unknown { .. }) => self.close(from, stamp, decision)?,
            Some(RecordState::Decided(before)) => self.draft.decided(from, stamp, before)?,
        }
        Ok(())
    }

    /// Tells a repository how an attempt was decided, or keeps it as an asker.
    #[tactic(auto, unfolding(crate::specs::Rows::on_ask))]
    pub fn on_ask(&mut self, from: NodeId, stamp: Stamp) -> Result<(), HistoryFault>
        requires agreed { AgreeWith H.content (now self.old.draft) self.old.books }
        requires since { AreSince H.content H.below H.faults H.damage self.old.books }
        ensures agreed { OnOk result (AgreeWith H.content (now self.new.draft) self.new.books) }
        ensures went { HaveGoneOn H.tells H.content H.below H.faults H.damage self.old.books self.new.books result }
        ensures log { OnOk result (HasSameLog self.old.draft self.new.draft) }
        ensures gives { IsTrue H.tells → OnOk result (self.new.draft ≡ rows.on_ask self.old.draft from stamp) }
    {
        match self.books.record(stamp) {
            None => (),
            Some(RecordState::Unknown { .. }) => self.draft.add_asker(from.number, stamp)?,
            Some(RecordState::Decided(decision)) => {
                self.draft.tell(from, stamp, is_commit(decision))?
            }
        }
        Ok(())
    }

    // Learns a decision, in the books and in the log.
    fn learn(&mut self, stamp: Stamp, committed: bool) -> Result<(), HistoryFault>
        requires unsettled { settle_of (H.content self.old.books.histories) stamp ≡ None }
        requires agreed { AgreeWith H.content (now self.old.draft) self.old.books }
        requires since { AreSince H.content H.below H.faults H.damage self.old.books }
        ensures agreed { OnOk result (AgreeWith H.content (now self.new.draft) self.new.books) }
        ensures went { HaveGoneOn H.tells H.content H.below H.faults H.damage self.old.books self.new.books result }
        ensures log { OnOk result (HasSameLog self.old.draft self.new.draft) }
        ensures gives { OnOk result (self.new.draft ≡ note (effect.Learn stamp committed) self.old.draft) }
    {
        self.books.learn(stamp, committed)?;
        self.draft.learn(stamp, committed)?;
        Ok(())
    }

    /// Learns a decision that isn't known, and releases the reads that wait for it.
    #[tactic(auto, unfolding(crate::specs::Rows::on_learn))]
    pub fn on_learn(&mut self, stamp: Stamp, committed: bool) -> Result<(), HistoryFault>
        requires agreed { AgreeWith H.content (now self.old.draft) self.old.books }
        requires since { AreSince H.content H.below H.faults H.damage self.old.books }
        ensures agreed { OnOk result (AgreeWith H.content (now self.new.draft) self.new.books) }
        ensures went { HaveGoneOn H.tells H.content H.below H.faults H.damage self.old.books self.new.books result }
        ensures log { OnOk result (HasSameLog self.old.draft self.new.draft) }
        ensures gives { IsTrue H.tells → OnOk result (self.new.draft ≡ rows.on_learn self.old.draft stamp committed) }
    {
        match self.books.known(stamp) {
            Some(_) => (),
            None => {
                self.learn(stamp, committed)?;
                self.release(stamp)?;
            }
        }
        Ok(())
    }

    // Carries a message out that isn't ignored.
    fn on_row(&mut self, from: NodeId, message: &Message) -> Result<(), HistoryFault>
        requires message { IsMessage message.now }
        requires agreed { AgreeWith H.content (now self.old.draft) self.old.books }
        requires since { AreSince H.content H.below H.faults H.damage self.old.books }
        ensures agreed { OnOk result (AgreeWith H.content (now self.new.draft) self.new.books) }
        ensures went { HaveGoneOn H.tells H.content H.below H.faults H.damage self.old.books self.new.books result }
        ensures log { OnOk result (HasSameLog self.old.draft self.new.draft) }
        ensures gives { IsTrue H.tells → OnOk result (self.new.draft ≡ rows.row self.old.draft from message.now) }
    {
        match message {
            Message::Begin { stamp, timeout } => self.on_begin(from, *stamp, *timeout),
            Message::Commit { stamp } => self.on_close(from, *stamp, Decision::Committed),
            Message::Withdraw { stamp } => self.on_close(from, *stamp, Decision::Withdrawn),
            Message::Read { at, object } => self.on_read(from, *at, *object),
            Message::Write { at, object, value } => self.on_write(from, *at, *object, value),
            Message::Ask { stamp } => self.on_ask(from, *stamp),
            Message::Tell { stamp, committed } => self.on_learn(*stamp, *committed),
            _ => Ok(()),
        }
    }

    /// Takes a message.
    #[tactic(auto, unfolding(crate::specs::Rows::on_message))]
    pub fn on_message(&mut self, from: NodeId, message: &Message) -> Result<(), HistoryFault>
        requires message { IsMessage message.now }
        requires agreed { AgreeWith H.content (now self.old.draft) self.old.books }
        requires since { AreSince H.content H.below H.faults H.damage self.old.books }
        ensures agreed { OnOk result (AgreeWith H.content (now self.new.draft) self.new.books) }
        ensures went { HaveGoneOn H.tells H.content H.below H.faults H.damage self.old.books self.new.books result }
        ensures log { OnOk result (HasSameLog self.old.draft self.new.draft) }
        ensures gives { IsTrue H.tells →
            OnOk result (self.new.draft ≡ rows.on_message self.old.draft from message.now) }
    {
        if accepts(self.draft.number(), from, message) {
            self.on_row(from, message)?;
        }
        Ok(())
    }

    // A record expires, which is decided in the books already.
    fn expire(&mut self, stamp: Stamp, decision: Decision) -> Result<(), HistoryFault>
        requires unsettled { settle_of (H.content self.old.books.histories) stamp ≡ None }
        requires since { AreSince H.content H.below H.faults H.damage self.old.books }
        ensures agreed { (rest : List (StampParts × Decision)) → IsUnknown (now self.old.draft) stamp →
            listed_at rest stamp ≡ None →
            AgreeBut H.content ((stamp, decision) ∷ rest) (now self.old.draft) self.old.books →
            OnOk result (AgreeBut H.content rest (now self.new.draft) self.new.books) }
        ensures records { OnOk result ((s : StampParts) →
            record_of (now self.new.draft) s ≡ record_of (effect.Decide stamp decision ∷ now self.old.draft) s) }
        ensures went { HaveGoneOn H.tells H.content H.below H.faults H.damage self.old.books self.new.books result }
        ensures log { OnOk result (HasSameLog self.old.draft self.new.draft) }
        ensures gives { (rest : List (StampParts × Decision)) → IsTrue H.tells → IsUnknown (now self.old.draft) stamp →
            listed_at rest stamp ≡ None →
            AgreeBut H.content ((stamp, decision) ∷ rest) (now self.old.draft) self.old.books →
            OnOk result (self.new.draft ≡ rows.release stamp
            (rows.tell_askers stamp false (note (effect.Decide stamp decision) self.old.draft))) }
    {
        self.books.expire(stamp, decision)?;
        self.draft.expire(stamp, decision)?;
        self.release(stamp)?;
        Ok(())
    }

    // Each of these records expires, in order.
    fn expire_all(&mut self, moment: u64) -> Result<(), HistoryFault>
        requires agreed { AgreeWith H.content (now self.old.draft) self.old.books }
        requires since { AreSince H.content H.below H.faults H.damage self.old.books }
        ensures agreed { OnOk result (AgreeWith H.content (now self.new.draft) self.new.books) }
        ensures went { HaveGoneOn H.tells H.content H.below H.faults H.damage self.old.books self.new.books result }
        ensures log { OnOk result (HasSameLog self.old.draft self.new.draft) }
        ensures gives { IsTrue H.tells →
            OnOk result (self.new.draft ≡ hearing.expired (expiries moment (now self.old.draft)) self.old.draft) }
    {
        let due = self.books.hear(moment)?;
        for (stamp, decision) in &due {
            self.expire(*stamp, *decision)?;
        }
        Ok(())
    }

    /// Hears a moment.
    pub fn on_moment(&mut self, moment: u64) -> Result<(), HistoryFault>
        requires moment { moment ≤ 2 ^ 63 }
        requires agreed { AgreeWith H.content (now self.old.draft) self.old.books }
        requires since { AreSince H.content H.below H.faults H.damage self.old.books }
        ensures agreed { OnOk result (AgreeWith H.content (now self.new.draft) self.new.books) }
        ensures went { HaveGoneOn H.tells H.content H.below H.faults H.damage self.old.books self.new.books result }
        ensures log { OnOk result (HasSameLog self.old.draft self.new.draft) }
        ensures gives { IsTrue H.tells → OnOk result (self.new.draft ≡ hearing.on_moment self.old.draft moment) }
    {
        self.draft.hear(moment);
        self.expire_all(moment)?;
        self.draft.ask_again()?;
        Ok(())
    }
}

// Whether a message to this repository isn't ignored.
fn accepts(number: u8, from: NodeId, message: &Message) -> bool
    ensures { result ≡ rows.accepts number from message.now }
{
    match message {
        Message::Begin { stamp, .. } => is_broker(from, stamp.broker()) && stamp.home() == number,
        Message::Commit { stamp } => is_broker(from, stamp.broker()) && stamp.home() == number,
        Message::Withdraw { stamp } => is_broker(from, stamp.broker()) && stamp.home() == number,
        Message::Read { at, object } => {
            is_broker(from, at.stamp().broker()) && object.repository == number
        }
        Message::Write { at, object, .. } => {
            is_broker(from, at.stamp().broker()) && object.repository == number
        }
        Message::Ask { stamp } => from.kind == NodeKind::Repository && stamp.home() == number,
        Message::Tell { stamp, .. } => {
            from.kind == NodeKind::Repository && from.number == stamp.home()
        }
        _ => false,
    }
}

// Whether the node is the broker with this number.
fn is_broker(node: NodeId, number: u8) -> bool
    ensures { result ≡ rows.is_broker_of number node }
{
    node.kind == NodeKind::Broker && node.number == number
}
