//! What a table of headers knows beside its store.
ghost use Rattle.std.specs.Prelude.{◌≡◌, [], ◌∷◌, ◌++◌, true, false, OnOk, OnErr, IfOk, IfSome, reverse};
ghost use Rattle.pseudo_time.specs.Order.{lt};
ghost use Rattle.value_form.specs.declared.values.Value.{Value};
ghost use Rattle.value_form.specs.ObjectBytes.{IsObject};
ghost use Rattle.value_form.specs.ValueBytes.{IsValue};
ghost use Rattle.object_history.specs.declared.marks.Mark.TheVariants as mark;
ghost use Rattle.object_history.specs.declared.steps.WriteStep.TheVariants as write;
ghost use Rattle.object_history.specs.Views.{Starts};
ghost use Rattle.object_history.specs.History.{settle_of, newest, reach};
ghost use Rattle.object_history.specs.Answers.{read_step, stands_written, write_newest, write_step};
ghost use Rattle.object_history.specs.Ranges.{IsReadStep};
ghost use Rattle.object_header.specs.Spans.{is_living, passes};
ghost use Rattle.object_header.specs.Heads.{first_put};
ghost use Rattle.object_header.specs.Ledgers.{content, is_odd};
ghost use Rattle.effect_form.specs.Effects.{AreEffects};
ghost use Rattle.object_header.specs.Odd.{kept_of};
ghost use Rattle.repository_log.specs.Logs as logs;
ghost use Rattle.object_header.specs.Plans.{answer_first, is_written, PlansRead, IsReadPlan};
ghost use Rattle.object_header.specs.declared.limits.Limit.TheVariants as limit;

use crate::additions::{add_effect, copy_put, is_here};
use crate::indexes::Index;
use crate::keeping::{keep_effects, keep_marks};
use crate::limits::Limit;
use crate::plans::ReadPlan;
use effect_form::Effect;
use message_form::SnapshotLog;
use object_history::{Histories, Mark, PlainHistories, ReadStep, Settles, WriteStep};
use pseudo_time::{PseudoTime, Stamp};
use repository_log::floor_with;
use std::alloc::{AllocError, Global};
use std::marker::Model;
use std::slice::from_ref;
use value_form::{ObjectId, Value};

/// What a table knows of its histories beside the store. Contracts see the log that stands in the
/// store, the marks that don't yet, how stamps are decided, and the headers.
#[derive(Drop)]
pub struct Ledger {
    alloc: Global,
    log: SnapshotLog,
    /// Oldest first.
    late: Vec<Mark>,
    index: Index,
    /// The greatest Floor.
    floor: Option<PseudoTime>,
    /// Odd objects can be answered, by the marks kept here of the store, oldest first.
    whole: bool,
    kept: Vec<Mark>,
}

impl Model for Ledger {
    ghost use Rattle.std.specs.Prelude.{reverse};
    ghost use Rattle.std.specs.Coded.{codes};
    ghost use Rattle.object_history.specs.contracts.maps.Settles as settles;
    ghost use Rattle.object_header.specs.contracts.maps.Heads as heads;
    ghost use Rattle.object_header.specs.Ledgers.{LedgerParts, IsFloored};

    ghost Value = { LedgerParts };

    ghost coded = { Prim.hlevel (codes, settles.the_row.coded, heads.the_row.coded) };

    ghost view = { λ l. record {
      log = l.log;
      late = reverse l.late.items;
      settles = l.index.settles;
      heads = l.index.heads;
      whole = l.whole;
      kept = reverse l.kept.items;
    } };

    ghost invariant = { λ l. IsFloored (record {
      log = l.log;
      late = reverse l.late.items;
      settles = l.index.settles;
      heads = l.index.heads;
      whole = l.whole;
      kept = reverse l.kept.items;
    }) l.floor };
}

impl Ledger {
    /// That of an empty store.
    pub fn new(alloc: Global) -> Ledger
        ensures log { result.log ≡ [] }
        ensures late { result.late ≡ [] }
    {
        Ledger {
            alloc,
            log: SnapshotLog::new(alloc),
            late: Vec::new(alloc),
            index: Index::new(alloc),
            floor: None,
            whole: false,
            kept: Vec::new(alloc),
        }
    }

    /// With one effect more in the store, where all marks stand.
    pub fn with_effect(self, effect: &Effect) -> Result<Ledger, AllocError>
        requires late { self.late ≡ [] }
        ensures log { IfOk result (λ l. l.log ≡ self.log ++ effect.now ∷ []) }
        ensures late { IfOk result (λ l. l.late ≡ []) }
    {
        let Ledger {
            alloc,
            mut log,
            late,
            mut index,
            floor,
            whole: _,
            kept: _,
        } = self;
        log.add(alloc, from_ref(effect))?;
        add_effect(&mut index, effect)?;
        Ok(Ledger {
            alloc,
            log,
            late,
            index,
            floor: floor_with(floor, effect),
            whole: false,
            kept: Vec::new(alloc),
        })
    }

    /// How the attempt was decided.
    pub fn settled(&self, stamp: Stamp) -> Option<bool>
        ensures { result ≡ settle_of (content self.now) stamp }
    {
        self.index.settled(stamp)
    }

    /// How stamps are decided.
    pub fn settles(&self) -> &Settles
        ensures { result.now ≡ self.now.settles }
    {
        &self.index.settles
    }

    /// Whether the object is kept whole.
    pub fn is_odd(&self, object: ObjectId) -> bool
        ensures { result ≡ is_odd self.now object }
    {
        self.index.is_odd(object)
    }

    /// What is known of a read: below the floor it is refused; else it is what the header says.
    pub fn plan_read(&self, object: ObjectId, at: PseudoTime) -> ReadPlan
        requires headed { is_odd self.now object ≡ false }
        ensures plan { PlansRead self.now.settles (content self.now) object at result }
        ensures in_range { IsReadPlan result }
    {
        match self.floor {
            Some(end) if at.is_before(end) => ReadPlan::Known(ReadStep::LaterRead { end }),
            _ => self.index.plan_read(self.floor, object, at),
        }
    }

    /// What a read answers that sees this version, or the origin.
    pub fn answer_first(
        &self,
        at: PseudoTime,
        stretch: bool,
        first: Option<(PseudoTime, Value)>,
    ) -> ReadStep
        ensures { result ≡ answer_first self.now.settles at stretch first }
    {
        let Some((start, value)) = first else {
            return ReadStep::Answer {
                value: Value::Nothing,
                stretch,
            };
        };
        if self.index.is_waiting(at.stamp(), start.stamp()) {
            return ReadStep::Wait {
                stamp: start.stamp(),
            };
        }
        ReadStep::Answer { value, stretch }
    }

    /// What a write answers that doesn't stand yet.
    pub fn new_write(&self, object: ObjectId, at: PseudoTime) -> WriteStep
        requires headed { is_odd self.now object ≡ false }
        ensures { result ≡ write_newest at (newest (content self.now) object)
            (reach (content self.now) object (newest (content self.now) object)) }
    {
        self.index.new_write(self.floor, object, at)
    }

    /// Whether a version with this start may stand, so that it has to be looked for.
    pub fn may_stand(&self, object: ObjectId, at: PseudoTime) -> bool
        requires headed { is_odd self.now object ≡ false }
        ensures { (v : Value) → result ≡ false → stands_written (content self.now) object at v ≡ false }
    {
        self.index.may_stand(object, at)
    }

    /// A version with this start and value stands where the newest one up to that time has both.
    pub fn stands_first(&self, object: ObjectId, at: PseudoTime)
        requires headed { is_odd self.now object ≡ false }
        ensures { (v : Value) → stands_written (content self.now) object at v ≡
            is_written at v (first_put (passes self.now.settles (limit.UpTo at)) object (content self.now)) }
    {
        let _in_range = self.late.len();
    }

    /// A new write that is put lies above every living version.
    pub fn puts_rise(&self, object: ObjectId, at: PseudoTime)
        ensures { write_newest at (newest (content self.now) object)
            (reach (content self.now) object (newest (content self.now) object)) ≡ write.Put →
            Starts (λ y. is_living self.now.settles y ≡ true → lt y at ≡ true) object (content self.now) }
    {
        let _in_range = self.late.len();
    }

    /// The start and the value of the newest version that isn't in the store yet and passes.
    pub fn first_late(
        &self,
        object: ObjectId,
        limit: &Limit,
    ) -> Result<Option<(PseudoTime, Value)>, AllocError>
        ensures found { IfOk result (λ r. r ≡ first_put (passes self.now.settles limit.now) object self.now.late) }
        ensures in_range { IfOk result (λ r. IfSome r (λ f. IsValue f.1)) }
    {
        for mark in self.late.iter().rev() {
            if is_here(&self.index.settles, object, limit, mark) {
                return copy_put(self.alloc, mark);
            }
        }
        Ok(None)
    }

    /// Adds a version above every living one of its object. Where memory runs out, all is as before.
    pub fn put(
        &mut self,
        object: ObjectId,
        start: PseudoTime,
        value: Value,
    ) -> Result<(), AllocError>
        requires object { IsObject object }
        requires value { IsValue value }
        requires rises { is_odd self.old object ≡ false →
            Starts (λ y. is_living self.old.settles y ≡ true → lt y start ≡ true) object (content self.old) }
        ensures log { self.new.log ≡ self.old.log }
        ensures ok { OnOk result (self.new.late ≡ mark.Put object start value ∷ self.old.late) }
        ensures err { OnErr result (self.new.late ≡ self.old.late) }
    {
        self.late.push(Mark::Put(object, start, value))?;
        if let Err(full) = self.index.put(object, start) {
            self.late.pop();
            return Err(full);
        }
        Ok(())
    }

    /// Adds a Stretch. Where memory runs out, all is as before.
    pub fn stretch(&mut self, object: ObjectId, at: PseudoTime) -> Result<(), AllocError>
        requires object { IsObject object }
        ensures log { self.new.log ≡ self.old.log }
        ensures ok { OnOk result (self.new.late ≡ mark.Stretch object at ∷ self.old.late) }
        ensures err { OnErr result (self.new.late ≡ self.old.late) }
    {
        self.late.push(Mark::Stretch(object, at))?;
        if let Err(full) = self.index.stretch(object, at) {
            self.late.pop();
            return Err(full);
        }
        Ok(())
    }

    /// Adds a Settle. Where memory runs out, all is as before.
    pub fn settle(&mut self, stamp: Stamp, committed: bool) -> Result<(), AllocError>
        ensures log { self.new.log ≡ self.old.log }
        ensures ok { OnOk result (self.new.late ≡ mark.Settle stamp committed ∷ self.old.late) }
        ensures err { OnErr result (self.new.late ≡ self.old.late) }
    {
        self.late.push(Mark::Settle(stamp, committed))?;
        if let Err(full) = self.index.settle(stamp, committed) {
            self.late.pop();
            return Err(full);
        }
        Ok(())
    }

    /// With these effects in the store, whose marks are those that weren't there yet.
    pub fn flushed(self, effects: &[Effect]) -> Result<Ledger, AllocError>
        requires marks { logs.marks (reverse effects.now) ≡ self.late }
        ensures log { IfOk result (λ l. l.log ≡ self.log ++ effects.now) }
        ensures late { IfOk result (λ l. l.late ≡ []) }
    {
        let Ledger {
            alloc,
            mut log,
            late,
            index,
            floor,
            whole,
            mut kept,
        } = self;
        log.add(alloc, effects)?;
        if whole {
            keep_marks(alloc, &index.heads, &mut kept, &late)?;
        }
        Ok(Ledger {
            alloc,
            log,
            late: Vec::new(alloc),
            index,
            floor,
            whole,
            kept,
        })
    }

    /// With the marks of odd objects kept, if there are any.
    pub fn with_whole(self, effects: &[Effect]) -> Result<Ledger, AllocError>
        requires log { self.log ≡ effects.now }
        requires ranges { AreEffects effects.now }
        ensures log { IfOk result (λ l. l.log ≡ self.log) }
        ensures late { IfOk result (λ l. l.late ≡ self.late) }
    {
        if !self.index.some_odd {
            return Ok(self);
        }
        let Ledger {
            alloc,
            log,
            late,
            index,
            floor,
            whole: _,
            kept: _,
        } = self;
        let kept = keep_effects(alloc, &index.heads, effects)?;
        Ok(Ledger {
            alloc,
            log,
            late,
            index,
            floor,
            whole: true,
            kept,
        })
    }

    /// Histories that answer for the odd objects as these do. None where their marks aren't kept.
    pub fn odd_histories(&self) -> Result<Option<PlainHistories>, AllocError>
        ensures { IfOk result (λ r. IfSome r (λ h. h ≡ kept_of (is_odd self.now) (content self.now))) }
    {
        if !self.whole {
            return Ok(None);
        }
        let mut all = Vec::new(self.alloc);
        keep_marks(self.alloc, &self.index.heads, &mut all, &self.kept)?;
        keep_marks(self.alloc, &self.index.heads, &mut all, &self.late)?;
        let histories = PlainHistories::of(self.alloc, &all)?;
        Ok(Some(histories))
    }

    /// What a read of an odd object answers.
    pub fn read_odd(&self, object: ObjectId, at: PseudoTime) -> Result<ReadStep, AllocError>
        requires odd { is_odd self.now object ≡ true }
        requires object { IsObject object }
        ensures answer { IfOk result (λ s. s ≡ read_step (content self.now) object at) }
        ensures in_range { IfOk result IsReadStep }
    {
        let Some(mut whole) = self.odd_histories()? else {
            return Err(AllocError);
        };
        match whole.read(object, at) {
            Ok(step) => Ok(step),
            Err(_) => Err(AllocError),
        }
    }

    /// What a write of an odd object answers.
    pub fn write_odd(
        &self,
        object: ObjectId,
        at: PseudoTime,
        value: &Value,
    ) -> Result<WriteStep, AllocError>
        requires odd { is_odd self.now object ≡ true }
        requires object { IsObject object }
        requires value { IsValue value.now }
        ensures answer { IfOk result (λ s. s ≡ write_step (content self.now) object at value.now) }
    {
        let Some(mut whole) = self.odd_histories()? else {
            return Err(AllocError);
        };
        match whole.write(object, at, value) {
            Ok(step) => Ok(step),
            Err(_) => Err(AllocError),
        }
    }

    /// Whether a version of an odd object stands with this start and value.
    pub fn stands_odd(
        &self,
        object: ObjectId,
        start: PseudoTime,
        value: &Value,
    ) -> Result<bool, AllocError>
        requires odd { is_odd self.now object ≡ true }
        requires object { IsObject object }
        requires value { IsValue value.now }
        ensures answer { IfOk result (λ b. b ≡ stands_written (content self.now) object start value.now) }
    {
        let Some(mut whole) = self.odd_histories()? else {
            return Err(AllocError);
        };
        match whole.stands(object, start, value) {
            Ok(stands) => Ok(stands),
            Err(_) => Err(AllocError),
        }
    }
}
