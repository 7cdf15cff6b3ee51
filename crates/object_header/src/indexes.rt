//! The headers of all objects, and how stamps are decided.
ghost use Rattle.std.specs.Prelude.{◌≡◌, [], ◌∷◌, true, false, Some, None, List, OnOk, OnErr};
ghost use Rattle.std.specs.FinMap as finite;
ghost use Rattle.pseudo_time.specs.Order.{lt};
ghost use Rattle.value_form.specs.declared.objects.ObjectId.{ObjectId};
ghost use Rattle.value_form.specs.declared.values.Value.{Value};
ghost use Rattle.object_history.specs.declared.marks.Mark.{Mark};
ghost use Rattle.object_history.specs.declared.marks.Mark.TheVariants as mark;
ghost use Rattle.object_history.specs.Views.{Starts, IsOnFloor};
ghost use Rattle.object_history.specs.History as history;
ghost use Rattle.object_history.specs.History.{settle_of, newest, floor_of, reach};
ghost use Rattle.object_history.specs.Answers.{is_above, stands_written, write_reach, write_newest};
ghost use Rattle.object_header.specs.Spans.{is_living};
ghost use Rattle.object_header.specs.Heads.{head_at};
ghost use Rattle.object_header.specs.Ledgers.{IsIndexed};
ghost use Rattle.object_header.specs.Plans.{waits, plan_span, PlansRead, IsReadPlan};

use crate::heads::{Look, Span};
use crate::limits::Limit;
use crate::maps::Heads;
use crate::plans::ReadPlan;
use object_history::{ReadStep, Settles, WriteStep, later};
use pseudo_time::{PseudoTime, Stamp};
use std::alloc::{AllocError, Global};
use value_form::{ObjectId, Value};

/// How stamps are decided, and the headers of the objects.
#[derive(Drop)]
pub struct Index {
    pub settles: Settles,
    pub heads: Heads,
    /// Some object may be odd.
    pub some_odd: bool,
}

impl Index {
    /// That of no marks.
    pub fn new(alloc: Global) -> Index
        ensures { IsIndexed [] result.settles result.heads }
    {
        Index {
            settles: Settles::new(alloc),
            heads: Heads::new(alloc),
            some_odd: false,
        }
    }

    /// Whether the object is kept whole.
    pub fn is_odd(&self, object: ObjectId) -> bool
        ensures { result ≡ (head_at self.now.heads object).odd }
    {
        self.heads.is_odd(object)
    }

    /// Adds a version, which lies above every living one of its object, unless that is odd.
    pub fn put(&mut self, object: ObjectId, start: PseudoTime) -> Result<(), AllocError>
        ensures ok { (m : List Mark) (v : Value) → IsIndexed m self.old.settles self.old.heads →
            ((head_at self.old.heads object).odd ≡ false →
            Starts (λ y. is_living self.old.settles y ≡ true → lt y start ≡ true) object m) →
            OnOk result (IsIndexed (mark.Put object start v ∷ m) self.new.settles self.new.heads) }
        ensures err { (m : List Mark) → IsIndexed m self.old.settles self.old.heads →
            OnErr result (IsIndexed m self.new.settles self.new.heads) }
        ensures same_odd { (o : ObjectId) → (head_at self.new.heads o).odd ≡ (head_at self.old.heads o).odd }
    {
        self.heads.add(&self.settles, object, start)
    }

    /// Adds a version that may lie anywhere: where it isn't above every living one of its object,
    /// that is kept whole from now on.
    pub fn put_any(&mut self, object: ObjectId, start: PseudoTime) -> Result<(), AllocError>
        ensures ok { (m : List Mark) (v : Value) → IsIndexed m self.old.settles self.old.heads →
            OnOk result (IsIndexed (mark.Put object start v ∷ m) self.new.settles self.new.heads) }
    {
        self.test_put(object, start)?;
        self.put(object, start)?;
        Ok(())
    }

    // Where a version with this start isn't above every living one of its object, that is odd.
    fn test_put(&mut self, object: ObjectId, start: PseudoTime) -> Result<(), AllocError>
        ensures ok { (m : List Mark) → IsIndexed m self.old.settles self.old.heads →
            OnOk result (IsIndexed m self.new.settles self.new.heads ×
            ((head_at self.new.heads object).odd ≡ false →
            Starts (λ y. is_living self.new.settles y ≡ true → lt y start ≡ true) object m)) }
    {
        match self.heads.look(&self.settles, object, &Limit::All) {
            Look::Shown(span) => {
                if span.start.is_before(start) {
                    return Ok(());
                }
                self.some_odd = true;
                self.heads.set_odd(object)
            }
            _ => Ok(()),
        }
    }

    /// Adds a Stretch.
    pub fn stretch(&mut self, object: ObjectId, at: PseudoTime) -> Result<(), AllocError>
        ensures ok { (m : List Mark) → IsIndexed m self.old.settles self.old.heads →
            OnOk result (IsIndexed (mark.Stretch object at ∷ m) self.new.settles self.new.heads) }
        ensures err { (m : List Mark) → IsIndexed m self.old.settles self.old.heads →
            OnErr result (IsIndexed m self.new.settles self.new.heads) }
        ensures same_odd { (o : ObjectId) → (head_at self.new.heads o).odd ≡ (head_at self.old.heads o).odd }
    {
        self.heads.stretch(&self.settles, object, at)
    }

    /// Adds a Settle, which counts where it is the first of its stamp.
    pub fn settle(&mut self, stamp: Stamp, committed: bool) -> Result<(), AllocError>
        ensures ok { (m : List Mark) → IsIndexed m self.old.settles self.old.heads →
            OnOk result (IsIndexed (mark.Settle stamp committed ∷ m) self.new.settles self.new.heads) }
        ensures err { (m : List Mark) → IsIndexed m self.old.settles self.old.heads →
            OnErr result (IsIndexed m self.new.settles self.new.heads) }
        ensures same_odd { (o : ObjectId) → (head_at self.new.heads o).odd ≡ (head_at self.old.heads o).odd }
    {
        if self.settles.get(stamp).is_some() {
            return Ok(());
        }
        self.settles.put(stamp, committed)
    }

    /// A Floor touches no header.
    pub fn keeps_floor(&self, at: PseudoTime)
        ensures { (m : List Mark) → IsIndexed m self.now.settles self.now.heads →
            IsIndexed (mark.Floor at ∷ m) self.now.settles self.now.heads }
    {}

    /// How the attempt was decided.
    pub fn settled(&self, stamp: Stamp) -> Option<bool>
        ensures { (m : List Mark) → IsIndexed m self.now.settles self.now.heads → result ≡ settle_of m stamp }
    {
        self.settles.get(stamp)
    }

    /// Whether a reader of this stamp waits for a version of that one.
    pub fn is_waiting(&self, reader: Stamp, writer: Stamp) -> bool
        ensures { result ≡ waits self.now.settles reader writer }
    {
        !(writer.is_same(reader) || self.settles.get(writer).is_some())
    }

    /// What the header says of a read that isn't below the floor.
    pub fn plan_read(&self, floor: Option<PseudoTime>, object: ObjectId, at: PseudoTime) -> ReadPlan
        requires headed { (head_at self.now.heads object).odd ≡ false }
        ensures plan { (m : List Mark) → IsIndexed m self.now.settles self.now.heads →
            floor ≡ floor_of m → IsOnFloor m at →
            PlansRead self.now.settles m object at result }
        ensures in_range { IsReadPlan result }
    {
        match self.heads.look(&self.settles, object, &Limit::Below(at)) {
            Look::Origin => {
                let end = latest(floor, self.heads.origin(object));
                let stretch = is_past(at, &end);
                ReadPlan::Known(ReadStep::Answer {
                    value: Value::Nothing,
                    stretch,
                })
            }
            Look::Shown(span) => self.plan_shown(floor, at, span),
            Look::Under => ReadPlan::Find { stretch: false },
        }
    }

    // What a read answers that sees this version.
    fn plan_shown(&self, floor: Option<PseudoTime>, at: PseudoTime, span: Span) -> ReadPlan
        ensures plan { result ≡ plan_span self.now.settles floor at span }
        ensures in_range { IsReadPlan result }
    {
        if self.is_waiting(at.stamp(), span.start.stamp()) {
            return ReadPlan::Known(ReadStep::Wait {
                stamp: span.start.stamp(),
            });
        }
        let end = span_end(floor, span);
        ReadPlan::Find {
            stretch: is_past(at, &end),
        }
    }

    /// What a write answers that doesn't stand yet.
    pub fn new_write(
        &self,
        floor: Option<PseudoTime>,
        object: ObjectId,
        at: PseudoTime,
    ) -> WriteStep
        requires headed { (head_at self.now.heads object).odd ≡ false }
        ensures { (m : List Mark) → IsIndexed m self.now.settles self.now.heads → floor ≡ floor_of m →
            result ≡ write_newest at (newest m object) (reach m object (newest m object)) }
    {
        match self.heads.look(&self.settles, object, &Limit::All) {
            Look::Shown(span) => {
                if span.start.is_before(at) {
                    by_reach(at, &span_end(floor, span))
                } else {
                    WriteStep::LaterVersion { start: span.start }
                }
            }
            _ => by_reach(at, &latest(floor, self.heads.origin(object))),
        }
    }

    /// Whether a version with this start may stand, so that it has to be looked for.
    pub fn may_stand(&self, object: ObjectId, at: PseudoTime) -> bool
        requires headed { (head_at self.now.heads object).odd ≡ false }
        ensures { (m : List Mark) (v : Value) → IsIndexed m self.now.settles self.now.heads → result ≡ false →
            stands_written m object at v ≡ false }
    {
        if self.settles.get(at.stamp()) == Some(false) {
            return false;
        }
        match self.heads.look(&self.settles, object, &Limit::UpTo(at)) {
            Look::Origin => false,
            Look::Shown(span) => span.start.is_same(at),
            Look::Under => true,
        }
    }
}

// The later of two ends, if there are any.
fn latest(a: Option<PseudoTime>, b: Option<PseudoTime>) -> Option<PseudoTime>
    ensures { result ≡ history.latest a b }
{
    match a {
        Some(a) => Some(later(a, &b)),
        None => b,
    }
}

// The reach of a version over this floor.
fn span_end(floor: Option<PseudoTime>, span: Span) -> Option<PseudoTime>
    ensures { result ≡ history.latest floor (history.top span.start span.end) }
{
    latest(floor, Some(later(span.start, &span.end)))
}

// Whether a time is above an end, if there is one.
fn is_past(time: PseudoTime, end: &Option<PseudoTime>) -> bool
    ensures { result ≡ is_above time end.now }
{
    match end {
        Some(end) => end.is_before(time),
        None => true,
    }
}

// What a write answers by how far the newest version was read.
fn by_reach(at: PseudoTime, end: &Option<PseudoTime>) -> WriteStep
    ensures { result ≡ write_reach at end.now }
{
    match end {
        Some(end) if at.is_before(*end) => WriteStep::LaterRead { end: *end },
        _ => WriteStep::Put,
    }
}
