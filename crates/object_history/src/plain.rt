//! Histories in memory.
ghost use Rattle.std.specs.Prelude.{◌≡◌, [], ◌∷◌, Some, None, IfOk, OnOk, OnErr, reverse, unwrap_or, ◌&&◌};
ghost use Rattle.std.specs.Option.{option_copied, option_map};
ghost use Rattle.value_form.specs.declared.values.Value.TheVariants as value;
ghost use Rattle.object_history.specs.declared.marks.Mark.TheVariants as mark;
ghost use Rattle.object_history.specs.Objects.{same_value};
ghost use Rattle.object_history.specs.History as history;
ghost use Rattle.object_history.specs.Answers as answers;
ghost use Rattle.object_history.specs.Ranges.{AreMarks, IsMark, IsReadStep};
ghost use Rattle.object_history.specs.Views as views;
ghost use Rattle.object_history.specs.Kept as kept;
ghost use Rattle.object_history.specs.Kept.{HasEnd, seen_in, value_under, is_below};
ghost use Rattle.value_form.specs.ObjectBytes.{IsObject};
ghost use Rattle.value_form.specs.ValueBytes.{IsValue};

use crate::calls::Histories;
use crate::maps::{Settles, Tracks};
use crate::marks::Mark;
use crate::steps::{HistoryFault, ReadStep, WriteStep};
use crate::versions::{Version, later};
use pseudo_time::{PseudoTime, Stamp};
use std::alloc::{AllocError, Global};
use std::marker::Model;
use value_form::{ObjectId, Value};

/// Histories that are kept in memory whole. Contracts see the marks, newest first.
///
/// A call goes from the newest version of its object to the first that answers. Where the object's
/// starts rise, it meets none below that; else it may meet them all. Adding a mark costs what it takes
/// to find its object or its stamp.
#[derive(Drop)]
pub struct PlainHistories {
    /// Oldest first.
    marks: Vec<Mark>,
    settles: Settles,
    tracks: Tracks,
    // The greatest Floor.
    floor: Option<PseudoTime>,
    alloc: Global,
}

impl Model for PlainHistories {
    ghost use Rattle.std.specs.Prelude.{List, reverse};
    ghost use Rattle.std.specs.Coded.{coded_list};
    ghost use Rattle.object_history.specs.declared.marks.Mark.{Mark};
    ghost use Rattle.object_history.specs.contracts.marks.Mark as mark;
    ghost use Rattle.object_history.specs.Kept.{IsWhole};

    ghost Value = { List Mark };

    ghost coded = { coded_list mark.the_row.coded };

    ghost view = { λ h. reverse h.marks.items };

    ghost invariant = { λ h. IsWhole (reverse h.marks.items) h.settles h.tracks h.floor };
}

impl PlainHistories {
    /// No marks.
    pub fn new(alloc: Global) -> PlainHistories
        ensures { result ≡ [] }
    {
        PlainHistories {
            marks: Vec::new(alloc),
            settles: Settles::new(alloc),
            tracks: Tracks::new(alloc),
            floor: None,
            alloc,
        }
    }

    /// These marks, which stand oldest first.
    pub fn of(alloc: Global, marks: &[Mark]) -> Result<PlainHistories, AllocError>
        requires { AreMarks marks.now }
        ensures { IfOk result (λ h. h ≡ reverse marks.now) }
    {
        let mut histories = PlainHistories::new(alloc);
        for mark in marks {
            histories.add(mark)?;
        }
        Ok(histories)
    }

    // Adds a copy of any mark.
    fn add(&mut self, mark: &Mark) -> Result<(), AllocError>
        requires { IsMark mark.now }
        ensures { OnOk result (self.new ≡ mark.now ∷ self.old) }
    {
        match mark {
            Mark::Put(object, start, value) => {
                let value = value.copy(self.alloc)?;
                self.add_put(*object, *start, value)
            }
            Mark::Stretch(object, at) => self.add_stretch(*object, *at),
            Mark::Settle(stamp, committed) => self.add_settle(*stamp, *committed),
            Mark::Floor(at) => self.add_floor(*at),
        }
    }

    // Adds a version. Where memory runs out, all is as before.
    fn add_put(
        &mut self,
        object: ObjectId,
        start: PseudoTime,
        value: Value,
    ) -> Result<(), AllocError>
        requires object { IsObject object }
        requires value { IsValue value }
        ensures ok { OnOk result (self.new ≡ mark.Put object start value ∷ self.old) }
        ensures err { OnErr result (self.new ≡ self.old) }
    {
        let before = self.marks.len();
        self.marks.push(Mark::Put(object, start, value))?;
        if let Err(full) = self.tracks.add(object, before, start) {
            self.marks.pop();
            return Err(full);
        }
        Ok(())
    }

    // Adds a Stretch, which falls on what a read at its time sees. Where memory runs out, all is as
    // before.
    fn add_stretch(&mut self, object: ObjectId, at: PseudoTime) -> Result<(), AllocError>
        requires { IsObject object }
        ensures ok { OnOk result (self.new ≡ mark.Stretch object at ∷ self.old) }
        ensures err { OnErr result (self.new ≡ self.old) }
    {
        let place = self.place_seen(object, at);
        self.marks.push(Mark::Stretch(object, at))?;
        if let Err(full) = self.tracks.stretch(object, place, at) {
            self.marks.pop();
            return Err(full);
        }
        Ok(())
    }

    // Adds a Settle, which counts where it is the first of its stamp. Where memory runs out, all is
    // as before.
    fn add_settle(&mut self, stamp: Stamp, committed: bool) -> Result<(), AllocError>
        ensures ok { OnOk result (self.new ≡ mark.Settle stamp committed ∷ self.old) }
        ensures err { OnErr result (self.new ≡ self.old) }
    {
        self.marks.push(Mark::Settle(stamp, committed))?;
        if self.settles.get(stamp).is_some() {
            return Ok(());
        }
        if let Err(full) = self.settles.put(stamp, committed) {
            self.marks.pop();
            return Err(full);
        }
        Ok(())
    }

    // Adds a Floor. Where memory runs out, all is as before.
    fn add_floor(&mut self, at: PseudoTime) -> Result<(), AllocError>
        ensures ok { OnOk result (self.new ≡ mark.Floor at ∷ self.old) }
        ensures err { OnErr result (self.new ≡ self.old) }
    {
        self.marks.push(Mark::Floor(at))?;
        self.floor = Some(later(at, &self.floor));
        Ok(())
    }

    // The object's last version that isn't dead, of those that start below the end, if there is one.
    fn last(&self, object: ObjectId, end: &Option<PseudoTime>) -> Option<&Version>
        ensures seen { option_map (seen_in self.now) (option_copied result) ≡ history.scan
            (λ x. is_below end.now x && history.alive self.now x) object self.now }
        ensures end { HasEnd self.now object (option_copied result) }
    {
        self.tracks.get(object)?.last(&self.settles, end)
    }

    // The place of what a read sees. None where that is the origin.
    fn place_seen(&self, object: ObjectId, at: PseudoTime) -> Option<usize>
        ensures { result ≡ history.place_of (history.sees self.now object at) }
    {
        let seen = self.last(object, &Some(at))?;
        Some(seen.place)
    }

    // How far a version, or the origin, was read.
    fn reach(&self, object: ObjectId, seen: Option<&Version>) -> Option<PseudoTime>
        requires { HasEnd self.now object (option_copied seen) }
        ensures { result ≡ history.reach self.now object (option_map (seen_in self.now) (option_copied seen.entry)) }
    {
        let read = self.read_to(object, seen);
        match self.floor {
            Some(floor) => Some(later(floor, &read)),
            None => read,
        }
    }

    // How far a version, or the origin, was read, the floor aside.
    fn read_to(&self, object: ObjectId, seen: Option<&Version>) -> Option<PseudoTime>
        requires { HasEnd self.now object (option_copied seen) }
        ensures { result ≡ history.read_to self.now object (option_map (seen_in self.now) (option_copied seen.entry)) }
    {
        match seen {
            Some(version) => Some(later(version.start, &version.end)),
            None => self.tracks.get(object)?.origin(),
        }
    }

    // Whether a committed version of the object starts above what is seen.
    fn settled_over(&self, object: ObjectId, seen: Option<&Version>) -> bool
        ensures { result ≡ answers.settled_over self.now object
            (option_map (seen_in self.now) (option_copied seen.entry)) }
    {
        let start = start_of(seen);
        match self.tracks.get(object) {
            Some(track) => track.has_firm(&self.settles, &start),
            None => false,
        }
    }

    // Whether a read has to stretch what it sees.
    fn needs_stretch(&self, object: ObjectId, at: PseudoTime, seen: Option<&Version>) -> bool
        requires { HasEnd self.now object (option_copied seen) }
        ensures { result ≡ answers.needs_stretch self.now object at
            (option_map (seen_in self.now) (option_copied seen.entry)) }
    {
        let is_above = match self.reach(object, seen) {
            Some(end) => end.is_before(at),
            None => true,
        };
        is_above && !self.settled_over(object, seen)
    }

    // The value of the Put at this place among the marks.
    fn value_at(&self, mark: usize) -> Option<&Value>
        ensures { unwrap_or (option_copied result) value.Nothing ≡ value_under self.now mark }
    {
        value_put(self.marks.get(mark)?)
    }

    // Whether the Put at this place among the marks has this value.
    fn has_value(&self, mark: usize, value: &Value) -> bool
        ensures { result ≡ same_value (value_under self.now mark) value.now }
    {
        match self.value_at(mark) {
            Some(held) => is_same_value(held, value),
            None => is_same_value(&Value::Nothing, value),
        }
    }

    // The value of what is seen.
    fn value_of(&self, seen: Option<&Version>) -> Result<Value, AllocError>
        ensures { IfOk result (λ v. v ≡ views.value_of (option_map (seen_in self.now) (option_copied seen.entry))) }
    {
        let Some(version) = seen else {
            return Ok(Value::Nothing);
        };
        match self.value_at(version.mark) {
            Some(value) => value.copy(self.alloc),
            None => Ok(Value::Nothing),
        }
    }

    // Whether a version of the object, dead or not, has this start and value.
    fn has_put(&self, object: ObjectId, start: PseudoTime, value: &Value) -> bool
        ensures { result ≡ answers.has_put object start value.now self.now }
    {
        let Some(track) = self.tracks.get(object) else {
            return false;
        };
        for version in track.versions().iter().rev() {
            if version.start.is_same(start) && self.has_value(version.mark, value) {
                return true;
            }
            if track.rises() && version.start.is_before(start) {
                return false;
            }
        }
        false
    }

    // Whether a version that isn't dead has this start and value.
    fn has_living(&self, object: ObjectId, start: PseudoTime, value: &Value) -> bool
        ensures { result ≡ answers.stands_written self.now object start value.now }
    {
        self.settles.get(start.stamp()).unwrap_or(true) && self.has_put(object, start, value)
    }

    // The undecided attempt that a read by this stamp has to wait for.
    fn waits_for(&self, stamp: Stamp, seen: Option<&Version>) -> Option<Stamp>
        ensures { result ≡ kept.waits_for self.now stamp (option_copied seen.entry) }
    {
        let writer = seen?.start.stamp();
        if writer.is_same(stamp) {
            return None;
        }
        match self.settles.get(writer) {
            Some(_) => None,
            None => Some(writer),
        }
    }

    // What a read answers.
    fn answer(&self, object: ObjectId, at: PseudoTime) -> Result<ReadStep, AllocError>
        ensures step { IfOk result (λ s. s ≡ answers.read_step self.now object at) }
        ensures in_range { IfOk result IsReadStep }
    {
        match self.floor {
            Some(end) if at.is_before(end) => Ok(ReadStep::LaterRead { end }),
            _ => self.answer_seen(object, at),
        }
    }

    // What a read answers that isn't below the floor.
    fn answer_seen(&self, object: ObjectId, at: PseudoTime) -> Result<ReadStep, AllocError>
        ensures step { IfOk result (λ s. s ≡ answers.read_seen self.now object at (history.sees self.now object at)) }
        ensures in_range { IfOk result IsReadStep }
    {
        let _in_range = self.marks.len();
        let seen = self.last(object, &Some(at));
        if let Some(stamp) = self.waits_for(at.stamp(), seen) {
            return Ok(ReadStep::Wait { stamp });
        }
        let value = self.value_of(seen)?;
        let stretch = self.needs_stretch(object, at, seen);
        Ok(ReadStep::Answer { value, stretch })
    }

    // What a write answers that doesn't stand yet.
    fn new_write(&self, object: ObjectId, at: PseudoTime) -> WriteStep
        ensures { result ≡ answers.write_newest at (history.newest self.now object)
            (history.reach self.now object (history.newest self.now object)) }
    {
        let newest = self.last(object, &None);
        if let Some(version) = newest {
            if !version.start.is_before(at) {
                return WriteStep::LaterVersion {
                    start: version.start,
                };
            }
        }
        match self.reach(object, newest) {
            Some(end) if at.is_before(end) => WriteStep::LaterRead { end },
            _ => WriteStep::Put,
        }
    }
}

/// Whether two values are the same.
#[tactic(auto, unfolding(crate::specs::Objects::same_value))]
pub fn is_same_value(a: &Value, b: &Value) -> bool
    ensures { result ≡ same_value a.now b.now }
{
    match (a, b) {
        (Value::Nothing, Value::Nothing) => true,
        (Value::Number(a), Value::Number(b)) => a == b,
        (Value::Text(a), Value::Text(b)) => a.as_slice() == b.as_slice(),
        _ => false,
    }
}

// The start of what is seen. None where that is the origin.
fn start_of(seen: Option<&Version>) -> Option<PseudoTime>
    ensures { result ≡ option_map (λ v. v.start) (option_copied seen.entry) }
{
    match seen {
        Some(version) => Some(version.start),
        None => None,
    }
}

// The value of a Put.
fn value_put(mark: &Mark) -> Option<&Value>
    ensures { unwrap_or (option_copied result) value.Nothing ≡ kept.value_put mark.now }
{
    match mark {
        Mark::Put(_, _, value) => Some(value),
        _ => None,
    }
}

/// Whether an answer says that the read stretched what it saw.
pub fn has_stretched(step: &ReadStep) -> bool
    ensures { result ≡ kept.has_stretched step.now }
{
    match step {
        ReadStep::Answer { stretch, .. } => *stretch,
        ReadStep::Wait { .. } | ReadStep::LaterRead { .. } => false,
    }
}

impl Histories for PlainHistories {
    type Below = ();

    ghost use Rattle.std.specs.Prelude.{true};

    ghost tells = { true };

    ghost content = { λ h. h };

    ghost faults = { λ _. 0 };

    ghost damage = { λ _. 0 };

    ghost below = { λ _. tt };

    fn read(&mut self, object: ObjectId, at: PseudoTime) -> Result<ReadStep, HistoryFault> {
        let step = self.answer(object, at)?;
        if has_stretched(&step) {
            self.add_stretch(object, at)?;
        }
        Ok(step)
    }

    fn write(
        &mut self,
        object: ObjectId,
        at: PseudoTime,
        value: &Value,
    ) -> Result<WriteStep, HistoryFault> {
        if self.has_living(object, at, value) {
            return Ok(WriteStep::Again);
        }
        let step = self.new_write(object, at);
        if step == WriteStep::Put {
            let value = value.copy(self.alloc)?;
            self.add_put(object, at, value)?;
        }
        Ok(step)
    }

    fn stands(
        &mut self,
        object: ObjectId,
        start: PseudoTime,
        value: &Value,
    ) -> Result<bool, HistoryFault> {
        Ok(self.has_living(object, start, value))
    }

    fn settle(&mut self, stamp: Stamp, committed: bool) -> Result<(), HistoryFault> {
        self.add_settle(stamp, committed)?;
        Ok(())
    }

    fn settled(&self, stamp: Stamp) -> Option<bool> {
        self.settles.get(stamp)
    }
}
