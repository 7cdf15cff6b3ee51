//! What histories are asked: to read, to write, to settle.
ghost use Rattle.std.specs.Prelude.{Bool, IsTrue, ◌≡◌, ℕ, List, ◌∷◌, Option, None, IfOk, OnOk, OnErr, IfErr};
ghost use Rattle.value_form.specs.ObjectBytes.{IsObject};
ghost use Rattle.value_form.specs.ValueBytes.{IsValue};
ghost use Rattle.object_history.specs.declared.marks.Mark.{Mark};
ghost use Rattle.object_history.specs.declared.marks.Mark.TheVariants as mark;
ghost use Rattle.object_history.specs.History.{settle_of};
ghost use Rattle.object_history.specs.Answers.{read_step, after_read, write_step, after_write, stands_written};
ghost use Rattle.object_history.specs.Causes.{HasHistoryCause, IsNotDamage};
ghost use Rattle.object_history.specs.Ranges.{IsReadStep};

use crate::steps::{HistoryFault, ReadStep, WriteStep};
use pseudo_time::{PseudoTime, Stamp};
use value_form::{ObjectId, Value};

/// The histories of a repository's objects, however they are kept.
///
/// Where histories of a type tell their content, they answer by its marks alone.
pub trait Histories: Drop {
    /// What lies below, which no call changes.
    type Below;

    /// Whether histories of this type tell their content.
    ghost tells: { Bool };

    /// The marks, newest first.
    ghost content: { Self → List Mark };

    /// How many calls failed below. It never falls, and stays at 2^64 - 1.
    ghost faults: { Self → ℕ };

    /// How often damage was found below. It never falls, and stays at 2^64 - 1.
    ghost damage: { Self → ℕ };

    ghost below: { Self → Self.Below };

    /// Reads an object. Where the answer says so, the content grows by the Stretch of this read.
    fn read(&mut self, object: ObjectId, at: PseudoTime) -> Result<ReadStep, HistoryFault>
        requires object { IsObject object }
        ensures answer { IsTrue tells → IfOk result (λ s. s ≡ read_step (content self.old) object at) }
        ensures sound { IsTrue tells → IfErr result IsNotDamage }
        ensures grown { IfOk result (λ s. content self.new ≡ after_read (content self.old) object at s) }
        ensures err { OnErr result (content self.new ≡ content self.old) }
        ensures in_range { IfOk result IsReadStep }
        ensures cause { HasHistoryCause (faults self.old) (faults self.new) (damage self.old) (damage self.new) result }
        ensures below { below self.new ≡ below self.old };

    /// Writes an object. Where the answer is Put, the content grows by it.
    fn write(
        &mut self,
        object: ObjectId,
        at: PseudoTime,
        value: &Value,
    ) -> Result<WriteStep, HistoryFault>
        requires object { IsObject object }
        requires value { IsValue value.now }
        ensures answer { IsTrue tells → IfOk result (λ s. s ≡ write_step (content self.old) object at value.now) }
        ensures sound { IsTrue tells → IfErr result IsNotDamage }
        ensures grown { IfOk result (λ s. content self.new ≡ after_write (content self.old) object at value.now s) }
        ensures err { OnErr result (content self.new ≡ content self.old) }
        ensures cause { HasHistoryCause (faults self.old) (faults self.new) (damage self.old) (damage self.new) result }
        ensures below { below self.new ≡ below self.old };

    /// Whether a version that isn't dead has this start and value.
    fn stands(
        &mut self,
        object: ObjectId,
        start: PseudoTime,
        value: &Value,
    ) -> Result<bool, HistoryFault>
        requires object { IsObject object }
        requires value { IsValue value.now }
        ensures answer { IsTrue tells →
            IfOk result (λ b. b ≡ stands_written (content self.old) object start value.now) }
        ensures sound { IsTrue tells → IfErr result IsNotDamage }
        ensures content { content self.new ≡ content self.old }
        ensures cause { HasHistoryCause (faults self.old) (faults self.new) (damage self.old) (damage self.new) result }
        ensures below { below self.new ≡ below self.old };

    /// Settles an attempt as committed, or else as aborted. The content grows by the Settle.
    fn settle(&mut self, stamp: Stamp, committed: bool) -> Result<(), HistoryFault>
        requires unsettled { settle_of (content self.old) stamp ≡ None }
        ensures sound { IsTrue tells → IfErr result IsNotDamage }
        ensures grown { OnOk result (content self.new ≡ mark.Settle stamp committed ∷ content self.old) }
        ensures err { OnErr result (content self.new ≡ content self.old) }
        ensures cause { HasHistoryCause (faults self.old) (faults self.new) (damage self.old) (damage self.new) result }
        ensures below { below self.new ≡ below self.old };

    /// How the attempt was decided. None where it wasn't.
    fn settled(&self, stamp: Stamp) -> Option<bool>
        ensures { result ≡ settle_of (content self.now) stamp };
}
