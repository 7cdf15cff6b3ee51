//! A finite map from objects to their headers.
ghost use Rattle.std.specs.Prelude.{◌≡◌, OnOk, OnErr, if◌then◌else◌};
ghost use Rattle.std.specs.Option.{option_copied};
ghost use Rattle.std.specs.FinMap as finite;
ghost use Rattle.value_form.specs.declared.objects.ObjectId.{ObjectId};
ghost use Rattle.object_history.specs.Objects.{same_object};
ghost use Rattle.object_header.specs.Spans.{with_version, with_end, as_odd, look, AreAlike};
ghost use Rattle.object_header.specs.Heads.{head_at};

use crate::heads::{Head, Look};
use crate::limits::Limit;
use object_history::Settles;
use pseudo_time::PseudoTime;
use std::alloc::{AllocError, Global};
use std::collections::BTreeMap;
use std::marker::Model;
use value_form::ObjectId;

/// The objects that have a header: a finite map to their headers.
#[derive(Drop)]
pub struct Heads {
    entries: BTreeMap<ObjectId, Head>,
    alloc: Global,
}

impl Model for Heads {
    ghost use Rattle.std.specs.FinMap as finite;
    ghost use Rattle.value_form.specs.Objects.{object_cmp};
    ghost use Rattle.value_form.specs.contracts.objects.ObjectId as object;
    ghost use Rattle.object_header.specs.contracts.heads.Head as head;
    ghost use Rattle.object_header.specs.Heads.{Headed};

    ghost Value = { Headed };

    ghost coded = { finite.code object.the_row.coded head.the_row.coded };

    ghost view = { λ t. finite.from_entries {R = object_cmp} t.entries.entries };
}

impl Heads {
    /// No object has a header.
    pub fn new(alloc: Global) -> Heads
        ensures { result ≡ finite.empty }
    {
        Heads {
            entries: BTreeMap::new(alloc),
            alloc,
        }
    }

    /// The header of the object. None where it has none.
    pub fn get(&self, object: ObjectId) -> Option<&Head>
        ensures { option_copied result ≡ finite.get self.now object }
    {
        self.entries.get(&object)
    }

    /// Whether the object is kept whole.
    pub fn is_odd(&self, object: ObjectId) -> bool
        ensures { result ≡ (head_at self.now object).odd }
    {
        match self.get(object) {
            Some(head) => head.is_odd(),
            None => false,
        }
    }

    /// How far the object's origin was read.
    pub fn origin(&self, object: ObjectId) -> Option<PseudoTime>
        ensures { result ≡ (head_at self.now object).origin }
    {
        self.get(object)?.origin()
    }

    /// What is known of the object's last living version within the limit.
    #[tactic(auto, unfolding(crate::specs::Spans::look))]
    pub fn look(&self, settles: &Settles, object: ObjectId, limit: &Limit) -> Look
        ensures { result ≡ look settles.now limit.now (head_at self.now object).spans }
    {
        match self.get(object) {
            Some(head) => head.look(settles, limit),
            None => Look::Origin,
        }
    }

    /// Adds a version of the object. Where memory runs out, every header says what it said.
    pub fn add(
        &mut self,
        settles: &Settles,
        object: ObjectId,
        start: PseudoTime,
    ) -> Result<(), AllocError>
        ensures ok { OnOk result ((o : ObjectId) →
            AreAlike settles.now (head_at self.new o) (if same_object object o then with_version start
            (head_at self.old o) else head_at self.old o)) }
        ensures err { OnErr result ((o : ObjectId) → AreAlike settles.now (head_at self.new o) (head_at self.old o)) }
    {
        match self.entries.get_mut(&object) {
            Some(head) => head.add(settles, start),
            None => {
                let mut head = Head::new(self.alloc);
                head.add(settles, start)?;
                self.entries.insert(object, head)?;
                Ok(())
            }
        }
    }

    /// What a read of the object at this time sees is now read up to it. Where memory runs out,
    /// every header is as before.
    pub fn stretch(
        &mut self,
        settles: &Settles,
        object: ObjectId,
        time: PseudoTime,
    ) -> Result<(), AllocError>
        ensures ok { OnOk result ((o : ObjectId) →
            head_at self.new o ≡ (if same_object object o then with_end settles.now time
            (head_at self.old o) else head_at self.old o)) }
        ensures err { OnErr result ((o : ObjectId) → head_at self.new o ≡ head_at self.old o) }
    {
        match self.entries.get_mut(&object) {
            Some(head) => {
                head.stretch(settles, time);
                Ok(())
            }
            None => {
                let mut head = Head::new(self.alloc);
                head.stretch(settles, time);
                self.entries.insert(object, head)?;
                Ok(())
            }
        }
    }

    /// The object is kept whole from now on. Where memory runs out, every header is as before.
    pub fn set_odd(&mut self, object: ObjectId) -> Result<(), AllocError>
        ensures ok { OnOk result ((o : ObjectId) →
            head_at self.new o ≡ (if same_object object o then as_odd (head_at self.old o) else head_at self.old o)) }
        ensures err { OnErr result ((o : ObjectId) → head_at self.new o ≡ head_at self.old o) }
    {
        match self.entries.get_mut(&object) {
            Some(head) => {
                head.set_odd();
                Ok(())
            }
            None => {
                let mut head = Head::new(self.alloc);
                head.set_odd();
                self.entries.insert(object, head)?;
                Ok(())
            }
        }
    }
}
