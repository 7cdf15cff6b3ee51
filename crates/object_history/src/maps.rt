//! Finite maps of decisions and of reaches.
ghost use Rattle.std.specs.Prelude.{◌≡◌, OnOk, OnErr, if◌then◌else◌};
ghost use Rattle.std.specs.Option.{option_copied};
ghost use Rattle.std.specs.FinMap as finite;
ghost use Rattle.value_form.specs.declared.objects.ObjectId.{ObjectId};
ghost use Rattle.object_history.specs.Objects.{same_object};
ghost use Rattle.object_history.specs.Kept.{track_at, with_version, with_end};

use crate::versions::Track;
use pseudo_time::{PseudoTime, Stamp};
use std::alloc::{AllocError, Global};
use std::collections::BTreeMap;
use std::marker::Model;
use value_form::ObjectId;

/// How stamps were decided: a finite map to whether they were committed.
#[derive(Drop)]
pub struct Settles {
    entries: BTreeMap<Stamp, bool>,
}

impl Model for Settles {
    ghost use Rattle.std.specs.FinMap as finite;
    ghost use Rattle.std.specs.Coded.{coded_bool};
    ghost use Rattle.pseudo_time.specs.StampParts.{stamp_cmp};
    ghost use Rattle.pseudo_time.specs.contracts.stamps.Stamp as stamp;
    ghost use Rattle.object_history.specs.Kept.{Settled};

    ghost Value = { Settled };

    ghost coded = { finite.code stamp.the_row.coded coded_bool };

    ghost view = { λ s. finite.from_entries {R = stamp_cmp} s.entries.entries };
}

impl Settles {
    /// No stamp is decided.
    pub fn new(alloc: Global) -> Settles
        ensures { result ≡ finite.empty }
    {
        Settles {
            entries: BTreeMap::new(alloc),
        }
    }

    /// How the stamp was decided.
    pub fn get(&self, stamp: Stamp) -> Option<bool>
        ensures { result ≡ finite.get self.now stamp }
    {
        self.entries.get(&stamp).copied()
    }

    /// Settles a stamp. Where memory runs out, all is as before.
    pub fn put(&mut self, stamp: Stamp, committed: bool) -> Result<(), AllocError>
        ensures ok { OnOk result (self.new ≡ finite.insert self.old stamp committed) }
        ensures err { OnErr result (self.new ≡ self.old) }
    {
        self.entries.insert(stamp, committed)?;
        Ok(())
    }
}

/// The objects that have marks: a finite map to their tracks.
#[derive(Drop)]
pub struct Tracks {
    entries: BTreeMap<ObjectId, Track>,
    alloc: Global,
}

impl Model for Tracks {
    ghost use Rattle.std.specs.FinMap as finite;
    ghost use Rattle.value_form.specs.Objects.{object_cmp};
    ghost use Rattle.value_form.specs.contracts.objects.ObjectId as object;
    ghost use Rattle.object_history.specs.contracts.versions.Track as track;
    ghost use Rattle.object_history.specs.Kept.{Tracked};

    ghost Value = { Tracked };

    ghost coded = { finite.code object.the_row.coded track.the_row.coded };

    ghost view = { λ t. finite.from_entries {R = object_cmp} t.entries.entries };
}

impl Tracks {
    /// No object has marks.
    pub fn new(alloc: Global) -> Tracks
        ensures { result ≡ finite.empty }
    {
        Tracks {
            entries: BTreeMap::new(alloc),
            alloc,
        }
    }

    /// What is kept of the object. None where it has no marks.
    pub fn get(&self, object: ObjectId) -> Option<&Track>
        ensures { option_copied result ≡ finite.get self.now object }
    {
        self.entries.get(&object)
    }

    /// Adds a version of the object, by the number of marks before its own. Where memory runs out, every track is as before.
    pub fn add(
        &mut self,
        object: ObjectId,
        mark: usize,
        start: PseudoTime,
    ) -> Result<(), AllocError>
        ensures ok { OnOk result ((o : ObjectId) →
            track_at self.new o ≡ (if same_object object o then with_version mark start
            (track_at self.old o) else track_at self.old o)) }
        ensures err { OnErr result ((o : ObjectId) → track_at self.new o ≡ track_at self.old o) }
    {
        match self.entries.get_mut(&object) {
            Some(track) => track.add(mark, start),
            None => {
                let mut track = Track::new(self.alloc);
                track.add(mark, start)?;
                self.entries.insert(object, track)?;
                Ok(())
            }
        }
    }

    /// The object's version at this place, or its origin, is now read up to this time. Where memory
    /// runs out, every track is as before.
    pub fn stretch(
        &mut self,
        object: ObjectId,
        place: Option<usize>,
        time: PseudoTime,
    ) -> Result<(), AllocError>
        ensures ok { OnOk result ((o : ObjectId) →
            track_at self.new o ≡ (if same_object object o then with_end place time
            (track_at self.old o) else track_at self.old o)) }
        ensures err { OnErr result ((o : ObjectId) → track_at self.new o ≡ track_at self.old o) }
    {
        match self.entries.get_mut(&object) {
            Some(track) => {
                track.stretch(place, time);
                Ok(())
            }
            None => {
                let mut track = Track::new(self.alloc);
                track.stretch(place, time);
                self.entries.insert(object, track)?;
                Ok(())
            }
        }
    }
}
