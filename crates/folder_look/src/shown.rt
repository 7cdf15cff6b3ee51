//! What the page shows, so that its links lead somewhere.
ghost use Rattle.std.specs.Prelude.{◌≡◌, ◌++◌, OnOk};
ghost use Rattle.folder_look.specs.Shown as spec;

use crate::choices::Choice;
use crate::parts::{Part, push_parts};
use crate::touches::Touches;
use pseudo_time::{PseudoTime, Stamp};
use std::alloc::{AllocError, Global};
use std::collections::BTreeSet;
use value_form::ObjectId;

/// What is chosen, what is known of steps, and which objects and attempts have a row.
#[derive(Drop)]
pub struct Shown {
    pub choice: Choice,
    pub touches: Touches,
    pub objects: BTreeSet<ObjectId>,
    pub tries: BTreeSet<Stamp>,
}

/// Whether an attempt has a row.
pub fn is_shown(shown: &Shown, stamp: Stamp) -> bool
    ensures { result ≡ spec.is_shown (spec.parts_of shown.now) stamp }
{
    shown.tries.contains(&stamp)
}

/// Appends an object, which leads to its row if it has one.
pub fn push_object_ref(
    alloc: Global,
    out: &mut Vec<u8>,
    shown: &Shown,
    object: ObjectId,
) -> Result<(), AllocError>
    ensures { OnOk result (out.new.items ≡ out.old.items ++ spec.object_ref (spec.parts_of shown.now) object) }
{
    if !shown.objects.contains(&object) {
        return push_parts(alloc, out, &[Part::Object(object)]);
    }
    push_parts(
        alloc,
        out,
        &[
            Part::Words(b"<a href=\"#o"),
            Part::Object(object),
            Part::Words(b"\">"),
            Part::Object(object),
            Part::Words(b"</a>"),
        ],
    )
}

/// Appends a stamp, which leads to its attempt if that is shown.
pub fn push_stamp_ref(
    alloc: Global,
    out: &mut Vec<u8>,
    shown: &Shown,
    stamp: Stamp,
) -> Result<(), AllocError>
    ensures { OnOk result (out.new.items ≡ out.old.items ++ spec.stamp_ref (spec.parts_of shown.now) stamp) }
{
    if !is_shown(shown, stamp) {
        return push_parts(alloc, out, &[Part::Stamp(stamp)]);
    }
    push_parts(
        alloc,
        out,
        &[
            Part::Words(b"<a href=\"#t"),
            Part::Stamp(stamp),
            Part::Words(b"\">"),
            Part::Stamp(stamp),
            Part::Words(b"</a>"),
        ],
    )
}

/// Appends a pseudotime, which leads to its attempt if that is shown.
pub fn push_time_ref(
    alloc: Global,
    out: &mut Vec<u8>,
    shown: &Shown,
    time: PseudoTime,
) -> Result<(), AllocError>
    ensures { OnOk result (out.new.items ≡ out.old.items ++ spec.time_ref (spec.parts_of shown.now) time) }
{
    let stamp = time.stamp();
    if !is_shown(shown, stamp) {
        return push_parts(alloc, out, &[Part::Time(time)]);
    }
    push_parts(
        alloc,
        out,
        &[
            Part::Words(b"<a href=\"#t"),
            Part::Stamp(stamp),
            Part::Words(b"\">"),
            Part::Time(time),
            Part::Words(b"</a>"),
        ],
    )
}
