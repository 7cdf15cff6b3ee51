//! The objects of a folder.
ghost use Rattle.std.specs.Prelude.{◌≡◌, [], IfOk, OnOk, length};
ghost use Rattle.std.specs.List.{filter};
ghost use Rattle.folder_look.specs.Choices.{has_object};
ghost use Rattle.folder_look.specs.Homes.{homes_of};
ghost use Rattle.folder_look.specs.Objects as spec;

use crate::choices::Choice;
use crate::homes::homes_of;
use crate::looks::{MediumLook, ObjectRow};
use crate::rows::{cut_row, object_row};
use crate::volumes::is_log;
use effect_form::Effect;
use std::alloc::{AllocError, Global};
use std::collections::BTreeSet;
use value_form::ObjectId;

// Adds the object that an effect puts or reads.
fn add_object(all: &mut BTreeSet<ObjectId>, effect: &Effect) -> Result<(), AllocError>
    ensures { OnOk result (all.new.keys ≡ spec.with_object effect.now all.old.keys) }
{
    match effect {
        Effect::Put { object, .. } => {
            all.insert(*object)?;
            Ok(())
        }
        Effect::Stretch { object, .. } => {
            all.insert(*object)?;
            Ok(())
        }
        _ => Ok(()),
    }
}

// Adds the objects of a log.
fn add_objects(all: &mut BTreeSet<ObjectId>, effects: &[Effect]) -> Result<(), AllocError>
    ensures { OnOk result (all.new.keys ≡ spec.with_objects effects.now all.old.keys) }
{
    for effect in effects {
        add_object(all, effect)?;
    }
    Ok(())
}

// The objects of a folder.
fn objects_of(alloc: Global, media: &[MediumLook]) -> Result<BTreeSet<ObjectId>, AllocError>
    ensures { IfOk result (λ all. all.keys ≡ spec.objects_of media.now) }
{
    let mut all = BTreeSet::new(alloc);
    for medium in media {
        if is_log(medium) {
            add_objects(&mut all, medium.log.as_slice())?;
        }
    }
    Ok(all)
}

/// How many objects a folder has.
pub fn count_of(alloc: Global, media: &[MediumLook]) -> Result<u64, AllocError>
    ensures { IfOk result (λ count. count ≡ length (spec.objects_of media.now)) }
{
    let all = objects_of(alloc, media)?;
    Ok(all.len() as u64)
}

/// The objects that are chosen, by repository, then number.
pub fn chosen(
    alloc: Global,
    choice: &Choice,
    media: &[MediumLook],
) -> Result<Vec<ObjectId>, AllocError>
    ensures { IfOk result (λ objects. objects.items ≡ spec.chosen choice.now media.now) }
{
    let all = objects_of(alloc, media)?;
    let mut objects = Vec::new(alloc);
    for object in &all {
        if choice.has_object(*object) {
            objects.push(*object)?;
        }
    }
    Ok(objects)
}

/// A row for each of these objects, with so many versions together at most.
pub fn rows_in(
    alloc: Global,
    choice: &Choice,
    media: &[MediumLook],
    most: usize,
    objects: &[ObjectId],
) -> Result<Vec<ObjectRow>, AllocError>
    ensures { IfOk result (λ rows. rows.items ≡
        spec.rows_in choice.now media.now (homes_of media.now) most objects.now) }
{
    let homes = homes_of(alloc, media)?;
    let mut rows = Vec::new(alloc);
    let mut left = most;
    for object in objects {
        let whole = object_row(alloc, choice, &homes, *object, media)?;
        let row = cut_row(left, whole);
        left = left.saturating_sub(row.versions.as_slice().len());
        rows.push(row)?;
    }
    Ok(rows)
}
