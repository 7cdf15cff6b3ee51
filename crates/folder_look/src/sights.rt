//! What a page shows of a folder.
ghost use Rattle.std.specs.Prelude.{◌≡◌, [], IfOk, OnOk};
ghost use Rattle.folder_look.specs.Shown.{parts_of};
ghost use Rattle.folder_look.specs.Sights as spec;

use crate::choices::Choice;
use crate::looks::{MediumLook, ObjectRow};
use crate::runs::add_tries;
use crate::shown::Shown;
use crate::touches::Touches;
use crate::volumes::{is_log, is_repository};
use pseudo_time::Stamp;
use std::alloc::{AllocError, Global};
use std::collections::BTreeSet;
use value_form::ObjectId;

// How many attempts of a broker a page shows.
const MOST_TRIES: usize = 300;

// What the logs of the repositories say of steps.
fn touches_of(alloc: Global, media: &[MediumLook]) -> Result<Touches, AllocError>
    ensures { IfOk result (λ touches. touches ≡ spec.touches_of media.now) }
{
    let mut touches = Touches::new(alloc);
    for medium in media {
        if is_log(medium) {
            touches.add_log(alloc, medium.log.as_slice())?;
        }
    }
    Ok(touches)
}

// The stamps of the attempts that are shown.
fn tries_of(
    alloc: Global,
    choice: &Choice,
    touches: &Touches,
    media: &[MediumLook],
) -> Result<BTreeSet<Stamp>, AllocError>
    ensures { IfOk result (λ tries. tries.keys ≡ spec.tries_of choice.now touches.now media.now) }
{
    let mut tries = BTreeSet::new(alloc);
    for medium in media {
        if !is_repository(medium.kind) {
            add_tries(
                choice,
                touches,
                MOST_TRIES,
                medium.log.as_slice(),
                &mut tries,
            )?;
        }
    }
    Ok(tries)
}

// The objects of rows.
fn names_of(alloc: Global, rows: &[ObjectRow]) -> Result<BTreeSet<ObjectId>, AllocError>
    ensures { IfOk result (λ names. names.keys ≡ spec.with_names rows.now []) }
{
    let mut names = BTreeSet::new(alloc);
    for row in rows {
        names.insert(row.object)?;
    }
    Ok(names)
}

/// The objects of these rows, and the attempts that are shown.
pub fn shown_of(
    alloc: Global,
    choice: &Choice,
    media: &[MediumLook],
    rows: &[ObjectRow],
) -> Result<Shown, AllocError>
    ensures { IfOk result (λ shown. parts_of shown ≡ spec.shown_of choice.now media.now rows.now) }
{
    let touches = touches_of(alloc, media)?;
    let tries = tries_of(alloc, choice, &touches, media)?;
    let objects = names_of(alloc, rows)?;
    Ok(Shown {
        choice: *choice,
        touches,
        objects,
        tries,
    })
}
