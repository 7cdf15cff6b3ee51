//! How homes decided the attempts of versions whose own repositories haven't learned it.
ghost use Rattle.std.specs.Prelude.{◌≡◌, IfOk, OnOk, map};
ghost use Rattle.std.specs.FinMap as finite;
ghost use Rattle.folder_look.specs.Homes as spec;

use crate::looks::{MediumLook, VersionRow};
use crate::volumes::is_log;
use effect_form::Effect;
use object_history::Settles;
use repository_log::is_commit;
use std::alloc::{AllocError, Global};

// Adds the decision that an effect is.
fn add_decision(homes: &mut Settles, effect: &Effect) -> Result<(), AllocError>
    ensures { OnOk result (homes.new ≡ spec.with_decision effect.now homes.old) }
{
    match effect {
        Effect::Decide { stamp, decision } => homes.put(*stamp, is_commit(*decision)),
        _ => Ok(()),
    }
}

// Adds the decisions of a log.
fn add_decisions(homes: &mut Settles, effects: &[Effect]) -> Result<(), AllocError>
    ensures { OnOk result (homes.new ≡ spec.with_decisions effects.now homes.old) }
{
    for effect in effects {
        add_decision(homes, effect)?;
    }
    Ok(())
}

/// The decisions in the logs of all repositories.
pub fn homes_of(alloc: Global, media: &[MediumLook]) -> Result<Settles, AllocError>
    ensures { IfOk result (λ homes. homes ≡ spec.homes_of media.now) }
{
    let mut homes = Settles::new(alloc);
    for medium in media {
        if is_log(medium) {
            add_decisions(&mut homes, medium.log.as_slice())?;
        }
    }
    Ok(homes)
}

/// Whether a version is undecided.
pub fn is_open(state: Option<bool>) -> bool
    ensures { result ≡ spec.is_open state }
{
    match state {
        None => true,
        Some(_) => false,
    }
}

// Gives a version the decision of its home, if one was found.
fn tell(row: &mut VersionRow, found: Option<bool>)
    ensures { row.new ≡ spec.told_as found row.old }
{
    if let Some(committed) = found {
        row.state = Some(committed);
        row.settled = false;
    }
}

// Gives a version that is undecided in its repository the decision of its home.
fn tell_home(homes: &Settles, row: &mut VersionRow)
    ensures { row.new ≡ spec.told_at_home homes.now row.old }
{
    if is_open(row.state) {
        let found = homes.get(row.start.stamp());
        tell(row, found);
    }
}

/// The versions, those that are undecided in their repository with the decisions of their homes.
pub fn tell_homes(homes: &Settles, rows: Vec<VersionRow>) -> Vec<VersionRow>
    ensures { result.items ≡ map (spec.told_at_home homes.now) rows.items }
{
    let mut rows = rows;
    for place in 0..rows.len() {
        tell_home(homes, &mut rows[place]);
    }
    rows
}
