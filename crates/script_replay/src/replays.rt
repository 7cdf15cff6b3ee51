//! What is told, carried out again, one after another.
ghost use Rattle.std.specs.Prelude.{IfOk};
ghost use Rattle.value_form.specs.Ranges.{IsScript};
ghost use Rattle.script_replay.specs.Replays.{HasReplayed, HasScript, HaveScripts};
ghost use Rattle.script_replay.specs.Works.{HasFollowed, HasTold};

use crate::answers::take_all;
use crate::attempts::{Attempt, Told};
use crate::endings::ends_so;
use crate::versions::{set_all_in, wrote_so};
use script_run::Run;
use serial_model::ObjectMap;
use std::alloc::{AllocError, Global};

/// In what an attempt differs from its script alone: the first of these.
#[derive(Clone, Copy, Debug, PartialEq, Eq)]
pub enum Difference {
    /// An answer isn't the one that the script has over the map.
    Answers,
    /// Its End, or that it is committed, isn't what the script comes to.
    Ending,
    /// It is committed, and the versions with its stamp aren't its Wrote lines.
    Versions,
}

/// The first that differs: its place in what was told, from 0.
#[derive(Clone, Copy, Debug, PartialEq, Eq)]
pub struct Differs {
    pub place: usize,
    pub difference: Difference,
}

// Carries an attempt out again over the map that it found. The map after it.
fn follow(
    alloc: Global,
    map: ObjectMap,
    attempt: &Attempt,
) -> Result<Result<ObjectMap, Difference>, AllocError>
    requires { IsScript attempt.now.script.lines }
    ensures { IfOk result (λ r. HasFollowed map attempt.now r) }
{
    let mut run = Run::start(alloc, &attempt.script)?;
    let mut writes = ObjectMap::new(alloc);
    let took = take_all(
        alloc,
        &map,
        &mut run,
        &mut writes,
        attempt.replies.as_slice(),
    )?;
    if !took {
        return Ok(Err(Difference::Answers));
    }
    let next = run.next(alloc)?;
    if !ends_so(attempt.committed, &attempt.ended, &next) {
        return Ok(Err(Difference::Ending));
    }
    if !attempt.committed {
        return Ok(Ok(map));
    }
    if !wrote_so(attempt.stamp, run.transcript(), attempt.puts.as_slice()) {
        return Ok(Err(Difference::Versions));
    }
    let map = map.overlaid(alloc, writes)?;
    Ok(Ok(map))
}

// Carries out what is told of a stamp. The map after it.
fn one(
    alloc: Global,
    map: ObjectMap,
    told: &Told,
) -> Result<Result<ObjectMap, Difference>, AllocError>
    requires { HasScript told.now }
    ensures { IfOk result (λ r. HasTold map told.now r) }
{
    match told {
        Told::Tried(attempt) => follow(alloc, map, attempt),
        Told::Given(_, puts) => {
            let map = set_all_in(alloc, map, puts.as_slice())?;
            Ok(Ok(map))
        }
    }
}

/// Carries out what is told, one after another, each attempt over the map that the committed ones
/// before it leave: that map at the end, where each does what is told of it; else the first that
/// doesn't. Each script is carried out once, by the answers that it got, and no map is copied.
pub fn replay(alloc: Global, told: &[Told]) -> Result<Result<ObjectMap, Differs>, AllocError>
    requires { HaveScripts told.now }
    ensures { IfOk result (λ r. HasReplayed told.now r) }
{
    let mut map = ObjectMap::new(alloc);
    let mut place = 0;
    for stamp in told {
        let after = one(alloc, map, stamp)?;
        match after {
            Ok(next) => {
                map = next;
                place += 1;
            }
            Err(difference) => return Ok(Err(Differs { place, difference })),
        }
    }
    Ok(Ok(map))
}
