//! Versions whose broker has no log.
ghost use Rattle.std.specs.Prelude.{◌≡◌, ◌≤◌, [], true, false, Option, Some, None, length, IfOk, cond};
ghost use Rattle.std.specs.BTreeMap.{is_at};
ghost use Rattle.std.specs.Global.{Vec};
ghost use Rattle.pseudo_time.specs.StampParts.{StampParts, stamp_cmp};
ghost use Rattle.world_core.specs.Deeds.{RunLogs};
ghost use Rattle.script_replay.specs.declared.attempts.Put.{Put};
ghost use Rattle.log_replay.specs.Folders.{items_of, log_at, HaveBrokers};
ghost use Rattle.log_replay.specs.Telling as spec;
ghost use Rattle.log_replay.specs.Tellers.{AllScripts};
ghost use Rattle.log_replay.specs.Untold.{Gave, GaveAll};

use crate::commits::is_committed;
use effect_form::Effect;
use object_history::Settles;
use pseudo_time::Stamp;
use script_replay::{Put, Told};
use std::alloc::{AllocError, Global};
use std::collections::BTreeMap;
use value_form::Items;

// Whether the broker with this number has no log.
fn has_none(brokers: &[Vec<Effect>], number: u8) -> bool
    requires low { 1 ≤ number }
    requires within { number ≤ length brokers.now }
    ensures none { result ≡ true → log_at (items_of brokers.now) number ≡ [] }
    ensures some { result ≡ false → log_at (items_of brokers.now) number ≡ [] → ⊥ }
{
    let place = usize::from(number) - 1;
    brokers[place].as_slice().is_empty()
}

// Gives these versions, if their stamp is committed. True where nothing is given, since their broker has a log and
// no such attempt.
fn give(
    told: &mut BTreeMap<Stamp, Told>,
    commits: &[Settles],
    brokers: &[Vec<Effect>],
    stamp: Stamp,
    own: Vec<Put>,
) -> Result<bool, AllocError>
    requires { length brokers.now ≡ 16 }
    ensures scripts { AllScripts (spec.told_at told.old) →
        IfOk result (λ untried. AllScripts (spec.told_at told.new)) }
    ensures gives { (k : RunLogs) (old new : StampParts → Option (Vec Put)) → spec.AreDecided k commits.now →
        HaveBrokers k (items_of brokers.now) → old stamp ≡ Some own →
        ((s : StampParts) → new s ≡ cond (is_at (stamp_cmp stamp) s) None (old s)) →
        spec.AreGiven k (spec.told_at told.old) old →
        IfOk result (λ untried. Gave k stamp (spec.told_at told.new) old new untried) }
{
    if own.as_slice().is_empty() {
        return Ok(false);
    }
    let _in_range = stamp.clock();
    if !has_none(brokers, stamp.broker()) {
        return Ok(true);
    }
    if !is_committed(commits, stamp) {
        return Ok(false);
    }
    told.insert(stamp, Told::Given(stamp, Items::of(own)))?;
    Ok(false)
}

/// What is told, with the committed versions that are left, up to the least stamp whose broker has a log and no such
/// attempt.
pub(crate) fn give_rest(
    told: BTreeMap<Stamp, Told>,
    puts: BTreeMap<Stamp, Vec<Put>>,
    commits: &[Settles],
    brokers: &[Vec<Effect>],
) -> Result<(BTreeMap<Stamp, Told>, Option<Stamp>), AllocError>
    requires { length brokers.now ≡ 16 }
    ensures scripts { AllScripts (spec.told_at told) → IfOk result (λ all. AllScripts (spec.told_at all.0)) }
    ensures gives { (k : RunLogs) → spec.AreDecided k commits.now → HaveBrokers k (items_of brokers.now) →
        spec.AreGiven k (spec.told_at told) (spec.left_at puts) →
        IfOk result (λ all. GaveAll k (spec.told_at all.0) all.1) }
{
    let mut told = told;
    let mut puts = puts;
    while let Some((stamp, own)) = puts.pop_first() {
        let untried = give(&mut told, commits, brokers, stamp, own)?;
        if untried {
            return Ok((told, Some(stamp)));
        }
    }
    Ok((told, None))
}
