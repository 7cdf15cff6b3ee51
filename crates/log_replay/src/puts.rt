//! The versions of each stamp in repositories' logs.
ghost use Rattle.std.specs.Prelude.{◌≡◌, ◌≤◌, ◌++◌, ◌∷◌, [], length, take, drop, reverse, None, IfOk, OnOk, cond, if◌then◌else◌};
ghost use Rattle.std.specs.Option.{option_to_list};
ghost use Rattle.std.specs.BTreeMap.{is_at};
ghost use Rattle.pseudo_time.specs.StampParts.{StampParts, stamp_cmp};
ghost use Rattle.pseudo_time.specs.Order.{same_stamp};
ghost use Rattle.value_form.specs.declared.objects.ObjectId.{ObjectId};
ghost use Rattle.value_form.specs.declared.values.Value.{Value};
ghost use Rattle.repository_core.specs.Logs.{marks};
ghost use Rattle.repository_log.specs.Logs.{mark_of};
ghost use Rattle.serial_model.specs.Deeds.{put_in};
ghost use Rattle.world_core.specs.Deeds.{puts_of};
ghost use Rattle.script_replay.specs.Attempts.{version_of, versions_of};
ghost use Rattle.log_replay.specs.Folders.{items_of};
ghost use Rattle.log_replay.specs.Puts.{puts_at, puts_by, versions_in};
ghost use Rattle.log_replay.specs.Telling.{left_at};

use effect_form::Effect;
use pseudo_time::{PseudoTime, Stamp};
use script_replay::Put;
use std::alloc::{AllocError, Global};
use std::collections::BTreeMap;
use value_form::{ObjectId, Value};

// The place before the first version that starts above.
fn place_of(puts: &[Put], start: PseudoTime) -> usize
    ensures within { result ≤ length puts.now }
    ensures place { (o : ObjectId) (v : Value) →
        put_in (record { object = o; start = start; value = v }) (versions_of puts.now) ≡
        take result (versions_of puts.now) ++ record { object = o; start = start; value = v } ∷ drop result (versions_of puts.now) }
{
    let mut place = 0;
    'puts: while place < puts.len() {
        if start.is_before(puts[place].start) {
            return place;
        }
        place += 1;
    }
    place
}

// Puts a version into a list in the order of their starts.
fn put_into(puts: &mut Vec<Put>, put: Put) -> Result<(), AllocError>
    ensures { OnOk result (versions_of puts.new.items ≡ put_in (version_of put) (versions_of puts.old.items)) }
{
    let place = place_of(puts.as_slice(), put.start);
    puts.insert(place, put)?;
    Ok(())
}

/// Takes the versions with this stamp out of the map.
pub(crate) fn take_puts(
    puts: &mut BTreeMap<Stamp, Vec<Put>>,
    alloc: Global,
    stamp: Stamp,
) -> Vec<Put>
    ensures own { versions_of result.items ≡ versions_in (left_at puts.old stamp) }
    ensures left { (s : StampParts) → left_at puts.new s ≡ cond (is_at (stamp_cmp stamp) s) None (left_at puts.old s) }
{
    match puts.remove(&stamp) {
        Some(own) => own,
        None => Vec::new(alloc),
    }
}

// Adds a version to those with its stamp.
fn add_put(puts: &mut BTreeMap<Stamp, Vec<Put>>, alloc: Global, put: Put) -> Result<(), AllocError>
    ensures { OnOk result ((s : StampParts) → puts_at puts.new s ≡
        (if same_stamp put.start.stamp s then put_in (version_of put) (puts_at puts.old s) else puts_at puts.old s)) }
{
    let stamp = put.start.stamp();
    let mut own = take_puts(puts, alloc, stamp);
    put_into(&mut own, put)?;
    puts.insert(stamp, own)?;
    Ok(())
}

// Adds what an effect puts.
fn add_effect(
    puts: &mut BTreeMap<Stamp, Vec<Put>>,
    alloc: Global,
    effect: &Effect,
) -> Result<(), AllocError>
    ensures { OnOk result ((s : StampParts) → puts_at puts.new s ≡
        puts_of s (option_to_list (mark_of effect.now)) (puts_at puts.old s)) }
{
    match effect {
        Effect::Put {
            object,
            start,
            value,
        } => {
            let value = value.copy(alloc)?;
            let put = Put {
                object: *object,
                start: *start,
                value,
            };
            add_put(puts, alloc, put)?;
            Ok(())
        }
        _ => Ok(()),
    }
}

// Adds those of a log.
fn add_log(
    puts: &mut BTreeMap<Stamp, Vec<Put>>,
    alloc: Global,
    log: &[Effect],
) -> Result<(), AllocError>
    ensures { OnOk result ((s : StampParts) → puts_at puts.new s ≡ puts_of s (marks (reverse log.now)) (puts_at puts.old s)) }
{
    for effect in log {
        add_effect(puts, alloc, effect)?;
    }
    Ok(())
}

/// The versions of each stamp in these logs, in the order of their starts. A log stands oldest first.
pub(crate) fn puts_of_all(
    alloc: Global,
    logs: &[Vec<Effect>],
) -> Result<BTreeMap<Stamp, Vec<Put>>, AllocError>
    ensures { IfOk result (λ puts. (s : StampParts) →
        puts_at puts s ≡ puts_by s (items_of logs.now) []) }
{
    let mut puts = BTreeMap::new(alloc);
    for log in logs {
        add_log(&mut puts, alloc, log.as_slice())?;
    }
    Ok(puts)
}
