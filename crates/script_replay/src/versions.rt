//! Versions beside the Wrote lines of a transcript.
ghost use Rattle.std.specs.Prelude.{◌≡◌, ◌<◌, ◌≤◌, ◌+◌, ◌^◌, IfOk, IfSome, IsTrue, ◌↔◌};
ghost use Rattle.std.specs.Option.{option_map};
ghost use Rattle.serial_model.specs.Deeds.{lines_written, set_all};
ghost use Rattle.script_replay.specs.Attempts.{version_of, versions_of};
ghost use Rattle.script_replay.specs.Works.{HasPassed};

use crate::answers::is_value;
use crate::attempts::Put;
use pseudo_time::Stamp;
use serial_model::ObjectMap;
use std::alloc::{AllocError, Global};
use value_form::{Line, ObjectId, Value};

// Whether this is the version that the step of the attempt put.
fn is_put(put: &Put, stamp: Stamp, step: u64, object: ObjectId, value: &Value) -> bool
    ensures { IsTrue result ↔ (version_of put.now ≡
        record { object = object; start = record { stamp = stamp; step = step }; value = value.now }) }
{
    put.start.stamp() == stamp
        && put.start.step() as u64 == step
        && put.object == object
        && is_value(&put.value, value)
}

// Passes a line: the step of the next request, and the versions that are left. None if the line wrote a version
// that isn't the first of these.
fn pass_line<'a>(stamp: Stamp, step: u64, line: &Line, puts: &'a [Put]) -> Option<(u64, &'a [Put])>
    requires { step < 2 ^ 63 }
    ensures passed { HasPassed stamp step line.now (versions_of puts.now) (option_map (λ p. (p.0, versions_of p.1.now)) result) }
    ensures next { IfSome result (λ p. p.0 ≤ step + 1) }
{
    match line {
        Line::Print(_) => Some((step, puts)),
        Line::Read(_, _) => Some((step + 1, puts)),
        Line::Wrote(object, value) => {
            let Some((first, more)) = puts.split_first() else {
                return None;
            };
            if !is_put(first, stamp, step, *object, value) {
                return None;
            }
            Some((step + 1, more))
        }
    }
}

/// Whether these versions are the Wrote lines, each with its step.
pub(crate) fn wrote_so(stamp: Stamp, lines: &[Line], puts: &[Put]) -> bool
    ensures { IsTrue result ↔ (versions_of puts.now ≡ lines_written stamp 1 lines.now) }
{
    let mut step = 1u64;
    let mut rest = puts;
    for line in lines {
        let Some((next, more)) = pass_line(stamp, step, line, rest) else {
            return false;
        };
        step = next;
        rest = more;
    }
    rest.is_empty()
}

/// The map with these versions written one after another.
pub(crate) fn set_all_in(
    alloc: Global,
    map: ObjectMap,
    puts: &[Put],
) -> Result<ObjectMap, AllocError>
    ensures { IfOk result (λ m. m ≡ set_all (versions_of puts.now) map) }
{
    let mut map = map;
    for put in puts {
        let value = put.value.copy(alloc)?;
        map.set(put.object, value)?;
    }
    Ok(map)
}
