//! The rules that come with the program: count, sum and last.
ghost use Rattle.std.specs.Prelude.{◌≡◌, pos};
ghost use Rattle.value_form.specs.declared.values.Value.TheVariants as value;
ghost use Rattle.commit_watch.specs.Rules as spec;

use crate::callbacks::WatchRule;
use crate::versions::Version;
use std::alloc::{AllocError, Global};
use value_form::Value;

/// How many versions the object has.
pub struct Count {}

impl WatchRule for Count {
    type Total = i64;

    ghost first = { pos 0 };

    ghost next = { spec.count_next };

    fn begin(_alloc: Global) -> Result<i64, AllocError> {
        Ok(0)
    }
}

/// The sum of the numbers that the object held.
pub struct Sum {}

impl WatchRule for Sum {
    type Total = i64;

    ghost first = { pos 0 };

    ghost next = { spec.sum_next };

    fn begin(_alloc: Global) -> Result<i64, AllocError> {
        Ok(0)
    }
}

/// The last number that the object held.
pub struct Last {}

impl WatchRule for Last {
    type Total = i64;

    ghost first = { pos 0 };

    ghost next = { spec.last_next };

    fn begin(_alloc: Global) -> Result<i64, AllocError> {
        Ok(0)
    }
}

/// The last value of the object.
pub struct Latest {}

impl WatchRule for Latest {
    type Total = Value;

    ghost first = { value.Nothing };

    ghost next = { spec.latest_next };

    fn begin(_alloc: Global) -> Result<Value, AllocError> {
        Ok(Value::Nothing)
    }
}

/// One more. None where that is no number.
pub fn count_next(total: &i64, version: &Version) -> Option<i64>
    ensures { result ≡ spec.count_next total.now version.now }
{
    let _ = version;
    total.checked_add(1)
}

/// The number of the version more. None where that is no number.
pub fn sum_next(total: &i64, version: &Version) -> Option<i64>
    ensures { result ≡ spec.sum_next total.now version.now }
{
    match &version.value {
        Value::Number(number) => total.checked_add(*number),
        Value::Nothing => Some(*total),
        Value::Text(_) => Some(*total),
    }
}

/// The number of the version.
pub fn last_next(total: &i64, version: &Version) -> Option<i64>
    ensures { result ≡ spec.last_next total.now version.now }
{
    match &version.value {
        Value::Number(number) => Some(*number),
        Value::Nothing => Some(*total),
        Value::Text(_) => Some(*total),
    }
}
