//! What the words of a line name.

use case_words::{CaseFault, number, object, stamp, time};
use object_history::Mark;
use std::alloc::Global;
use value_form::{Bytes, Value};

/// A value, `nothing`, `7` or `"seven"`.
pub fn value(alloc: Global, word: &str) -> Result<Value, CaseFault> {
    if word == "nothing" {
        return Ok(Value::Nothing);
    }
    match word.strip_prefix('"') {
        Some(rest) => {
            let text = rest.strip_suffix('"').ok_or(CaseFault::Line)?;
            Ok(Value::Text(Bytes::of(text.as_bytes().to_vec(alloc)?)))
        }
        None => Ok(Value::Number(number(word)?)),
    }
}

/// The mark that a line adds. None where it adds none.
pub fn mark(alloc: Global, line: &[&str]) -> Result<Option<Mark>, CaseFault> {
    let mark = match line {
        ["put", name, at, held] => Mark::Put(object(name)?, time(at)?, value(alloc, held)?),
        ["stretch", name, at] => Mark::Stretch(object(name)?, time(at)?),
        ["settle", name, "yes"] => Mark::Settle(stamp(name)?, true),
        ["settle", name, "no"] => Mark::Settle(stamp(name)?, false),
        ["floor", at] => Mark::Floor(time(at)?),
        _ => return Ok(None),
    };
    Ok(Some(mark))
}
