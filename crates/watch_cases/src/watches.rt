//! The watches of cases, each over a closure.
ghost use Rattle.std.specs.Prelude.{◌≡◌, None, false};
ghost use Rattle.commit_watch.specs.Lists.{moved_at};

use crate::cases::{Case, tell_end, tell_line};
use crate::shows;
use crate::words::value;
use case_words::{CaseFault, number, object, time};
use commit_watch::{
    Callback, Count, Last, Latest, Moved, Sum, Version, WatchFault, WatchRule, Watches, count_next,
    last_next, sum_next,
};
use object_history::Mark;
use pseudo_time::PseudoTime;
use std::alloc::{AllocError, Global};
use std::fmt::Debug;
use value_form::{ObjectId, Value};

/// By what a watch makes its totals.
#[derive(Clone, Copy)]
pub enum Rule {
    Count,
    Sum,
    Last,
    Latest,
}

/// The rule of the watch that a line begins.
pub fn rule_of(line: &str) -> Option<Rule> {
    match line {
        "watch count" => Some(Rule::Count),
        "watch sum" => Some(Rule::Sum),
        "watch last" => Some(Rule::Last),
        "watch latest" => Some(Rule::Latest),
        _ => None,
    }
}

/// A total that a line tells.
trait Told: Sized {
    fn read(alloc: Global, word: &str) -> Result<Self, CaseFault>;
}

impl Told for i64 {
    fn read(_alloc: Global, word: &str) -> Result<i64, CaseFault> {
        number(word)
    }
}

impl Told for Value {
    fn read(alloc: Global, word: &str) -> Result<Value, CaseFault> {
        value(alloc, word)
    }
}

// Whether the object is among these.
fn is_among<T: Drop>(list: &[Moved<T>], name: ObjectId) -> bool
    ensures { result ≡ false → moved_at name list.now ≡ None }
{
    for moved in list {
        if moved.object == name {
            return true;
        }
    }
    false
}

// Gives a watch an object that it hasn't.
fn restore<R: WatchRule, F: Callback<R> + Drop>(
    watches: &mut Watches<R, F>,
    name: ObjectId,
    cursor: PseudoTime,
    total: R::Total,
) -> Result<(), CaseFault> {
    if is_among(watches.list(), name) {
        return Err(CaseFault::Object);
    }
    watches.restore(name, cursor, total)?;
    Ok(())
}

// Why a watch didn't advance.
fn tell_fault(alloc: Global, fault: &WatchFault, said: &mut String) -> Result<(), CaseFault> {
    match fault {
        WatchFault::Retired { object, floor } => {
            Ok(shows::refused(alloc, "retired", *object, *floor, said)?)
        }
        WatchFault::Overflow { object, start } => {
            Ok(shows::refused(alloc, "overflow", *object, *start, said)?)
        }
        WatchFault::NoMemory => Err(CaseFault::NoMemory),
    }
}

// A watch advances. Of one that does nothing is printed.
fn advance<R: WatchRule, F: Callback<R> + Drop>(
    alloc: Global,
    watches: &mut Watches<R, F>,
    marks: &[Mark],
    below: Option<PseudoTime>,
    said: &mut String,
) -> Result<(), CaseFault> {
    match watches.advance(marks, below) {
        Ok(()) => Ok(()),
        Err(fault) => tell_fault(alloc, &fault, said),
    }
}

// A watch advances over what the archive joins.
fn advance_joined<R: WatchRule, F: Callback<R> + Drop>(
    case: &Case,
    watches: &mut Watches<R, F>,
    said: &mut String,
) -> Result<(), CaseFault> {
    let marks = case.archive()?.joined()?;
    advance(case.alloc, watches, marks.as_slice(), None, said)
}

// What comes of the words of a line on a watch. False where they are none.
fn act<R: WatchRule, F: Callback<R> + Drop>(
    case: &Case,
    watches: &mut Watches<R, F>,
    words: &[&str],
    said: &mut String,
) -> Result<bool, CaseFault>
where
    R::Total: Told + Debug,
{
    let alloc = case.alloc;
    match words {
        ["restore", name, cursor, word] => {
            let (name, cursor) = (object(name)?, time(cursor)?);
            restore(watches, name, cursor, R::Total::read(alloc, word)?)?;
        }
        ["advance"] => advance(alloc, watches, case.log()?, None, said)?,
        ["advance", "below", at] => advance(alloc, watches, case.log()?, Some(time(at)?), said)?,
        ["advance", "joined"] => advance_joined(case, watches, said)?,
        ["totals"] => shows::list(alloc, watches.list(), said)?,
        _ => return Ok(false),
    }
    Ok(true)
}

// Carries out a line between the beginning and the end of a watch.
fn follow<R: WatchRule, F: Callback<R> + Drop>(
    case: &mut Case,
    watches: &mut Watches<R, F>,
    line: &str,
    said: &mut String,
) -> Result<(), CaseFault>
where
    R::Total: Told + Debug,
{
    let words: Vec<&str> = line.split(' ').collect(case.alloc)?;
    if act(case, watches, words.as_slice(), said)? {
        return Ok(());
    }
    case.follow(line, said)
}

// Carries out the lines of a watch that calls this.
fn watched_by<R: WatchRule, F: Callback<R> + Drop>(
    alloc: Global,
    case: &mut Case,
    call: F,
    lines: &str,
    said: &mut String,
) -> Result<(), AllocError>
where
    R::Total: Told + Debug,
    requires { F.follows call }
{
    let mut watches = Watches::<R, F>::new(alloc, call);
    for line in lines.lines() {
        tell_line(said, line)?;
        let end = follow(case, &mut watches, line, said);
        tell_end(alloc, said, end)?;
    }
    tell_line(said, "finish")?;
    let list = watches.into_list();
    shows::list(alloc, list.as_slice(), said)
}

/// Carries out the lines of a watch by the rule.
pub fn watched(
    alloc: Global,
    case: &mut Case,
    rule: Rule,
    lines: &str,
    said: &mut String,
) -> Result<(), AllocError> {
    match rule {
        Rule::Count => {
            let call = |total: &i64, version: &Version| Ok(count_next(total, version));
            watched_by::<Count, _>(alloc, case, call, lines, said)
        }
        Rule::Sum => {
            let call = |total: &i64, version: &Version| Ok(sum_next(total, version));
            watched_by::<Sum, _>(alloc, case, call, lines, said)
        }
        Rule::Last => {
            let call = |total: &i64, version: &Version| Ok(last_next(total, version));
            watched_by::<Last, _>(alloc, case, call, lines, said)
        }
        Rule::Latest => {
            let call = |_total: &Value, version: &Version| {
                let value = version.value.copy(alloc)?;
                Ok(Some(value))
            };
            watched_by::<Latest, _>(alloc, case, call, lines, said)
        }
    }
}
