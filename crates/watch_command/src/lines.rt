//! The texts of a watch.
ghost use Rattle.std.specs.Prelude.{◌≡◌, ◌++◌, IfOk, OnOk};
ghost use Rattle.std.specs.List.{flat_map};
ghost use Rattle.report_writer.specs.Reports.{cause_text};
ghost use Rattle.watch_command.specs.Lines as lines;

use command_words::Rule;
use commit_watch::Moved;
use pseudo_time::{DownCause, PseudoTime};
use report_writer::{push_named, push_object, push_time};
use std::alloc::{AllocError, Global};
use value_form::{Bytes, ObjectId};

// Appends the word of the rule, and ends the line.
fn push_rule(out: &mut Vec<u8>, rule: Rule) -> Result<(), AllocError>
    ensures { OnOk result (out.new.items ≡ out.old.items ++ lines.rule_text rule) }
{
    out.push(b' ')?;
    out.extend_from_slice(rule.word())?;
    out.push(b'\n')?;
    Ok(())
}

// Appends the first line.
fn push_head(alloc: Global, out: &mut Vec<u8>, repository: u8, rule: Rule) -> Result<(), AllocError>
    ensures { OnOk result (out.new.items ≡ out.old.items ++ lines.watch_head repository rule) }
{
    push_named(alloc, out, b"watch repository ", repository as u64)?;
    push_rule(out, rule)?;
    Ok(())
}

// Appends the line of a total.
fn push_total(alloc: Global, out: &mut Vec<u8>, total: &Moved<i64>) -> Result<(), AllocError>
    ensures { OnOk result (out.new.items ≡ out.old.items ++ lines.total_line total.now) }
{
    out.extend_from_slice(b"total ")?;
    push_object(alloc, out, total.object)?;
    out.push(b' ')?;
    push_time(alloc, out, total.cursor)?;
    out.push(b' ')?;
    let digits = total.total.to_string(alloc)?;
    out.extend_from_slice(digits.as_bytes())?;
    out.push(b'\n')?;
    Ok(())
}

// Appends the lines of totals.
fn push_totals(alloc: Global, out: &mut Vec<u8>, list: &[Moved<i64>]) -> Result<(), AllocError>
    ensures { OnOk result (out.new.items ≡ out.old.items ++ flat_map lines.total_line list.now) }
{
    for total in list {
        push_total(alloc, out, total)?;
    }
    Ok(())
}

/// The text of a watch that came to these totals.
pub fn watch_text(
    alloc: Global,
    repository: u8,
    rule: Rule,
    list: &[Moved<i64>],
) -> Result<Bytes, AllocError>
    ensures { IfOk result (λ text. text ≡ lines.watch_text repository rule list.now) }
{
    let mut out = Vec::new(alloc);
    push_head(alloc, &mut out, repository, rule)?;
    push_totals(alloc, &mut out, list)?;
    Ok(Bytes::of(out))
}

/// The line of a version with which an object has no total.
pub fn overflow_line(
    alloc: Global,
    object: ObjectId,
    start: PseudoTime,
) -> Result<Bytes, AllocError>
    ensures { IfOk result (λ text. text ≡ lines.overflow_line object start) }
{
    let mut text = Vec::new(alloc);
    text.extend_from_slice(b"swallow: overflow ")?;
    push_object(alloc, &mut text, object)?;
    text.push(b' ')?;
    push_time(alloc, &mut text, start)?;
    text.push(b'\n')?;
    Ok(Bytes::of(text))
}

// Appends why the volume of totals is down.
fn push_cause(alloc: Global, out: &mut Vec<u8>, cause: DownCause) -> Result<(), AllocError>
    ensures { OnOk result (out.new.items ≡ out.old.items ++ cause_text cause) }
{
    match cause {
        DownCause::Medium => out.extend_from_slice(b"medium"),
        DownCause::Damaged { page } => push_named(alloc, out, b"damaged ", page as u64),
        DownCause::Full { pages } => push_named(alloc, out, b"full ", pages as u64),
    }
}

/// The line of a volume of totals that is down.
pub fn down_watch_line(alloc: Global, repository: u8, cause: DownCause) -> Result<Bytes, AllocError>
    ensures { IfOk result (λ text. text ≡ lines.down_watch_line repository cause) }
{
    let mut text = Vec::new(alloc);
    push_named(alloc, &mut text, b"down watch ", repository as u64)?;
    text.push(b' ')?;
    push_cause(alloc, &mut text, cause)?;
    text.push(b'\n')?;
    Ok(Bytes::of(text))
}
