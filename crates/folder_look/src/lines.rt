//! The time line of attempts: a line for each broker, a mark for each attempt, in the order of stamps.
ghost use Rattle.std.specs.Prelude.{◌≡◌, ◌++◌, OnOk};
ghost use Rattle.std.specs.List.{flat_map};
ghost use Rattle.folder_look.specs.Lines as spec;
ghost use Rattle.folder_look.specs.Shown.{parts_of};

use crate::axes::column;
use crate::looks::MediumLook;
use crate::parts::{Part, push_parts};
use crate::shown::{Shown, is_shown};
use crate::steps::{end_of, push_end_class};
use effect_form::Effect;
use pseudo_time::{NodeKind, Stamp};
use std::alloc::{AllocError, Global};

// Appends the mark of an attempt.
fn push_mark(
    alloc: Global,
    out: &mut Vec<u8>,
    shown: &Shown,
    stamp: Stamp,
    rest: &[Effect],
) -> Result<(), AllocError>
    ensures { OnOk result (out.new.items ≡ out.old.items ++ spec.mark_text (parts_of shown.now) stamp rest.now) }
{
    out.extend_from_slice(b"<i class=\"")?;
    push_end_class(out, &end_of(rest))?;
    push_parts(
        alloc,
        out,
        &[
            Part::Words(b"\" style=\"--a:"),
            Part::Number(column(&shown.tries, stamp)),
            Part::Words(b"\"></i>"),
        ],
    )
}

// Appends the mark of an attempt, if it is shown.
fn push_shown(
    alloc: Global,
    out: &mut Vec<u8>,
    shown: &Shown,
    stamp: Stamp,
    rest: &[Effect],
) -> Result<(), AllocError>
    ensures { OnOk result (out.new.items ≡ out.old.items ++ spec.mark_shown (parts_of shown.now) stamp rest.now) }
{
    if is_shown(shown, stamp) {
        push_mark(alloc, out, shown, stamp, rest)
    } else {
        Ok(())
    }
}

// Appends the marks of a log.
fn push_marks(
    alloc: Global,
    out: &mut Vec<u8>,
    shown: &Shown,
    effects: &[Effect],
) -> Result<(), AllocError>
    ensures { OnOk result (out.new.items ≡ out.old.items ++ spec.marks_text (parts_of shown.now) effects.now) }
{
    let mut rest = effects;
    while let Some((effect, more)) = rest.split_first() {
        rest = more;
        if let Effect::Try { stamp, .. } = effect {
            push_shown(alloc, out, shown, *stamp, more)?;
        }
    }
    Ok(())
}

// Begins the line of a broker.
fn push_line_head(alloc: Global, out: &mut Vec<u8>, number: u8) -> Result<(), AllocError>
    ensures { OnOk result (out.new.items ≡ out.old.items ++ spec.line_head number) }
{
    push_parts(
        alloc,
        out,
        &[
            Part::Words(b"<div class=\"line\"><b>broker "),
            Part::Number(number as u64),
            Part::Words(b"</b><span class=\"bars\">"),
        ],
    )
}

// Appends the line of a broker.
fn push_broker(
    alloc: Global,
    out: &mut Vec<u8>,
    shown: &Shown,
    medium: &MediumLook,
) -> Result<(), AllocError>
    ensures { OnOk result (out.new.items ≡ out.old.items ++ spec.broker_line (parts_of shown.now) medium.now) }
{
    push_line_head(alloc, out, medium.number)?;
    push_marks(alloc, out, shown, medium.log.as_slice())?;
    out.extend_from_slice(b"</span></div>\n")
}

// Appends the line of a broker; a repository has none.
fn push_line(
    alloc: Global,
    out: &mut Vec<u8>,
    shown: &Shown,
    medium: &MediumLook,
) -> Result<(), AllocError>
    ensures { OnOk result (out.new.items ≡ out.old.items ++ spec.line_text (parts_of shown.now) medium.now) }
{
    match medium.kind {
        NodeKind::Repository => Ok(()),
        NodeKind::Broker => push_broker(alloc, out, shown, medium),
    }
}

// Appends the lines of all brokers.
fn push_each(
    alloc: Global,
    out: &mut Vec<u8>,
    shown: &Shown,
    media: &[MediumLook],
) -> Result<(), AllocError>
    ensures { OnOk result (out.new.items ≡ out.old.items ++ flat_map (spec.line_text (parts_of shown.now)) media.now) }
{
    for medium in media {
        push_line(alloc, out, shown, medium)?;
    }
    Ok(())
}

// Begins the time line.
fn push_lines_head(alloc: Global, out: &mut Vec<u8>, shown: &Shown) -> Result<(), AllocError>
    ensures { OnOk result (out.new.items ≡ out.old.items ++ spec.lines_head (parts_of shown.now)) }
{
    push_parts(
        alloc,
        out,
        &[
            Part::Words(b"<div class=\"lines\" style=\"--n:"),
            Part::Number(shown.tries.len() as u64),
            Part::Words(b"\">\n"),
        ],
    )
}

/// Appends the time line.
pub fn push_lines(
    alloc: Global,
    out: &mut Vec<u8>,
    shown: &Shown,
    media: &[MediumLook],
) -> Result<(), AllocError>
    ensures { OnOk result (out.new.items ≡ out.old.items ++ spec.lines_text (parts_of shown.now) media.now) }
{
    push_lines_head(alloc, out, shown)?;
    push_each(alloc, out, shown, media)?;
    out.extend_from_slice(b"</div>\n")
}
