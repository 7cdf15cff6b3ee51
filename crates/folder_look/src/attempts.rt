//! How attempts and acts end.
ghost use Rattle.std.specs.Prelude.{◌≡◌, ◌++◌, OnOk};
ghost use Rattle.folder_look.specs.Attempts as spec;
ghost use Rattle.report_writer.specs.Parts.{kind_text};
ghost use Rattle.report_writer.specs.Reports.{refusal_text};

use effect_form::Outcome;
use pseudo_time::PseudoTime;
use report_writer::{push_named, push_object, push_time};
use std::alloc::{AllocError, Global};
use value_form::{FailKind, ObjectId};

// Appends the word of a kind of failures.
fn push_kind(out: &mut Vec<u8>, kind: FailKind) -> Result<(), AllocError>
    ensures { OnOk result (out.new.items ≡ out.old.items ++ kind_text kind) }
{
    match kind {
        FailKind::Overflow => out.extend_from_slice(b"overflow"),
        FailKind::Division => out.extend_from_slice(b"division"),
        FailKind::Kind => out.extend_from_slice(b"kind"),
        FailKind::Long => out.extend_from_slice(b"long"),
        FailKind::Object => out.extend_from_slice(b"object"),
        FailKind::Count => out.extend_from_slice(b"count"),
        FailKind::Budget => out.extend_from_slice(b"budget"),
    }
}

// Appends a word, an object and a pseudotime.
fn push_refusal(
    alloc: Global,
    out: &mut Vec<u8>,
    word: &[u8],
    object: ObjectId,
    time: PseudoTime,
) -> Result<(), AllocError>
    ensures { OnOk result (out.new.items ≡ out.old.items ++ refusal_text word.now object time) }
{
    out.extend_from_slice(word)?;
    push_object(alloc, out, object)?;
    out.push(b' ')?;
    push_time(alloc, out, time)
}

/// Appends how an attempt or an act ended.
pub fn push_ended(alloc: Global, out: &mut Vec<u8>, outcome: &Outcome) -> Result<(), AllocError>
    ensures { OnOk result (out.new.items ≡ out.old.items ++ spec.ended_text outcome.now) }
{
    match outcome {
        Outcome::Committed => out.extend_from_slice(b"committed"),
        Outcome::Withdrawn { line } => push_named(alloc, out, b"withdrawn line ", *line as u64),
        Outcome::Failed { line, kind } => {
            push_named(alloc, out, b"failed line ", *line as u64)?;
            out.push(b' ')?;
            push_kind(out, *kind)
        }
        Outcome::LaterRead { object, end } => {
            push_refusal(alloc, out, b"refused later-read ", *object, *end)
        }
        Outcome::LaterVersion { object, start } => {
            push_refusal(alloc, out, b"refused later-version ", *object, *start)
        }
        Outcome::Expired { deadline, moment } => {
            push_named(alloc, out, b"expired deadline ", *deadline)?;
            push_named(alloc, out, b" moment ", *moment)
        }
        Outcome::Spent { clock } => push_named(alloc, out, b"spent ", *clock),
    }
}

/// Appends the class of an ending.
pub fn push_class(out: &mut Vec<u8>, outcome: &Outcome) -> Result<(), AllocError>
    ensures { OnOk result (out.new.items ≡ out.old.items ++ spec.ended_class outcome.now) }
{
    match outcome {
        Outcome::Committed => out.extend_from_slice(b"committed"),
        Outcome::Withdrawn { .. } => out.extend_from_slice(b"withdrawn"),
        Outcome::Failed { .. } => out.extend_from_slice(b"failed"),
        Outcome::LaterRead { .. } => out.extend_from_slice(b"refused"),
        Outcome::LaterVersion { .. } => out.extend_from_slice(b"refused"),
        Outcome::Expired { .. } => out.extend_from_slice(b"expired"),
        Outcome::Spent { .. } => out.extend_from_slice(b"spent"),
    }
}
