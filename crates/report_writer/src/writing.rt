//! Appends the lines of a report.
ghost use Rattle.std.specs.Prelude.{◌≡◌, ◌∷◌, [], ◌++◌, OnOk, IfOk, ℕ, List};
ghost use Rattle.std.specs.List.{flat_map};
ghost use Rattle.report_writer.specs.Parts.{line_text};
ghost use Rattle.report_writer.specs.Reports.{outcome_text, try_text, spent_text, act_line, act_text, final_text, cause_text, down_text, count_text, ended_text, kept_text, totals_text, wire_line, wire_text, head_text, rest_text, report_text};

use crate::pieces::{
    push_access, push_kind, push_line, push_named, push_numbered, push_refusal, push_stamp,
    push_two,
};
use crate::records::{ActOutcome, ActReport, Down, Final, Report, TryOutcome, TryReport, Wire};
use crate::totals::count_of;
use pseudo_time::{DownCause, NodeKind};
use std::alloc::{AllocError, Global};
use value_form::{Bytes, Line, Value};

// Appends how an attempt ended.
fn push_outcome(alloc: Global, out: &mut Vec<u8>, outcome: TryOutcome) -> Result<(), AllocError>
    ensures { OnOk result (out.new.items ≡ out.old.items ++ outcome_text outcome) }
{
    match outcome {
        TryOutcome::Open => out.extend_from_slice(b"open"),
        TryOutcome::Committed => out.extend_from_slice(b"committed"),
        TryOutcome::Withdrawn { line } => push_named(alloc, out, b"withdrawn line ", line as u64),
        TryOutcome::Failed { line, kind } => {
            push_named(alloc, out, b"failed line ", line as u64)?;
            out.push(b' ')?;
            push_kind(out, kind)
        }
        TryOutcome::LaterRead { object, end } => {
            push_refusal(alloc, out, b"refused later-read ", object, end)
        }
        TryOutcome::LaterVersion { object, start } => {
            push_refusal(alloc, out, b"refused later-version ", object, start)
        }
        TryOutcome::Expired { deadline, moment } => {
            push_two(
                alloc,
                out,
                b"expired deadline ",
                deadline,
                b" moment ",
                moment,
            )
        }
    }
}

// Appends the lines of a transcript.
fn push_lines(alloc: Global, out: &mut Vec<u8>, lines: &[Line]) -> Result<(), AllocError>
    ensures { OnOk result (out.new.items ≡ out.old.items ++ flat_map line_text lines.now) }
{
    for line in lines {
        push_line(alloc, out, line)?;
    }
    Ok(())
}

// Appends an attempt with its transcript.
fn push_try(alloc: Global, out: &mut Vec<u8>, attempt: &TryReport) -> Result<(), AllocError>
    ensures { OnOk result (out.new.items ≡ out.old.items ++ try_text attempt.now) }
{
    out.extend_from_slice(b"try ")?;
    push_stamp(alloc, out, attempt.stamp)?;
    out.push(b' ')?;
    push_outcome(alloc, out, attempt.outcome)?;
    out.push(b'\n')?;
    push_lines(alloc, out, attempt.lines.as_slice())
}

// Appends the attempts at an act.
fn push_tries(alloc: Global, out: &mut Vec<u8>, tries: &[TryReport]) -> Result<(), AllocError>
    ensures { OnOk result (out.new.items ≡ out.old.items ++ flat_map try_text tries.now) }
{
    for attempt in tries {
        push_try(alloc, out, attempt)?;
    }
    Ok(())
}

// Appends the line of an act that found no clock.
fn push_spent(alloc: Global, out: &mut Vec<u8>, spent: Option<u64>) -> Result<(), AllocError>
    ensures { OnOk result (out.new.items ≡ out.old.items ++ spent_text spent) }
{
    match spent {
        None => Ok(()),
        Some(clock) => push_numbered(alloc, out, b"spent ", clock),
    }
}

// Appends the line that names an act.
fn push_act_line(alloc: Global, out: &mut Vec<u8>, act: &ActReport) -> Result<(), AllocError>
    ensures { OnOk result (out.new.items ≡ out.old.items ++ act_line act.now) }
{
    push_named(alloc, out, b"act ", act.index as u64)?;
    push_named(alloc, out, b" broker ", act.broker as u64)?;
    push_named(alloc, out, b" home ", act.home as u64)?;
    out.push(b'\n')?;
    Ok(())
}

// Appends an act with its attempts.
fn push_act(alloc: Global, out: &mut Vec<u8>, act: &ActReport) -> Result<(), AllocError>
    ensures { OnOk result (out.new.items ≡ out.old.items ++ act_text act.now) }
{
    push_act_line(alloc, out, act)?;
    push_tries(alloc, out, act.tries.as_slice())?;
    push_spent(alloc, out, act.spent)
}

// Appends the acts.
fn push_acts(alloc: Global, out: &mut Vec<u8>, acts: &[ActReport]) -> Result<(), AllocError>
    ensures { OnOk result (out.new.items ≡ out.old.items ++ flat_map act_text acts.now) }
{
    for act in acts {
        push_act(alloc, out, act)?;
    }
    Ok(())
}

// Appends the final line of an object, where its value isn't Nothing.
fn push_final(alloc: Global, out: &mut Vec<u8>, last: &Final) -> Result<(), AllocError>
    ensures { OnOk result (out.new.items ≡ out.old.items ++ final_text last.now) }
{
    match &last.value {
        Value::Nothing => Ok(()),
        Value::Number(_) => push_access(alloc, out, b"final ", last.object, &last.value),
        Value::Text(_) => push_access(alloc, out, b"final ", last.object, &last.value),
    }
}

// Appends the final lines.
fn push_finals(alloc: Global, out: &mut Vec<u8>, finals: &[Final]) -> Result<(), AllocError>
    ensures { OnOk result (out.new.items ≡ out.old.items ++ flat_map final_text finals.now) }
{
    for last in finals {
        push_final(alloc, out, last)?;
    }
    Ok(())
}

// Appends why a node is down.
fn push_cause(alloc: Global, out: &mut Vec<u8>, cause: DownCause) -> Result<(), AllocError>
    ensures { OnOk result (out.new.items ≡ out.old.items ++ cause_text cause) }
{
    match cause {
        DownCause::Medium => out.extend_from_slice(b"medium"),
        DownCause::Damaged { page } => push_named(alloc, out, b"damaged ", page as u64),
        DownCause::Full { pages } => push_named(alloc, out, b"full ", pages as u64),
    }
}

// Appends the line of a node that is down.
fn push_down(alloc: Global, out: &mut Vec<u8>, down: Down) -> Result<(), AllocError>
    ensures { OnOk result (out.new.items ≡ out.old.items ++ down_text down) }
{
    out.extend_from_slice(b"down ")?;
    let number = down.node.number as u64;
    match down.node.kind {
        NodeKind::Repository => push_named(alloc, out, b"repository ", number)?,
        NodeKind::Broker => push_named(alloc, out, b"broker ", number)?,
    }
    out.push(b' ')?;
    push_cause(alloc, out, down.cause)?;
    out.push(b'\n')?;
    Ok(())
}

/// Appends the lines of the nodes that are down.
pub fn push_downs(alloc: Global, out: &mut Vec<u8>, downs: &[Down]) -> Result<(), AllocError>
    ensures { OnOk result (out.new.items ≡ out.old.items ++ flat_map down_text downs.now) }
{
    for down in downs {
        push_down(alloc, out, *down)?;
    }
    Ok(())
}

// Appends how many acts stand so, behind a word.
fn push_count(
    alloc: Global,
    out: &mut Vec<u8>,
    word: &[u8],
    which: ActOutcome,
    acts: &[ActReport],
) -> Result<(), AllocError>
    ensures { OnOk result (out.new.items ≡ out.old.items ++ count_text word.now which acts.now) }
{
    push_named(alloc, out, word, count_of(which, acts) as u64)
}

// Appends how many acts their scripts ended.
fn push_ended(alloc: Global, out: &mut Vec<u8>, acts: &[ActReport]) -> Result<(), AllocError>
    ensures { OnOk result (out.new.items ≡ out.old.items ++ ended_text acts.now) }
{
    push_count(alloc, out, b" committed ", ActOutcome::Committed, acts)?;
    push_count(alloc, out, b" withdrawn ", ActOutcome::Withdrawn, acts)?;
    push_count(alloc, out, b" failed ", ActOutcome::Failed, acts)
}

// Appends how many acts were kept from their end.
fn push_kept(alloc: Global, out: &mut Vec<u8>, acts: &[ActReport]) -> Result<(), AllocError>
    ensures { OnOk result (out.new.items ≡ out.old.items ++ kept_text acts.now) }
{
    push_count(alloc, out, b" refused ", ActOutcome::Refused, acts)?;
    push_count(alloc, out, b" expired ", ActOutcome::Expired, acts)?;
    push_count(alloc, out, b" spent ", ActOutcome::Spent, acts)?;
    push_count(alloc, out, b" open ", ActOutcome::Open, acts)
}

// Appends the line of totals.
fn push_totals(alloc: Global, out: &mut Vec<u8>, acts: &[ActReport]) -> Result<(), AllocError>
    ensures { OnOk result (out.new.items ≡ out.old.items ++ totals_text acts.now) }
{
    push_named(alloc, out, b"totals acts ", acts.len() as u64)?;
    push_ended(alloc, out, acts)?;
    push_kept(alloc, out, acts)?;
    out.push(b'\n')?;
    Ok(())
}

/// Appends the line of the wire.
pub fn push_wire_line(alloc: Global, out: &mut Vec<u8>, wire: Wire) -> Result<(), AllocError>
    ensures { OnOk result (out.new.items ≡ out.old.items ++ wire_line wire) }
{
    let Wire {
        messages,
        asks,
        ticks,
        crashes,
    } = wire;
    push_two(alloc, out, b"wire messages ", messages, b" asks ", asks)?;
    push_two(alloc, out, b" ticks ", ticks, b" crashes ", crashes)?;
    out.push(b'\n')?;
    Ok(())
}

/// Appends the line of the wire. where one served the run.
fn push_wire(alloc: Global, out: &mut Vec<u8>, wire: Option<Wire>) -> Result<(), AllocError>
    ensures { OnOk result (out.new.items ≡ out.old.items ++ wire_text wire) }
{
    match wire {
        None => Ok(()),
        Some(wire) => push_wire_line(alloc, out, wire),
    }
}

// Appends the first two lines.
fn push_head(alloc: Global, out: &mut Vec<u8>, run: u32) -> Result<(), AllocError>
    ensures { OnOk result (out.new.items ≡ out.old.items ++ head_text run) }
{
    push_numbered(alloc, out, b"swallow report 1\nrun ", run as u64)
}

// Appends what stands behind the acts.
fn push_rest(alloc: Global, out: &mut Vec<u8>, report: &Report) -> Result<(), AllocError>
    ensures { OnOk result (out.new.items ≡ out.old.items ++ rest_text report.now) }
{
    push_finals(alloc, out, report.finals.as_slice())?;
    push_downs(alloc, out, report.downs.as_slice())?;
    push_totals(alloc, out, report.acts.as_slice())?;
    push_wire(alloc, out, report.wire)?;
    Ok(())
}

// Appends a report.
fn push_report(alloc: Global, out: &mut Vec<u8>, report: &Report) -> Result<(), AllocError>
    ensures { OnOk result (out.new.items ≡ out.old.items ++ report_text report.now) }
{
    push_head(alloc, out, report.run)?;
    push_acts(alloc, out, report.acts.as_slice())?;
    push_rest(alloc, out, report)?;
    Ok(())
}

/// The text of a report. Takes memory for the text alone.
pub fn write_report(alloc: Global, report: &Report) -> Result<Bytes, AllocError>
    ensures { IfOk result (λ text. text ≡ report_text report.now) }
{
    let mut out = Vec::new(alloc);
    push_report(alloc, &mut out, report)?;
    Ok(Bytes::of(out))
}
