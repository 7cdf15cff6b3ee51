//! The lines that say why no plan was run.
ghost use Rattle.std.specs.Prelude.{◌≡◌, IfOk};
ghost use Rattle.report_writer.specs.Reports as reports;
ghost use Rattle.run_command.specs.Lines as lines;

use broker_core::ResumeFault;
use plan_form::PlanKind;
use report_writer::push_named;
use std::alloc::{AllocError, Global};

/// The line that refuses a plan with a fault.
pub fn fault_line(alloc: Global, line: u32, kind: PlanKind) -> Result<Vec<u8>, AllocError>
    ensures { IfOk result (λ v. v.items ≡ lines.fault_line line kind) }
{
    let mut text = Vec::new(alloc);
    text.extend_from_slice(b"swallow: plan line ")?;
    let number = line.to_string(alloc)?;
    text.extend_from_slice(number.as_bytes())?;
    text.push(b' ')?;
    text.extend_from_slice(kind.words().as_bytes())?;
    text.push(b'\n')?;
    Ok(text)
}

// A line of words and a number.
fn numbered_line(alloc: Global, words: &[u8], number: u32) -> Result<Vec<u8>, AllocError>
    ensures { IfOk result (λ v. v.items ≡ reports.numbered_line words.now number) }
{
    let mut text = Vec::new(alloc);
    push_named(alloc, &mut text, words, u64::from(number))?;
    text.push(b'\n')?;
    Ok(text)
}

/// The line of a broker's log that refuses the plan.
pub fn resume_line(alloc: Global, fault: ResumeFault) -> Result<Vec<u8>, AllocError>
    ensures { IfOk result (λ v. v.items ≡ lines.resume_line fault) }
{
    match fault {
        ResumeFault::OldRun { latest } => numbered_line(alloc, b"swallow: old run ", latest),
        ResumeFault::OtherPlan { index } => {
            numbered_line(alloc, b"swallow: other plan act ", index)
        }
        ResumeFault::NoMemory => Ok(Vec::new(alloc)),
    }
}
