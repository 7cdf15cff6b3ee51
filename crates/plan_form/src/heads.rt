//! Reads the head of a plan.
ghost use Rattle.std.specs.Prelude.{◌≡◌, ◌<◌, ◌∷◌, length, MatchOption};
ghost use Rattle.script_form.specs.Lines.{lines};
ghost use Rattle.plan_form.specs.Plans.{title};
ghost use Rattle.plan_form.specs.PlanFaults.{Lacks};
ghost use Rattle.plan_form.specs.Reads.{ReadsHead};

use crate::numbered::{next_line, next_number};
use crate::plan_faults::{PlanFault, PlanKind};

// What the four first lines of a plan say.
#[derive(Clone, Copy, Debug, PartialEq, Eq)]
pub struct Head {
    pub run: u32,
    pub repositories: u8,
    pub brokers: u8,
}

pub fn fault(line: u32, kind: PlanKind) -> PlanFault
    ensures { result ≡ PlanFault.Fault line kind }
{
    PlanFault::Fault { line, kind }
}

fn after_title(bytes: &[u8]) -> Option<&[u8]>
    ensures { MatchOption result (Lacks (λ l. l ≡ title) (lines bytes.now))
        (λ rest. (lines bytes.now ≡ title ∷ lines rest.now) × (length rest.now < length bytes.now)) }
{
    let Some((line, rest)) = next_line(bytes) else {
        return None;
    };
    if line == b"swallow plan 1".as_slice() {
        Some(rest)
    } else {
        None
    }
}

// The head of a plan, and what follows it.
pub fn head_of(bytes: &[u8]) -> Result<(Head, &[u8]), PlanFault>
    ensures { ReadsHead bytes.now result }
{
    let Some(rest) = after_title(bytes) else {
        return Err(fault(1, PlanKind::Header));
    };
    let Some((run, rest)) = next_number(rest, b"run ", 4_294_967_295) else {
        return Err(fault(2, PlanKind::Run));
    };
    let Some((repositories, rest)) = next_number(rest, b"repositories ", 16) else {
        return Err(fault(3, PlanKind::Repositories));
    };
    let Some((brokers, rest)) = next_number(rest, b"brokers ", 16) else {
        return Err(fault(4, PlanKind::Brokers));
    };
    let head = Head {
        run: run as u32,
        repositories: repositories as u8,
        brokers: brokers as u8,
    };
    Ok((head, rest))
}
