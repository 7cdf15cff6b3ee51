//! The bytes of a decision.
ghost use Rattle.std.specs.Prelude.{◌≡◌, ◌++◌, OnOk};
ghost use Rattle.std.specs.Option.{option_map};
ghost use Rattle.pseudo_time.specs.declared.decisions.Decision.TheVariants.{Expired};
ghost use Rattle.field_form.specs.Decisions.{decision_at, decision_text};

use crate::numbers::{byte_of, u64_of};
use pseudo_time::Decision;
use std::alloc::AllocError;

/// The decision at the front. None where no front of the bytes is one.
#[tactic(auto, unfolding(crate::specs::Decisions::decision_at))]
pub fn decision_of(bytes: &[u8]) -> Option<(Decision, &[u8])>
    ensures { option_map (λ p. (p.0, p.1.now)) result ≡ decision_at bytes.now }
{
    let Some((tag, rest)) = byte_of(bytes) else {
        return None;
    };
    if tag == 1 {
        return Some((Decision::Committed, rest));
    }
    if tag == 2 {
        return Some((Decision::Withdrawn, rest));
    }
    if tag != 3 {
        return None;
    }
    let Some((deadline, rest)) = u64_of(rest) else {
        return None;
    };
    let Some((moment, rest)) = u64_of(rest) else {
        return None;
    };
    Some((Decision::Expired { deadline, moment }, rest))
}

// Appends the bytes of an expiry.
fn push_expiry(out: &mut Vec<u8>, deadline: u64, moment: u64) -> Result<(), AllocError>
    ensures { OnOk result (out.new.items ≡ out.old.items ++ decision_text (Expired deadline moment)) }
{
    out.push(3)?;
    out.extend_from_slice(&deadline.to_be_bytes())?;
    out.extend_from_slice(&moment.to_be_bytes())
}

/// Appends the bytes of a decision.
pub fn push_decision(out: &mut Vec<u8>, decision: Decision) -> Result<(), AllocError>
    ensures { OnOk result (out.new.items ≡ out.old.items ++ decision_text decision) }
{
    match decision {
        Decision::Committed => out.extend_from_slice(&[1]),
        Decision::Withdrawn => out.extend_from_slice(&[2]),
        Decision::Expired { deadline, moment } => push_expiry(out, deadline, moment),
    }
}
