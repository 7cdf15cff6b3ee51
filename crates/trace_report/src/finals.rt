//! What the objects hold at the end of a run.
ghost use Rattle.std.specs.Prelude.{◌≡◌, IfOk};
ghost use Rattle.trace_report.specs.Reports.{finals_shown, logs_by};

use crate::decided::firsts_of;
use crate::last_versions::LastVersions;
use plan_form::Plan;
use report_writer::Final;
use std::alloc::{AllocError, Global};
use world_core::Opened;

/// What the objects hold by the logs of a run: the value of the committed version with the greatest start.
pub fn finals_of(alloc: Global, plan: &Plan, logs: &[Opened]) -> Result<Vec<Final>, AllocError>
    ensures { IfOk result (λ finals. finals.items ≡ finals_shown plan.now (logs_by logs.now)) }
{
    let firsts = firsts_of(alloc, plan.repositories, logs)?;
    let mut last = LastVersions::new(alloc);
    last.add_logs(alloc, firsts.as_slice(), plan.repositories, logs)?;
    last.into_finals(alloc)
}
