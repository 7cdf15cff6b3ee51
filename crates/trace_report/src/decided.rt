//! Which attempts the logs of repositories say are committed.
ghost use Rattle.std.specs.Prelude.{◌≡◌, reverse, IfOk};
ghost use Rattle.std.specs.Option.{option_copied};
ghost use Rattle.pseudo_time.specs.declared.nodes.NodeId.{NodeId};
ghost use Rattle.world_core.specs.Deeds.{RunLogs, committed};
ghost use Rattle.trace_report.specs.Decided as spec;
ghost use Rattle.trace_report.specs.Decided.{AreDecided};
ghost use Rattle.trace_report.specs.Reports.{logs_by};

use crate::firsts::Firsts;
use crate::node_logs::log_of;
use pseudo_time::{NodeId, Stamp};
use std::alloc::{AllocError, Global};
use world_core::Opened;

/// What the logs of repositories 1 to this number say first.
pub fn firsts_of(
    alloc: Global,
    repositories: u8,
    logs: &[Opened],
) -> Result<Vec<Firsts>, AllocError>
    ensures { (k : RunLogs) → k.repositories ≡ repositories → ((n : NodeId) → k.logs n ≡ reverse (logs_by logs.now n)) →
        IfOk result (λ firsts. AreDecided k firsts.items) }
{
    let mut firsts = Vec::new(alloc);
    for below in 0..repositories {
        let log = log_of(logs, NodeId::repository(below + 1));
        let first = Firsts::of(alloc, log)?;
        firsts.push(first)?;
    }
    Ok(firsts)
}

// What the log of the repository with this number says first. None where it isn't of the run.
fn firsts_at(firsts: &[Firsts], number: u8) -> Option<&Firsts>
    ensures { option_copied result ≡ spec.said_at firsts.now number }
{
    let place = number.checked_sub(1)?;
    firsts.get(place as usize)
}

// Whether a log says first that it was learned as committed.
fn is_learned(firsts: &[Firsts], stamp: Stamp) -> bool
    ensures { result ≡ spec.learned_in_some firsts.now stamp }
{
    for one in firsts {
        if one.has_learned(stamp) {
            return true;
        }
    }
    false
}

/// Whether the attempt is committed in a run whose logs say this first.
pub fn is_committed(firsts: &[Firsts], stamp: Stamp) -> bool
    ensures { (k : RunLogs) → AreDecided k firsts.now → result ≡ committed k stamp }
{
    match firsts_at(firsts, stamp.home()) {
        Some(home) => home.has_commit(stamp),
        None => is_learned(firsts, stamp),
    }
}
