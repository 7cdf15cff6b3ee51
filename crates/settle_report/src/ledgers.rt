//! The commit records of repositories.
ghost use Rattle.std.specs.Prelude.{◌≡◌, IfOk};
ghost use Rattle.trace_report.specs.Reports.{logs_by};
ghost use Rattle.settle_report.specs.Ledgers.{AreLedgers, record_in};

use commit_record::{RecordState, Records};
use pseudo_time::{NodeId, Stamp};
use repository_log::records_of;
use std::alloc::{AllocError, Global};
use trace_report::log_of;
use world_core::Opened;

/// The records of repositories 1 to this number, by their logs.
pub fn ledgers_of(
    alloc: Global,
    repositories: u8,
    logs: &[Opened],
) -> Result<Vec<Records>, AllocError>
    ensures { IfOk result (λ ledgers. AreLedgers repositories (logs_by logs.now) ledgers.items) }
{
    let mut ledgers = Vec::new(alloc);
    for below in 0..repositories {
        let log = log_of(logs, NodeId::repository(below + 1));
        let (records, _) = records_of(alloc, log)?;
        ledgers.push(records)?;
    }
    Ok(ledgers)
}

/// The record of an attempt at its home. None if the home isn't one of the repositories, or has none.
pub fn record_at(ledgers: &[Records], stamp: Stamp) -> Option<RecordState>
    ensures { result ≡ record_in ledgers.now stamp }
{
    let place = stamp.home().checked_sub(1)?;
    let records = ledgers.get(place as usize)?;
    records.state(stamp)
}
