//! What a core that opens over a log looks up.
ghost use Rattle.std.specs.Prelude.{◌≡◌, ◌≤◌, ◌^◌, [], IfOk, reverse};
ghost use Rattle.repository_log.specs.Logs.{marks};
ghost use Rattle.repository_log.specs.Lookups.{BooksShow};

use commit_record::Records;
use pseudo_time::{Decision, Stamp};
use repository_draft::{Draft, Effect};
use repository_log::records_of;
use std::alloc::{AllocError, Global};
use std::collections::BTreeMap;

/// What a core that opens over this log looks up, with an empty turn.
pub fn open_books(
    alloc: Global,
    number: u8,
    moment: u64,
    effects: &[Effect],
) -> Result<(Draft, Records, BTreeMap<Stamp, Decision>), AllocError>
    requires { moment ≤ 2 ^ 63 }
    ensures draft { IfOk result (λ r. r.0 ≡
        record {
          number = number;
          past = reverse effects.now;
          added = [];
          outs = [];
          held = [];
          askers = [];
          moment = moment;
        }) }
    ensures agreed { IfOk result (λ r. BooksShow [] (reverse effects.now)
        (marks (reverse effects.now)) r.1 r.2.entries) }
{
    let draft = open_draft(alloc, number, moment, effects)?;
    let (records, early) = records_of(alloc, effects)?;
    Ok((draft, records, early))
}

// An empty turn over this log.
fn open_draft(
    alloc: Global,
    number: u8,
    moment: u64,
    effects: &[Effect],
) -> Result<Draft, AllocError>
    requires { moment ≤ 2 ^ 63 }
    ensures { IfOk result (λ d. d ≡ record {
      number = number;
      past = reverse effects.now;
      added = [];
      outs = [];
      held = [];
      askers = [];
      moment = moment;
    }) }
{
    let mut draft = Draft::new(alloc, number, moment);
    draft.log(effects)?;
    Ok(draft)
}
