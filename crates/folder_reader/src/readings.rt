//! What a medium holds, read once.
ghost use Rattle.std.specs.Prelude.{◌≡◌, ◌≢◌, ◌≤◌, ◌<◌, ◌+◌, ◌++◌, [], ◌∷◌, IsTrue, ℕ, Ok, Err, IfOk, IfErr, OnOk, false, if◌then◌else◌};
ghost use Rattle.stream_port.specs.Causes.{Rose};
ghost use Rattle.version_store.specs.Storage.{storage};
ghost use Rattle.folder_reader.specs.Failures.{HasFailed};
ghost use Rattle.folder_reader.specs.Strips.{gated_below, is_gated, is_spoiled, spoiled_below};

use folder_look::{MediumLook, MediumState};
use medium_port::Medium;
use page_gate::{PageState, look};
use pseudo_time::NodeKind;
use std::alloc::{AllocError, Global};
use value_form::Items;
use version_store::{OpenFault, Store};

/// How many pages of a medium are gated, and which are spoiled.
#[derive(Drop)]
pub struct Strip {
    pub gated: u32,
    pub spoiled: Vec<u32>,
}

/// Why a strip wasn't read.
#[derive(Clone, Copy)]
pub enum StripFault {
    /// A call of the medium failed.
    Medium,
    /// Memory ran out.
    NoMemory,
}

impl From<AllocError> for StripFault {
    ghost use Rattle.std.specs.Prelude.{◌≡◌};
    ghost use Rattle.folder_reader.specs.declared.readings.StripFault.TheVariants.{NoMemory};

    ghost from_gives = { λ _ e. e ≡ NoMemory };

    fn from(_error: AllocError) -> StripFault {
        StripFault::NoMemory
    }
}

// Adds a page.
fn add_page(strip: &mut Strip, page: u32, state: &PageState) -> Result<(), AllocError>
    requires room { strip.old.gated < 4294967295 }
    ensures gated { OnOk result (strip.new.gated ≡ if is_gated state.now then strip.old.gated + 1
        else strip.old.gated) }
    ensures spoiled { OnOk result (strip.new.spoiled.items ≡ if is_spoiled state.now then strip.old.spoiled.items ++
        page ∷ [] else strip.old.spoiled.items) }
{
    match state {
        PageState::Blank => Ok(()),
        PageState::Gated(_) => {
            strip.gated += 1;
            Ok(())
        }
        PageState::Spoiled => {
            strip.spoiled.push(page)?;
            Ok(())
        }
    }
}

// Reads each page once.
fn strip_of<M: Medium>(alloc: Global, medium: &mut M) -> Result<Strip, StripFault>
    requires open { M.is_failed medium.old ≡ false }
    ensures reads { IsTrue M.tells → M.reads medium.new ≡ M.reads medium.old }
    ensures size { M.page_count medium.new ≡ M.page_count medium.old }
    ensures state { IfOk result (λ _. M.is_failed medium.new ≡ false) }
    ensures later { M.faults medium.old ≤ M.faults medium.new }
    ensures failed { IfErr result (λ e. e ≡ StripFault.Medium → Rose (M.faults medium.old) (M.faults medium.new)) }
    ensures gated { IsTrue M.tells →
        IfOk result (λ strip. strip.gated ≡ gated_below (M.reads medium.old) (M.page_count medium.old)) }
    ensures spoiled { IsTrue M.tells →
        IfOk result (λ strip. strip.spoiled.items ≡ spoiled_below (M.reads medium.old) (M.page_count medium.old)) }
{
    let mut strip = Strip {
        gated: 0,
        spoiled: Vec::new(alloc),
    };
    let pages = medium.pages();
    for page in 0..pages {
        let Ok(state) = look(medium, page) else {
            return Err(StripFault::Medium);
        };
        add_page(&mut strip, page, &state)?;
    }
    Ok(strip)
}

/// What a medium holds: how its pages stand, and its log. A damaged one is reported with its page. One
/// that failed is given back, and its look says that it can't be read.
pub fn look_at<M: Medium>(
    alloc: Global,
    kind: NodeKind,
    number: u8,
    volume: u32,
    mut medium: M,
) -> Result<(MediumLook, Option<M>), AllocError>
    requires open { M.is_failed medium ≡ false }
    // It can't be read only if a call of the medium failed.
    ensures shut { IfOk result (λ r. r.0.state ≡ MediumState.Shut → HasFailed M.faults medium r.1) }
    ensures pages { IfOk result (λ r. r.0.pages ≡ M.page_count medium) }
    ensures whole { IsTrue M.tells → IfOk result (λ r. r.0.state ≡ MediumState.Whole →
        storage (M.reads medium) ≡ Ok r.0.log) }
    ensures damaged { IsTrue M.tells → IfOk result (λ r. (page : ℕ) → r.0.state ≡ MediumState.Damaged page →
        storage (M.reads medium) ≡ Err page) }
    ensures no_log { IfOk result (λ r. r.0.state ≢ MediumState.Whole → r.0.log ≡ []) }
    // How its pages stand, where they were all read.
    ensures gated { IsTrue M.tells → IfOk result (λ r. r.0.state ≢ MediumState.Shut →
        r.0.gated ≡ gated_below (M.reads medium) (M.page_count medium)) }
    ensures spoiled { IsTrue M.tells → IfOk result (λ r. r.0.state ≢ MediumState.Shut →
        r.0.spoiled ≡ spoiled_below (M.reads medium) (M.page_count medium)) }
    ensures name { IfOk result (λ r. (r.0.kind ≡ kind) × (r.0.number ≡ number) × (r.0.volume ≡ volume)) }
{
    let pages = medium.pages();
    let mut seen = MediumLook {
        kind,
        number,
        volume,
        pages,
        gated: 0,
        spoiled: Items::of(Vec::new(alloc)),
        state: MediumState::Shut,
        log: Items::of(Vec::new(alloc)),
    };
    match strip_of(alloc, &mut medium) {
        Err(StripFault::Medium) => return Ok((seen, Some(medium))),
        Err(StripFault::NoMemory) => return Err(AllocError),
        Ok(strip) => {
            seen.gated = strip.gated;
            seen.spoiled = Items::of(strip.spoiled);
        }
    }
    match Store::open(alloc, medium) {
        Ok((_, effects)) => {
            seen.state = MediumState::Whole;
            seen.log = Items::of(effects);
            Ok((seen, None))
        }
        Err((_, OpenFault::Damaged { page })) => {
            seen.state = MediumState::Damaged { page };
            Ok((seen, None))
        }
        Err((medium, OpenFault::Medium)) => Ok((seen, Some(medium))),
        Err((_, OpenFault::NoMemory)) => Err(AllocError),
    }
}
