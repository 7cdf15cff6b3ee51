//! A shelf of media that wait for one another.
ghost use Rattle.std.specs.Prelude.{◌≡◌, ◌≤◌, [], None, IfOk};
ghost use Rattle.medium_port.specs.declared.shelves.MediumName.{MediumName};

use crate::asked_names::AskedNames;
use crate::media::MediumFault;
use crate::meet_media::MeetMedium;
use crate::memory_shelves::MemoryShelf;
use crate::shelves::{MediumName, Shelf};
use pseudo_time::NodeKind;
use std::alloc::{AllocError, Global};
use std::sync::Arc;
use std::sync::atomic::AtomicU64;

/// A shelf of blank media in memory, of which those of repositories meet one another at their first
/// writes. It tells no content.
#[derive(Drop)]
pub struct MeetShelf {
    inner: MemoryShelf,
    writers: Arc<AtomicU64, Global>,
    looks: u64,
    faults: u64,
    asked: AskedNames,
}

impl MeetShelf {
    ghost use Rattle.medium_port.specs.MeetShelves.{IsUntouched};

    /// A shelf whose media have so many pages and look so often for one another.
    pub fn new(alloc: Global, pages: u32, looks: u64) -> Result<MeetShelf, AllocError>
        requires some { 1 ≤ pages }
        requires most { pages ≤ 1048576 }
        ensures { IfOk result (λ s. IsUntouched s) }
    {
        let writers = Arc::new(alloc, AtomicU64::new(0))?;
        let inner = MemoryShelf::new(alloc, pages);
        Ok(MeetShelf {
            inner,
            writers,
            looks,
            faults: 0,
            asked: AskedNames::new(),
        })
    }
}

// The media of repositories meet one another.
fn meets(kind: NodeKind) -> bool {
    match kind {
        NodeKind::Repository => true,
        NodeKind::Broker => false,
    }
}

impl Shelf for MeetShelf {
    type Medium = MeetMedium;

    ghost use Rattle.std.specs.Prelude.{⊤};
    ghost use Rattle.medium_port.specs.MeetShelves.{TakenThere, asked_there, faults_there, taking_faults};

    ghost is_taken = { TakenThere };

    ghost holds = { λ _ _. [] };

    ghost may_hold = { λ _ _ _. ⊤ };

    ghost medium_faults = { faults_there };

    ghost asked = { asked_there };

    ghost faults = { taking_faults };

    fn take(&mut self, kind: NodeKind, number: u8, volume: u32) -> Result<MeetMedium, MediumFault> {
        self.asked.add(MediumName {
            kind,
            number,
            volume,
        });
        if let Ok(writers) = Arc::try_clone(&self.writers) {
            if let Ok(medium) = self.inner.take(kind, number, volume) {
                return Ok(MeetMedium::new(medium, writers, self.looks, meets(kind)));
            }
        }
        self.faults = self.faults.saturating_add(1);
        Err(MediumFault)
    }
}
