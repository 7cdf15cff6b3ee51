//! A medium in memory that waits for another one at its first write.
ghost use Rattle.std.specs.Prelude.{◌≡◌};

use crate::media::{Medium, MediumFault};
use crate::memory_media::MemoryMedium;
use std::alloc::Global;
use std::sync::Arc;
use std::sync::atomic::{AtomicU64, Ordering};

/// A medium in memory that meets another one: at its first write it looks for the first write of
/// another medium of its shelf, at most a stated number of times, and fails where it sees none. So
/// two such media tell whether two threads ran beside each other. It tells no content.
#[derive(Drop)]
pub struct MeetMedium {
    inner: MemoryMedium,
    // How many media of the shelf have begun their first write.
    writers: Arc<AtomicU64, Global>,
    looks: u64,
    // Whether its own first write is still to come.
    waits: bool,
}

impl MeetMedium {
    // A medium that is to look so often, or not at all.
    pub(crate) fn new(
        inner: MemoryMedium,
        writers: Arc<AtomicU64, Global>,
        looks: u64,
        waits: bool,
    ) -> MeetMedium
        ensures { result.inner ≡ inner }
    {
        MeetMedium {
            inner,
            writers,
            looks,
            waits,
        }
    }

    // Whether it may write: at its first write another medium has to have begun its own, too.
    fn may_write(&mut self) -> bool
        ensures { self.new.inner ≡ self.old.inner }
    {
        if !self.waits {
            return true;
        }
        self.waits = false;
        self.writers.fetch_add(1, Ordering::SeqCst);
        for _ in 0..self.looks {
            if self.writers.load(Ordering::SeqCst) >= 2 {
                return true;
            }
        }
        false
    }
}

impl Medium for MeetMedium {
    ghost use Rattle.std.specs.Prelude.{[], ⊤, false};
    ghost use Rattle.std.proofs.lemmas.Bool.{false≢true};
    ghost use Rattle.medium_port.specs.MemoryMedia.{pages_of, failed_in, faults_in, last_of};

    ghost tells = { false };

    ghost page_count = { λ m. pages_of m.inner };

    ghost is_failed = { λ m. failed_in m.inner };

    ghost last_page = { λ m. last_of m.inner };

    ghost faults = { λ m. faults_in m.inner };

    ghost reads = { λ _. [] };

    ghost may_leave = { λ _ _. ⊤ };

    ghost stages = { λ _. [] };

    ghost reads_now = { λ m told. tt };

    ghost counts_now = { λ m c told now. absurd (false≢true told) };

    ghost only_now = { λ m c told left. tt };

    ghost shape = { λ m c told left. absurd (false≢true told) };

    fn pages(&self) -> u32 {
        self.inner.pages()
    }

    fn read(&mut self, page: u32, into: &mut [u8; 4096]) -> Result<(), MediumFault> {
        self.inner.read(page, into)
    }

    fn write(&mut self, page: u32, at: u16, bytes: &[u8]) -> Result<(), MediumFault> {
        if !self.may_write() {
            return Err(self.inner.refuse());
        }
        self.inner.write(page, at, bytes)
    }

    fn sync(&mut self) -> Result<(), MediumFault> {
        self.inner.sync()
    }

    fn reopen(&mut self) -> Result<(), MediumFault> {
        self.inner.reopen()
    }
}
