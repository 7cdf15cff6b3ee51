//! A medium over a file that was opened for reading.
ghost use Rattle.std.specs.Prelude.{◌≡◌, ◌≤◌, None, false, true};
ghost use Rattle.stream_port.specs.Causes.{Rose};

use medium_port::{Medium, MediumFault};
use std::fs::File;
use std::os::unix::fs::FileExt;
use std::snapshot::Snapshot;

/// A medium over a file that was opened for reading alone. It tells no content. A write is a fault and
/// touches no file; a sync has nothing to write.
#[derive(Drop)]
pub struct ReadMedium {
    file: File,
    count: u32,
    failed: bool,
    faults: u64,
    // For contracts alone: a snapshot has no bytes.
    last: Option<(u32, Snapshot<[u8; 4096]>)>,
    ghost some: { 1 ≤ count },
    ghost most: { count ≤ 1048576 },
}

impl ReadMedium {
    /// A medium of the file's first pages.
    pub fn new(file: File, count: u32) -> ReadMedium
        requires some { 1 ≤ count }
        requires most { count ≤ 1048576 }
        ensures open { result.failed ≡ false }
        ensures size { result.count ≡ count }
    {
        ReadMedium {
            file,
            count,
            failed: false,
            faults: 0,
            last: None,
        }
    }

    // Counts a fault.
    fn fail(&mut self) -> MediumFault
        ensures failed { self.new.failed ≡ true }
        ensures rose { Rose self.old.faults self.new.faults }
        ensures later { self.old.faults ≤ self.new.faults }
        ensures stays { (self.new.count ≡ self.old.count) × (self.new.last ≡ self.old.last) }
    {
        self.failed = true;
        self.faults = self.faults.saturating_add(1);
        MediumFault
    }
}

impl Medium for ReadMedium {
    ghost use Rattle.std.specs.Prelude.{[], ⊤};
    ghost use Rattle.std.specs.Option.{option_map};
    ghost use Rattle.std.proofs.lemmas.Bool.{false≢true};

    ghost tells = { false };

    ghost page_count = { λ m. m.count };

    ghost is_failed = { λ m. m.failed };

    ghost last_page = { λ m. option_map (λ p. (p.0, p.1.value)) m.last };

    ghost faults = { λ m. m.faults };

    ghost reads = { λ _. [] };

    ghost may_leave = { λ _ _. ⊤ };

    ghost stages = { λ _. [] };

    ghost reads_now = { λ m told. tt };

    ghost counts_now = { λ m c told now. absurd (false≢true told) };

    ghost only_now = { λ m c told left. tt };

    ghost shape = { λ m c told left. absurd (false≢true told) };

    fn pages(&self) -> u32 {
        self.count
    }

    fn read(&mut self, page: u32, into: &mut [u8; 4096]) -> Result<(), MediumFault> {
        match self.file.read_exact_at(into, page as u64 * 4096) {
            Ok(()) => {
                self.last = Some((page, Snapshot::of(into)));
                Ok(())
            }
            Err(_) => Err(self.fail()),
        }
    }

    fn write(&mut self, _page: u32, _at: u16, _bytes: &[u8]) -> Result<(), MediumFault> {
        Err(self.fail())
    }

    fn sync(&mut self) -> Result<(), MediumFault> {
        self.failed = false;
        Ok(())
    }

    fn reopen(&mut self) -> Result<(), MediumFault> {
        self.failed = false;
        Ok(())
    }
}
