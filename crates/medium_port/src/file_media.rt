//! A medium over a file.
ghost use Rattle.std.specs.Prelude.{◌≡◌, ◌≤◌, None, false, true};
ghost use Rattle.stream_port.specs.Causes.{Rose};

use crate::accounts::Account;
use crate::file_lengths::grows_next;
use crate::healths::Health;
use crate::media::{Medium, MediumFault};
use std::fmt::Display;
use std::fs::File;
use std::io;
use std::os::unix::fs::FileExt;
use std::snapshot::Snapshot;

/// A medium over a file, which no other program can take while it lives. It tells no content. The
/// first call that fails says on standard error why. Where a look finds no file, it reads 0 and each
/// write fails.
///
/// A write or a sync that failed is final: the medium isn't reopened after it. A full disk would
/// refuse the same write again for ever, and after a failed sync a system may drop what it couldn't
/// write and still answer the next sync.
///
/// What is assumed of the file is what the trait says of a medium: that reads give what was
/// written, and that a crash after a sync leaves it.
#[derive(Drop)]
pub struct FileMedium {
    // None where a look finds none.
    file: Option<File>,
    count: u32,
    health: Health,
    account: Account,
    // Whether a write or a sync failed.
    lost: bool,
    // For contracts alone: a snapshot has no bytes.
    last: Option<(u32, Snapshot<[u8; 4096]>)>,
    ghost some: { 1 ≤ count },
    ghost most: { count ≤ 1048576 },
}

const NO_FILE: &str = "not there, and a look makes none";

const GROWS: &str = "run the same command again: the file grows when it is opened";

// The place of a byte of a page in the file.
fn offset(page: u32, at: u16) -> u64 {
    page as u64 * 4096 + at as u64
}

// Reads a page of the file, or 0 where there is none.
fn read_page(file: &Option<File>, page: u32, into: &mut [u8; 4096]) -> io::Result<()> {
    match file {
        Some(file) => file.read_exact_at(into, offset(page, 0)),
        None => {
            *into = [0; 4096];
            Ok(())
        }
    }
}

impl FileMedium {
    // A medium of the file's first pages.
    pub(crate) fn new(file: Option<File>, count: u32, account: Account) -> FileMedium
        requires some { 1 ≤ count }
        requires most { count ≤ 1048576 }
        ensures open { result.health ≡ record { failed = false; faults = 0 } }
        ensures size { result.count ≡ count }
        ensures last { result.last ≡ None }
    {
        FileMedium {
            file,
            count,
            health: Health {
                failed: false,
                faults: 0,
            },
            account,
            lost: false,
            last: None,
        }
    }

    /// Says on standard error, after a command for which a medium was full, that the file grows when it
    /// is opened again. Nothing is said of one that won't grow, or that failed.
    pub fn tell_growth(mut self) {
        let grows = match &self.file {
            Some(file) => grows_next(file, self.count),
            None => false,
        };
        if grows {
            self.account.say(GROWS);
        }
    }

    // Counts a fault, and says why.
    fn fail<D: Display + Drop>(&mut self, reason: D) -> MediumFault
        ensures failed { self.new.health.failed ≡ true }
        ensures rose { Rose self.old.health.faults self.new.health.faults }
        ensures later { self.old.health.faults ≤ self.new.health.faults }
        ensures stays { (self.new.count ≡ self.old.count) × (self.new.last ≡ self.old.last) }
    {
        self.account.say(reason);
        self.health.fail()
    }
}

impl Medium for FileMedium {
    ghost use Rattle.std.specs.Prelude.{[], ⊤};
    ghost use Rattle.std.specs.Option.{option_map};
    ghost use Rattle.std.proofs.lemmas.Bool.{false≢true};

    ghost tells = { false };

    ghost page_count = { λ m. m.count };

    ghost is_failed = { λ m. m.health.failed };

    ghost last_page = { λ m. option_map (λ p. (p.0, p.1.value)) m.last };

    ghost faults = { λ m. m.health.faults };

    ghost reads = { λ _. [] };

    ghost may_leave = { λ _ _. ⊤ };

    ghost stages = { λ _. [] };

    ghost reads_now = { λ m told. tt };

    ghost counts_now = { λ m c told now. absurd (false≢true told) };

    ghost only_now = { λ m c told left. tt };

    ghost shape = { λ m c told left. absurd (false≢true told) };

    fn pages(&self) -> u32 {
        self.count
    }

    fn read(&mut self, page: u32, into: &mut [u8; 4096]) -> Result<(), MediumFault> {
        if let Err(error) = read_page(&self.file, page, into) {
            return Err(self.fail(error));
        }
        self.last = Some((page, Snapshot::of(into)));
        Ok(())
    }

    fn write(&mut self, page: u32, at: u16, bytes: &[u8]) -> Result<(), MediumFault> {
        let Some(file) = &self.file else {
            return Err(self.fail(NO_FILE));
        };
        match file.write_all_at(bytes, offset(page, at)) {
            Ok(()) => Ok(()),
            Err(error) => {
                self.lost = true;
                Err(self.fail(error))
            }
        }
    }

    fn sync(&mut self) -> Result<(), MediumFault> {
        let Some(file) = &self.file else {
            return Ok(());
        };
        match file.sync_data() {
            Ok(()) => Ok(()),
            Err(error) => {
                self.lost = true;
                Err(self.fail(error))
            }
        }
    }

    fn reopen(&mut self) -> Result<(), MediumFault> {
        if self.lost {
            return Err(self.health.fail());
        }
        let synced = match &self.file {
            Some(file) => file.sync_all(),
            None => Ok(()),
        };
        match synced {
            Ok(()) => {
                self.health.failed = false;
                Ok(())
            }
            Err(error) => {
                self.lost = true;
                Err(self.fail(error))
            }
        }
    }
}
