//! A shelf over the files of a folder, under a lock.
ghost use Rattle.std.specs.Prelude.{◌≡◌, ◌≤◌, IfOk, IfSome};
ghost use Rattle.medium_port.specs.Files.{IsNewMedium};

use crate::accounts::Account;
use crate::asked_names::AskedNames;
use crate::file_kinds::{length_at, open_regular};
use crate::file_lengths::{NEW_PAGES, measure};
use crate::file_media::FileMedium;
use crate::file_names::path_of;
use crate::lost_files::refuse_lost;
use crate::media::{Medium, MediumFault};
use crate::refusals::Refusal;
use crate::shelves::{MediumName, Shelf};
use crate::wanted_files::Wanted;
use pseudo_time::NodeKind;
use std::alloc::{AllocError, Global};
use std::fs::{self, File, TryLockError};
use std::io::{ErrorKind, Stderr};
use std::rt::Files;

const NOT_THERE: &str = "not there yet";

/// A shelf over the files of a folder. The medium of volume 0 of the first repository is the file
/// `repository-1-0`. A file that isn't there, or is empty, is made with 4,096 pages. A file that
/// another program has for a medium can't be taken, nor can what is no regular file, as a folder, a FIFO,
/// a device or a symbolic link.
///
/// A file grows when it is taken: one of which less than half of the pages are blank is lengthened to
/// twice its size, and a volume to the size of the one before it, up to 1,048,576 pages. If the disk can't
/// hold it, it stays as it is.
///
/// A volume of a repository that is missing or blank can't be taken if the file of one of the next
/// three is there: then it was lost. (A first volume may be blank.)
///
/// A folder is one program's at a time, or that of several that only look: the first taking locks the empty
/// file `lock` in it, before any medium is opened or made. A look takes a lock that other looks share. A
/// program that meets a lock that keeps it out takes nothing.
///
/// A shelf for a look makes no folder and no file, and lengthens none. The medium of a file that isn't
/// there yet reads 0, and takes no write.
///
/// A taking that fails, and each medium at its first fault, says on standard error why: a line with
/// the medium's file and the system's reason.
#[derive(Drop)]
pub struct FileShelf<R: Files<File = File>> {
    alloc: Global,
    files: R,
    errors: Stderr,
    folder: String,
    lock_path: String,
    // The folder's lock, once it was taken.
    lock: Option<File>,
    // Whether folders and files are made.
    makes: bool,
    taken: Vec<MediumName>,
    // The medium that was taken last, and its pages.
    last: Option<(MediumName, u32)>,
    faults: u64,
    asked: AskedNames,
}

impl<R: Files<File = File>> FileShelf<R> {
    /// A shelf over this folder, which is made with those that it lies in where they aren't there.
    pub fn new(
        alloc: Global,
        files: R,
        errors: Stderr,
        folder: &str,
    ) -> Result<FileShelf<R>, AllocError>
    where
        R: Drop,
    {
        FileShelf::over(alloc, files, errors, folder, true)
    }

    /// A shelf for a look into this folder: it makes nothing.
    pub fn for_a_look(
        alloc: Global,
        files: R,
        errors: Stderr,
        folder: &str,
    ) -> Result<FileShelf<R>, AllocError>
    where
        R: Drop,
    {
        FileShelf::over(alloc, files, errors, folder, false)
    }

    fn over(
        alloc: Global,
        files: R,
        errors: Stderr,
        folder: &str,
        makes: bool,
    ) -> Result<FileShelf<R>, AllocError>
    where
        R: Drop,
    {
        let lock_path = format!(in alloc; "{}/lock", folder)?;
        let folder = folder.to_string(alloc)?;
        Ok(FileShelf {
            alloc,
            files,
            errors,
            folder,
            lock_path,
            lock: None,
            makes,
            taken: Vec::new(alloc),
            last: None,
            faults: 0,
            asked: AskedNames::new(),
        })
    }
}

// Makes the folder, and those that it lies in, where they aren't there.
fn make_folder(files: &impl Files, folder: &str) -> Result<(), Refusal> {
    if folder.is_empty() {
        return Err(Refusal::NoFolder);
    }
    match fs::create_dir_all(files, folder) {
        Ok(()) => Ok(()),
        // What stands in its place is no folder: opening a file in it says so.
        Err(error) if error.kind() == ErrorKind::AlreadyExists => Ok(()),
        Err(error) => Err(error.into()),
    }
}

// Locks a file, for a look with a lock that other looks share. The lock is the file's, and the system lifts
// it at its end.
fn lock_file(file: &File, wanted: &Wanted) -> Result<(), Refusal> {
    let locked = if wanted.makes {
        file.try_lock()
    } else {
        file.try_lock_shared()
    };
    match locked {
        Ok(()) => Ok(()),
        Err(TryLockError::WouldBlock) => Err(Refusal::Locked),
        Err(TryLockError::Error(error)) => Err(error.into()),
    }
}

// Locks the folder, unless that was done. A look takes no lock where no run has made its file.
fn lock_folder(
    files: &impl Files<File = File>,
    wanted: &Wanted,
    lock: &mut Option<File>,
) -> Result<(), Refusal> {
    if lock.is_none() {
        if wanted.makes {
            make_folder(files, wanted.folder)?;
        }
        if let Some(file) = open_regular(files, wanted.lock_path, wanted.makes)? {
            lock_file(&file, wanted)?;
            *lock = Some(file);
        }
    }
    Ok(())
}

// Refuses a volume of which nothing is there, or a file of no bytes, if the file of a later one is there.
fn refuse_hollow(files: &impl Files, wanted: &Wanted, path: &str) -> Result<(), Refusal> {
    match length_at(files, path)? {
        None => refuse_lost(files, wanted, false),
        Some(0) => refuse_lost(files, wanted, true),
        Some(_) => Ok(()),
    }
}

// The file and its number of pages. A look finds none that isn't there or is empty.
fn open_file(
    files: &impl Files<File = File>,
    wanted: &Wanted,
    path: &str,
) -> Result<(Option<File>, u32), Refusal>
    ensures { IfOk result (λ r. (1 ≤ r.1) × (r.1 ≤ 1048576)) }
{
    refuse_hollow(files, wanted, path)?;
    let Some(file) = open_regular(files, path, wanted.makes)? else {
        return Ok((None, NEW_PAGES));
    };
    lock_file(&file, wanted)?;
    if !wanted.makes && file.metadata()?.len() == 0 {
        return Ok((None, NEW_PAGES));
    }
    let pages = measure(files, wanted, &file)?;
    Ok((Some(file), pages))
}

// The file and its number of pages, in a folder that is this program's.
fn open_locked(
    files: &impl Files<File = File>,
    wanted: &Wanted,
    lock: &mut Option<File>,
    path: &str,
) -> Result<(Option<File>, u32), Refusal>
    ensures { IfOk result (λ r. (1 ≤ r.1) × (r.1 ≤ 1048576)) }
{
    lock_folder(files, wanted, lock)?;
    open_file(files, wanted, path)
}

// The account of the medium that is asked for.
fn account_of(wanted: &Wanted, errors: Stderr) -> Result<Account, AllocError> {
    let path = path_of(wanted.alloc, wanted.folder, wanted.name)?;
    Account::new(wanted.alloc, errors, path.as_str())
}

// Says why there is none, and if a look finds no first file. That a later volume isn't there is no news.
fn open_medium(
    files: &impl Files<File = File>,
    wanted: &Wanted,
    lock: &mut Option<File>,
    mut account: Account,
) -> Option<FileMedium>
    ensures { IfSome result (λ m. IsNewMedium m) }
{
    match open_locked(files, wanted, lock, account.path()) {
        Ok((file, pages)) => {
            if file.is_none() && wanted.name.volume == 0 {
                account.say(NOT_THERE);
            }
            Some(FileMedium::new(file, pages, account))
        }
        Err(refusal) => {
            account.say(refusal);
            None
        }
    }
}

// The medium that is asked for.
fn medium_of(
    files: &impl Files<File = File>,
    wanted: &Wanted,
    errors: Stderr,
    lock: &mut Option<File>,
) -> Option<FileMedium>
    ensures { IfSome result (λ m. IsNewMedium m) }
{
    match account_of(wanted, errors) {
        Ok(account) => open_medium(files, wanted, lock, account),
        Err(_) => None,
    }
}

// How many pages a volume has at least: as many as the one before it, if that was taken just before.
fn least_pages(last: &Option<(MediumName, u32)>, name: MediumName) -> u32 {
    match last {
        Some((before, pages)) => {
            let is_next = before.kind == name.kind
                && before.number == name.number
                && before.volume.saturating_add(1) == name.volume;
            if is_next { *pages } else { 0 }
        }
        None => 0,
    }
}

impl<R: Files<File = File>> FileShelf<R> {
    // Opens the medium of this name.
    fn open(&mut self, name: MediumName) -> Option<FileMedium>
        ensures new { IfSome result (λ m. IsNewMedium m) }
        ensures stays { (self.new.taken ≡ self.old.taken) × (self.new.asked ≡ self.old.asked) × (self.new.faults ≡
            self.old.faults) }
    {
        let wanted = Wanted {
            alloc: self.alloc,
            folder: self.folder.as_str(),
            lock_path: self.lock_path.as_str(),
            name,
            makes: self.makes,
            least: least_pages(&self.last, name),
        };
        let medium = medium_of(&self.files, &wanted, self.errors, &mut self.lock)?;
        self.last = Some((name, medium.pages()));
        Some(medium)
    }
}

impl<R: Files<File = File> + Drop> Shelf for FileShelf<R> {
    type Medium = FileMedium;

    ghost use Rattle.std.specs.Prelude.{[], ⊤, Contains};
    ghost use Rattle.medium_port.specs.AskedNames.{names_of};

    ghost is_taken = { λ s name. Contains s.taken.items name };

    ghost holds = { λ _ _. [] };

    ghost may_hold = { λ _ _ _. ⊤ };

    ghost medium_faults = { λ _ _. 0 };

    ghost asked = { λ s. names_of s.asked };

    ghost faults = { λ s. s.faults };

    fn take(&mut self, kind: NodeKind, number: u8, volume: u32) -> Result<FileMedium, MediumFault> {
        let name = MediumName {
            kind,
            number,
            volume,
        };
        self.asked.add(name);
        if !self.taken.contains(&name) {
            if let Some(medium) = self.open(name) {
                if self.taken.push(name).is_ok() {
                    return Ok(medium);
                }
            }
        }
        self.faults = self.faults.saturating_add(1);
        Err(MediumFault)
    }
}
