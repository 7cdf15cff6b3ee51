//! What kind of entry a path of the folder names: the program reads and writes regular files only.

use crate::refusals::Refusal;
use std::fs::{self, File};
use std::io::ErrorKind;
use std::rt::Files;

// Whether the folder has an entry under this path, of any kind.
pub fn is_there(files: &impl Files, path: &str) -> Result<bool, Refusal> {
    match fs::symlink_metadata(files, path) {
        Ok(_) => Ok(true),
        Err(error) if error.kind() == ErrorKind::NotFound => Ok(false),
        Err(error) => Err(error.into()),
    }
}

// The length in bytes of the regular file under this path, or None if nothing is there. What is no
// regular file is refused before anything opens it: the system lets the opening of a FIFO wait for ever.
pub fn length_at(files: &impl Files, path: &str) -> Result<Option<u64>, Refusal> {
    let data = match fs::symlink_metadata(files, path) {
        Ok(data) => data,
        Err(error) if error.kind() == ErrorKind::NotFound => return Ok(None),
        Err(error) => return Err(error.into()),
    };
    if data.is_symlink() {
        return Err(Refusal::Link);
    }
    if !data.is_file() {
        return Err(Refusal::NoFile);
    }
    Ok(Some(data.len()))
}

// Opens a regular file. If it isn't there it is made, or there is none.
pub fn open_regular(
    files: &impl Files<File = File>,
    path: &str,
    makes: bool,
) -> Result<Option<File>, Refusal> {
    if length_at(files, path)?.is_none() && !makes {
        return Ok(None);
    }
    let file = File::options()
        .read(true)
        .write(makes)
        .create(makes)
        .open(files, path)?;
    if !file.metadata()?.is_file() {
        return Err(Refusal::NoFile);
    }
    Ok(Some(file))
}
