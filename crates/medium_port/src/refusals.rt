//! Why a file is refused.
use crate::file_lengths::MOST_PAGES;
use crate::lost_files::Lost;
use std::alloc::AllocError;
use std::fmt::{self, Display, Formatter};
use std::io;

// Why a file isn't taken for a medium.
#[derive(Drop)]
pub enum Refusal {
    NoFolder,
    // A folder, a FIFO, a device or a socket.
    NoFile,
    Link,
    Locked,
    // How many bytes it has.
    Length(u64),
    Lost(Lost),
    NoMemory,
    System(io::Error),
}

impl From<io::Error> for Refusal {
    fn from(error: io::Error) -> Refusal {
        Refusal::System(error)
    }
}

impl From<AllocError> for Refusal {
    fn from(_error: AllocError) -> Refusal {
        Refusal::NoMemory
    }
}

impl Display for Refusal {
    fn fmt<W: fmt::Write>(&self, f: &mut Formatter<W>) -> fmt::Result {
        match self {
            Refusal::NoFolder => f.write_str("the folder has no name"),
            Refusal::NoFile => f.write_str("no regular file"),
            Refusal::Link => f.write_str("a symbolic link, and no regular file"),
            Refusal::Locked => f.write_str("locked by another program"),
            Refusal::Length(bytes) => write!(
                f,
                "a file of {} bytes, and a medium has 1 to {} pages of 4096",
                bytes, MOST_PAGES
            ),
            Refusal::Lost(lost) => write!(f, "{}", lost),
            Refusal::NoMemory => f.write_str("out of memory"),
            Refusal::System(error) => write!(f, "{}", error),
        }
    }
}
