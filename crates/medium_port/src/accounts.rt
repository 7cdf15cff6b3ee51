//! What is said about files on standard error.
use std::alloc::{AllocError, Global};
use std::fmt::Display;
use std::io::{Stderr, Write};

// Says on standard error, once for each medium, why the system failed it: a fault has no reason, and a
// report has no place for one.
#[derive(Drop)]
pub struct Account {
    alloc: Global,
    errors: Stderr,
    path: String,
    is_said: bool,
}

impl Account {
    pub fn new(alloc: Global, errors: Stderr, path: &str) -> Result<Account, AllocError> {
        let path = path.to_string(alloc)?;
        Ok(Account {
            alloc,
            errors,
            path,
            is_said: false,
        })
    }

    // The file of the medium.
    pub fn path(&self) -> &str {
        self.path.as_str()
    }

    // Nothing comes of it where standard error takes nothing or memory runs out.
    pub fn say<D: Display + Drop>(&mut self, reason: D) {
        if self.is_said {
            return;
        }
        self.is_said = true;
        if let Ok(line) = line_of(self.alloc, self.path.as_str(), reason) {
            let _said = self.errors.write_all(line.as_bytes());
        }
    }
}

fn line_of<D: Display + Drop>(alloc: Global, path: &str, reason: D) -> Result<String, AllocError> {
    format!(in alloc; "swallow: {}: {}\n", path, reason)
}
