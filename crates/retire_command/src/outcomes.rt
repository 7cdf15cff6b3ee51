//! What retiring a repository can come to.
use value_form::Bytes;

/// What came of retiring a repository.
#[derive(Drop)]
pub enum Retired {
    /// It was retired, and this line tells so.
    Done(Bytes),
    /// It may not be retired, and nothing was written. This line says why.
    Refused(Bytes),
    /// A medium stopped it, and this line says so.
    Fallen(Bytes),
    /// Memory ran out.
    NoMemory,
}
