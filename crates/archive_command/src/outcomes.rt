//! What a command over a repository's volumes can come to.
use value_form::Bytes;

/// What came of a command over the volumes of a repository.
#[derive(Drop)]
pub enum Outcome {
    /// It was done, and this text tells so.
    Told(Bytes),
    /// It may not be done, and nothing was written to a medium. This line says why.
    Refused(Bytes),
    /// A medium stopped it, and this line says so.
    Fallen(Bytes),
    /// Memory ran out.
    NoMemory,
}
