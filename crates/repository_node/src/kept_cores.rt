//! A repository's core, or the medium that a fault left of it.
use medium_port::Medium;
use object_header::HeaderTable;
use repository_core::Repository;

/// Where a repository's core stands: over its headers in a store, or, after a fault, there is only a
/// medium that is to be opened anew.
#[derive(Drop)]
pub enum KeptCore<M: Medium> {
    Open(Repository<HeaderTable<M>>),
    Shut(M),
}
