//! The path of a medium's file.
use crate::shelves::MediumName;
use pseudo_time::NodeKind;
use std::alloc::{AllocError, Global};

// The word of a kind in the names of files.
fn kind_word(kind: NodeKind) -> &'static str {
    match kind {
        NodeKind::Repository => "repository",
        NodeKind::Broker => "broker",
    }
}

// The path of the file of a medium.
pub fn path_of(alloc: Global, folder: &str, name: MediumName) -> Result<String, AllocError> {
    format!(in alloc;
        "{}/{}-{}-{}",
        folder,
        kind_word(name.kind),
        name.number,
        name.volume
    )
}
