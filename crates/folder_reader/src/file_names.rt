//! The names and paths of the files that hold media.

use pseudo_time::NodeKind;
use std::alloc::{AllocError, Global};

fn kind_word(kind: NodeKind) -> &'static str {
    match kind {
        NodeKind::Repository => "repository",
        NodeKind::Broker => "broker",
    }
}

// The name of the file of a medium.
pub fn name_of(
    alloc: Global,
    kind: NodeKind,
    number: u8,
    volume: u32,
) -> Result<String, AllocError> {
    format!(in alloc; "{}-{}-{}", kind_word(kind), number, volume)
}

// Its path in this folder.
pub fn path_of(alloc: Global, folder: &str, name: &str) -> Result<String, AllocError> {
    format!(in alloc; "{}/{}", folder, name)
}
