//! The media that a call hands back, under their names.
ghost use Rattle.std.specs.Prelude.{◌≡◌, ◌≤◌, ◌+◌, ◌++◌, length, vec_len, vec_capacity};
ghost use Rattle.run_volumes.specs.Kept.{kept_as, kept_under};
ghost use Rattle.run_volumes.specs.Shelves.{first_names, volume_name};

use medium_port::Medium;
use pseudo_time::NodeId;

/// A medium that a call hands back.
#[derive(Drop)]
pub struct Kept<M: Medium> {
    /// The node whose medium it is.
    pub node: NodeId,
    /// Which of the node's media it is, from 0.
    pub volume: u32,
    pub medium: M,
}

/// A volume under its name, behind others. The list has room for it.
pub fn keep_one<M: Medium>(
    node: NodeId,
    volume: u32,
    medium: Option<M>,
    kept: Vec<Kept<M>>,
) -> Vec<Kept<M>>
    requires room { vec_len kept + 1 ≤ vec_capacity kept }
    ensures kept { result.items ≡ kept.items ++ kept_as (volume_name node volume) medium }
    ensures room { vec_capacity result ≡ vec_capacity kept }
    ensures few { vec_len result ≤ vec_len kept + 1 }
{
    let mut kept = kept;
    if let Some(medium) = medium {
        kept.push_reserved(Kept {
            node,
            volume,
            medium,
        });
    }
    kept
}

/// The volumes of a node, from 0 on, behind other media under their names. The list has room for them.
pub fn keep_volumes<M: Medium>(
    node: NodeId,
    media: Vec<Option<M>>,
    kept: Vec<Kept<M>>,
) -> Vec<Kept<M>>
    requires few { vec_len media ≤ 1000 }
    requires room { vec_len kept + vec_len media ≤ vec_capacity kept }
    ensures kept { result.items ≡ kept.items ++ kept_under (first_names node (length media.items)) media.items }
    ensures room { vec_capacity result ≡ vec_capacity kept }
    ensures few { vec_len result ≤ vec_len kept + vec_len media }
{
    let mut media = media;
    let Some(medium) = media.pop() else {
        return kept;
    };
    let volume = media.len();
    let kept = keep_volumes(node, media, kept);
    keep_one(node, volume as u32, medium, kept)
}
