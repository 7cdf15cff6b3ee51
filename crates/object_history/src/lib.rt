//! Histories of versions: what a read of an object sees at a pseudotime, which writes are accepted,
//! and how far each version was read (Reed 1978, Svobodova 1981).
#![tactic(auto)]

mod calls;
mod laws;
mod maps;
mod marks;
mod plain;
mod steps;
mod versions;

pub use calls::Histories;
pub use laws::{
    answer_is_viewed, answer_stays, floor_refuses_reads, reach_rises, settled_stays,
    settled_versions_only_grow, starts_stay_distinct, view_is_sight, write_answers,
    writes_go_on_top,
};
pub use maps::Settles;
pub use marks::Mark;
pub use plain::{PlainHistories, has_stretched, is_same_value};
pub use steps::{HistoryFault, ReadStep, WriteStep};
pub use versions::later;
