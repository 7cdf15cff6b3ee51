//! Effects: what a node's log is made of, and their bytes.
#![tactic(auto)]

mod effect_bytes;
mod effect_writes;
mod effects;
mod faults;
mod outcome_bytes;
mod outcomes;
mod sizes;

pub use effect_bytes::{back_place_has_six_bytes, effects_apart, read};
pub use effect_writes::write;
pub use effects::{Effect, Place};
pub use faults::EffectFault;
pub use outcome_bytes::{outcome_of, push_outcome};
pub use outcomes::Outcome;
pub use sizes::effect_size;
