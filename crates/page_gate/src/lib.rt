//! Pages behind a gate: a crash leaves each blank, spoiled, or gated with its whole body.
#![tactic(auto)]

mod pages;

pub use pages::{Gate, PageState, all_zero, look, look_into, put};
