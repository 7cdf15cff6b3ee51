//! A plan: what is run, and on how many nodes.
use value_form::{ActSpec, Items};

/// What is to be run, and on how many nodes.
#[derive(Debug, Drop)]
pub struct Plan {
    /// The number of the run, which isn't 0.
    pub run: u32,
    /// How many repositories there are, from 1 to 16.
    pub repositories: u8,
    /// How many brokers there are, from 1 to 16.
    pub brokers: u8,
    /// At most 10,000 acts, numbered from 1 in order.
    pub acts: Items<ActSpec>,
}
