//! Version storage: a log of effects on a medium, which only grows.
#![tactic(auto)]

mod faults;
mod fetches;
mod laws;
mod openings;
mod stores;
mod writes;

pub use faults::{FetchFault, OpenFault, StoreFault};
pub use laws::{
    back_places_come_before, effects_fill_few_pages, pages_keep_the_order, pages_stay_clean,
    places_have_effects, prefix_is_found,
};
pub use stores::Store;
