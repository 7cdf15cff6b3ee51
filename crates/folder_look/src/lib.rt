//! A folder as a page: what the logs of its media say of objects, of acts and of pages.
#![tactic(auto)]

mod attempts;
mod axes;
mod choices;
mod drawing;
mod homes;
mod laws;
mod lines;
mod looks;
mod media_text;
mod objects;
mod pages;
mod parts;
mod rows;
mod runs;
mod shown;
mod sights;
mod steps;
mod styles;
mod tallies;
mod touches;
mod values;
mod volumes;

pub use choices::Choice;
pub use laws::{page_has_the_frame, versions_stand_once};
pub use looks::{MediumLook, MediumState, ObjectRow, VersionRow};
pub use pages::page_of;
