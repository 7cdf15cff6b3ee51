//! Media of pages that crashes may tear, the shelves that hand them out, and their forms over
//! memory and files.
#![tactic(auto)]

mod accounts;
mod asked_names;
mod events;
mod file_kinds;
mod file_lengths;
mod file_media;
mod file_names;
mod file_shelves;
mod healths;
mod held_pages;
mod lost_files;
mod media;
mod meet_media;
mod meet_shelves;
mod memory_media;
mod memory_shelves;
mod pasts;
mod refusals;
mod shelves;
mod slots;
mod stops;
mod wanted_files;

pub use file_lengths::NEW_PAGES;
pub use file_media::FileMedium;
pub use file_shelves::FileShelf;
pub use media::{Medium, MediumFault};
pub use meet_media::MeetMedium;
pub use meet_shelves::MeetShelf;
pub use memory_media::MemoryMedium;
pub use memory_shelves::MemoryShelf;
pub use shelves::{MediumName, Shelf};
pub use stops::{Stop, StopAt};
