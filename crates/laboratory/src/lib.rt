//! The laboratory: the top call over media in memory, with messages that are lost and a medium that stops
//! as the words say.
#![tactic(auto)]

mod lines;
mod losses;
mod options;
mod runs;
mod shelves;
mod ties;

pub use losses::LabFates;
pub use options::{Lab, LabFault, lab_words};
pub use runs::lab;
pub use shelves::shelf_for;
pub use swallow_top::{Kept, swallow};
