//! The media of a folder, read and never written.
#![tactic(auto)]

mod file_looks;
mod file_names;
mod folders;
mod lost_files;
mod read_media;
mod readings;

pub use folders::{LookFault, media_of};
pub use lost_files::warning_of;
pub use read_media::ReadMedium;
pub use readings::look_at;
