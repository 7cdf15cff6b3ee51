//! Bytes as the text of an HTML page, which no bytes can leave.
#![tactic(auto)]

mod laws;
mod writing;

pub use laws::{attribute_stays_inside, text_has_no_tags, text_stays_inside};
pub use writing::{push_attribute, push_text};
