//! What the body of a page says: pieces of effects, laid out into pages and read back.
#![tactic(auto)]

mod last_puts;
mod layouts;
mod page_reads;
mod pieces;
mod sizes;

pub use effect_form::{Effect, EffectFault, Place, read};
pub use layouts::lay_out;
pub use page_gate::{Gate, look_into, put};
pub use page_reads::{Held, add_page, add_piece, keep, sheet_in};
pub use pieces::Piece;
pub use sizes::pages_filled;
pub use value_form::ObjectId;
