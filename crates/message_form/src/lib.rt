//! Messages: what brokers and repositories send one another, and their bytes.
#![tactic(auto)]

mod faults;
mod logs;
mod message_bytes;
mod message_writes;
mod messages;
mod turns;

pub use faults::MessageFault;
pub use logs::SnapshotLog;
pub use message_bytes::{messages_apart, read};
pub use message_writes::write;
pub use messages::Message;
pub use turns::{Out, Turn};
