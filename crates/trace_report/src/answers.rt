//! An answer that an attempt got.
use value_form::Value;

/// An answer that an attempt got.
#[derive(Drop)]
pub enum Answered {
    /// To a read: what the object holds.
    Got(Value),
    /// To a write.
    Stored,
}
