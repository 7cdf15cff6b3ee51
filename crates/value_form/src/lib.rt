//! Values, objects, script trees and acts.
#![tactic(auto)]

mod acts;
mod boxes;
mod endings;
mod expressions;
mod fail_kinds;
mod lists;
mod object_bytes;
mod objects;
mod scripts;
mod texts;
mod transcripts;
mod value_bytes;
mod value_faults;
mod values;

pub use acts::ActSpec;
pub use boxes::Boxed;
pub use endings::Ending;
pub use expressions::{Call, Expr, Infix, Prefix};
pub use fail_kinds::FailKind;
pub use lists::Items;
pub use object_bytes::{object_bytes_of, push_object_bytes};
pub use objects::ObjectId;
pub use scripts::{Script, Stmt, Target};
pub use texts::Bytes;
pub use transcripts::Line;
pub use value_bytes::{MOST_SHORT_BYTES, MOST_TEXT_BYTES, values_apart};
pub use value_faults::ValueFault;
pub use values::Value;
