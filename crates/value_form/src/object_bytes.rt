//! The bytes of an object's name.
ghost use Rattle.std.specs.Prelude.{◌≡◌, ◌++◌, OnOk};
ghost use Rattle.std.specs.Option.{option_map};
ghost use Rattle.value_form.specs.ObjectBytes.{object_bytes, object_bytes_at};

use crate::objects::ObjectId;
use field_form::{byte_in, u32_of};
use std::alloc::AllocError;

/// The object in the first five bytes. None where they aren't those of an object.
#[tactic(auto, unfolding(crate::specs::ObjectBytes::object_bytes_at))]
pub fn object_bytes_of(bytes: &[u8]) -> Option<(ObjectId, &[u8])>
    ensures { option_map (λ p. (p.0, p.1.now)) result ≡ object_bytes_at bytes.now }
{
    let Some((repository, rest)) = byte_in(1, 16, bytes) else {
        return None;
    };
    let Some((number, rest)) = u32_of(rest) else {
        return None;
    };
    Some((ObjectId { repository, number }, rest))
}

/// Appends the five bytes of an object.
pub fn push_object_bytes(out: &mut Vec<u8>, object: ObjectId) -> Result<(), AllocError>
    ensures { OnOk result (out.new.items ≡ out.old.items ++ object_bytes object) }
{
    let [a, b, c, d] = object.number.to_be_bytes();
    out.extend_from_slice(&[object.repository, a, b, c, d])
}
