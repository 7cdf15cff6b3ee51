//! The bytes of a value.
ghost use Rattle.std.specs.Prelude.{◌≡◌, ◌++◌, ◌≤◌, Ok, List, ℕ, length, drop, take, OnOk, OnErr, IfOk};
ghost use Rattle.field_form.specs.Forms.{IsBytes};
ghost use Rattle.value_form.specs.ValueBytes.{IsValue, most_text, value_bytes, value_at, number_value_at, text_at, short_text_at, long_text_at};
ghost use Rattle.value_form.specs.ValueReads.{Gives, GivesCount};
ghost use Rattle.value_form.specs.declared.values.Value.{Value};
ghost use Rattle.value_form.specs.declared.values.Value.TheVariants.{Number, Text};

use crate::texts::Bytes;
use crate::value_faults::ValueFault;
use crate::values::Value;
use field_form::{byte_of, front_of, i64_of, u16_in, u32_in};
use std::alloc::{AllocError, Global};

/// The most bytes of a text.
pub const MOST_TEXT_BYTES: u32 = 65_536;

/// The most bytes of a text whose length takes two bytes.
pub const MOST_SHORT_BYTES: u16 = 1_000;

#[tactic(auto, unfolding(crate::specs::ValueBytes::number_value_at))]
fn number_value_of(bytes: &[u8]) -> Result<(Value, &[u8]), ValueFault>
    ensures { Gives (λ p. (p.0, p.1.now)) result (number_value_at bytes.now) }
{
    let Some((number, rest)) = i64_of(bytes) else {
        return Err(ValueFault::Form(1));
    };
    Ok((Value::Number(number), rest))
}

// A text of so many bytes, the first of which is at this place.
#[tactic(auto, unfolding(crate::specs::ValueBytes::text_at))]
fn text_of(
    alloc: Global,
    place: usize,
    size: usize,
    bytes: &[u8],
) -> Result<(Value, &[u8]), ValueFault>
    ensures { Gives (λ p. (p.0, p.1.now)) result (text_at place size bytes.now) }
{
    let Some((text, rest)) = front_of(size, bytes) else {
        return Err(ValueFault::Form(place));
    };
    let text = text.to_vec(alloc)?;
    Ok((Value::Text(Bytes::of(text)), rest))
}

#[tactic(auto, unfolding(crate::specs::ValueBytes::short_text_at))]
fn short_text_of(alloc: Global, bytes: &[u8]) -> Result<(Value, &[u8]), ValueFault>
    ensures { Gives (λ p. (p.0, p.1.now)) result (short_text_at bytes.now) }
{
    let Some((size, rest)) = u16_in(0, MOST_SHORT_BYTES, bytes) else {
        return Err(ValueFault::Form(1));
    };
    text_of(alloc, 3, size as usize, rest)
}

#[tactic(auto, unfolding(crate::specs::ValueBytes::long_text_at))]
fn long_text_of(alloc: Global, bytes: &[u8]) -> Result<(Value, &[u8]), ValueFault>
    ensures { Gives (λ p. (p.0, p.1.now)) result (long_text_at bytes.now) }
{
    let Some((size, rest)) = u32_in(MOST_SHORT_BYTES as u32 + 1, MOST_TEXT_BYTES, bytes) else {
        return Err(ValueFault::Form(1));
    };
    text_of(alloc, 5, size as usize, rest)
}

// The value at the front, and what follows it.
#[tactic(auto, unfolding(crate::specs::ValueBytes::value_at))]
fn value_of(alloc: Global, bytes: &[u8]) -> Result<(Value, &[u8]), ValueFault>
    ensures { Gives (λ p. (p.0, p.1.now)) result (value_at bytes.now) }
{
    let Some((tag, rest)) = byte_of(bytes) else {
        return Err(ValueFault::Form(0));
    };
    if tag == 0 {
        return Ok((Value::Nothing, rest));
    }
    if tag == 1 {
        return number_value_of(rest);
    }
    if tag == 2 {
        return short_text_of(alloc, rest);
    }
    if tag == 3 {
        return long_text_of(alloc, rest);
    }
    Err(ValueFault::Form(0))
}

// The value at the front, and how many bytes it takes.
fn counted(alloc: Global, bytes: &[u8]) -> Result<(Value, usize), ValueFault>
    ensures { GivesCount result (length bytes.now) (value_at bytes.now) }
{
    let (value, rest) = value_of(alloc, bytes)?;
    Ok((value, bytes.len() - rest.len()))
}

// The bytes of a text: the tag, the length and the text.
fn text_bytes(alloc: Global, text: &[u8]) -> Result<Vec<u8>, AllocError>
    requires { length text.now ≤ most_text }
    ensures { IfOk result (λ v. v.items ≡ value_bytes (Text text.now)) }
{
    let mut bytes = Vec::new(alloc);
    if text.len() <= MOST_SHORT_BYTES as usize {
        bytes.push(2)?;
        bytes.extend_from_slice(&(text.len() as u16).to_be_bytes())?;
    } else {
        bytes.push(3)?;
        bytes.extend_from_slice(&(text.len() as u32).to_be_bytes())?;
    }
    bytes.extend_from_slice(text)?;
    Ok(bytes)
}

fn number_bytes(number: i64) -> [u8; 9]
    ensures { result ≡ value_bytes (Number number) }
{
    let [a, b, c, d, e, f, g, h] = number.to_be_bytes();
    [1, a, b, c, d, e, f, g, h]
}

impl Value {
    /// Appends the value's bytes. Where memory runs out, `out` is as before.
    pub fn write(&self, alloc: Global, out: &mut Vec<u8>) -> Result<(), AllocError>
        requires { IsValue self.now }
        ensures ok { OnOk result (out.new.items ≡ out.old.items ++ value_bytes self.now) }
        ensures err { OnErr result (out.new.items ≡ out.old.items) }
    {
        match self {
            Value::Nothing => out.extend_from_slice(&[0]),
            Value::Number(number) => out.extend_from_slice(&number_bytes(*number)),
            Value::Text(text) => {
                let bytes = text_bytes(alloc, text.as_slice())?;
                out.extend_from_slice(bytes.as_slice())
            }
        }
    }

    /// Reads the value at the front of the bytes, and says how many of them it takes. Others may
    /// follow. `Form` has the place of the first field that is missing, cut short or out of range:
    /// the tag, the number, or the length and the bytes of a text.
    pub fn read(alloc: Global, bytes: &[u8]) -> Result<(Value, usize), ValueFault>
        // What is read stands so in the bytes.
        ensures found { IfOk result (λ p. IsValue p.0 × (p.1 ≤ length bytes.now) ×
            (take p.1 bytes.now ≡ value_bytes p.0)) }
        // What stands in the bytes is read, unless memory runs out.
        ensures only { (v : Value) (rest : List ℕ) → IsValue v → bytes.now ≡ value_bytes v ++ rest →
            GivesCount result (length bytes.now) (Ok (v, rest)) }
        // Where it isn't, at which place.
        ensures exact { GivesCount result (length bytes.now) (value_at bytes.now) }
    {
        counted(alloc, bytes)
    }
}

/// A law: no value's bytes begin another's.
pub fn values_apart()
    ensures { (a b : Value) (x y : List ℕ) → IsValue a → IsValue b → value_bytes a ++ x ≡ value_bytes b ++ y →
        (a ≡ b) × (x ≡ y) }
{}
