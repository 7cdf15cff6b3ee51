//! The names that a script has set.
ghost use Rattle.std.specs.Prelude.{◌≡◌, ◌==◌, [], OnOk, OnErr, IfOk, MatchOption};
ghost use Rattle.std.specs.Cmp.Lexicographic.{pointwise};
ghost use Rattle.std.specs.List.{position_from};
ghost use Rattle.script_meaning.specs.Keys as keys;
ghost use Rattle.script_meaning.specs.Names.{name_value, with_name};
ghost use Rattle.value_form.specs.declared.values.Value.TheVariants.{Nothing};

use std::alloc::{AllocError, Global};
use std::marker::Model;
use value_form::{Bytes, Value};

/// A name that was set, beside its key. Contracts see the name and its value.
#[derive(Debug, Drop)]
struct Entry {
    key: u32,
    name: Bytes,
    value: Value,
}

impl Model for Entry {
    ghost use Rattle.std.specs.Prelude.{◌≡◌};
    ghost use Rattle.script_meaning.specs.Keys as keys;
    ghost use Rattle.script_meaning.specs.Names.{SetName};

    ghost Value = { SetName };

    ghost view = { λ e. (e.name, e.value) };

    ghost invariant = { λ e. e.key ≡ keys.key e.name };
}

// The key of a name. Names with different keys differ.
fn key_of(name: &[u8]) -> u32
    ensures { result ≡ keys.key name.now }
{
    let mut key = 0u32;
    for byte in name {
        key = key.wrapping_mul(31).wrapping_add(*byte as u32);
    }
    key
}

impl Entry {
    fn new(name: Bytes, value: Value) -> Entry
        ensures { result ≡ (name, value) }
    {
        Entry {
            key: key_of(name.as_slice()),
            name,
            value,
        }
    }

    // Whether it has the name with this key.
    fn is_of(&self, key: u32, name: &[u8]) -> bool
        requires { key ≡ keys.key name.now }
        ensures { result ≡ pointwise ◌==◌ self.now.0 name.now }
    {
        self.key == key && self.name.as_slice() == name
    }

    fn value(&self) -> &Value
        ensures { result.now ≡ self.now.1 }
    {
        &self.value
    }
}

/// The names of a script that were set. Contracts see each with its value, in the order in which
/// they were first set.
#[derive(Debug, Drop)]
pub struct Names {
    entries: Vec<Entry>,
}

impl Model for Names {
    ghost use Rattle.script_meaning.specs.Names.{Names as SetNames};

    ghost Value = { SetNames };

    ghost view = { λ n. n.entries.items };
}

// Where the name stands.
fn place_of(entries: &[Entry], name: &[u8]) -> Option<usize>
    ensures { result ≡ position_from (λ e. pointwise ◌==◌ e.0 name.now) 0 entries.now }
{
    let key = key_of(name);
    let mut index = 0;
    for entry in entries {
        if entry.is_of(key, name) {
            return Some(index);
        }
        index += 1;
    }
    None
}

impl Names {
    /// No name was set yet.
    pub fn new(alloc: Global) -> Names
        ensures { result ≡ [] }
    {
        Names {
            entries: Vec::new(alloc),
        }
    }

    /// Gives the name this value. Where memory runs out, the names are as before.
    pub fn set(&mut self, name: Bytes, value: Value) -> Result<(), AllocError>
        ensures ok { OnOk result (self.new ≡ with_name self.old name value) }
        ensures err { OnErr result (self.new ≡ self.old) }
    {
        match place_of(self.entries.as_slice(), name.as_slice()) {
            Some(index) => {
                self.entries[index] = Entry::new(name, value);
                Ok(())
            }
            None => {
                self.entries.push(Entry::new(name, value))?;
                Ok(())
            }
        }
    }

    /// The value of the name. None where it was never set.
    pub fn get(&self, name: &[u8]) -> Option<&Value>
        ensures { MatchOption result (name_value self.now name.now ≡ Nothing)
            (λ v. name_value self.now name.now ≡ v.now) }
    {
        let key = key_of(name);
        for entry in &self.entries {
            if entry.is_of(key, name) {
                return Some(entry.value());
            }
        }
        None
    }

    /// A copy of the value of the name, which is Nothing where it was never set.
    pub fn value_of(&self, alloc: Global, name: &[u8]) -> Result<Value, AllocError>
        ensures { IfOk result (λ v. v ≡ name_value self.now name.now) }
    {
        match self.get(name) {
            Some(value) => value.copy(alloc),
            None => Ok(Value::Nothing),
        }
    }
}
