//! A map from objects to values.
ghost use Rattle.std.specs.Prelude.{◌≡◌, OnOk, OnErr, IfOk};
ghost use Rattle.std.specs.Option.{option_copied};
ghost use Rattle.std.specs.FinMap as finite;
ghost use Rattle.std.specs.BTreeMap.{IsOrdered};
ghost use Rattle.value_form.specs.Objects.{object_cmp, value_at};
ghost use Rattle.serial_model.specs.Overlays.{onto, overlaid};

use std::alloc::{AllocError, Global};
use std::collections::BTreeMap;
use std::marker::Model;
use value_form::{ObjectId, Value};

// The entries of a map, which rise.
fn entries_of(
    alloc: Global,
    map: BTreeMap<ObjectId, Value>,
) -> Result<Vec<(ObjectId, Value)>, AllocError>
    ensures items { IfOk result (λ v. v.items ≡ map.entries) }
    ensures rising { IsOrdered object_cmp map }
{
    map.into_iter().collect(alloc)
}

// Copies of the entries of a map, which rise.
fn copied(
    alloc: Global,
    map: &BTreeMap<ObjectId, Value>,
) -> Result<Vec<(ObjectId, Value)>, AllocError>
    ensures { IfOk result (λ v. v.items ≡ map.now.entries) }
{
    let mut all = Vec::new(alloc);
    for (object, value) in map {
        let value = value.copy(alloc)?;
        all.push((*object, value))?;
    }
    Ok(all)
}

// The map with these entries over it.
fn with_entries(map: ObjectMap, entries: Vec<(ObjectId, Value)>) -> Result<ObjectMap, AllocError>
    ensures { IfOk result (λ m. m ≡ onto map entries.items) }
{
    let mut map = map;
    let mut left = entries;
    'entries: while let Some((object, value)) = left.pop() {
        map.set(object, value)?;
    }
    Ok(map)
}

// The map with these entries.
fn map_of(alloc: Global, entries: Vec<(ObjectId, Value)>) -> Result<ObjectMap, AllocError>
    ensures { IfOk result (λ m. m ≡ finite.from_entries {R = object_cmp} entries.items) }
{
    let map = with_entries(ObjectMap::new(alloc), entries)?;
    Ok(map)
}

/// A finite map from objects to values.
#[derive(Drop)]
pub struct ObjectMap {
    entries: BTreeMap<ObjectId, Value>,
}

impl Model for ObjectMap {
    ghost use Rattle.std.specs.FinMap as finite;
    ghost use Rattle.value_form.specs.Objects.{Objects, object_cmp};
    ghost use Rattle.value_form.specs.contracts.objects.ObjectId as object;
    ghost use Rattle.value_form.specs.contracts.values.Value as value;

    ghost Value = { Objects };

    ghost coded = { finite.code object.the_row.coded value.the_row.coded };

    ghost view = { λ m. finite.from_entries {R = object_cmp} m.entries.entries };
}

impl ObjectMap {
    /// A map without objects.
    pub fn new(alloc: Global) -> ObjectMap
        ensures { result ≡ finite.empty }
    {
        ObjectMap {
            entries: BTreeMap::new(alloc),
        }
    }

    /// What the object has in the map. None where it is outside the map.
    pub fn get(&self, object: ObjectId) -> Option<&Value>
        ensures { option_copied result ≡ finite.get self.now object }
    {
        self.entries.get(&object)
    }

    /// A copy of what the object has in the map, which is Nothing where it is outside the map.
    pub fn value_of(&self, alloc: Global, object: ObjectId) -> Result<Value, AllocError>
        ensures { IfOk result (λ v. v ≡ value_at self.now object) }
    {
        match self.get(object) {
            Some(value) => value.copy(alloc),
            None => Ok(Value::Nothing),
        }
    }

    /// An equal map.
    pub fn copy(&self, alloc: Global) -> Result<ObjectMap, AllocError>
        ensures { IfOk result (λ m. m ≡ self.now) }
    {
        let entries = copied(alloc, &self.entries)?;
        Ok(map_of(alloc, entries)?)
    }

    /// Gives the object this value. Where memory runs out, the map is as before.
    pub fn set(&mut self, object: ObjectId, value: Value) -> Result<(), AllocError>
        ensures ok { OnOk result (self.new ≡ finite.insert self.old object value) }
        ensures err { OnErr result (self.new ≡ self.old) }
    {
        self.entries.insert(object, value)?;
        Ok(())
    }

    /// The map with the writes over it: an object of the writes has its value there, each other one its
    /// value here.
    pub fn overlaid(self, alloc: Global, writes: ObjectMap) -> Result<ObjectMap, AllocError>
        ensures { IfOk result (λ m. m ≡ overlaid writes self) }
    {
        let entries = writes.into_list(alloc)?;
        with_entries(self, entries)
    }

    /// The objects of the map with their values, in rising order.
    pub fn into_list(self, alloc: Global) -> Result<Vec<(ObjectId, Value)>, AllocError>
        ensures { IfOk result (λ v. v.items ≡ finite.entries self) }
    {
        let ObjectMap { entries } = self;
        Ok(entries_of(alloc, entries)?)
    }
}
