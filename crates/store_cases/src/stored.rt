//! Tables of histories over stores that have not failed.
ghost use Rattle.std.specs.Prelude.{◌≡◌, [], false, IfOk};
ghost use Rattle.value_form.specs.ObjectBytes.{IsObject};
ghost use Rattle.medium_port.specs.MemoryMedia.{failed_in};
ghost use Rattle.version_store.specs.StoreWords.{medium_of};
ghost use Rattle.object_header.specs.Tables.{ledger_of, store_of};

use crate::stores::Sound;
use case_words::CaseFault;
use effect_form::Effect;
use medium_port::MemoryMedium;
use object_header::{HeaderTable, late_marks};
use object_history::{Histories, WriteStep};
use pseudo_time::PseudoTime;
use std::alloc::Global;
use value_form::{ObjectId, Value};
use version_store::Store;

impl Sound {
    /// The table of histories of what stands on the medium.
    pub fn table(self, alloc: Global) -> Result<Stored, CaseFault> {
        let Sound { medium } = self;
        let Ok((store, effects)) = Store::open(alloc, medium) else {
            return Err(CaseFault::Subject);
        };
        match HeaderTable::rebuild(alloc, store, effects.as_slice()) {
            Ok(table) => Ok(Stored { table }),
            Err(_) => Err(CaseFault::NoMemory),
        }
    }
}

/// A table of histories, all of which stand in its store.
#[derive(Drop)]
pub struct Stored {
    table: HeaderTable<MemoryMedium>,
    ghost late: { (ledger_of table).late ≡ [] },
    ghost open: { failed_in (medium_of (store_of table)) ≡ false },
}

impl Stored {
    /// The table, for calls that may add to it.
    pub fn into_table(self) -> HeaderTable<MemoryMedium> {
        let Stored { table } = self;
        table
    }

    /// Its medium.
    pub fn release(self) -> Sound {
        let Stored { table } = self;
        Sound {
            medium: table.release(),
        }
    }

    /// Puts a version, which is stored at once.
    pub fn put(self, object: ObjectId, start: PseudoTime, number: i64) -> Result<Stored, CaseFault>
        requires { IsObject object }
    {
        let Stored { table } = self;
        let table = put_and_stored(table, object, start, number)?;
        Ok(Stored { table })
    }
}

// A version that is put and stored at once: what each call of histories says is enough for that.
fn put_and_stored(
    table: HeaderTable<MemoryMedium>,
    object: ObjectId,
    start: PseudoTime,
    number: i64,
) -> Result<HeaderTable<MemoryMedium>, CaseFault>
    requires object { IsObject object }
    requires late { (ledger_of table).late ≡ [] }
    ensures late { IfOk result (λ t. (ledger_of t).late ≡ []) }
    ensures open { IfOk result (λ t. failed_in (medium_of (store_of t)) ≡ false) }
{
    let mut table = table;
    let _in_range = start.stamp();
    let value = Value::Number(number);
    let step = table.write(object, start, &value)?;
    if step != WriteStep::Put {
        return Err(CaseFault::Histories);
    }
    let effects = [Effect::Put {
        object,
        start,
        value,
    }];
    late_marks();
    match table.flush(&effects) {
        Ok(table) => Ok(table),
        Err(_) => Err(CaseFault::Histories),
    }
}
