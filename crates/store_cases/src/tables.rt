//! Tables of histories over stores.

use crate::histories;
use crate::stored::Stored;
use crate::stores::{Sound, Storage};
use case_words::{CaseFault, Subject, number, object, time};
use medium_port::MemoryMedium;
use object_header::HeaderTable;
use std::alloc::Global;
use std::mem;

#[derive(Drop)]
pub enum Tables {
    /// What a table is made of.
    Storage(Storage),
    /// Histories that all stand in their store.
    Stored(Stored),
    Table(HeaderTable<MemoryMedium>),
}

impl Tables {
    // What goes on from a medium or a store.
    fn storage(self, alloc: Global) -> Storage {
        match self {
            Tables::Storage(storage) => storage,
            _ => Storage::nothing(alloc),
        }
    }
}

// What comes of a line on a medium or on a store.
fn on_storage(
    alloc: Global,
    storage: Storage,
    words: &[&str],
) -> Result<(Tables, String), CaseFault> {
    let (storage, said) = storage.come_of(alloc, words)?;
    Ok((Tables::Storage(storage), said))
}

// The table of histories of what stands on a medium.
fn table_of(alloc: Global, sound: Sound) -> Result<(Tables, String), CaseFault> {
    let stored = sound.table(alloc)?;
    Ok((Tables::Stored(stored), String::new(alloc)))
}

// Puts a version, which is stored at once.
fn put(
    alloc: Global,
    stored: Stored,
    name: &str,
    at: &str,
    held: &str,
) -> Result<(Tables, String), CaseFault> {
    let stored = stored.put(object(name)?, time(at)?, number(held)?)?;
    Ok((Tables::Stored(stored), String::new(alloc)))
}

// What comes of a line on a table.
fn on_table(
    alloc: Global,
    table: HeaderTable<MemoryMedium>,
    words: &[&str],
) -> Result<(Tables, String), CaseFault> {
    let mut table = table;
    let said = histories::carry_out(alloc, &mut table, words)?;
    Ok((Tables::Table(table), said))
}

// What comes of a line on a table, all of which is stored.
fn on_stored(alloc: Global, stored: Stored, words: &[&str]) -> Result<(Tables, String), CaseFault> {
    match words {
        ["table"] => table_of(alloc, stored.release()),
        ["put", name, at, held] => put(alloc, stored, name, at, held),
        _ => on_table(alloc, stored.into_table(), words),
    }
}

// What comes of a line on what was begun.
fn come_of(alloc: Global, tables: Tables, words: &[&str]) -> Result<(Tables, String), CaseFault> {
    match tables {
        Tables::Storage(storage) => match words {
            ["table"] => table_of(alloc, storage.sound()?),
            _ => on_storage(alloc, storage, words),
        },
        Tables::Stored(stored) => on_stored(alloc, stored, words),
        Tables::Table(table) => on_table(alloc, table, words),
    }
}

// What comes of a line, which may begin anew.
fn begun_or(alloc: Global, tables: Tables, words: &[&str]) -> Result<(Tables, String), CaseFault> {
    match words {
        ["stop", ..] | ["medium", _] => on_storage(alloc, tables.storage(alloc), words),
        _ => come_of(alloc, tables, words),
    }
}

impl Subject for Tables {
    fn nothing(alloc: Global) -> Tables {
        Tables::Storage(Storage::nothing(alloc))
    }

    fn carry_out(
        &mut self,
        alloc: Global,
        _line: &str,
        words: &[&str],
    ) -> Result<String, CaseFault> {
        let tables = mem::replace(self, Tables::nothing(alloc));
        let (tables, said) = begun_or(alloc, tables, words)?;
        *self = tables;
        Ok(said)
    }
}
