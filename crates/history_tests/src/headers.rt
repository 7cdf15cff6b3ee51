//! Cases of histories in version storage.
ghost use Rattle.std.specs.Prelude.{◌≡◌, false, IfOk};
ghost use Rattle.effect_form.specs.Effects.{IsEffect, AreEffects};

use crate::histories::{Call, OBJECT, Said, Time, asked, time};
use effect_form::Effect;
use medium_port::{FileMedium, FileShelf, Medium, Shelf};
use object_header::HeaderTable;
use object_history::{Histories, HistoryFault};
use pseudo_time::{Decision, NodeKind};
use std::alloc::{AllocError, Global};
use std::test::*;
use std::{fs, process};
use value_form::Value;
use version_store::Store;

/// An effect of a log, on the object of the rows.
#[derive(Clone, Copy)]
enum Row {
    Begin(u64),
    Put(Time, i64),
    Decide(u64, bool),
}

fn effect_of(row: Row) -> Result<Effect, HistoryFault>
    ensures { IfOk result IsEffect }
{
    match row {
        Row::Begin(clock) => {
            let stamp = time((clock, 1, 1))?.stamp();
            let _in_range = stamp.clock();
            Ok(Effect::Begin { stamp, deadline: 5 })
        }
        Row::Put(at, number) => {
            let start = time(at)?;
            let _in_range = start.stamp();
            let value = Value::Number(number);
            Ok(Effect::Put {
                object: OBJECT,
                start,
                value,
            })
        }
        Row::Decide(clock, committed) => {
            let stamp = time((clock, 1, 1))?.stamp();
            let _in_range = stamp.clock();
            let decision = if committed {
                Decision::Committed
            } else {
                Decision::Withdrawn
            };
            Ok(Effect::Decide { stamp, decision })
        }
    }
}

fn effects_of(alloc: Global, rows: &[Row]) -> Result<Vec<Effect>, HistoryFault>
    ensures { IfOk result (λ v. AreEffects v.items) }
{
    let mut effects = Vec::new(alloc);
    for row in rows {
        effects.push(effect_of(*row)?)?;
    }
    Ok(effects)
}

// A table of a store whose first page has the first rows, and whose second page has the others.
fn stored<M: Medium>(
    alloc: Global,
    medium: M,
    first: &[Row],
    others: &[Row],
) -> Result<HeaderTable<M>, HistoryFault>
    requires { M.is_failed medium ≡ false }
{
    let begun = effects_of(alloc, first)?;
    let added = effects_of(alloc, others)?;
    let Ok((store, _)) = Store::open(alloc, medium) else {
        return Err(HistoryFault::Medium);
    };
    let Ok(store) = store.append(&begun) else {
        return Err(HistoryFault::Medium);
    };
    let Ok(store) = store.append(&added) else {
        return Err(HistoryFault::Medium);
    };
    let Ok((store, effects)) = Store::open(alloc, store.release()) else {
        return Err(HistoryFault::Medium);
    };
    match HeaderTable::rebuild(alloc, store, &effects) {
        Ok(table) => Ok(table),
        Err(_) => Err(HistoryFault::NoMemory),
    }
}

// One committed write.
const BEGUN: &[Row] = &[Row::Begin(1)];

const WRITTEN: &[Row] = &[Row::Put((1, 1, 1), 10), Row::Decide(1, true)];

// What histories that are not wanted any more say to a last call.
fn said_last<H: Histories + Drop>(histories: H, call: Call) -> Result<Said, HistoryFault> {
    let mut histories = histories;
    asked(&mut histories, call)
}

// The table of one write over a file of this folder.
fn in_file(alloc: Global, rt: &HostRuntime, folder: &str) -> Result<HeaderTable<FileMedium>, Fail> {
    let mut shelf = FileShelf::new(alloc, rt, rt.stderr(), folder)?;
    let Ok(medium) = shelf.take(NodeKind::Repository, 1, 0) else {
        return Err("a file".into());
    };
    let table = stored(alloc, medium, BEGUN, WRITTEN)?;
    Ok(table)
}

// After the table is made, all bytes of the file become 0: the page of the version is damaged.
#[test]
fn a_file_overwritten(rt: HostRuntime) -> Result<(), Fail> {
    let alloc = rt.alloc();
    let folder = format!(in alloc; "/tmp/swallow-headers-{}", process::id(rt.process()))?;
    let path = format!(in alloc; "{}/repository-1-0", folder.as_str())?;
    let lock = format!(in alloc; "{}/lock", folder.as_str())?;
    let table = in_file(alloc, &rt, folder.as_str())?;
    let zeros = [0u8; 16384];
    let written = fs::write(&rt, path.as_str(), &zeros).is_ok();
    assert!(rt; written);
    let got = said_last(table, Call::Read((2, 1, 1)));
    assert_eq!(rt; got, Err(HistoryFault::Damaged { page: 1 }));
    let removed = fs::remove_file(&rt, path.as_str()).is_ok();
    assert!(rt; removed);
    let removed = fs::remove_file(&rt, lock.as_str()).is_ok();
    assert!(rt; removed);
    let removed = fs::remove_dir(&rt, folder.as_str()).is_ok();
    assert!(rt; removed);
    Ok(())
}
