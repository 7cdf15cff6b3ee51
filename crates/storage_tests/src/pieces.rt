//! Cases of effects that fill more than one page.
ghost use Rattle.std.specs.Prelude.{◌≡◌, ◌≤◌, false, IfOk, IfSome};
ghost use Rattle.medium_port.specs.MemoryMedia.{failed_in, pages_of};
ghost use Rattle.effect_form.specs.Effects.{IsEffect, AreEffects};
ghost use Rattle.value_form.specs.ValueBytes.{IsValue};

use effect_form::{Effect, Place};
use medium_port::{Medium, MediumFault, MemoryMedium, Stop, StopAt};
use pseudo_time::{PseudoTime, Stamp};
use std::alloc::{AllocError, Global};
use std::test::*;
use value_form::{ObjectId, Value};
use version_store::{OpenFault, Store};

// A text of so many bytes, of which there are more than 1,000, as it is read.
fn long_text(alloc: Global, size: u32) -> Result<Option<Value>, AllocError>
    ensures { IfOk result (λ o. IfSome o (λ v. IsValue v)) }
{
    let mut bytes = Vec::new(alloc);
    bytes.push(3)?;
    bytes.extend_from_slice(&size.to_be_bytes())?;
    for _ in 0..size {
        bytes.push(b'0')?;
    }
    match Value::read(alloc, bytes.as_slice()) {
        Ok((value, _)) => Ok(Some(value)),
        Err(_) => Ok(None),
    }
}

// The put of a text of so many bytes on object 1.1 at 1.1.1/1.
fn long_put(alloc: Global, size: u32) -> Result<Option<Effect>, AllocError>
    ensures { IfOk result (λ o. IfSome o (λ e. IsEffect e)) }
{
    let Some(value) = long_text(alloc, size)? else {
        return Ok(None);
    };
    let Some(stamp) = Stamp::new(1, 1, 1) else {
        return Ok(None);
    };
    let Some(start) = PseudoTime::new(stamp, 1) else {
        return Ok(None);
    };
    let object = ObjectId {
        repository: 1,
        number: 1,
    };
    Ok(Some(Effect::Put {
        object,
        start,
        value,
    }))
}

// One effect, or none where it isn't there.
fn one(alloc: Global, effect: Option<Effect>) -> Result<Vec<Effect>, AllocError>
    requires { IfSome effect (λ e. IsEffect e) }
    ensures { IfOk result (λ v. AreEffects v.items) }
{
    let mut effects = Vec::new(alloc);
    if let Some(effect) = effect {
        effects.push(effect)?;
    }
    Ok(effects)
}

fn begin() -> Option<Effect>
    ensures { IfSome result (λ e. IsEffect e) }
{
    let stamp = Stamp::new(1, 1, 1)?;
    Some(Effect::Begin { stamp, deadline: 9 })
}

fn medium(alloc: Global, pages: u32, stop: Option<Stop>) -> Result<MemoryMedium, AllocError>
    requires some { 1 ≤ pages }
    requires most { pages ≤ 1048576 }
    ensures open { IfOk result (λ m. failed_in m ≡ false) }
    ensures size { IfOk result (λ m. pages_of m ≡ pages) }
{
    let mut stops = Vec::new(alloc);
    if let Some(stop) = stop {
        stops.push(stop)?;
    }
    let medium = MemoryMedium::new(alloc, pages, stops)?;
    Ok(medium)
}

// The first five bytes of a page.
fn head(medium: &mut MemoryMedium, page: u32) -> Result<[u8; 5], MediumFault>
    requires { failed_in medium.old ≡ false }
    ensures { IfOk result (λ _. failed_in medium.new ≡ false) }
{
    if page >= medium.pages() {
        return Err(MediumFault);
    }
    let mut bytes = [0; 4096];
    medium.read(page, &mut bytes)?;
    Ok([bytes[0], bytes[1], bytes[2], bytes[3], bytes[4]])
}

// The pages left after a Begin, a put of a text of 40,960 bytes and a Begin, each by a call of its own,
// and the first five bytes of pages 1, 2, 11 and 12.
fn written(alloc: Global) -> Result<(u32, [[u8; 5]; 4]), MediumFault> {
    let (Ok(first), Ok(put), Ok(medium)) = (
        one(alloc, begin()),
        long_put(alloc, 40_960),
        medium(alloc, 14, None),
    ) else {
        return Err(MediumFault);
    };
    let Ok(long) = one(alloc, put) else {
        return Err(MediumFault);
    };
    let Ok((store, _)) = Store::open(alloc, medium) else {
        return Err(MediumFault);
    };
    let Ok(store) = store.append(&first) else {
        return Err(MediumFault);
    };
    let Ok(store) = store.append(&long) else {
        return Err(MediumFault);
    };
    let Ok(store) = store.append(&first) else {
        return Err(MediumFault);
    };
    let left = store.pages_left();
    let mut medium = store.release();
    let heads = [
        head(&mut medium, 1)?,
        head(&mut medium, 2)?,
        head(&mut medium, 11)?,
        head(&mut medium, 12)?,
    ];
    Ok((left, heads))
}

#[test]
fn long_effect_has_pages_of_its_own(rt: HostRuntime) -> Result<(), Fail> {
    let alloc = rt.alloc();
    let heads = [
        [0xA5, 2, 0x0F, 0xFB, 1],
        [0xA5, 2, 0x0F, 0xFB, 2],
        [0xA5, 2, 0, 81, 3],
        [0xA5, 2, 0, 19, 0],
    ];
    assert_eq!(rt; written(alloc), Ok((1, heads)));
    Ok(())
}

// How many effects are found after the put stopped at page 6, how many pages are left then, and how many
// effects are found once it was put again.
fn after_stop(alloc: Global) -> Result<(usize, u32, usize, u32), MediumFault> {
    let stop = Stop {
        at: StopAt::Write { page: 6, at: 1 },
        keep: 0,
        fill: 0xFF,
    };
    let (Ok(first), Ok(put), Ok(medium)) = (
        one(alloc, begin()),
        long_put(alloc, 40_960),
        medium(alloc, 20, Some(stop)),
    ) else {
        return Err(MediumFault);
    };
    let Ok(long) = one(alloc, put) else {
        return Err(MediumFault);
    };
    let Ok((store, _)) = Store::open(alloc, medium) else {
        return Err(MediumFault);
    };
    let Ok(store) = store.append(&first) else {
        return Err(MediumFault);
    };
    let Err((mut medium, _)) = store.append(&long) else {
        return Err(MediumFault);
    };
    medium.reopen()?;
    let Ok((store, found)) = Store::open(alloc, medium) else {
        return Err(MediumFault);
    };
    let left = store.pages_left();
    let Ok(store) = store.append(&long) else {
        return Err(MediumFault);
    };
    let Ok((store, again)) = Store::open(alloc, store.release()) else {
        return Err(MediumFault);
    };
    Ok((found.len(), left, again.len(), store.pages_left()))
}

#[test]
fn pieces_that_a_crash_cut_give_nothing(rt: HostRuntime) -> Result<(), Fail> {
    let alloc = rt.alloc();
    assert_eq!(rt; after_stop(alloc), Ok((1, 13, 2, 2)));
    Ok(())
}

// A medium of two pages on which these bytes stand at the front of the first one and of the second.
fn opened(alloc: Global, first: &[u8; 24], second: &[u8; 24]) -> Result<usize, OpenFault> {
    let Ok(mut medium) = medium(alloc, 3, None) else {
        return Err(OpenFault::NoMemory);
    };
    if medium.write(0, 0, first).is_err() || medium.write(1, 0, second).is_err() {
        return Err(OpenFault::Medium);
    }
    match Store::open(alloc, medium) {
        Ok((_, found)) => Ok(found.len()),
        Err((_, fault)) => Err(fault),
    }
}

/// A Begin of 19 bytes behind the format byte 01, and behind the format byte 02 with each piece byte.
const OLD: [u8; 24] = [
    0xA5, 1, 0, 19, 3, 0, 0, 0, 0, 0, 0, 0, 1, 1, 1, 0, 0, 0, 0, 0, 0, 0, 9, 0,
];

const NEW: [u8; 24] = [
    0xA5, 2, 0, 19, 0, 3, 0, 0, 0, 0, 0, 0, 0, 1, 1, 1, 0, 0, 0, 0, 0, 0, 0, 9,
];

const LAST: [u8; 24] = [
    0xA5, 2, 0, 19, 3, 3, 0, 0, 0, 0, 0, 0, 0, 1, 1, 1, 0, 0, 0, 0, 0, 0, 0, 9,
];

const OTHER: [u8; 24] = [
    0xA5, 2, 0, 19, 4, 3, 0, 0, 0, 0, 0, 0, 0, 1, 1, 1, 0, 0, 0, 0, 0, 0, 0, 9,
];

const LATER: [u8; 24] = [
    0xA5, 3, 0, 19, 0, 3, 0, 0, 0, 0, 0, 0, 0, 1, 1, 1, 0, 0, 0, 0, 0, 0, 0, 9,
];

#[test]
fn both_forms_of_page(rt: HostRuntime) -> Result<(), Fail> {
    let alloc = rt.alloc();
    assert_eq!(rt; opened(alloc, &OLD, &NEW), Ok(2));
    assert_eq!(rt; opened(alloc, &NEW, &OLD), Ok(2));
    assert_eq!(rt;
        opened(alloc, &OLD, &LAST),
        Err(OpenFault::Damaged { page: 1 })
    );
    assert_eq!(rt;
        opened(alloc, &OTHER, &OLD),
        Err(OpenFault::Damaged { page: 0 })
    );
    assert_eq!(rt;
        opened(alloc, &NEW, &LATER),
        Err(OpenFault::Damaged { page: 1 })
    );
    Ok(())
}

// Whether the longest put there is, alone in a store of 18 pages, is fetched again from its place.
fn fetched(alloc: Global) -> Result<bool, MediumFault> {
    let (Ok(put), Ok(medium)) = (long_put(alloc, 65_536), medium(alloc, 18, None)) else {
        return Err(MediumFault);
    };
    let Ok(long) = one(alloc, put) else {
        return Err(MediumFault);
    };
    let Ok((store, _)) = Store::open(alloc, medium) else {
        return Err(MediumFault);
    };
    let Ok(store) = store.append(&long) else {
        return Err(MediumFault);
    };
    if store.pages_left() != 1 {
        return Ok(false);
    }
    let Some(place) = store.last(ObjectId {
        repository: 1,
        number: 1,
    }) else {
        return Ok(false);
    };
    if place != (Place { page: 0, offset: 5 }) {
        return Ok(false);
    }
    let Ok((_, found)) = Store::open(alloc, store.release()) else {
        return Err(MediumFault);
    };
    Ok(found.as_slice() == long.as_slice())
}

#[test]
fn longest_put_has_seventeen_pages(rt: HostRuntime) -> Result<(), Fail> {
    let alloc = rt.alloc();
    assert_eq!(rt; fetched(alloc), Ok(true));
    Ok(())
}
