//! Cases of stores: appends, stops and openings.
ghost use Rattle.std.specs.Prelude.{◌≡◌, ◌<◌, ◌≤◌, false, IfOk, IfSome};
ghost use Rattle.medium_port.specs.MemoryMedia.{failed_in, pages_of};
ghost use Rattle.effect_form.specs.Effects.{IsEffect, AreEffects};
ghost use Rattle.version_store.specs.StoreWords.{medium_of};

use effect_form::{Effect, Place};
use medium_port::{Medium, MediumFault, MeetShelf, MemoryMedium, Shelf, Stop};
use pseudo_time::{NodeKind, PseudoTime, Stamp};
use std::alloc::{AllocError, Global};
use std::test::*;
use value_form::{ObjectId, Value};
use version_store::{FetchFault, Store};

// An effect of 35 bytes.
fn put(number: u32, clock: u64, value: i64) -> Option<Effect>
    ensures { IfSome result (λ e. IsEffect e) }
{
    let stamp = Stamp::new(clock, 1, 1)?;
    let start = PseudoTime::new(stamp, 1)?;
    let object = ObjectId {
        repository: 1,
        number,
    };
    Some(Effect::Put {
        object,
        start,
        value: Value::Number(value),
    })
}

fn medium(alloc: Global, pages: u32, stop: Option<Stop>) -> Result<MemoryMedium, AllocError>
    requires some { 1 ≤ pages }
    requires most { pages ≤ 1048576 }
    ensures open { IfOk result (λ m. failed_in m ≡ false) }
    ensures size { IfOk result (λ m. pages_of m ≡ pages) }
{
    let mut stops = Vec::new(alloc);
    if let Some(stop) = stop {
        stops.push(stop)?;
    }
    let medium = MemoryMedium::new(alloc, pages, stops)?;
    Ok(medium)
}

/// A page, an offset, and what is put there.
type Step = (u32, u16, i64);

// The newest puts of an object, by back places, and the back place of the last of them.
fn walk<M: Medium>(
    store: &mut Store<M>,
    object: ObjectId,
) -> Result<([Step; 3], Option<Place>), FetchFault>
    requires untold { M.tells ≡ false }
    requires open { M.is_failed (medium_of store.old) ≡ false }
{
    let mut steps = [(0, 0, 0); 3];
    let mut at = store.last(object);
    for index in 0..3 {
        let Some(place) = at else {
            return Ok((steps, None));
        };
        let (effect, back) = store.fetch(place)?;
        if let Effect::Put {
            value: Value::Number(value),
            ..
        } = effect
        {
            steps[index] = (place.page, place.offset, value);
        }
        at = back;
    }
    Ok((steps, at))
}

const SEVEN: ObjectId = ObjectId {
    repository: 1,
    number: 7,
};

/// Never put.
const NINE: ObjectId = ObjectId {
    repository: 1,
    number: 9,
};

// A store with puts of 10, 20 and 30 on object 1.7, the last two by one call.
fn three_puts<M: Medium>(alloc: Global, medium: M) -> Result<Store<M>, FetchFault>
    requires open { M.is_failed medium ≡ false }
    ensures open { IfOk result (λ s. M.is_failed (medium_of s) ≡ false) }
    ensures size { IfOk result (λ s. M.page_count (medium_of s) ≡ M.page_count medium) }
{
    let Ok((store, _)) = Store::open(alloc, medium) else {
        return Err(FetchFault::Medium);
    };
    let Some(first) = two(alloc, put(7, 1, 10), put(8, 2, 1)) else {
        return Err(FetchFault::NoMemory);
    };
    let Some(second) = two(alloc, put(7, 3, 20), put(7, 4, 30)) else {
        return Err(FetchFault::NoMemory);
    };
    let Ok(store) = store.append(&first) else {
        return Err(FetchFault::Medium);
    };
    let Ok(store) = store.append(&second) else {
        return Err(FetchFault::Medium);
    };
    Ok(store)
}

fn two(alloc: Global, one: Option<Effect>, other: Option<Effect>) -> Option<Vec<Effect>>
    requires one { IfSome one (λ e. IsEffect e) }
    requires other { IfSome other (λ e. IsEffect e) }
    ensures { IfSome result (λ v. AreEffects v.items) }
{
    let mut effects = Vec::new(alloc);
    let Ok(()) = effects.push(one?) else {
        return None;
    };
    let Ok(()) = effects.push(other?) else {
        return None;
    };
    Some(effects)
}

// The newest puts of an object in such a store.
fn walked<M: Medium>(
    alloc: Global,
    medium: M,
    object: ObjectId,
) -> Result<([Step; 3], Option<Place>), FetchFault>
    requires untold { M.tells ≡ false }
    requires open { M.is_failed medium ≡ false }
{
    let mut store = three_puts(alloc, medium)?;
    walk(&mut store, object)
}

// Whether such a store has a first put of object 1.7 at a place.
fn first_at<M: Medium>(alloc: Global, medium: M, place: Place) -> Result<bool, FetchFault>
    requires untold { M.tells ≡ false }
    requires open { M.is_failed medium ≡ false }
{
    if place.page >= medium.pages() {
        return Ok(false);
    }
    let mut store = three_puts(alloc, medium)?;
    let (effect, back) = store.fetch(place)?;
    Ok(back.is_none() && put_object(effect) == Some(SEVEN))
}

fn put_object(effect: Effect) -> Option<ObjectId> {
    match effect {
        Effect::Put { object, .. } => Some(object),
        _ => None,
    }
}

// The same over a medium that tells no content.
fn walked_there(alloc: Global, object: ObjectId) -> Result<([Step; 3], Option<Place>), FetchFault> {
    let Ok(mut shelf) = MeetShelf::new(alloc, 4, 0) else {
        return Err(FetchFault::NoMemory);
    };
    let Ok(medium) = shelf.take(NodeKind::Broker, 1, 0) else {
        return Err(FetchFault::Medium);
    };
    walked(alloc, medium, object)
}

fn first_there(alloc: Global, page: u32, offset: u16) -> Result<bool, FetchFault> {
    let Ok(mut shelf) = MeetShelf::new(alloc, 4, 0) else {
        return Err(FetchFault::NoMemory);
    };
    let Ok(medium) = shelf.take(NodeKind::Broker, 1, 0) else {
        return Err(FetchFault::Medium);
    };
    first_at(alloc, medium, Place { page, offset })
}

#[test]
fn puts_by_back_places(rt: HostRuntime) -> Result<(), Fail> {
    let alloc = rt.alloc();
    let steps = [(1, 40, 30), (1, 5, 20), (0, 5, 10)];
    assert_eq!(rt; walked_there(alloc, SEVEN), Ok((steps, None)));
    assert_eq!(rt; walked_there(alloc, NINE), Ok(([(0, 0, 0); 3], None)));
    Ok(())
}

/// Where an effect is fetched, and whether it is the first put of object 1.7.
const FETCHES: [(u32, u16, Result<bool, FetchFault>); 7] = [
    (0, 5, Ok(true)),
    (0, 40, Ok(false)),
    (1, 5, Ok(false)),
    (0, 4, Err(FetchFault::Damaged { page: 0 })),
    (0, 6, Err(FetchFault::Damaged { page: 0 })),
    (0, 75, Err(FetchFault::Damaged { page: 0 })),
    (3, 5, Err(FetchFault::Damaged { page: 3 })),
];

#[test]
fn places_without_an_effect(rt: HostRuntime) -> Result<(), Fail> {
    let alloc = rt.alloc();
    for (page, offset, expected) in FETCHES {
        assert_eq!(rt; first_there(alloc, page, offset), expected);
    }
    Ok(())
}
