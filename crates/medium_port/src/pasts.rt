//! Everything that a crash may leave on a medium in memory.
ghost use Rattle.std.specs.Prelude.{◌≡◌, ◌+◌, ◌<◌, ◌≤◌, ◌++◌, [], ◌∷◌, ℕ, Option, length, slice_index, true, MatchBool, IfOk, IfSome};
ghost use Rattle.medium_port.specs.Image.{IsImage, IsBlankImage, page_of, put_bytes, Torn, Follows, Only, NoMore};
ghost use Rattle.medium_port.specs.Stops.{torn_bytes};
ghost use Rattle.medium_port.specs.Disk.{replay, disk_of, happened, spans_of, after_stop, damaged, SpansFit, IsSound};
ghost use Rattle.medium_port.specs.declared.events.Event.TheVariants.{Wrote};

use crate::events::{Event, WrittenBytes};
use crate::held_pages::HeldPages;
use crate::stops::Stop;
use std::alloc::Global;
use std::snapshot::Snapshot;

// The pages of a medium in memory, and what was written to them since the last sync. Of all that was
// done to them contracts alone see the rest: a snapshot has no bytes.
#[derive(Drop)]
pub struct Past {
    pub count: u32,
    pub held: HeldPages,
    // The writes since the last sync, also those that a stop met.
    pub unsynced: Vec<Event>,
    pub first: Snapshot<HeldPages>,
    pub events: Vec<Snapshot<Event>>,
    ghost replayed: { held.items ≡ (replay (disk_of first.value.items) (happened events.items)).reads },
    ghost sound: { IsSound count (replay (disk_of first.value.items) (happened events.items)) },
    ghost tied: { spans_of unsynced.items ≡ (replay (disk_of first.value.items) (happened events.items)).unsynced },
    ghost fit: { SpansFit held.front (spans_of unsynced.items) },
}

// Whether there was memory to remember what was done.
fn keep(events: &mut Vec<Snapshot<Event>>, event: &Event) -> bool
    ensures { MatchBool result (happened events.new.items ≡ happened events.old.items ++ event.now ∷ [])
        (events.new.items ≡ events.old.items) }
{
    events.push(Snapshot::of(event)).is_ok()
}

// Whether there was memory to keep an event that wasn't synced yet.
fn add(unsynced: &mut Vec<Event>, events: &mut Vec<Snapshot<Event>>, event: Event) -> bool
    ensures events { MatchBool result (happened events.new.items ≡ happened events.old.items ++ event ∷ [])
        (events.new.items ≡ events.old.items) }
    ensures unsynced { MatchBool result (unsynced.new.items ≡ unsynced.old.items ++ event ∷ [])
        (unsynced.new.items ≡ unsynced.old.items) }
{
    if events.push(Snapshot::of(&event)).is_err() {
        return false;
    }
    if unsynced.push(event).is_err() {
        events.pop();
        return false;
    }
    true
}

// Whether there was memory to keep the bytes of a write.
fn keep_write(
    alloc: Global,
    unsynced: &mut Vec<Event>,
    events: &mut Vec<Snapshot<Event>>,
    page: u32,
    at: u16,
    bytes: &[u8],
) -> bool
    ensures events { MatchBool result (happened events.new.items ≡ happened events.old.items ++
        Wrote page at bytes.now ∷ []) (events.new.items ≡
        events.old.items) }
    ensures unsynced { MatchBool result (unsynced.new.items ≡ unsynced.old.items ++ Wrote page at bytes.now ∷ [])
        (unsynced.new.items ≡ unsynced.old.items) }
{
    match WrittenBytes::copy_of(alloc, bytes) {
        Ok(copy) => add(unsynced, events, Event::Wrote(page, at, copy)),
        Err(_) => false,
    }
}

// Tears what the event wrote.
fn tear_event(pages: &mut HeldPages, event: &Event, stop: Stop)
    requires { SpansFit pages.old.front (spans_of (event.now ∷ [])) }
    ensures torn { pages.new.items ≡ damaged stop (spans_of (event.now ∷ [])) pages.old.items }
    ensures front { pages.new.front ≡ pages.old.front }
{
    if let Event::Wrote(page, at, bytes) = event {
        pages.tear(*page, *at, bytes.as_slice(), stop);
    }
}

// Tears each write among the events.
fn tear_all(pages: &mut HeldPages, events: &[Event], stop: Stop)
    requires { SpansFit pages.old.front (spans_of events.now) }
    ensures torn { pages.new.items ≡ damaged stop (spans_of events.now) pages.old.items }
    ensures front { pages.new.front ≡ pages.old.front }
{
    for event in events {
        tear_event(pages, event, stop);
    }
}

// Tears them where there was a stop.
fn tear_after(pages: &mut HeldPages, events: &[Event], stop: Option<Stop>)
    requires { SpansFit pages.old.front (spans_of events.now) }
    ensures torn { pages.new.items ≡ after_stop stop (spans_of events.now) pages.old.items }
    ensures front { pages.new.front ≡ pages.old.front }
    ensures fill { IfSome stop (λ s. s.fill < 256) }
{
    if let Some(stop) = stop {
        tear_all(pages, events, stop);
    }
}

impl Past {
    ghost use Rattle.medium_port.specs.Pasts.{events_in, unsynced_in, left_now, Grows, IsWrittenTo, IsAsBefore};

    pub fn new(alloc: Global, count: u32) -> Past
        ensures count { result.count ≡ count }
        ensures shape { IsImage count result.held.items }
        ensures blank { IsBlankImage result.held.items }
        ensures fresh { (events_in result ≡ []) × (unsynced_in result ≡ []) }
        ensures only { Only result.held.items (left_now result) }
    {
        let held = HeldPages::new(alloc, count);
        let first = Snapshot::of(&held);
        Past {
            count,
            held,
            unsynced: Vec::new(alloc),
            first,
            events: Vec::new(alloc),
        }
    }

    // Whether there was memory to write.
    pub fn write(&mut self, alloc: Global, page: u32, at: u16, bytes: &[u8]) -> bool
        requires page { page < self.old.count }
        requires range { at + length bytes.now ≤ 4096 }
        ensures done { MatchBool result (IsWrittenTo page at bytes.now self.old self.new)
            (IsAsBefore self.old self.new) }
        ensures crash { Follows (Torn page at (length bytes.now)) (left_now self.old) (left_now self.new) }
        ensures time { Grows self.old self.new }
        ensures count { self.new.count ≡ self.old.count }
    {
        if !self.held.hold(page) {
            return false;
        }
        if !keep_write(alloc, &mut self.unsynced, &mut self.events, page, at, bytes) {
            return false;
        }
        self.held.put(page, at, bytes);
        true
    }

    // Whether there was memory to sync.
    pub fn sync(&mut self) -> bool
        ensures reads { self.new.held.items ≡ self.old.held.items }
        ensures unsynced { MatchBool result (unsynced_in self.new ≡ []) (unsynced_in self.new ≡ unsynced_in self.old) }
        ensures durable { result ≡ true → Only self.old.held.items (left_now self.new) }
        ensures crash { NoMore (left_now self.old) (left_now self.new) }
        ensures time { Grows self.old self.new }
        ensures count { self.new.count ≡ self.old.count }
    {
        if !keep(&mut self.events, &Event::Synced) {
            return false;
        }
        self.unsynced.clear();
        true
    }

    // Whether there was memory to reopen, after this stop.
    pub fn reopen(&mut self, stop: Option<Stop>) -> bool
        ensures reads { MatchBool result (self.new.held.items ≡ after_stop stop
            (unsynced_in self.old) self.old.held.items) (self.new.held.items ≡
            self.old.held.items) }
        ensures unsynced { unsynced_in self.new ≡ unsynced_in self.old }
        ensures one { result ≡ true → left_now self.old self.new.held.items }
        ensures crash { NoMore (left_now self.old) (left_now self.new) }
        ensures time { Grows self.old self.new }
        ensures count { self.new.count ≡ self.old.count }
    {
        if !keep(&mut self.events, &Event::Reopened(stop)) {
            return false;
        }
        tear_after(&mut self.held, self.unsynced.as_slice(), stop);
        true
    }
}
