//! A medium in memory, which can stop at any call and tear what was written.
ghost use Rattle.std.specs.Prelude.{◌≡◌, ◌+◌, ◌<◌, ◌≤◌, [], None, Some, true, false, length, is_err, IsTrue, IfOk, OnOk, OnErr};
ghost use Rattle.stream_port.specs.Causes.{HasCause, Rose};
ghost use Rattle.medium_port.specs.Image.{IsImage, IsBlankImage, page_of, Written, Torn, Follows, Only, NoMore};
ghost use Rattle.medium_port.specs.Moment.{LeavesOnly, EitherSide};
ghost use Rattle.medium_port.specs.Disk.{after_stop};

use crate::healths::Health;
use crate::media::{Medium, MediumFault};
use crate::pasts::Past;
use crate::stops::{Stop, take_met};
use std::alloc::{AllocError, Global};
use std::snapshot::Snapshot;

/// A medium in memory. Its stops say which calls fail and what they tear. It keeps its pages and what
/// was written since the last sync; of its past moments contracts alone know.
#[derive(Drop)]
pub struct MemoryMedium {
    alloc: Global,
    past: Past,
    stops: Vec<Stop>,
    calls: u64,
    // The last stop that was met since the last reopening.
    met: Option<Stop>,
    starved: u64,
    health: Health,
    // For contracts alone: a snapshot has no bytes.
    last: Option<(u32, Snapshot<[u8; 4096]>)>,
    ghost some: { 1 ≤ past.count },
    ghost most: { past.count ≤ 1048576 },
}

impl MemoryMedium {
    ghost use Rattle.medium_port.specs.MemoryMedia.{pages_of, reads_of, leaves, events_of, unsynced_of, stops_of, calls_of, pending_of, starved_of, failed_in, faults_in, last_of};

    /// A medium of so many pages that read 0 in every byte, which fails at these stops.
    pub fn new(alloc: Global, pages: u32, stops: Vec<Stop>) -> Result<MemoryMedium, AllocError>
        requires some { 1 ≤ pages }
        requires most { pages ≤ 1048576 }
        ensures count { IfOk result (λ m. pages_of m ≡ pages) }
        ensures blank { IfOk result (λ m. IsImage pages (reads_of m) × IsBlankImage (reads_of m)) }
        ensures only { IfOk result (λ m. Only (reads_of m) (leaves m)) }
        ensures fresh { IfOk result (λ m. (events_of m ≡ []) × (unsynced_of m ≡ [])) }
        ensures stops { IfOk result (λ m. (stops_of m ≡ stops.items) × (calls_of m ≡ 0) × (pending_of m ≡ None)) }
        ensures open { IfOk result (λ m. (failed_in m ≡ false) × (faults_in m ≡ 0)) }
        ensures unread { IfOk result (λ m. last_of m ≡ None) }
        ensures starved { IfOk result (λ m. starved_of m ≡ 0) }
    {
        let past = Past::new(alloc, pages);
        Ok(MemoryMedium {
            alloc,
            past,
            stops,
            calls: 0,
            met: None,
            starved: 0,
            health: Health {
                failed: false,
                faults: 0,
            },
            last: None,
        })
    }

    /// How many calls failed because memory ran out. It stays at 2^64 - 1.
    pub fn starved(&self) -> u64
        ensures { result ≡ starved_of self.now }
    {
        self.starved
    }

    // Fails as at a stop that tears nothing.
    pub(crate) fn refuse(&mut self) -> MediumFault
        ensures pages { pages_of self.new ≡ pages_of self.old }
        ensures last { last_of self.new ≡ last_of self.old }
        ensures failed { failed_in self.new ≡ true }
        ensures starved { starved_of self.new ≡ starved_of self.old }
        ensures cause { (faults_in self.old ≤ faults_in self.new) × Rose (faults_in self.old) (faults_in self.new) }
    {
        self.health.fail()
    }
}

impl Medium for MemoryMedium {
    ghost use Rattle.medium_port.specs.MemoryMedia.{pages_of, reads_of, leaves, stages_of, unsynced_of, pending_of, failed_in, faults_in, last_of, MeetsStops, Writes};
    ghost use Rattle.medium_port.specs.Disk.{replay, only_last, counts_last, reads_left};
    ghost use Rattle.medium_port.specs.Pasts.{first_disk, events_in};

    ghost tells = { true };

    ghost page_count = { pages_of };

    ghost is_failed = { failed_in };

    ghost last_page = { last_of };

    ghost faults = { faults_in };

    ghost reads = { reads_of };

    ghost may_leave = { leaves };

    ghost stages = { stages_of };

    ghost reads_now = { λ m told. reads_left m.past.count
        (replay (first_disk m.past) (events_in m.past)) m.past.held.items m.past.sound m.past.replayed };

    ghost counts_now = { λ m c told now. counts_last m.past.count (first_disk m.past) (events_in m.past) c now };

    ghost only_now = { λ m c told left. only_last m.past.count (first_disk m.past) (events_in m.past) c left };

    ghost shape = { λ m c told left. left.shape };

    fn pages(&self) -> u32 {
        self.past.count
    }

    fn read(&mut self, page: u32, into: &mut [u8; 4096]) -> Result<(), MediumFault>
        requires page { page < pages_of self.old }
        requires open { failed_in self.old ≡ false }
        ensures found { IsTrue true → OnOk result (into.new ≡ page_of (reads_of self.old) page) }
        ensures reads { IsTrue true → reads_of self.new ≡ reads_of self.old }
        ensures crash { IsTrue true → NoMore (leaves self.old) (leaves self.new) }
        ensures time { IsTrue true → stages_of self.new ≡ stages_of self.old }
        ensures last { OnOk result (last_of self.new ≡ Some (page, into.new)) }
        ensures last_err { OnErr result (last_of self.new ≡ last_of self.old) }
        ensures size { pages_of self.new ≡ pages_of self.old }
        ensures state { failed_in self.new ≡ is_err result }
        ensures cause { HasCause (faults_in self.old) (faults_in self.new) result }
        ensures stops { MeetsStops None self.old self.new result }
        ensures pending { OnOk result (pending_of self.new ≡ pending_of self.old) }
        ensures unsynced { unsynced_of self.new ≡ unsynced_of self.old }
    {
        self.calls = self.calls.saturating_add(1);
        if let Some(stop) = take_met(&mut self.stops, self.calls, None) {
            self.met = Some(stop);
            return Err(self.health.fail());
        }
        self.past.held.read(page, into);
        self.last = Some((page, Snapshot::of(into)));
        Ok(())
    }

    fn write(&mut self, page: u32, at: u16, bytes: &[u8]) -> Result<(), MediumFault>
        requires page { page < pages_of self.old }
        requires range { at + length bytes.now ≤ 4096 }
        requires open { failed_in self.old ≡ false }
        ensures written { IsTrue true →
            OnOk result (Written page at bytes.now (reads_of self.old) (reads_of self.new)) }
        ensures crash { IsTrue true → Follows (Torn page at (length bytes.now)) (leaves self.old) (leaves self.new) }
        ensures time { IsTrue true → LeavesOnly stages_of self.old self.new
            (EitherSide (leaves self.old) (leaves self.new)) }
        ensures last { last_of self.new ≡ last_of self.old }
        ensures size { pages_of self.new ≡ pages_of self.old }
        ensures state { failed_in self.new ≡ is_err result }
        ensures cause { HasCause (faults_in self.old) (faults_in self.new) result }
        ensures stops { MeetsStops (Some (page, at)) self.old self.new result }
        ensures pending { OnOk result (pending_of self.new ≡ pending_of self.old) }
        // A write that meets a stop is made, and the next reopening tears it.
        ensures done { Writes page at bytes.now self.old self.new result }
    {
        self.calls = self.calls.saturating_add(1);
        let met = take_met(&mut self.stops, self.calls, Some((page, at)));
        if met.is_some() {
            self.met = met;
        }
        if !self.past.write(self.alloc, page, at, bytes) {
            self.starved = self.starved.saturating_add(1);
            return Err(self.health.fail());
        }
        if met.is_some() {
            return Err(self.health.fail());
        }
        Ok(())
    }

    fn sync(&mut self) -> Result<(), MediumFault>
        requires open { failed_in self.old ≡ false }
        ensures durable { IsTrue true → OnOk result (Only (reads_of self.old) (leaves self.new)) }
        ensures reads { IsTrue true → reads_of self.new ≡ reads_of self.old }
        ensures crash { IsTrue true → NoMore (leaves self.old) (leaves self.new) }
        ensures time { IsTrue true → LeavesOnly stages_of self.old self.new
            (EitherSide (leaves self.old) (leaves self.new)) }
        ensures last { last_of self.new ≡ last_of self.old }
        ensures size { pages_of self.new ≡ pages_of self.old }
        ensures state { failed_in self.new ≡ is_err result }
        ensures cause { HasCause (faults_in self.old) (faults_in self.new) result }
        ensures stops { MeetsStops None self.old self.new result }
        ensures pending { OnOk result (pending_of self.new ≡ pending_of self.old) }
        ensures unsynced { OnOk result (unsynced_of self.new ≡ []) }
        ensures unsynced_err { OnErr result (unsynced_of self.new ≡ unsynced_of self.old) }
    {
        self.calls = self.calls.saturating_add(1);
        if let Some(at_sync) = take_met(&mut self.stops, self.calls, None) {
            self.met = Some(at_sync);
            return Err(self.health.fail());
        }
        if !self.past.sync() {
            self.starved = self.starved.saturating_add(1);
            return Err(self.health.fail());
        }
        Ok(())
    }

    fn reopen(&mut self) -> Result<(), MediumFault>
        ensures one { IsTrue true → OnOk result (leaves self.old (reads_of self.new)) }
        ensures crash { IsTrue true → NoMore (leaves self.old) (leaves self.new) }
        ensures time { IsTrue true → LeavesOnly stages_of self.old self.new
            (EitherSide (leaves self.old) (leaves self.new)) }
        ensures last { last_of self.new ≡ last_of self.old }
        ensures size { pages_of self.new ≡ pages_of self.old }
        ensures state { failed_in self.new ≡ is_err result }
        ensures cause { HasCause (faults_in self.old) (faults_in self.new) result }
        ensures stops { MeetsStops None self.old self.new result }
        ensures done { OnOk result (pending_of self.new ≡ None) }
        // The stop that was waiting has torn what was written and not synced.
        ensures torn { OnOk result (reads_of self.new ≡ after_stop (pending_of self.old) (unsynced_of self.old)
            (reads_of self.old)) }
        ensures unsynced { unsynced_of self.new ≡ unsynced_of self.old }
    {
        self.calls = self.calls.saturating_add(1);
        if let Some(stop) = take_met(&mut self.stops, self.calls, None) {
            self.met = Some(stop);
            return Err(self.health.fail());
        }
        if !self.past.reopen(self.met) {
            self.starved = self.starved.saturating_add(1);
            return Err(self.health.fail());
        }
        self.met = None;
        self.health.failed = false;
        Ok(())
    }
}
