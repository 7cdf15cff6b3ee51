//! A log of effects on a medium.
ghost use Rattle.std.specs.Prelude.{◌≡◌, ◌≢◌, [], ◌+◌, ℕ, ◌<◌, ◌≤◌, ◌++◌, IsTrue, List, Ok, Err, Some, None, count_by, length, false, IfOk, IfErr, IfSome, OnOk, OnErr};
ghost use Rattle.stream_port.specs.Causes.{Rose, next_count};
ghost use Rattle.medium_port.specs.Image.{Image, Only, NoMore};
ghost use Rattle.medium_port.specs.Moment.{LeavesOnly};
ghost use Rattle.page_form.specs.States.{is_blank};
ghost use Rattle.page_form.specs.Effects.{IsWritten, AreEffects};
ghost use Rattle.page_form.specs.Entries.{Entry, IsBefore, IsIn, Log, last_put};
ghost use Rattle.version_store.specs.Storage.{entries, storage, log_of};
ghost use Rattle.version_store.specs.Filling.{HasPrefix, KeepsPages, StaysClean};
ghost use Rattle.page_form.specs.Filling.{filling};
ghost use Rattle.version_store.specs.Faults.{fails_opening, fails_adding, fails_fetching};
ghost use Rattle.version_store.specs.Fetch.{BackStands, IsLastPut, LastTells, StandsAt, damage_after};
ghost use Rattle.page_form.specs.Heads.{AreBelow, ArePlaces, HeadsFit};
ghost use Rattle.version_store.specs.Rests.{IsAtRest};
ghost use Rattle.version_store.specs.Settled.{IsSettled};

use crate::faults::{FetchFault, OpenFault, StoreFault};
use crate::fetches::find;
use crate::openings::{Found, read_pages};
use crate::writes::write_pages;
use medium_port::Medium;
use page_form::{Effect, ObjectId, Place, lay_out, pages_filled};
use std::alloc::Global;
use std::collections::BTreeMap;

// One more.
fn counted(damage: u64) -> u64
    ensures is { result ≡ next_count damage }
    ensures more { damage ≤ result }
{
    damage.saturating_add(1)
}

/// A log of effects on a medium (Svobodova 1981: version storage is only appended to). Where the
/// medium tells its content, the log is the one that its pages stand for, and a crash leaves it.
///
/// In memory it keeps the place of each object's last Put, and nothing that grows with the log
/// beside this.
#[derive(Drop)]
pub struct Store<M: Medium> {
    alloc: Global,
    medium: M,
    pages: u32,
    // The page that the next effects go to.
    next: u32,
    heads: BTreeMap<ObjectId, Place>,
    damage: u64,
    ghost count: { pages ≡ M.page_count medium },
    ghost most: { pages ≤ 1048576 },
    ghost in_range: { next ≤ pages },
    ghost places: { ArePlaces heads },
    ghost below: { AreBelow pages heads },
    pub ghost settled: { IsTrue M.tells → IsSettled (M.reads medium) (M.may_leave medium) },
    ghost at_rest: { IsTrue M.tells → IsAtRest (log_of (M.reads medium)) next (M.reads medium) (M.may_leave medium) },
    ghost heads_fit: { IsTrue M.tells → HeadsFit heads (log_of (M.reads medium)) },
}

impl<M: Medium> Store<M> {
    ghost use Rattle.version_store.specs.StoreWords.{medium_of, left_in, damage_in, log_in, effects_in, handed, opened};

    /// Opens a medium: syncs it, reads every page once, and gives its effects. It writes nothing, and
    /// a refusal hands the medium back.
    ///
    /// `Damaged` comes exactly where a page is gated and isn't in the form of a page, or has a middle or
    /// last piece without those before it, or a last one with which they aren't one effect, or ends a Put
    /// whose back place isn't that of its object's Put before it, or isn't blank and stands behind a
    /// blank one. It is the first such page, and the last that was read.
    pub fn open(alloc: Global, mut medium: M) -> Result<(Store<M>, Vec<Effect>), (M, OpenFault)>
        requires open { M.is_failed medium ≡ false }

        // Ok comes only where what reads give has a log, whose effects these are.
        ensures storage { IsTrue M.tells → IfOk result (λ r. storage (M.reads medium) ≡ Ok r.1.items) }
        ensures effects { IsTrue M.tells → IfOk result (λ r. effects_in M.reads r.0 ≡ r.1.items) }
        ensures log { IsTrue M.tells → IfOk result (λ r. entries (M.reads medium) ≡ Ok (log_in M.reads r.0)) }

        // What reads give is as before, could be left before, and alone is left after Ok.
        ensures reads { IsTrue M.tells → M.reads (opened result) ≡ M.reads medium }
        ensures was { IsTrue M.tells → IfOk result (λ r. M.may_leave medium (M.reads (medium_of r.0))) }
        ensures only { IsTrue M.tells → IfOk result (λ r. Only (M.reads medium) (M.may_leave (medium_of r.0))) }

        // The first damaged page is reported; over every medium it was read last and isn't blank.
        ensures damaged { IsTrue M.tells → IfErr result (λ e. (page : ℕ) → e.1 ≡ OpenFault.Damaged page →
            storage (M.reads medium) ≡ Err page) }
        ensures shown { IfErr result (λ e. (page : ℕ) → e.1 ≡ OpenFault.Damaged page →
            (bytes : List ℕ) × (M.last_page e.0 ≡ Some (page, bytes)) ×
            (is_blank bytes ≡ false)) }

        // No image is new at any moment.
        ensures images { IsTrue M.tells → NoMore (M.may_leave medium) (M.may_leave (opened result)) }
        ensures any_moment { IsTrue M.tells → LeavesOnly M.stages medium (opened result) (M.may_leave medium) }

        // Over every medium each effect is in its range.
        ensures ranges { IfOk result (λ r. AreEffects r.1.items) }

        ensures undamaged { IfOk result (λ r. damage_in r.0 ≡ 0) }
        ensures size { M.page_count (opened result) ≡ M.page_count medium }
        ensures state { M.is_failed (opened result) ≡ fails_opening result }
        ensures later { M.faults medium ≤ M.faults (opened result) }
        ensures failed { IfErr result (λ e. e.1 ≡ OpenFault.Medium → Rose (M.faults medium) (M.faults e.0)) }
    {
        match medium.sync() {
            Err(_) => Err((medium, OpenFault::Medium)),
            Ok(()) => {
                let pages = medium.pages();
                match read_pages(alloc, &mut medium, pages) {
                    Err(fault) => Err((medium, fault)),
                    Ok(found) => {
                        let Found {
                            heads,
                            effects,
                            held: _,
                            next,
                            ended: _,
                        } = found;
                        let store = Store {
                            alloc,
                            medium,
                            pages,
                            next,
                            heads,
                            damage: 0,
                        };
                        Ok((store, effects))
                    }
                }
            }
        }
    }

    /// Adds the effects in order. A page takes as many of them as fit whole, and none of a call before;
    /// one that is longer than a page has pages of its own. A refusal hands the medium back. No effects
    /// touch no medium.
    ///
    /// A crash at any moment leaves the log with the effects that stand whole in the first of the
    /// call's pages. `Full` comes exactly where the effects need more pages than are blank; it and
    /// `NoMemory` come before anything is written.
    pub fn append(self, effects: &[Effect]) -> Result<Store<M>, (M, StoreFault)>
        requires open { M.is_failed (medium_of self) ≡ false }
        requires ranges { AreEffects effects.now }

        // Ok adds them all, on as many pages as they fill, and that is on the medium.
        ensures added { IsTrue M.tells →
            IfOk result (λ s. effects_in M.reads s ≡ effects_in M.reads self ++ effects.now) }
        ensures log { IsTrue M.tells →
            IfOk result (λ s. (more : Log) × (log_in M.reads s ≡ log_in M.reads self ++ more)) }
        ensures left { IfOk result (λ s. left_in s + length (filling effects.now) ≡ left_in self) }
        ensures used { IsTrue M.tells → IfOk result (λ s.
            count_by is_blank (M.reads (medium_of s)) + length (filling effects.now) ≡ count_by is_blank
            (M.reads (medium_of self))) }
        ensures only { IsTrue M.tells → IfOk result (λ s. Only (M.reads (medium_of s)) (M.may_leave (medium_of s))) }

        // Each image that is left has a prefix, at every moment.
        ensures images { IsTrue M.tells → (c : Image) → M.may_leave (handed result) c →
            HasPrefix (effects_in M.reads self) effects.now c }
        ensures any_moment { IsTrue M.tells →
            LeavesOnly M.stages (medium_of self) (handed result) (HasPrefix (effects_in M.reads self) effects.now) }

        // Only pages that read blank are written, at every moment, and after Ok none of these reads spoiled.
        ensures kept { IsTrue M.tells → (c : Image) → M.may_leave (handed result) c →
            KeepsPages (M.reads (medium_of self)) c }
        ensures kept_then { IsTrue M.tells → LeavesOnly M.stages (medium_of self) (handed result)
            (KeepsPages (M.reads (medium_of self))) }
        ensures clean { IsTrue M.tells →
            IfOk result (λ s. StaysClean (M.reads (medium_of self)) (M.reads (medium_of s))) }

        // Full comes exactly where the pages aren't there, and any fault but Medium before all writing.
        ensures full { IfErr result (λ e. (pages : ℕ) → e.1 ≡ StoreFault.Full pages →
            (pages ≡ M.page_count (medium_of self)) ×
            (left_in self < length (filling effects.now))) }
        ensures full_blank { IsTrue M.tells →
            IfErr result (λ e. (pages : ℕ) → e.1 ≡ StoreFault.Full pages →
            count_by is_blank (M.reads (medium_of self)) < length (filling effects.now)) }
        ensures fits { left_in self < length (filling effects.now) →
            result ≡ Err (medium_of self, StoreFault.Full (M.page_count (medium_of self))) }
        ensures nothing { IfErr result (λ e. e.1 ≢ StoreFault.Medium → e.0 ≡ medium_of self) }
        ensures idle { effects.now ≡ [] → result ≡ Ok self }

        ensures damage { IfOk result (λ s. damage_in s ≡ damage_in self) }
        ensures last { M.last_page (handed result) ≡ M.last_page (medium_of self) }
        ensures size { M.page_count (handed result) ≡ M.page_count (medium_of self) }
        ensures state { M.is_failed (handed result) ≡ fails_adding result }
        ensures later { M.faults (medium_of self) ≤ M.faults (handed result) }
        ensures failed { IfErr result (λ e. e.1 ≡ StoreFault.Medium → Rose (M.faults (medium_of self)) (M.faults e.0)) }
    {
        if effects.is_empty() {
            return Ok(self);
        }
        let needed = pages_filled(effects);
        let Store {
            alloc,
            mut medium,
            pages,
            next,
            mut heads,
            damage,
        } = self;
        if needed > (pages - next) as u128 {
            return Err((medium, StoreFault::Full { pages }));
        }
        match lay_out(alloc, &mut heads, next, effects) {
            Err(_) => Err((medium, StoreFault::NoMemory)),
            Ok(bodies) => match write_pages(&mut medium, next, &bodies) {
                Err(_) => Err((medium, StoreFault::Medium)),
                Ok(()) => Ok(Store {
                    alloc,
                    medium,
                    pages,
                    next: next + needed as u32,
                    heads,
                    damage,
                }),
            },
        }
    }

    /// The effect at a place, and the back place of a Put. After `Medium` the store is only released.
    ///
    /// `Damaged` comes exactly where the page that was read last doesn't have an effect there, or the
    /// piece of it that is due, or where one whose back place isn't before the place ends on it. It has
    /// that page's number. The count of damage rises there and in no other call. It never comes where
    /// the medium tells its content.
    pub fn fetch(&mut self, place: Place) -> Result<(Effect, Option<Place>), FetchFault>
        requires page { place.page < M.page_count (medium_of self.old) }
        requires open { M.is_failed (medium_of self.old) ≡ false }
        requires here { IsTrue M.tells → StandsAt (log_in M.reads self.old) place }

        // It is the log's.
        ensures found { IsTrue M.tells → (e : Entry) (i : ℕ) → IsIn (log_in M.reads self.old) e i → e.place ≡ place →
            IfOk result (λ r. (r.0 ≡ e.effect) × (r.1 ≡ e.back)) }
        ensures back { IsTrue M.tells → IfOk result (λ r. BackStands (log_in M.reads self.new) (r.0, r.1)) }
        ensures sound { IsTrue M.tells → IfErr result (λ f. (page : ℕ) → f ≢ FetchFault.Damaged page) }

        // Over every medium it is what the page tells that was read last, and Damaged says that this is none.
        ensures shown { IfOk result (λ r. (page : ℕ) ×
            LastTells (M.last_page (medium_of self.new)) (M.page_count (medium_of self.new)) page place
            (Some (r.0, r.1))) }
        ensures damaged { IfErr result (λ f. (page : ℕ) → f ≡ FetchFault.Damaged page →
            LastTells (M.last_page (medium_of self.new)) (M.page_count (medium_of self.new)) page place None) }
        ensures before { IfOk result (λ r. IfSome r.1 (λ b. IsBefore b place ×
            (b.page < M.page_count (medium_of self.new)))) }
        // It can be stored again.
        ensures in_range { IfOk result (λ r. IsWritten r) }
        ensures damage { damage_in self.new ≡ damage_after (damage_in self.old) result }
        ensures damage_stays { damage_in self.old ≤ damage_in self.new }

        // The log, the medium's content and the pages left stay.
        ensures reads { IsTrue M.tells → M.reads (medium_of self.new) ≡ M.reads (medium_of self.old) }
        ensures left { left_in self.new ≡ left_in self.old }
        ensures images { IsTrue M.tells → NoMore (M.may_leave (medium_of self.old)) (M.may_leave (medium_of self.new)) }
        // Nothing that crashes see is changed.
        ensures stages { IsTrue M.tells → M.stages (medium_of self.new) ≡ M.stages (medium_of self.old) }
        ensures size { M.page_count (medium_of self.new) ≡ M.page_count (medium_of self.old) }
        ensures state { M.is_failed (medium_of self.new) ≡ fails_fetching result }
        ensures later { M.faults (medium_of self.old) ≤ M.faults (medium_of self.new) }
        ensures failed { IfErr result (λ f. f ≡ FetchFault.Medium →
            Rose (M.faults (medium_of self.old)) (M.faults (medium_of self.new))) }
    {
        match find(self.alloc, &mut self.medium, self.pages, place) {
            Err(fault) => Err(fault),
            Ok(Ok(found)) => Ok(found),
            Ok(Err(page)) => {
                self.damage = counted(self.damage);
                Err(FetchFault::Damaged { page })
            }
        }
    }

    /// The place of the object's last Put in the log. None where it has none.
    pub fn last(&self, object: ObjectId) -> Option<Place>
        ensures within { IfSome result (λ p. p.page < M.page_count (medium_of self.now)) }
        ensures log { IsTrue M.tells → result ≡ last_put (log_in M.reads self.now) object }
        ensures put { IsTrue M.tells → IfSome result (λ p. IsLastPut (log_in M.reads self.now) object p) }
    {
        self.heads.get(&object).copied()
    }

    /// How many pages are blank.
    pub fn pages_left(&self) -> u32
        ensures left { result ≡ left_in self.now }
        ensures most { result ≤ M.page_count (medium_of self.now) }
        ensures blank { IsTrue M.tells → result ≡ count_by is_blank (M.reads (medium_of self.now)) }
    {
        self.pages - self.next
    }

    /// The medium.
    pub fn release(self) -> M
        ensures { result ≡ medium_of self }
    {
        let Store {
            alloc: _,
            medium,
            pages: _,
            next: _,
            heads: _,
            damage: _,
        } = self;
        medium
    }
}
