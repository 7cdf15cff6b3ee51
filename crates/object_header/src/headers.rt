//! Histories in version storage: a header for each object, and its chain of versions.
ghost use Rattle.std.specs.Prelude.{◌≡◌, ◌≢◌, ◌≤◌, ◌<◌, ◌+◌, [], ◌++◌, ℕ, count_by, length, IsTrue, IfOk, IfErr, IfSome, false, reverse};
ghost use Rattle.stream_port.specs.Causes.{Rose};
ghost use Rattle.medium_port.specs.Image.{Image, Only};
ghost use Rattle.medium_port.specs.Moment.{LeavesOnly};
ghost use Rattle.version_store.specs.Filling.{HasPrefix, KeepsPages, StaysClean, filling};
ghost use Rattle.page_gate.specs.States.{is_blank};
ghost use Rattle.effect_form.specs.Effects.{AreEffects};
ghost use Rattle.repository_log.specs.Logs.{marks};
ghost use Rattle.value_form.specs.ObjectBytes.{IsObject};
ghost use Rattle.value_form.specs.ValueBytes.{IsValue};
ghost use Rattle.object_history.specs.Answers.{read_step, stands_written};
ghost use Rattle.object_history.specs.Causes.{HasHistoryCause, IsNotDamage};
ghost use Rattle.object_history.specs.Ranges.{IsReadStep};
ghost use Rattle.version_store.specs.StoreWords.{medium_of, left_in, damage_in, effects_in};
ghost use Rattle.object_header.specs.Spans.{passes};
ghost use Rattle.object_header.specs.Heads.{first_put};
ghost use Rattle.object_header.specs.Ledgers.{content, told_medium};

use crate::additions::is_written;
use crate::ledgers::Ledger;
use crate::limits::Limit;
use crate::plans::ReadPlan;
use crate::walks::first_stored;
use effect_form::Effect;
use medium_port::Medium;
use object_history::{HistoryFault, ReadStep};
use pseudo_time::PseudoTime;
use std::alloc::{AllocError, Global};
use value_form::{ObjectId, Value};
use version_store::{FetchFault, Store, StoreFault};

/// Histories kept in version storage: of each object a header, and of its versions what the store
/// has. No values are kept in memory but those that aren't in the store yet.
#[derive(Drop)]
pub struct HeaderTable<M: Medium> {
    pub(crate) alloc: Global,
    pub(crate) ledger: Ledger,
    pub(crate) store: Store<M>,
    /// A call of the medium has failed, so that nothing is fetched any more.
    pub(crate) failed: bool,
    pub ghost sound: { failed ≡ M.is_failed (medium_of store) },
    pub ghost stored: { IsTrue M.tells → effects_in M.reads store ≡ ledger.log },
}

impl<M: Medium> HeaderTable<M> {
    ghost use Rattle.object_header.specs.Tables.{ledger_of, store_of, handed_back};

    /// The table of a store, whose log these effects are. Where memory runs out, the medium comes
    /// back.
    pub fn rebuild(
        alloc: Global,
        store: Store<M>,
        effects: &[Effect],
    ) -> Result<HeaderTable<M>, (M, AllocError)>
        requires open { M.is_failed (medium_of store) ≡ false }
        requires log { IsTrue M.tells → effects_in M.reads store ≡ effects.now }
        requires ranges { AreEffects effects.now }
        ensures content { IfOk result (λ t. content (ledger_of t) ≡ marks (reverse effects.now)) }
        ensures late { IfOk result (λ t. (ledger_of t).late ≡ []) }
        ensures log { IfOk result (λ t. (ledger_of t).log ≡ effects.now) }
        ensures store { IfOk result (λ t. store_of t ≡ store) }
        ensures back { IfErr result (λ e. e.0 ≡ medium_of store) }
    {
        match read_whole(alloc, effects) {
            Err(wanting) => Err((store.release(), wanting)),
            Ok(ledger) => Ok(HeaderTable {
                alloc,
                ledger,
                store,
                failed: false,
            }),
        }
    }

    /// Adds effects to the store whose marks are those that aren't there yet. A refusal hands the
    /// medium back.
    pub fn flush(self, effects: &[Effect]) -> Result<HeaderTable<M>, (M, StoreFault)>
        requires ranges { AreEffects effects.now }
        requires late { marks (reverse effects.now) ≡ (ledger_of self).late }

        // The histories stay, and nothing is late any more.
        ensures content { IfOk result (λ t. content (ledger_of t) ≡ content (ledger_of self)) }
        ensures late { IfOk result (λ t. (ledger_of t).late ≡ []) }
        ensures log { IfOk result (λ t. (ledger_of t).log ≡ (ledger_of self).log ++ effects.now) }
        ensures left { IfOk result (λ t. left_in (store_of t) + length (filling effects.now) ≡ left_in
            (store_of self)) }
        ensures used { IsTrue M.tells →
            IfOk result (λ t. count_by is_blank (M.reads (medium_of (store_of t))) + length (filling effects.now) ≡
            count_by is_blank (M.reads (medium_of (store_of self)))) }
        ensures only { IsTrue M.tells →
            IfOk result (λ t. Only (M.reads (medium_of (store_of t))) (M.may_leave (medium_of (store_of t)))) }

        // Each image that is left has a prefix, at every moment, and only blank pages are written.
        ensures images { IsTrue M.tells → (c : Image) → M.may_leave (handed_back result) c →
            HasPrefix (ledger_of self).log effects.now c }
        ensures any_moment { IsTrue M.tells →
            LeavesOnly M.stages (medium_of (store_of self)) (handed_back result)
            (HasPrefix (ledger_of self).log effects.now) }
        ensures kept { IsTrue M.tells → LeavesOnly M.stages (medium_of (store_of self)) (handed_back result)
            (KeepsPages (M.reads (medium_of (store_of self)))) }
        ensures clean { IsTrue M.tells →
            IfOk result (λ t. StaysClean (M.reads (medium_of (store_of self))) (M.reads (medium_of (store_of t)))) }

        // Full comes only where the pages aren't there, and any fault but Medium before all writing.
        ensures full { IfErr result (λ e. (pages : ℕ) → e.1 ≡ StoreFault.Full pages →
            (pages ≡ M.page_count (medium_of (store_of self))) ×
            (left_in (store_of self) < length (filling effects.now))) }
        ensures full_blank { IsTrue M.tells →
            IfErr result (λ e. (pages : ℕ) → e.1 ≡ StoreFault.Full pages →
            count_by is_blank (M.reads (medium_of (store_of self))) < length (filling effects.now)) }
        ensures nothing { IfErr result (λ e. e.1 ≢ StoreFault.Medium → e.0 ≡ medium_of (store_of self)) }

        ensures damage { IfOk result (λ t. damage_in (store_of t) ≡ damage_in (store_of self)) }
        ensures size { M.page_count (handed_back result) ≡ M.page_count (medium_of (store_of self)) }
        ensures state { IfOk result (λ t. M.is_failed (medium_of (store_of t)) ≡ false) }
        ensures later { M.faults (medium_of (store_of self)) ≤ M.faults (handed_back result) }
        ensures failed { IfErr result (λ e. e.1 ≡ StoreFault.Medium →
            Rose (M.faults (medium_of (store_of self))) (M.faults e.0)) }
    {
        let HeaderTable {
            alloc,
            ledger,
            store,
            failed,
        } = self;
        if failed {
            return Err((store.release(), StoreFault::NoMemory));
        }
        match ledger.flushed(effects) {
            Err(_) => Err((store.release(), StoreFault::NoMemory)),
            Ok(ledger) => match store.append(effects) {
                Err(refused) => Err(refused),
                Ok(store) => Ok(HeaderTable {
                    alloc,
                    ledger,
                    store,
                    failed: false,
                }),
            },
        }
    }

    /// The medium.
    pub fn release(self) -> M
        ensures { result ≡ medium_of (store_of self) }
    {
        let HeaderTable {
            alloc: _,
            ledger: _,
            store,
            failed: _,
        } = self;
        store.release()
    }

    // The start and the value of the newest version that passes, late or stored.
    fn first(
        &mut self,
        object: ObjectId,
        limit: &Limit,
    ) -> Result<Option<(PseudoTime, Value)>, HistoryFault>
        ensures found { IsTrue M.tells →
            IfOk result (λ r. r ≡ first_put (passes (ledger_of self.old).settles limit.now) object
            (content (ledger_of self.old))) }
        ensures in_range { IfOk result (λ r. IfSome r (λ f. IsValue f.1)) }
        ensures sound { IsTrue M.tells → IfErr result IsNotDamage }
        ensures ledger { ledger_of self.new ≡ ledger_of self.old }
        ensures left { left_in (store_of self.new) ≡ left_in (store_of self.old) }
        ensures beneath { told_medium M.tells (M.reads (medium_of (store_of self.new)))
            (M.stages (medium_of (store_of self.new))) ≡
            told_medium M.tells (M.reads (medium_of (store_of self.old))) (M.stages (medium_of (store_of self.old))) }
        ensures cause { HasHistoryCause (M.faults (medium_of (store_of self.old)))
            (M.faults (medium_of (store_of self.new))) (damage_in (store_of self.old))
            (damage_in (store_of self.new)) result }
    {
        if let Some(found) = self.ledger.first_late(object, limit)? {
            return Ok(Some(found));
        }
        if self.failed {
            return Err(HistoryFault::NoMemory);
        }
        match first_stored(&mut self.store, self.ledger.settles(), object, limit) {
            Ok(found) => Ok(found),
            Err(FetchFault::Medium) => {
                self.failed = true;
                Err(HistoryFault::Medium)
            }
            Err(FetchFault::Damaged { page }) => Err(HistoryFault::Damaged { page }),
            Err(FetchFault::NoMemory) => Err(HistoryFault::NoMemory),
        }
    }

    // What a read answers.
    pub(crate) fn answer(
        &mut self,
        object: ObjectId,
        at: PseudoTime,
    ) -> Result<ReadStep, HistoryFault>
        requires object { IsObject object }
        ensures answer { IsTrue M.tells → IfOk result (λ s. s ≡ read_step (content (ledger_of self.old)) object at) }
        ensures in_range { IfOk result IsReadStep }
        ensures sound { IsTrue M.tells → IfErr result IsNotDamage }
        ensures ledger { ledger_of self.new ≡ ledger_of self.old }
        ensures left { left_in (store_of self.new) ≡ left_in (store_of self.old) }
        ensures beneath { told_medium M.tells (M.reads (medium_of (store_of self.new)))
            (M.stages (medium_of (store_of self.new))) ≡
            told_medium M.tells (M.reads (medium_of (store_of self.old))) (M.stages (medium_of (store_of self.old))) }
        ensures cause { HasHistoryCause (M.faults (medium_of (store_of self.old)))
            (M.faults (medium_of (store_of self.new))) (damage_in (store_of self.old))
            (damage_in (store_of self.new)) result }
    {
        if self.ledger.is_odd(object) {
            let step = self.ledger.read_odd(object, at)?;
            return Ok(step);
        }
        match self.ledger.plan_read(object, at) {
            ReadPlan::Known(step) => Ok(step),
            ReadPlan::Find { stretch } => {
                let first = self.first(object, &Limit::Below(at))?;
                Ok(self.ledger.answer_first(at, stretch, first))
            }
        }
    }

    // Whether a version that isn't dead has this start and value.
    pub(crate) fn stands_there(
        &mut self,
        object: ObjectId,
        start: PseudoTime,
        value: &Value,
    ) -> Result<bool, HistoryFault>
        requires object { IsObject object }
        requires value { IsValue value.now }
        ensures answer { IsTrue M.tells →
            IfOk result (λ b. b ≡ stands_written (content (ledger_of self.old)) object start value.now) }
        ensures sound { IsTrue M.tells → IfErr result IsNotDamage }
        ensures ledger { ledger_of self.new ≡ ledger_of self.old }
        ensures left { left_in (store_of self.new) ≡ left_in (store_of self.old) }
        ensures beneath { told_medium M.tells (M.reads (medium_of (store_of self.new)))
            (M.stages (medium_of (store_of self.new))) ≡
            told_medium M.tells (M.reads (medium_of (store_of self.old))) (M.stages (medium_of (store_of self.old))) }
        ensures cause { HasHistoryCause (M.faults (medium_of (store_of self.old)))
            (M.faults (medium_of (store_of self.new))) (damage_in (store_of self.old))
            (damage_in (store_of self.new)) result }
    {
        if self.ledger.is_odd(object) {
            let stands = self.ledger.stands_odd(object, start, value)?;
            return Ok(stands);
        }
        if !self.ledger.may_stand(object, start) {
            return Ok(false);
        }
        self.ledger.stands_first(object, start);
        let first = self.first(object, &Limit::UpTo(start))?;
        Ok(is_written(&first, start, value))
    }
}

// What stands in a store with these effects.
fn read_ledger(alloc: Global, effects: &[Effect]) -> Result<Ledger, AllocError>
    ensures log { IfOk result (λ l. l.log ≡ effects.now) }
    ensures late { IfOk result (λ l. l.late ≡ []) }
{
    let mut ledger = Ledger::new(alloc);
    for effect in effects {
        ledger = ledger.with_effect(effect)?;
    }
    Ok(ledger)
}

// With the marks of odd objects.
fn read_whole(alloc: Global, effects: &[Effect]) -> Result<Ledger, AllocError>
    requires { AreEffects effects.now }
    ensures log { IfOk result (λ l. l.log ≡ effects.now) }
    ensures late { IfOk result (λ l. l.late ≡ []) }
{
    let ledger = read_ledger(alloc, effects)?;
    let ledger = ledger.with_whole(effects)?;
    Ok(ledger)
}
