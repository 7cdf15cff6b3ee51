//! Reads the pages of a medium that is opened.
ghost use Rattle.std.specs.Prelude.{◌≡◌, ◌≢◌, ◌+◌, ◌<◌, ◌≤◌, List, ℕ, IsTrue, true, false, length, Some, Err, IfOk, IfErr, OnOk, MatchBool, if◌then◌else◌};
ghost use Rattle.stream_port.specs.Causes.{Rose};
ghost use Rattle.medium_port.specs.Image.{Image, NoMore};
ghost use Rattle.page_form.specs.States.{is_blank, state_with};
ghost use Rattle.page_form.specs.PageState.TheVariants.{Blank};
ghost use Rattle.version_store.specs.Faults.{fails_reading};
ghost use Rattle.page_form.specs.Effects.{AreEffects};
ghost use Rattle.page_form.specs.Kept.{HeldBelow, HeldFit};
ghost use Rattle.version_store.specs.Found.{Reached, reading_of};
ghost use Rattle.page_form.specs.Heads.{AreBelow, ArePlaces, IsFound};
ghost use Rattle.page_form.specs.Sheets.{Content, Damaged, next};
ghost use Rattle.version_store.specs.Storage.{begun, scan};

use crate::faults::OpenFault;
use medium_port::Medium;
use page_form::{Effect, Gate, Held, ObjectId, Place, add_page, look_into};
use std::alloc::{AllocError, Global};
use std::collections::BTreeMap;

/// What an opening has found so far.
#[derive(Drop)]
pub struct Found {
    pub heads: BTreeMap<ObjectId, Place>,
    pub effects: Vec<Effect>,
    /// An effect that was begun on the last page.
    pub held: Option<Held>,
    /// The page behind the last that isn't blank.
    pub next: u32,
    /// Whether a blank page was read.
    pub ended: bool,
}

// Adds a page with this gate and body to what was found before it. False where no log has such a page here.
fn add_state(
    alloc: Global,
    found: &mut Found,
    page: u32,
    gate: Gate,
    body: &[u8],
) -> Result<bool, AllocError>
    requires page { page < 1048576 }
    requires held { HeldBelow page found.old.held }
    requires places { ArePlaces found.old.heads }
    ensures found { (c : Content) → IsFound found.old.heads found.old.effects.items c.log →
        HeldFit found.old.held c.held →
        IfOk result (λ b. MatchBool b ((more : Content) ×
        (next (reading_of found.old.ended c) page (state_with gate body.now) ≡ reading_of found.new.ended more) ×
        IsFound found.new.heads found.new.effects.items more.log × HeldFit found.new.held more.held)
        (next (reading_of found.old.ended c) page (state_with gate body.now) ≡ Damaged page)) }
    ensures held { OnOk result (HeldBelow (page + 1) found.new.held) }
    ensures next { IfOk result (λ b. b ≡ true →
        found.new.next ≡ (if found.new.ended then found.old.next else page + 1)) }
    ensures marked { IfOk result (λ b. b ≡ false → state_with gate body.now ≢ Blank) }
    ensures places { OnOk result (ArePlaces found.new.heads) }
    ensures below { (limit : ℕ) → page < limit → AreBelow limit found.old.heads →
        OnOk result (AreBelow limit found.new.heads) }
    ensures ranges { AreEffects found.old.effects.items → OnOk result (AreEffects found.new.effects.items) }
{
    match gate {
        Gate::Blank => {
            found.ended = true;
            Ok(true)
        }
        Gate::Spoiled => {
            if found.ended {
                return Ok(false);
            }
            found.next = page + 1;
            found.held = None;
            Ok(true)
        }
        Gate::Open => {
            if found.ended {
                return Ok(false);
            }
            found.next = page + 1;
            let held = found.held.take();
            match add_page(
                alloc,
                &mut found.heads,
                &mut found.effects,
                held,
                page,
                body,
            )? {
                None => Ok(false),
                Some(held) => {
                    found.held = held;
                    Ok(true)
                }
            }
        }
    }
}

/// What the pages of a medium hold, each read once. It stops at the first that no log has there.
pub fn read_pages<M: Medium>(alloc: Global, medium: &mut M, pages: u32) -> Result<Found, OpenFault>
    requires pages { pages ≡ M.page_count medium.old }
    requires most { pages ≤ 1048576 }
    requires open { M.is_failed medium.old ≡ false }
    ensures found { IsTrue M.tells → length (M.reads medium.old) ≡ pages →
        IfOk result (λ f. Reached (M.reads medium.old) pages f.heads f.effects.items f.held f.next f.ended) }
    ensures damaged { IsTrue M.tells → length (M.reads medium.old) ≡ pages →
        IfErr result (λ e. (page : ℕ) → e ≡ OpenFault.Damaged page → scan begun 0 (M.reads medium.old) ≡ Damaged page) }
    ensures shown { IfErr result (λ e. (page : ℕ) → e ≡ OpenFault.Damaged page →
        (bytes : List ℕ) × (M.last_page medium.new ≡ Some (page, bytes)) ×
        (is_blank bytes ≡ false)) }
    ensures within { IfOk result (λ f. f.next ≤ pages) }
    ensures places { IfOk result (λ f. ArePlaces f.heads) }
    ensures below { IfOk result (λ f. AreBelow pages f.heads) }
    ensures ranges { IfOk result (λ f. AreEffects f.effects.items) }
    ensures reads { IsTrue M.tells → M.reads medium.new ≡ M.reads medium.old }
    ensures crash { IsTrue M.tells → NoMore (M.may_leave medium.old) (M.may_leave medium.new) }
    // Nothing that crashes see is changed.
    ensures stages { IsTrue M.tells → M.stages medium.new ≡ M.stages medium.old }
    ensures size { M.page_count medium.new ≡ M.page_count medium.old }
    ensures state { M.is_failed medium.new ≡ fails_reading result }
    ensures later { M.faults medium.old ≤ M.faults medium.new }
    ensures failed { IfErr result (λ e. e ≡ OpenFault.Medium → Rose (M.faults medium.old) (M.faults medium.new)) }
{
    let mut found = Found {
        heads: BTreeMap::new(alloc),
        effects: Vec::new(alloc),
        held: None,
        next: 0,
        ended: false,
    };
    let mut bytes = [0; 4096];
    for page in 0..pages {
        match look_into(medium, page, &mut bytes) {
            Err(_) => return Err(OpenFault::Medium),
            Ok(gate) => match add_state(alloc, &mut found, page, gate, &bytes[1..]) {
                Err(_) => return Err(OpenFault::NoMemory),
                Ok(good) => {
                    if !good {
                        return Err(OpenFault::Damaged { page });
                    }
                }
            },
        }
    }
    Ok(found)
}
