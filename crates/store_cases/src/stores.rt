//! A medium in memory, and a store over it.
ghost use Rattle.std.specs.Prelude.{◌≡◌, false};
ghost use Rattle.medium_port.specs.MemoryMedia.{failed_in};
ghost use Rattle.effect_form.specs.Effects.{AreEffects};
ghost use Rattle.version_store.specs.StoreWords.{medium_of};

use crate::pages::on_medium;
use case_setups::stop;
use case_words::{CaseFault, effects, number};
use effect_form::Effect;
use medium_port::{Medium, MemoryMedium, Stop};
use std::alloc::{AllocError, Global};
use std::fmt::Debug;
use version_store::Store;

/// A medium that hasn't failed.
#[derive(Drop)]
pub struct Sound {
    pub medium: MemoryMedium,
    ghost open: { failed_in medium ≡ false },
}

/// A store whose medium hasn't failed.
#[derive(Drop)]
pub struct Kept {
    store: Store<MemoryMedium>,
    ghost open: { failed_in (medium_of store) ≡ false },
}

/// A medium, with its store where it is opened.
#[derive(Drop)]
pub enum Storage {
    /// No medium; the stops of the next one.
    Stops(Vec<Stop>),
    Medium(Sound),
    /// The medium failed, or what stands on it can't be opened.
    Failed(MemoryMedium),
    Store(Kept),
}

/// A blank medium with these stops.
pub fn medium(alloc: Global, pages: u32, stops: Vec<Stop>) -> Result<Sound, CaseFault> {
    if pages < 1 || pages > 1_048_576 {
        return Err(CaseFault::Place);
    }
    let medium = MemoryMedium::new(alloc, pages, stops)?;
    Ok(Sound { medium })
}

// What a line comes to, where memory is there for what it prints.
fn told(
    storage: Storage,
    said: Result<String, AllocError>,
) -> Result<(Storage, String), CaseFault> {
    match said {
        Ok(said) => Ok((storage, said)),
        Err(_) => Err(CaseFault::NoMemory),
    }
}

// What is printed of a call that failed.
fn failed(alloc: Global, medium: MemoryMedium) -> Result<(Storage, String), CaseFault> {
    told(Storage::Failed(medium), format!(in alloc; "  medium\n"))
}

// What the log of a store has.
fn found_text(alloc: Global, effects: usize, left: u32) -> Result<String, AllocError> {
    format!(in alloc; "  {effects} effects, {left} pages left\n")
}

// How many pages of a store are left.
fn left_text(alloc: Global, left: u32) -> Result<String, AllocError> {
    format!(in alloc; "  {left} pages left\n")
}

// Why a call on a store failed.
fn fault_text<T: Debug>(alloc: Global, fault: &T) -> Result<String, AllocError> {
    format!(in alloc; "  {fault:?}\n")
}

// The store of what stands on the medium.
fn open(alloc: Global, sound: Sound) -> Result<(Storage, String), CaseFault> {
    let Sound { medium } = sound;
    match Store::open(alloc, medium) {
        Ok((store, found)) => {
            let said = found_text(alloc, found.len(), store.pages_left());
            told(Storage::Store(Kept { store }), said)
        }
        Err((medium, fault)) => told(Storage::Failed(medium), fault_text(alloc, &fault)),
    }
}

// So many times the words.
fn repeated<'a>(
    alloc: Global,
    times: usize,
    words: &[&'a str],
) -> Result<Vec<&'a str>, AllocError> {
    let mut all = Vec::new(alloc);
    for _ in 0..times {
        all.extend_from_slice(words)?;
    }
    Ok(all)
}

// Adds effects to a store by one call.
fn add(alloc: Global, kept: Kept, effects: &[Effect]) -> Result<(Storage, String), CaseFault>
    requires { AreEffects effects.now }
{
    let Kept { store } = kept;
    match store.append(effects) {
        Ok(store) => {
            let said = left_text(alloc, store.pages_left());
            told(Storage::Store(Kept { store }), said)
        }
        Err((medium, fault)) => told(Storage::Failed(medium), fault_text(alloc, &fault)),
    }
}

// Adds effects by one call, so many times those that the words are.
fn append(
    alloc: Global,
    storage: Storage,
    times: &str,
    words: &[&str],
) -> Result<(Storage, String), CaseFault> {
    let Storage::Store(kept) = storage else {
        return Err(CaseFault::Subject);
    };
    let words = repeated(alloc, number(times)?, words)?;
    let added = effects(alloc, words.as_slice())?;
    add(alloc, kept, added.as_slice())
}

// The medium is opened anew after a crash.
fn reopen(alloc: Global, medium: MemoryMedium) -> Result<(Storage, String), CaseFault> {
    let mut medium = medium;
    match medium.reopen() {
        Ok(()) => Ok((Storage::Medium(Sound { medium }), String::new(alloc))),
        Err(_) => failed(alloc, medium),
    }
}

// What comes of a line on a medium that hasn't failed.
fn on_sound(
    alloc: Global,
    sound: Sound,
    verb: &str,
    words: &[&str],
) -> Result<(Storage, String), CaseFault> {
    if verb == "open" && words.is_empty() {
        return open(alloc, sound);
    }
    let Sound { mut medium } = sound;
    match on_medium(alloc, &mut medium, verb, words)? {
        Some(said) => Ok((Storage::Medium(Sound { medium }), said)),
        None => failed(alloc, medium),
    }
}

impl Storage {
    /// No medium, and no stops of the next one.
    pub fn nothing(alloc: Global) -> Storage {
        Storage::Stops(Vec::new(alloc))
    }

    /// The medium, if it hasn't failed.
    pub fn sound(self) -> Result<Sound, CaseFault> {
        match self {
            Storage::Medium(sound) => Ok(sound),
            Storage::Store(Kept { store }) => Ok(Sound {
                medium: store.release(),
            }),
            _ => Err(CaseFault::Subject),
        }
    }

    // The stops of the next medium.
    fn stops(self, alloc: Global) -> Vec<Stop> {
        match self {
            Storage::Stops(stops) => stops,
            _ => Vec::new(alloc),
        }
    }

    // One more stop of the next medium.
    fn stop(self, alloc: Global, words: &[&str]) -> Result<(Storage, String), CaseFault> {
        let mut stops = self.stops(alloc);
        stops.push(stop(words)?)?;
        Ok((Storage::Stops(stops), String::new(alloc)))
    }

    // A medium with the stops that were said.
    fn begin(self, alloc: Global, pages: &str) -> Result<(Storage, String), CaseFault> {
        let sound = medium(alloc, number(pages)?, self.stops(alloc))?;
        Ok((Storage::Medium(sound), String::new(alloc)))
    }

    // After a crash, whatever was opened.
    fn crash(self, alloc: Global) -> Result<(Storage, String), CaseFault> {
        match self {
            Storage::Medium(Sound { medium }) => reopen(alloc, medium),
            Storage::Store(Kept { store }) => reopen(alloc, store.release()),
            Storage::Failed(medium) => reopen(alloc, medium),
            Storage::Stops(_) => Err(CaseFault::Subject),
        }
    }

    /// What comes of a line on a medium or on a store.
    pub fn come_of(self, alloc: Global, words: &[&str]) -> Result<(Storage, String), CaseFault> {
        match words {
            ["stop", words @ ..] => self.stop(alloc, words),
            ["medium", pages] => self.begin(alloc, pages),
            ["crash"] => self.crash(alloc),
            ["append", times, words @ ..] => append(alloc, self, times, words),
            [verb, words @ ..] => on_sound(alloc, self.sound()?, verb, words),
            [] => Err(CaseFault::Line),
        }
    }
}
