//! What a call is given.
ghost use Rattle.std.specs.Prelude.{◌≡◌, false, IfOk};
ghost use Rattle.medium_port.specs.MemoryMedia.{failed_in};

use case_words::CaseFault;
use medium_port::{Medium, MediumName, MemoryMedium, MemoryShelf, Stop, StopAt};
use std::alloc::{AllocError, Global};
use stream_port::FateRule;

/// How many bytes a stream moves a call, and which of its calls fail.
#[derive(Drop)]
pub struct Pace {
    pub most: usize,
    pub fails: Vec<u64>,
}

/// A medium that a call left.
#[derive(Drop)]
pub struct Left {
    pub name: MediumName,
    pub medium: MemoryMedium,
}

/// Bytes on a page of a medium.
#[derive(Drop)]
pub struct Patch {
    pub name: MediumName,
    pub page: u32,
    pub at: u16,
    pub bytes: Vec<u8>,
}

/// What the lines before a call have said.
#[derive(Drop)]
pub struct Setup {
    /// How many pages a blank medium has.
    pub pages: u32,
    /// The media of which something is said.
    names: Vec<MediumName>,
    /// The media of other sizes.
    pub sizes: Vec<(MediumName, u32)>,
    /// The media that can't be taken.
    pub missing: Vec<MediumName>,
    pub stops: Vec<(MediumName, Stop)>,
    /// Stops so many calls behind the call at which they are.
    pub moving: Vec<(MediumName, Stop)>,
    /// The call at which the moving stops are, or 0 where they are at none.
    pub at_call: u64,
    pub patches: Vec<Patch>,
    pub rules: Vec<FateRule>,
    pub source: Pace,
    pub sink: Pace,
    /// The media are those that the call before this one left.
    pub again: bool,
}

impl Setup {
    /// Where nothing was said.
    pub fn new(alloc: Global) -> Setup {
        Setup {
            pages: 64,
            names: Vec::new(alloc),
            sizes: Vec::new(alloc),
            missing: Vec::new(alloc),
            stops: Vec::new(alloc),
            moving: Vec::new(alloc),
            at_call: 0,
            patches: Vec::new(alloc),
            rules: Vec::new(alloc),
            source: Pace {
                most: 4096,
                fails: Vec::new(alloc),
            },
            sink: Pace {
                most: 4096,
                fails: Vec::new(alloc),
            },
            again: false,
        }
    }

    /// The same fates, and nothing else.
    pub fn with_fates(&self, alloc: Global) -> Result<Setup, AllocError> {
        Ok(Setup {
            rules: self.rules.to_vec(alloc)?,
            ..Setup::new(alloc)
        })
    }

    /// Says that something is said of a medium.
    pub fn name(&mut self, name: MediumName) -> Result<(), CaseFault> {
        if !self.names.contains(&name) {
            self.names.push(name)?;
        }
        Ok(())
    }

    fn pages_of(&self, of: MediumName) -> u32 {
        for (name, pages) in &self.sizes {
            if *name == of {
                return *pages;
            }
        }
        self.pages
    }

    fn stops_of(&self, alloc: Global, of: MediumName) -> Result<Vec<Stop>, AllocError> {
        let mut stops = Vec::new(alloc);
        for (name, stop) in &self.stops {
            if *name == of {
                stops.push(*stop)?;
            }
        }
        for (name, stop) in &self.moving {
            if *name == of && self.at_call != 0 {
                stops.push(moved(*stop, self.at_call))?;
            }
        }
        Ok(stops)
    }

    // A medium, with its stops and its bytes.
    fn medium_of(&self, alloc: Global, of: MediumName) -> Result<MemoryMedium, CaseFault>
        ensures { IfOk result (λ m. failed_in m ≡ false) }
    {
        let pages = self.pages_of(of);
        if pages == 0 || pages > 1_048_576 {
            return Err(CaseFault::Pages);
        }
        let mut medium = MemoryMedium::new(alloc, pages, self.stops_of(alloc, of)?)?;
        for patch in &self.patches {
            if patch.name == of {
                medium = patched(medium, patch)?;
            }
        }
        Ok(medium)
    }

    /// The shelf of a call: with the media that were left, reopened, and with those of which something
    /// was said.
    pub fn shelf(&self, alloc: Global, left: Vec<Left>) -> Result<MemoryShelf, CaseFault> {
        if self.pages == 0 || self.pages > 1_048_576 {
            return Err(CaseFault::Pages);
        }
        let mut shelf = MemoryShelf::new(alloc, self.pages);
        for one in left {
            let Left { name, medium } = one;
            put(&mut shelf, name, reopened(medium)?)?;
        }
        for name in &self.names {
            put(&mut shelf, *name, self.medium_of(alloc, *name)?)?;
        }
        for name in &self.missing {
            shelf.fail(name.kind, name.number, name.volume)?;
        }
        Ok(shelf)
    }
}

// A moving stop, so many calls behind this one.
fn moved(stop: Stop, call: u64) -> Stop {
    match stop.at {
        StopAt::Call(behind) => Stop {
            at: StopAt::Call(call.saturating_add(behind)),
            ..stop
        },
        StopAt::Write { .. } => stop,
    }
}

/// A medium once the whole system began anew: its stops at so many calls more are behind it, and it has just
/// the bytes that it was left with.
pub fn restarted(medium: MemoryMedium, calls: u64) -> MemoryMedium {
    let mut medium = medium;
    for _ in 0..=calls.saturating_add(1) {
        // A stop that is met here tears nothing, since nothing is written.
        let _ = medium.reopen();
    }
    medium
}

/// A medium that has no fault.
pub fn reopened(medium: MemoryMedium) -> Result<MemoryMedium, CaseFault>
    ensures { IfOk result (λ m. failed_in m ≡ false) }
{
    let mut medium = medium;
    match medium.reopen() {
        Ok(()) => Ok(medium),
        Err(_) => Err(CaseFault::Medium),
    }
}

fn put(shelf: &mut MemoryShelf, name: MediumName, medium: MemoryMedium) -> Result<(), CaseFault>
    requires { failed_in medium ≡ false }
{
    match shelf.put(name.kind, name.number, name.volume, medium) {
        Ok(()) => Ok(()),
        Err(_) => Err(CaseFault::NoMemory),
    }
}

// The medium with these bytes.
fn patched(medium: MemoryMedium, patch: &Patch) -> Result<MemoryMedium, CaseFault>
    requires { failed_in medium ≡ false }
    ensures { IfOk result (λ m. failed_in m ≡ false) }
{
    let mut medium = medium;
    let bytes = patch.bytes.as_slice();
    if patch.page >= medium.pages() || usize::from(patch.at) + bytes.len() > 4096 {
        return Err(CaseFault::Place);
    }
    if medium.write(patch.page, patch.at, bytes).is_err() || medium.sync().is_err() {
        return Err(CaseFault::Medium);
    }
    Ok(medium)
}
