//! The pages of a medium in memory.
ghost use Rattle.std.specs.Prelude.{◌≡◌, ◌+◌, ◌<◌, ◌≤◌, true, ℕ, length, replicate, slice_index};
ghost use Rattle.medium_port.specs.Image.{IsImage, IsBlankImage, page_of, put_bytes};
ghost use Rattle.medium_port.specs.Stops.{torn_bytes};

use crate::stops::Stop;
use std::alloc::Global;
use std::marker::Model;

// Pages, each of 4,096 bytes, of which those behind the last that is held read 0 in every byte.
#[derive(Drop)]
pub struct HeldPages {
    count: u32,
    front: Vec<[u8; 4096]>,
    ghost few: { length front.items ≤ count },
}

impl Model for HeldPages {
    ghost use Rattle.std.specs.Prelude.{length};
    ghost use Rattle.medium_port.specs.HeldPages.{HeldParts, with_blanks};

    ghost Value = { HeldParts };

    ghost view = { λ p. record { items = with_blanks p.count p.front.items; front = length p.front.items } };
}

pub fn zero_page() -> [u8; 4096]
    ensures is { result ≡ replicate 4096 0 }
    ensures size { length result ≡ 4096 }
    ensures zero { (k : ℕ) → slice_index result k ≡ 0 }
{
    [0; 4096]
}

// Puts what a stop leaves of these bytes in their place.
fn tear(range: &mut [u8], bytes: &[u8], stop: Stop)
    requires { length range.old ≡ length bytes.now }
    ensures { range.new ≡ torn_bytes stop bytes.now }
{
    let kept = bytes.len().min(stop.keep as usize);
    range[..kept].copy_from_slice(&bytes[..kept]);
    range[kept..].fill(stop.fill);
}

fn write_bytes(pages: &mut Vec<[u8; 4096]>, page: u32, at: u16, bytes: &[u8])
    requires page { page < length pages.old.items }
    requires range { at + length bytes.now ≤ 4096 }
    ensures { pages.new.items ≡ put_bytes page at bytes.now pages.old.items }
{
    let start = at as usize;
    let end = start + bytes.len();
    let place = &mut pages[page as usize];
    place[start..end].copy_from_slice(bytes);
}

fn tear_span(pages: &mut Vec<[u8; 4096]>, page: u32, at: u16, bytes: &[u8], stop: Stop)
    requires page { page < length pages.old.items }
    requires range { at + length bytes.now ≤ 4096 }
    ensures { pages.new.items ≡ put_bytes page at (torn_bytes stop bytes.now) pages.old.items }
{
    let from = at as usize;
    let to = from + bytes.len();
    let place = &mut pages[page as usize];
    tear(&mut place[from..to], bytes, stop);
}

impl HeldPages {
    // So many, none of which is held.
    pub fn new(alloc: Global, count: u32) -> HeldPages
        ensures shape { IsImage count result.items }
        ensures blank { IsBlankImage result.items }
        ensures none { result.front ≡ 0 }
    {
        HeldPages {
            count,
            front: Vec::new(alloc),
        }
    }

    // Whether there was memory to hold the pages up to this one.
    pub fn hold(&mut self, page: u32) -> bool
        requires page { page < length self.old.items }
        ensures same { self.new.items ≡ self.old.items }
        ensures more { self.old.front ≤ self.new.front }
        ensures held { result ≡ true → page < self.new.front }
    {
        while self.front.len() <= page as usize {
            if self.front.push(zero_page()).is_err() {
                return false;
            }
        }
        true
    }

    // Gives a page.
    pub fn read(&self, page: u32, into: &mut [u8; 4096])
        requires page { page < length self.now.items }
        ensures { into.new ≡ page_of self.now.items page }
    {
        *into = match self.front.get(page as usize) {
            Some(held) => *held,
            None => zero_page(),
        };
    }

    // Writes bytes from a place of a held page on.
    pub fn put(&mut self, page: u32, at: u16, bytes: &[u8])
        requires page { page < self.old.front }
        requires range { at + length bytes.now ≤ 4096 }
        ensures items { self.new.items ≡ put_bytes page at bytes.now self.old.items }
        ensures front { self.new.front ≡ self.old.front }
    {
        write_bytes(&mut self.front, page, at, bytes);
    }

    // Puts what a stop leaves of these bytes from a place of a held page on.
    pub fn tear(&mut self, page: u32, at: u16, bytes: &[u8], stop: Stop)
        requires page { page < self.old.front }
        requires range { at + length bytes.now ≤ 4096 }
        ensures items { self.new.items ≡ put_bytes page at (torn_bytes stop bytes.now) self.old.items }
        ensures front { self.new.front ≡ self.old.front }
    {
        tear_span(&mut self.front, page, at, bytes, stop);
    }
}
