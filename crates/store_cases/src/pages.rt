//! The calls of a medium in memory that hasn't failed, and of its pages. Each answers what is printed of it, or
//! None where the medium failed.
ghost use Rattle.std.specs.Prelude.{◌≡◌, false, is_err, IfOk, IfSome};
ghost use Rattle.medium_port.specs.MemoryMedia.{failed_in};

use case_words::{CaseFault, bytes, number};
use medium_port::{Medium, MediumFault, MemoryMedium};
use page_gate::{PageState, all_zero, look, put};
use std::alloc::{AllocError, Global};

// What is printed of a call that answers nothing.
fn silent(alloc: Global, answer: Result<(), MediumFault>) -> Option<String>
    ensures { IfSome result (λ _. is_err answer ≡ false) }
{
    match answer {
        Ok(()) => Some(String::new(alloc)),
        Err(_) => None,
    }
}

// The bytes of a page.
fn digits(alloc: Global, bytes: &[u8]) -> Result<String, AllocError> {
    let digits = hex::encode(alloc, bytes)?;
    format!(in alloc; "  bytes {}\n", digits.as_str())
}

// Writes bytes to a page from this place on.
fn write_at(
    alloc: Global,
    medium: &mut MemoryMedium,
    page: u32,
    at: u16,
    bytes: &[u8],
) -> Result<Option<String>, CaseFault>
    requires { failed_in medium.old ≡ false }
    ensures { IfOk result (λ s. IfSome s (λ _. failed_in medium.new ≡ false)) }
{
    if page >= medium.pages() || bytes.len() > 4096 || at as usize > 4096 - bytes.len() {
        return Err(CaseFault::Place);
    }
    match medium.write(page, at, bytes) {
        Ok(()) => Ok(Some(String::new(alloc))),
        Err(_) => Ok(None),
    }
}

fn write(
    alloc: Global,
    medium: &mut MemoryMedium,
    words: &[&str],
) -> Result<Option<String>, CaseFault>
    requires { failed_in medium.old ≡ false }
    ensures { IfOk result (λ s. IfSome s (λ _. failed_in medium.new ≡ false)) }
{
    let [page, at, words @ ..] = words else {
        return Err(CaseFault::Line);
    };
    let bytes = bytes(alloc, words)?;
    write_at(alloc, medium, number(page)?, number(at)?, bytes.as_slice())
}

// So many bytes of a page from this place on.
fn read_at(
    alloc: Global,
    medium: &mut MemoryMedium,
    page: u32,
    at: usize,
    count: usize,
) -> Result<Option<String>, CaseFault>
    requires { failed_in medium.old ≡ false }
    ensures { IfOk result (λ s. IfSome s (λ _. failed_in medium.new ≡ false)) }
{
    if page >= medium.pages() || count > 4096 || at > 4096 - count {
        return Err(CaseFault::Place);
    }
    let mut bytes = [0u8; 4096];
    match medium.read(page, &mut bytes) {
        Ok(()) => Ok(Some(digits(alloc, &bytes[at..at + count])?)),
        Err(_) => Ok(None),
    }
}

fn read(
    alloc: Global,
    medium: &mut MemoryMedium,
    words: &[&str],
) -> Result<Option<String>, CaseFault>
    requires { failed_in medium.old ≡ false }
    ensures { IfOk result (λ s. IfSome s (λ _. failed_in medium.new ≡ false)) }
{
    let [page, at, count] = words else {
        return Err(CaseFault::Line);
    };
    read_at(alloc, medium, number(page)?, number(at)?, number(count)?)
}

// What was written is kept from now on.
fn sync(
    alloc: Global,
    medium: &mut MemoryMedium,
    words: &[&str],
) -> Result<Option<String>, CaseFault>
    requires { failed_in medium.old ≡ false }
    ensures { IfOk result (λ s. IfSome s (λ _. failed_in medium.new ≡ false)) }
{
    if !words.is_empty() {
        return Err(CaseFault::Line);
    }
    Ok(silent(alloc, medium.sync()))
}

// The state of a page, with the first bytes of its body.
fn state_text(alloc: Global, state: &PageState) -> Result<String, AllocError> {
    match state {
        PageState::Blank => format!(in alloc; "  blank\n"),
        PageState::Spoiled => format!(in alloc; "  spoiled\n"),
        PageState::Gated(body) => {
            format!(in alloc; "  gated {}\n", hex::encode(alloc, &body[..4])?.as_str())
        }
    }
}

fn look_at(
    alloc: Global,
    medium: &mut MemoryMedium,
    words: &[&str],
) -> Result<Option<String>, CaseFault>
    requires { failed_in medium.old ≡ false }
    ensures { IfOk result (λ s. IfSome s (λ _. failed_in medium.new ≡ false)) }
{
    let [page] = words else {
        return Err(CaseFault::Line);
    };
    let page: u32 = number(page)?;
    if page >= medium.pages() {
        return Err(CaseFault::Place);
    }
    match look(medium, page) {
        Ok(state) => Ok(Some(state_text(alloc, &state)?)),
        Err(_) => Ok(None),
    }
}

// Puts a body on a page, if it is blank.
fn put_at(
    alloc: Global,
    medium: &mut MemoryMedium,
    page: u32,
    body: &[u8],
) -> Result<Option<String>, CaseFault>
    requires { failed_in medium.old ≡ false }
    ensures { IfOk result (λ s. IfSome s (λ _. failed_in medium.new ≡ false)) }
{
    if page >= medium.pages() || body.is_empty() || body.len() > 4095 || all_zero(body) {
        return Err(CaseFault::Place);
    }
    match look(medium, page) {
        Ok(PageState::Blank) => Ok(silent(alloc, put(medium, page, body))),
        Ok(_) => Err(CaseFault::Place),
        Err(_) => Ok(None),
    }
}

fn put_body(
    alloc: Global,
    medium: &mut MemoryMedium,
    words: &[&str],
) -> Result<Option<String>, CaseFault>
    requires { failed_in medium.old ≡ false }
    ensures { IfOk result (λ s. IfSome s (λ _. failed_in medium.new ≡ false)) }
{
    let [page, words @ ..] = words else {
        return Err(CaseFault::Line);
    };
    let body = bytes(alloc, words)?;
    put_at(alloc, medium, number(page)?, body.as_slice())
}

/// What comes of a line on a medium.
pub fn on_medium(
    alloc: Global,
    medium: &mut MemoryMedium,
    verb: &str,
    words: &[&str],
) -> Result<Option<String>, CaseFault>
    requires { failed_in medium.old ≡ false }
    ensures { IfOk result (λ s. IfSome s (λ _. failed_in medium.new ≡ false)) }
{
    match verb {
        "write" => write(alloc, medium, words),
        "read" => read(alloc, medium, words),
        "sync" => sync(alloc, medium, words),
        "look" => look_at(alloc, medium, words),
        "put" => put_body(alloc, medium, words),
        _ => Err(CaseFault::Line),
    }
}
