//! The gate byte of a page, and what it says.
ghost use Rattle.std.specs.Prelude.{◌≡◌, ◌+◌, ◌<◌, ◌≤◌, ◌⊎◌, List, ℕ, Some, IsTrue, is_err, false, length, drop, slice_set, IfOk, OnOk, OnErr};
ghost use Rattle.stream_port.specs.Causes.{HasCause};
ghost use Rattle.medium_port.specs.Image.{Image, page_of, Written, Torn, Only, NoMore};
ghost use Rattle.medium_port.specs.Moment.{LeavesOnly};
ghost use Rattle.page_gate.specs.States.{is_blank, state_of, state_with, gated_page};
ghost use Rattle.page_gate.specs.Steps.{MayPut};

use medium_port::{Medium, MediumFault};

// The first byte of a page whose gate is open.
const GATE: u8 = 0xA5;

/// What a page's 4,096 bytes say.
#[derive(Debug, Drop, PartialEq, Eq)]
pub enum PageState {
    /// All bytes are 0.
    Blank,
    /// Neither blank nor gated. A crash leaves this of a page that was being put.
    Spoiled,
    /// Byte 0 is 0xA5, and these are the others.
    Gated([u8; 4095]),
}

/// What a page's bytes say, without its body.
#[derive(Clone, Copy, Debug, PartialEq, Eq)]
pub enum Gate {
    /// All bytes are 0.
    Blank,
    /// Neither blank nor gated.
    Spoiled,
    /// Byte 0 is 0xA5, and the body stands behind it.
    Open,
}

/// Reads a page into `bytes`, and says its gate. A fault is the medium's, and then the bytes are of no use.
pub fn look_into<M: Medium>(
    medium: &mut M,
    page: u32,
    bytes: &mut [u8; 4096],
) -> Result<Gate, MediumFault>
    requires page { page < M.page_count medium.old }
    requires open { M.is_failed medium.old ≡ false }
    // For every medium, it is the state of the page that the last read gave.
    ensures state { IfOk result (λ g. (M.last_page medium.new ≡ Some (page, bytes.new)) ×
        (state_with g (drop 1 bytes.new) ≡ state_of bytes.new)) }
    ensures found { IsTrue M.tells →
        IfOk result (λ g. state_with g (drop 1 bytes.new) ≡ state_of (page_of (M.reads medium.old) page)) }
    ensures reads { IsTrue M.tells → M.reads medium.new ≡ M.reads medium.old }
    ensures crash { IsTrue M.tells → NoMore (M.may_leave medium.old) (M.may_leave medium.new) }
    // Nothing that crashes see is changed.
    ensures stages { IsTrue M.tells → M.stages medium.new ≡ M.stages medium.old }
    ensures last_err { OnErr result (M.last_page medium.new ≡ M.last_page medium.old) }
    ensures size { M.page_count medium.new ≡ M.page_count medium.old }
    ensures failed { M.is_failed medium.new ≡ is_err result }
    ensures cause { HasCause (M.faults medium.old) (M.faults medium.new) result }
{
    medium.read(page, bytes)?;
    Ok(gate_of(bytes))
}

fn gate_of(bytes: &[u8; 4096]) -> Gate
    ensures { state_with result (drop 1 bytes.now) ≡ state_of bytes.now }
{
    if bytes[0] == GATE {
        Gate::Open
    } else if all_zero(bytes) {
        Gate::Blank
    } else {
        Gate::Spoiled
    }
}

/// Reads a page and says its state, with its body. A fault is the medium's.
pub fn look<M: Medium>(medium: &mut M, page: u32) -> Result<PageState, MediumFault>
    requires page { page < M.page_count medium.old }
    requires open { M.is_failed medium.old ≡ false }
    // For every medium, it is the state of the page that the last read gave.
    ensures state { IfOk result (λ s. (bytes : List ℕ) × (M.last_page medium.new ≡ Some (page, bytes)) ×
        (s ≡ state_of bytes)) }
    ensures found { IsTrue M.tells → IfOk result (λ s. s ≡ state_of (page_of (M.reads medium.old) page)) }
    ensures reads { IsTrue M.tells → M.reads medium.new ≡ M.reads medium.old }
    ensures crash { IsTrue M.tells → NoMore (M.may_leave medium.old) (M.may_leave medium.new) }
    // Nothing that crashes see is changed.
    ensures stages { IsTrue M.tells → M.stages medium.new ≡ M.stages medium.old }
    ensures last_err { OnErr result (M.last_page medium.new ≡ M.last_page medium.old) }
    ensures size { M.page_count medium.new ≡ M.page_count medium.old }
    ensures failed { M.is_failed medium.new ≡ is_err result }
    ensures cause { HasCause (M.faults medium.old) (M.faults medium.new) result }
{
    let mut bytes = [0; 4096];
    let gate = look_into(medium, page, &mut bytes)?;
    Ok(state(gate, &bytes))
}

fn state(gate: Gate, bytes: &[u8; 4096]) -> PageState
    ensures { result ≡ state_with gate (drop 1 bytes.now) }
{
    match gate {
        Gate::Blank => PageState::Blank,
        Gate::Spoiled => PageState::Spoiled,
        Gate::Open => {
            let mut body = [0; 4095];
            body.copy_from_slice(&bytes[1..]);
            PageState::Gated(body)
        }
    }
}

/// Whether all bytes are 0.
pub fn all_zero(bytes: &[u8]) -> bool
    ensures { result ≡ is_blank bytes.now }
{
    let mut most = 0;
    for b in bytes {
        most = most.max(*b);
    }
    most == 0
}

// Writes, and has it on the medium.
fn write_through<M: Medium>(
    medium: &mut M,
    page: u32,
    at: u16,
    bytes: &[u8],
) -> Result<(), MediumFault>
    requires page { page < M.page_count medium.old }
    requires range { at + length bytes.now ≤ 4096 }
    requires open { M.is_failed medium.old ≡ false }
    ensures written { IsTrue M.tells →
        OnOk result (Written page at bytes.now (M.reads medium.old) (M.reads medium.new)) }
    ensures durable { IsTrue M.tells → OnOk result (Only (M.reads medium.new) (M.may_leave medium.new)) }
    ensures any_moment { IsTrue M.tells →
        LeavesOnly M.stages medium.old medium.new
        (λ c. M.may_leave medium.old c ⊎ ((from : Image) × M.may_leave medium.old from ×
        Torn page at (length bytes.now) from c)) }
    ensures last { M.last_page medium.new ≡ M.last_page medium.old }
    ensures size { M.page_count medium.new ≡ M.page_count medium.old }
    ensures failed { M.is_failed medium.new ≡ is_err result }
    ensures cause { HasCause (M.faults medium.old) (M.faults medium.new) result }
{
    medium.write(page, at, bytes)?;
    medium.sync()?;
    Ok(())
}

/// Puts a body of 1 to 4,095 bytes, not all 0, on a page that reads blank, behind an open gate. The
/// rest of the page stays 0.
///
/// At every moment of the call a crash leaves the page blank, spoiled, or gated with the whole
/// body, and all other pages as they were. After Ok it leaves the page gated. A fault is the
/// medium's.
pub fn put<M: Medium>(medium: &mut M, page: u32, body: &[u8]) -> Result<(), MediumFault>
    requires page { page < M.page_count medium.old }
    requires open { M.is_failed medium.old ≡ false }
    requires blank { IsTrue M.tells → IsTrue (is_blank (page_of (M.reads medium.old) page)) }
    requires some { 1 ≤ length body.now }
    requires most { length body.now ≤ 4095 }
    requires marked { is_blank body.now ≡ false }
    ensures gated { IsTrue M.tells →
        OnOk result (M.reads medium.new ≡ slice_set (M.reads medium.old) page (gated_page body.now)) }
    ensures durable { IsTrue M.tells → OnOk result (Only (M.reads medium.new) (M.may_leave medium.new)) }
    ensures any_moment { IsTrue M.tells → LeavesOnly M.stages medium.old medium.new
        (MayPut page body.now (M.may_leave medium.old)) }
    ensures last { M.last_page medium.new ≡ M.last_page medium.old }
    ensures size { M.page_count medium.new ≡ M.page_count medium.old }
    ensures failed { M.is_failed medium.new ≡ is_err result }
    ensures cause { HasCause (M.faults medium.old) (M.faults medium.new) result }
{
    write_through(medium, page, 1, body)?;
    write_through(medium, page, 0, &[GATE])?;
    Ok(())
}
