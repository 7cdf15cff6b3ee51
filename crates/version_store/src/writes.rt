//! Writes the bodies of pages.
ghost use Rattle.std.specs.Prelude.{◌≡◌, ◌+◌, ◌≤◌, ◌<◌, ◌^◌, ◌++◌, List, IsTrue, is_err, false, true, length, map, drop, take, OnOk, All};
ghost use Rattle.std.specs.List.{list_all};
ghost use Rattle.stream_port.specs.Causes.{HasCause};
ghost use Rattle.medium_port.specs.Moment.{LeavesOnly};
ghost use Rattle.page_form.specs.States.{is_blank};
ghost use Rattle.page_form.specs.Entries.{Log};
ghost use Rattle.version_store.specs.Filling.{StaysClean};
ghost use Rattle.version_store.specs.Rests.{Grows, IsAtRest, PagesFit};
ghost use Rattle.page_form.specs.Laying.{IsBody, Laid, all_of, body_of, bytes_of};
ghost use Rattle.version_store.specs.Storage.{begun, scan};

use medium_port::{Medium, MediumFault};
use page_form::put;

/// Puts the bodies on the pages from this one on.
pub fn write_pages<M: Medium>(
    medium: &mut M,
    first: u32,
    bodies: &[Vec<u8>],
) -> Result<(), MediumFault>
    requires room { first + length bodies.now ≤ M.page_count medium.old }
    requires small { M.page_count medium.old < 2 ^ 32 }
    requires open { M.is_failed medium.old ≡ false }
    requires bodies { All IsBody bodies.now }
    requires blank { IsTrue M.tells → list_all is_blank (drop first (M.reads medium.old)) ≡ true }
    ensures any_moment { IsTrue M.tells → (log : Log) (pages : List Laid) →
        IsAtRest log first (M.reads medium.old) (M.may_leave medium.old) →
        PagesFit (scan begun 0 (take first (M.reads medium.old))) log first pages →
        bytes_of bodies.now ≡ map body_of pages
        → LeavesOnly M.stages medium.old medium.new (Grows (M.reads medium.old) log pages) }
    ensures all { IsTrue M.tells → (log : Log) (pages : List Laid) →
        IsAtRest log first (M.reads medium.old) (M.may_leave medium.old) →
        PagesFit (scan begun 0 (take first (M.reads medium.old))) log first pages →
        bytes_of bodies.now ≡ map body_of pages
        → OnOk result (IsAtRest (log ++ all_of pages) (first + length bodies.now) (M.reads medium.new)
        (M.may_leave medium.new)) }
    ensures clean { IsTrue M.tells → OnOk result (StaysClean (M.reads medium.old) (M.reads medium.new)) }
    ensures last { M.last_page medium.new ≡ M.last_page medium.old }
    ensures size { M.page_count medium.new ≡ M.page_count medium.old }
    ensures failed { M.is_failed medium.new ≡ is_err result }
    ensures cause { HasCause (M.faults medium.old) (M.faults medium.new) result }
{
    let mut page = first;
    for body in bodies {
        put(medium, page, body)?;
        page += 1;
    }
    Ok(())
}
