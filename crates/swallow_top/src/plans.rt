//! The plan of a run is read.
ghost use Rattle.swallow_top.specs.Plans.{IsReadAs, ReadsPlan};

use plan_form::{Plan, PlanFault, parse};
use run_command::{Stop, read_all};
use std::alloc::Global;
use stream_port::Source;

// The plan that the bytes are.
fn plan_of(alloc: Global, bytes: &[u8]) -> Result<Plan, Stop>
    ensures { IsReadAs bytes.now result }
{
    match parse(alloc, bytes) {
        Ok(plan) => Ok(plan),
        Err(PlanFault::Fault { line, kind }) => Err(Stop::Fault { line, kind }),
        Err(PlanFault::NoMemory) => Err(Stop::NoMemory),
    }
}

/// The plan that the source has. It is read to its end, or to one byte more than a plan has.
pub fn read_plan<I: Source>(alloc: Global, source: &mut I) -> Result<Plan, Stop>
    ensures { ReadsPlan (I.left source.old) (I.left source.new) (I.faults source.old) (I.faults source.new) result }
{
    let bytes = read_all(alloc, source)?;
    plan_of(alloc, bytes.as_slice())
}
