//! What is to be written of a repository that is retired, or why it isn't.
ghost use Rattle.std.specs.Prelude.{◌≡◌, ◌⊎◌, ℕ, List, Ok, Err, IfOk, IfErr};
ghost use Rattle.effect_form.specs.Effects.{AreEffects};
ghost use Rattle.report_writer.specs.Reports.{down_text};
ghost use Rattle.forward_copy.specs.Currents.{node_log};
ghost use Rattle.run_volumes.specs.Volumes.{AreOpen, logs_of};
ghost use Rattle.retire_command.specs.Lines as lines;
ghost use Rattle.retire_command.specs.Retires as spec;

use crate::lines::{last_volume_line, old_mark_line, retired_line};
use crate::outcomes::Retired;
use forward_copy::{Forward, ForwardFault, forward};
use medium_port::Medium;
use pseudo_time::{NodeId, PseudoTime};
use report_writer::{down_line, undecided_line};
use run_volumes::{Opening, Standing, fresh, node_log as log_of, stand_of};
use std::alloc::{AllocError, Global};
use value_form::Bytes;

// A refusal with this line.
fn refused(line: Result<Bytes, AllocError>) -> Retired
    ensures { spec.IsRefusal line result }
{
    match line {
        Ok(line) => Retired::Refused(line),
        Err(_) => Retired::NoMemory,
    }
}

/// A medium stopped it, with this line.
pub fn fallen(line: Result<Bytes, AllocError>) -> Retired
    ensures { spec.IsFall line result }
{
    match line {
        Ok(line) => Retired::Fallen(line),
        Err(_) => Retired::NoMemory,
    }
}

// Why the log isn't carried forward.
fn refusal(alloc: Global, fault: &ForwardFault) -> Retired
    ensures { spec.RefusesFor fault.now result }
{
    match fault {
        ForwardFault::OldMark { floor } => refused(old_mark_line(alloc, *floor)),
        ForwardFault::Undecided { object, start } => {
            refused(undecided_line(alloc, *object, *start))
        }
        ForwardFault::NoMemory => Retired::NoMemory,
    }
}

/// What is carried forward, and the line that will tell of it.
#[derive(Drop)]
pub struct Prepared {
    pub forward: Forward,
    pub line: Bytes,
}

// What is carried forward into this volume.
fn prepare_into<M: Medium>(
    alloc: Global,
    node: NodeId,
    mark: PseudoTime,
    openings: &[Opening<M>],
    volume: usize,
) -> Result<Prepared, Retired>
    requires first { mark.step ≡ 1 }
    requires open { AreOpen openings.now }
    requires fresh { spec.IsFresh openings.now volume }
    requires ranges { AreEffects (node_log (logs_of openings.now)) }
    ensures ready { IfOk result (λ p. spec.IsReady node mark openings.now p.forward p.line) }
    ensures stops { IfErr result (spec.Stops node mark openings.now) }
{
    match forward(alloc, log_of(openings), mark) {
        Err(fault) => Err(refusal(alloc, &fault)),
        Ok(forward) => {
            let kept = forward.kept.len();
            let dropped = forward.dropped.len();
            match retired_line(alloc, node.number, volume, mark, kept, dropped) {
                Ok(line) => Ok(Prepared { forward, line }),
                Err(_) => Err(Retired::NoMemory),
            }
        }
    }
}

/// What is carried forward of a repository with these volumes, or why nothing is.
pub fn prepare<M: Medium>(
    alloc: Global,
    node: NodeId,
    mark: PseudoTime,
    openings: &[Opening<M>],
) -> Result<Prepared, Retired>
    requires first { mark.step ≡ 1 }
    requires ranges { AreEffects (node_log (logs_of openings.now)) }
    ensures ready { IfOk result (λ p. spec.IsReady node mark openings.now p.forward p.line) }
    ensures stops { IfErr result (spec.Stops node mark openings.now) }
{
    match stand_of(openings) {
        Standing::Shut(cause) => Err(fallen(down_line(alloc, node, cause))),
        Standing::Wanting => Err(Retired::NoMemory),
        Standing::Open => match fresh(openings) {
            Some(volume) => prepare_into(alloc, node, mark, openings, volume),
            None => Err(refused(last_volume_line(alloc))),
        },
    }
}
