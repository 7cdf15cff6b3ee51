//! An input is read to its end, and a text is written.
ghost use Rattle.std.specs.Prelude.{◌≡◌, ◌≤◌, ◌+◌, length, IfOk, OnOk, OnErr, IsErrOf, ◌⊎◌};
ghost use Rattle.std.specs.Io.KnownBytes.{Consumes, Appends, IsAtEnd};
ghost use Rattle.stream_port.specs.Causes.{Rose};
ghost use Rattle.run_command.specs.Written.{AppendsFront};

use crate::stops::Stop;
use std::alloc::Global;
use stream_port::{Sink, Source};

/// The most bytes that a plan has.
pub const PLAN_BYTES: usize = 4_194_304;

/// Reads the input to its end, or to one byte more than a plan has.
pub fn read_all<I: Source>(alloc: Global, source: &mut I) -> Result<Vec<u8>, Stop>
    ensures bytes { IfOk result (λ v. Consumes (I.left source.old) (I.left source.new) v.items) }
    ensures most { IfOk result (λ v. length v.items ≤ PLAN_BYTES + 1) }
    ensures ended { IfOk result (λ v. length v.items ≤ PLAN_BYTES → IsAtEnd (I.left source.new)) }
    ensures error { OnErr result (IsErrOf result Stop.Source ⊎ IsErrOf result Stop.NoMemory) }
    ensures cause { IsErrOf result Stop.Source → Rose (I.faults source.old) (I.faults source.new) }
    ensures later { I.faults source.old ≤ I.faults source.new }
{
    let mut bytes = Vec::new(alloc);
    while bytes.len() <= PLAN_BYTES {
        let mut piece = [0u8; 4096];
        let room = piece.len().min(PLAN_BYTES + 1 - bytes.len());
        let Ok(count) = source.read(&mut piece[..room]) else {
            return Err(Stop::Source);
        };
        if count == 0 {
            return Ok(bytes);
        }
        bytes.extend_from_slice(&piece[..count])?;
    }
    Ok(bytes)
}

/// Writes all the bytes, or a prefix of them where the sink fails.
pub fn write_all<O: Sink>(sink: &mut O, bytes: &[u8]) -> Result<(), Stop>
    ensures ok { OnOk result (Appends (O.taken sink.old) (O.taken sink.new) bytes.now) }
    ensures err { OnErr result (AppendsFront (O.taken sink.old) (O.taken sink.new) bytes.now) }
    ensures error { OnErr result (IsErrOf result Stop.Sink) }
    ensures cause { OnErr result (Rose (O.faults sink.old) (O.faults sink.new)) }
    ensures later { O.faults sink.old ≤ O.faults sink.new }
{
    let mut at = 0;
    while at < bytes.len() {
        let Ok(count) = sink.write(&bytes[at..]) else {
            return Err(Stop::Sink);
        };
        at += count;
    }
    Ok(())
}
