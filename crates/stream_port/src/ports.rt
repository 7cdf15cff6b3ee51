//! What a source and a sink are.
ghost use Rattle.std.specs.Prelude.{List, ℕ, Option};
ghost use Rattle.std.specs.Io.{ReadsAtMost};
ghost use Rattle.std.specs.Io.KnownBytes.{ReadConsumes, WriteAppends};
ghost use Rattle.stream_port.specs.Causes.{HasCause};
ghost use Rattle.stream_port.specs.Streams.{TakesSome};

/// A read failed, and the source's count of faults rose.
#[derive(Clone, Copy, Debug, PartialEq, Eq)]
pub struct SourceFault;

/// A write failed, and the sink's count of faults rose.
#[derive(Clone, Copy, Debug, PartialEq, Eq)]
pub struct SinkFault;

/// Where input comes from.
///
/// Contracts alone see the bytes that are left and the count of faults. Whether a source tells its
/// bytes is the same for all values of its type, and no code can ask for it, so a body that runs
/// over files is the one that is proved over memory.
pub trait Source {
    /// The bytes left, where it tells them.
    ghost left: { Self → Option (List ℕ) };

    /// How many calls failed. It never falls, and stays at 2^64 - 1.
    ghost faults: { Self → ℕ };

    /// Puts the next bytes at the front of `into` and says how many they are. 0 for a place that
    /// isn't empty is the end of the input.
    fn read(&mut self, into: &mut [u8]) -> Result<usize, SourceFault>
        ensures bound { ReadsAtMost result into.new }
        ensures bytes { ReadConsumes (left self.old) (left self.new) result into.new }
        ensures cause { HasCause (faults self.old) (faults self.new) result };
}

/// Where output goes.
///
/// As with a [`Source`], contracts alone see the bytes taken and the count of faults.
pub trait Sink {
    /// The bytes taken so far, where it tells them.
    ghost taken: { Self → Option (List ℕ) };

    /// How many calls failed. It never falls, and stays at 2^64 - 1.
    ghost faults: { Self → ℕ };

    /// Takes a prefix of the bytes and says how many they are: at least one, where there are any.
    fn write(&mut self, bytes: &[u8]) -> Result<usize, SinkFault>
        ensures bound { TakesSome result bytes.now }
        ensures bytes { WriteAppends (taken self.old) (taken self.new) result bytes.now }
        ensures cause { HasCause (faults self.old) (faults self.new) result };
}
