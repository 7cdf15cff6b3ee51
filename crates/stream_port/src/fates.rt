//! The fates of messages.
ghost use Rattle.std.specs.Prelude.{◌≡◌, ◌++◌, ◌∷◌, [], List, IfOk, OnErr};
ghost use Rattle.stream_port.specs.declared.fates.Asked.{Asked};

use std::alloc::AllocError;

/// What comes of a message on its way.
#[derive(Clone, Copy, Debug, PartialEq, Eq)]
pub struct Fate {
    /// How many copies arrive. 0 is a lost message, and more than 3 count as 3.
    pub copies: u8,
    /// How many waiting copies each copy overtakes.
    pub overtake: u32,
    /// How many ticks each copy is held.
    pub hold: u32,
}

/// A message whose fate was asked for, and the answer.
#[derive(Clone, Copy, Debug, PartialEq, Eq)]
pub struct Asked {
    /// The number of the message.
    pub number: u32,
    /// The tag that its text begins with.
    pub tag: u8,
    pub fate: Fate,
}

/// What decides the fates of messages.
pub trait Fates {
    /// The messages asked for so far, each with its fate.
    ghost asked: { Self → List Asked };

    /// The fate of a message. Where memory runs out, the list is as before.
    fn fate(&mut self, number: u32, tag: u8) -> Result<Fate, AllocError>
        ensures ok { IfOk result (λ fate. asked self.new ≡ asked self.old ++ record {
          number = number;
          tag = tag;
          fate = fate;
        } ∷ []) }
        ensures err { OnErr result (asked self.new ≡ asked self.old) };
}
