//! Fates by a list of rules.
ghost use Rattle.std.specs.Prelude.{◌≡◌, ◌+◌, ◌++◌, ◌∷◌, [], IfOk, OnOk, OnErr};
ghost use Rattle.stream_port.specs.Counts.{AreCounts};
ghost use Rattle.stream_port.specs.Fates.{count_of, ruled, next_fate};
ghost use Rattle.stream_port.specs.declared.fates.Asked.{Asked};

use crate::fates::{Asked, Fate, Fates};
use std::alloc::{AllocError, Global};
use std::marker::Model;

/// The nth message of this tag, counted from 1, gets this fate.
#[derive(Clone, Copy, Debug, PartialEq, Eq)]
pub struct FateRule {
    pub tag: u8,
    pub nth: u32,
    pub fate: Fate,
}

/// Fates by a list of rules. Of several rules for one message the first counts. A message without a
/// rule has one copy, which overtakes nothing and isn't held.
#[derive(Drop)]
pub struct MemoryFates {
    rules: Vec<FateRule>,
    asked: Vec<Asked>,
    /// How many messages of each tag were asked for, so that no call walks over the earlier ones.
    counts: [u32; 256],
}

impl Model for MemoryFates {
    ghost use Rattle.stream_port.specs.Fates.{FatesParts};
    ghost use Rattle.stream_port.specs.Counts.{AreCounts};

    ghost Value = { FatesParts };

    ghost view = { λ f. record { rules = f.rules.items; asked = f.asked.items } };

    ghost invariant = { λ f. AreCounts f.counts f.asked.items };
}

// No message of any tag.
fn no_counts() -> [u32; 256]
    ensures { AreCounts result [] }
{
    [0; 256]
}

// The fate of the nth message of a tag.
fn fate_by(rules: &[FateRule], tag: u8, nth: u32) -> Fate
    ensures { result ≡ ruled rules.now tag nth }
{
    for rule in rules {
        if rule.tag == tag && rule.nth == nth {
            return rule.fate;
        }
    }
    Fate {
        copies: 1,
        overtake: 0,
        hold: 0,
    }
}

impl MemoryFates {
    ghost use Rattle.stream_port.specs.Fates.{FatesParts};

    /// Fates by these rules, of which none was asked for yet.
    pub fn new(alloc: Global, rules: Vec<FateRule>) -> MemoryFates
        ensures { result ≡ record { rules = rules.items; asked = [] } }
    {
        MemoryFates {
            rules,
            asked: Vec::new(alloc),
            counts: no_counts(),
        }
    }

    /// The messages asked for so far, each with its fate.
    pub fn asked(&self) -> &[Asked]
        ensures { result.now ≡ self.now.asked }
    {
        self.asked.as_slice()
    }

    // Which message of its tag the next one is. Their number ends at 2^32 - 1.
    fn next_of(&self, tag: u8) -> Result<u32, AllocError>
        ensures { IfOk result (λ nth. nth ≡ count_of tag self.now.asked + 1) }
    {
        self.counts[tag as usize].checked_add(1).ok_or(AllocError)
    }

    // Adds a message that is the nth of its tag.
    fn add(&mut self, asked: Asked, nth: u32) -> Result<(), AllocError>
        requires { nth ≡ count_of asked.tag self.old.asked + 1 }
        ensures rules { self.new.rules ≡ self.old.rules }
        ensures ok { OnOk result (self.new.asked ≡ self.old.asked ++ asked ∷ []) }
        ensures err { OnErr result (self.new.asked ≡ self.old.asked) }
    {
        self.asked.push(asked)?;
        self.counts[asked.tag as usize] = nth;
        Ok(())
    }
}

impl Fates for MemoryFates {
    ghost asked = { λ f. f.asked };

    fn fate(&mut self, number: u32, tag: u8) -> Result<Fate, AllocError>
        ensures ok { IfOk result (λ fate. self.new.asked ≡ self.old.asked ++ record {
          number = number;
          tag = tag;
          fate = fate;
        } ∷ []) }
        ensures err { OnErr result (self.new.asked ≡ self.old.asked) }
        // The rules decide, and stay.
        ensures ruled { IfOk result (λ fate. fate ≡ next_fate self.old tag) }
        ensures rules { self.new.rules ≡ self.old.rules }
    {
        let nth = self.next_of(tag)?;
        let fate = fate_by(self.rules.as_slice(), tag, nth);
        self.add(Asked { number, tag, fate }, nth)?;
        Ok(fate)
    }
}
