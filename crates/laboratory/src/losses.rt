//! The fates of messages in the laboratory.
ghost use Rattle.std.specs.Prelude.{◌≡◌, ◌++◌, ◌∷◌, [], IfOk, OnErr};
ghost use Rattle.std.specs.List.{All};
ghost use Rattle.stream_port.specs.declared.fates.Asked.{Asked};
ghost use Rattle.laboratory.specs.Losses.{fate_by, IsFated};

use plan_form::step;
use std::alloc::{AllocError, Global};
use stream_port::{Asked, Fate, Fates};

/// Fates by a divisor. With 0 no message is lost. Else the message with the number n is where the divisor
/// leaves nothing over of what n draws, which is the upper 31 bits of the state behind n of a load's
/// generator. Each other message has one copy, which overtakes nothing and isn't held.
#[derive(Drop)]
pub struct LabFates {
    lose: u32,
    asked: Vec<Asked>,
    ghost fated: { All (IsFated lose) asked.items },
}

// The fate of the message with this number.
fn fate_of(lose: u32, number: u32) -> Fate
    ensures { result ≡ fate_by lose number }
{
    let drawn = step(u64::from(number)) >> 33;
    let is_lost = lose != 0 && drawn % u64::from(lose) == 0;
    Fate {
        copies: if is_lost { 0 } else { 1 },
        overtake: 0,
        hold: 0,
    }
}

impl LabFates {
    ghost use Rattle.laboratory.specs.Fates.{asked_of, divisor_of};

    /// Fates by this divisor, of which none was asked for yet.
    pub fn new(alloc: Global, lose: u32) -> LabFates
        ensures { (divisor_of result ≡ lose) × (asked_of result ≡ []) }
    {
        LabFates {
            lose,
            asked: Vec::new(alloc),
        }
    }

    /// The divisor.
    pub fn lose(&self) -> u32
        ensures { result ≡ divisor_of self.now }
    {
        self.lose
    }

    /// The messages asked for so far, each with its fate.
    pub fn asked(&self) -> &[Asked]
        ensures list { result.now ≡ asked_of self.now }
        ensures fates { All (IsFated (divisor_of self.now)) result.now }
    {
        self.asked.as_slice()
    }
}

impl Fates for LabFates {
    ghost use Rattle.laboratory.specs.Fates.{asked_of, divisor_of};

    ghost asked = { asked_of };

    fn fate(&mut self, number: u32, tag: u8) -> Result<Fate, AllocError>
        ensures ok { IfOk result (λ fate. asked_of self.new ≡ asked_of self.old ++ record {
          number = number;
          tag = tag;
          fate = fate;
        } ∷ []) }
        ensures err { OnErr result (asked_of self.new ≡ asked_of self.old) }
        // The divisor decides, and stays.
        ensures fate { IfOk result (λ fate. fate ≡ fate_by (divisor_of self.old) number) }
        ensures lose { divisor_of self.new ≡ divisor_of self.old }
    {
        let fate = fate_of(self.lose, number);
        self.asked.push(Asked { number, tag, fate })?;
        Ok(fate)
    }
}
