//! Fates by no rule, however many are asked for.
ghost use Rattle.std.specs.Prelude.{◌≡◌, []};
ghost use Rattle.swallow_main.specs.Fates.{asked_in};

use std::alloc::AllocError;
use std::snapshot::Snapshot;
use stream_port::{Asked, Fate, Fates};

// The messages asked for so far, for contracts alone: snapshots have no bytes.
#[derive(Drop)]
enum AskedFates {
    Nothing,
    More(Snapshot<AskedFates>, Asked),
}

/// Fates by no rule: each message has one copy, which overtakes nothing and isn't held. They take no
/// memory, so a session may go on for long.
#[derive(Drop)]
pub struct PlainFates {
    asked: AskedFates,
}

impl PlainFates {
    /// Fates of which none was asked for yet.
    pub fn new() -> PlainFates
        ensures { asked_in result.asked ≡ [] }
    {
        PlainFates {
            asked: AskedFates::Nothing,
        }
    }
}

impl Fates for PlainFates {
    ghost asked = { λ f. asked_in f.asked };

    fn fate(&mut self, number: u32, tag: u8) -> Result<Fate, AllocError> {
        let fate = Fate {
            copies: 1,
            overtake: 0,
            hold: 0,
        };
        let before = Snapshot::of(&self.asked);
        self.asked = AskedFates::More(before, Asked { number, tag, fate });
        Ok(fate)
    }
}
