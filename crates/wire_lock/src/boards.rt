//! Decisions on the board.
ghost use Rattle.std.specs.Prelude.{◌≡◌, ◌<◌, IsTrue, IfSome};
ghost use Rattle.pseudo_time.specs.StampParts.{IsStamp};
ghost use Rattle.seat_lock.specs.Words.{knows};
ghost use Rattle.world_core.specs.Legal.{IsDecidedAs};
ghost use Rattle.wire_core.specs.Boards.{place_of, number_of};
ghost use Rattle.wire_lock.specs.Sights.{IsWirePass, Tested, world_at};

use crate::shared::{SharedWire, WirePass};
use medium_port::Medium;
use pseudo_time::Stamp;
use stream_port::{Clock, Fates};

/// The word of the board that a stamp's decision goes to. Many stamps have the same word.
pub fn place_of(stamp: Stamp) -> u32
    ensures value { result ≡ place_of stamp }
    ensures small { result < 4096 }
    ensures in_range { IsStamp stamp }
{
    let place = stamp.clock() + 31 * u64::from(stamp.broker()) + 17 * u64::from(stamp.home());
    (place % 4096) as u32
}

/// A stamp's decision as a number. No two decisions have the same number, and none has 0.
pub fn number_of(stamp: Stamp, committed: bool) -> u64
    ensures { result ≡ number_of stamp committed }
{
    let decision = if committed { 1 } else { 2 };
    (stamp.clock() << 18)
        + (u64::from(stamp.broker()) << 10)
        + u64::from(stamp.home()) * 4
        + decision
}

impl<F: Fates, C: Clock, M: Medium> SharedWire<F, C, M> {
    /// What the board tells of a stamp, by one load: it takes no lock, and waits for nobody. None
    /// exactly where the word that was read isn't this stamp's: nothing was posted, or a later
    /// decision was posted there.
    ///
    /// Where media tell their content, an answer stands in the durable log of the stamp's home, in
    /// the story that the pass has then seen, and so in every later one.
    pub fn decided(&self, pass: &mut WirePass<F, C, M>, stamp: Stamp) -> Option<bool>
        requires pass { IsWirePass self.now.lock pass.old }
        ensures pass { IsWirePass self.now.lock pass.new }
        ensures tested { Tested (knows pass.old) (knows pass.new) stamp result }
        ensures stands { IsTrue M.tells →
            IfSome result (λ committed. IsDecidedAs (world_at (knows pass.new)) stamp committed) }
    {
        let number = self.lock.test(pass, place_of(stamp));
        if number == number_of(stamp, true) {
            return Some(true);
        }
        if number == number_of(stamp, false) {
            return Some(false);
        }
        None
    }
}
