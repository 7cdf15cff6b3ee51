//! What a medium is: pages that outlive a crash.
ghost use Rattle.std.specs.Prelude.{◌≡◌, ◌+◌, ◌<◌, ◌≤◌, List, ℕ, Bool, Option, Some, IsTrue, is_err, false, length, OnOk, OnErr};
ghost use Rattle.stream_port.specs.Causes.{HasCause};
ghost use Rattle.medium_port.specs.Image.{Image, IsImage, page_of, Written, Torn, Follows, Only, NoMore};
ghost use Rattle.medium_port.specs.Moment.{Stage, LeftNow, LeavesOnly, EitherSide};

/// A call of a medium or a shelf failed, and its count of faults rose.
#[derive(Clone, Copy, Debug, PartialEq, Eq)]
pub struct MediumFault;

/// Pages of 4,096 bytes, numbered from 0, that outlive a crash. They read 0 in every byte until
/// they are written.
///
/// Contracts alone see what reads give and which images a crash may leave. Whether a medium tells
/// these is the same for all values of its type, and no code can ask for it, so a body that runs
/// over files is the one that is proved over memory.
///
/// Between two syncs each range that was written may hold any bytes after a crash, and bytes
/// outside it stay. After a sync that answers Ok a crash leaves what reads give. A medium has failed
/// from a fault until `reopen` answers Ok; what reads give then is one of the images that a crash
/// could have left, and a sync makes it the only one.
pub trait Medium: Drop {
    /// Whether media of this type tell their content.
    ghost tells: { Bool };

    /// The number of pages.
    ghost page_count: { Self → ℕ };

    /// Whether it has failed and wasn't reopened since.
    ghost is_failed: { Self → Bool };

    /// The number and the bytes of the page that its last read with Ok gave.
    ghost last_page: { Self → Option (ℕ × List ℕ) };

    /// How many calls failed. It never falls, and stays at 2^64 - 1.
    ghost faults: { Self → ℕ };

    /// What reads give.
    ghost reads: { Self → Image };

    /// What a crash at this moment may leave.
    ghost may_leave: { Self → Image → Type 0 };

    /// The medium at each moment so far, as crashes see it, the last moment first. Calls add to them.
    ghost stages: { Self → List Stage };

    /// The number of pages, from 1 to 1,048,576.
    fn pages(&self) -> u32
        ensures count { result ≡ page_count self.now }
        ensures some { 1 ≤ result }
        ensures most { result ≤ 1048576 };

    /// Gives a page as it reads.
    fn read(&mut self, page: u32, into: &mut [u8; 4096]) -> Result<(), MediumFault>
        requires page { page < page_count self.old }
        requires open { is_failed self.old ≡ false }
        ensures found { IsTrue tells → OnOk result (into.new ≡ page_of (reads self.old) page) }
        ensures reads { IsTrue tells → reads self.new ≡ reads self.old }
        ensures crash { IsTrue tells → NoMore (may_leave self.old) (may_leave self.new) }
        // A read changes nothing that crashes see.
        ensures time { IsTrue tells → stages self.new ≡ stages self.old }
        ensures last { OnOk result (last_page self.new ≡ Some (page, into.new)) }
        ensures last_err { OnErr result (last_page self.new ≡ last_page self.old) }
        ensures size { page_count self.new ≡ page_count self.old }
        ensures state { is_failed self.new ≡ is_err result }
        ensures cause { HasCause (faults self.old) (faults self.new) result };

    /// Writes bytes from a place of a page on. After a fault what reads give is open.
    fn write(&mut self, page: u32, at: u16, bytes: &[u8]) -> Result<(), MediumFault>
        requires page { page < page_count self.old }
        requires range { at + length bytes.now ≤ 4096 }
        requires open { is_failed self.old ≡ false }
        ensures written { IsTrue tells → OnOk result (Written page at bytes.now (reads self.old) (reads self.new)) }
        ensures crash { IsTrue tells → Follows (Torn page at (length bytes.now)) (may_leave self.old)
            (may_leave self.new) }
        ensures time { IsTrue tells → LeavesOnly stages self.old self.new
            (EitherSide (may_leave self.old) (may_leave self.new)) }
        ensures last { last_page self.new ≡ last_page self.old }
        ensures size { page_count self.new ≡ page_count self.old }
        ensures state { is_failed self.new ≡ is_err result }
        ensures cause { HasCause (faults self.old) (faults self.new) result };

    /// After Ok a crash leaves what reads give.
    fn sync(&mut self) -> Result<(), MediumFault>
        requires open { is_failed self.old ≡ false }
        ensures durable { IsTrue tells → OnOk result (Only (reads self.old) (may_leave self.new)) }
        ensures reads { IsTrue tells → reads self.new ≡ reads self.old }
        ensures crash { IsTrue tells → NoMore (may_leave self.old) (may_leave self.new) }
        ensures time { IsTrue tells → LeavesOnly stages self.old self.new
            (EitherSide (may_leave self.old) (may_leave self.new)) }
        ensures last { last_page self.new ≡ last_page self.old }
        ensures size { page_count self.new ≡ page_count self.old }
        ensures state { is_failed self.new ≡ is_err result }
        ensures cause { HasCause (faults self.old) (faults self.new) result };

    /// After Ok reads give one of the images that a crash could have left, and the medium hasn't
    /// failed.
    fn reopen(&mut self) -> Result<(), MediumFault>
        ensures one { IsTrue tells → OnOk result (may_leave self.old (reads self.new)) }
        ensures crash { IsTrue tells → NoMore (may_leave self.old) (may_leave self.new) }
        ensures time { IsTrue tells → LeavesOnly stages self.old self.new
            (EitherSide (may_leave self.old) (may_leave self.new)) }
        ensures last { last_page self.new ≡ last_page self.old }
        ensures size { page_count self.new ≡ page_count self.old }
        ensures state { is_failed self.new ≡ is_err result }
        ensures cause { HasCause (faults self.old) (faults self.new) result };

    /// What reads give is one of the images that may be left.
    ghost reads_now: { (m : Self) → IsTrue tells → may_leave m (reads m) };

    /// An image that may be left now is one of the last moment.
    ghost counts_now: { (m : Self) (c : Image) → IsTrue tells → may_leave m c → LeftNow (stages m) c };

    /// There is no other.
    ghost only_now: { (m : Self) (c : Image) → IsTrue tells → LeftNow (stages m) c → may_leave m c };

    /// Each has as many pages of 4,096 bytes.
    ghost shape: { (m : Self) (c : Image) → IsTrue tells → may_leave m c → IsImage (page_count m) c };
}
