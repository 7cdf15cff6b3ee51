//! Pseudotimes: a stamp, and a step of its attempt.
ghost use Rattle.std.specs.Prelude.{◌≡◌, ◌≤◌, ℕ, true, false, nat_lt, IfSome, IfNone, SomeIff};
ghost use Rattle.std.specs.Cmp.Lexicographic.{slice_cmp};
ghost use Rattle.std.specs.Ordering.{nat_cmp};
ghost use Rattle.pseudo_time.specs.StampParts.{StampParts};
ghost use Rattle.pseudo_time.specs.TimeParts.{TimeParts, IsTime, time_bytes, time_cmp};
ghost use Rattle.pseudo_time.specs.Order.{lt, stamp_lt};

use crate::stamps::Stamp;
use std::marker::Model;

/// A point in pseudotime: the stamp of an attempt, and a step of it, from 1 to 2^32 - 1.
///
/// An attempt has a range of pseudotimes of its own, those of its stamp, and its steps take rising
/// ones in it (Reed 1978). Pseudotimes are ordered by stamp and then by step.
#[derive(Clone, Copy, Debug, PartialEq, Eq, PartialOrd, Ord)]
pub struct PseudoTime {
    stamp: Stamp,
    step: u32,
}

impl Model for PseudoTime {
    ghost use Rattle.pseudo_time.specs.TimeParts.{TimeParts, HasStep};

    ghost Value = { TimeParts };

    ghost view = { λ t. record { stamp = t.stamp; step = t.step } };

    ghost invariant = { λ t. HasStep t.stamp t.step };

    ghost inverse = { λ p. record { stamp = p.stamp; step = p.step } };
}

impl PseudoTime {
    ghost use Rattle.pseudo_time.specs.TimeParts.{TimeParts, IsTime, time_bytes, time_cmp};
    ghost use Rattle.pseudo_time.specs.Order.{lt, same_time};

    /// The pseudotime of a step, which is at least 1.
    pub fn new(stamp: Stamp, step: u32) -> Option<PseudoTime>
        ensures { SomeIff result (1 ≤ step) (record { stamp = stamp; step = step }) }
    {
        if step == 0 {
            return None;
        }
        let _in_range = stamp.clock();
        Some(PseudoTime { stamp, step })
    }

    /// The attempt in whose range this is.
    pub fn stamp(&self) -> Stamp
        ensures value { result ≡ self.now.stamp }
        ensures in_range { IsTime self.now }
    {
        self.stamp
    }

    /// Which of the attempt's steps this is, from 1.
    pub fn step(&self) -> u32
        ensures { result ≡ self.now.step }
    {
        self.step
    }

    /// Whether this comes before another pseudotime: the meaning of `<`.
    #[tactic(auto, unfolding(crate::specs::Order::lt))]
    pub fn is_before(&self, other: PseudoTime) -> bool
        ensures { result ≡ lt self.now other }
    {
        *self < other
    }

    /// Whether this is the same point in pseudotime: the meaning of `==`.
    pub fn is_same(&self, other: PseudoTime) -> bool
        ensures { result ≡ same_time self.now other }
    {
        *self == other
    }

    /// The fourteen bytes, each part with its highest byte first. Their order is that of
    /// pseudotimes ([`order_of_bytes`]).
    pub fn to_bytes(&self) -> [u8; 14]
        ensures { result ≡ time_bytes self.now }
    {
        let [a, b, c, d, e, f, g, h] = self.stamp.clock().to_be_bytes();
        let [p, q, r, s] = self.step.to_be_bytes();
        let (broker, home) = (self.stamp.broker(), self.stamp.home());
        [a, b, c, d, e, f, g, h, broker, home, p, q, r, s]
    }

    /// The pseudotime with these bytes. None where no pseudotime has them.
    pub fn from_bytes(bytes: &[u8; 14]) -> Option<PseudoTime>
        ensures some { IfSome result (λ t. IsTime t × (time_bytes t ≡ bytes.now)) }
        ensures none { IfNone result ((t : TimeParts) → IsTime t → time_bytes t ≡ bytes.now → ⊥) }
    {
        let clock = u64::from_be_bytes([
            bytes[0], bytes[1], bytes[2], bytes[3], bytes[4], bytes[5], bytes[6], bytes[7],
        ]);
        let step = u32::from_be_bytes([bytes[10], bytes[11], bytes[12], bytes[13]]);
        let stamp = Stamp::new(clock, bytes[8], bytes[9])?;
        PseudoTime::new(stamp, step)
    }
}

/// A law: the order of the bytes is the order of pseudotimes, and no two have the same bytes.
pub fn order_of_bytes()
    ensures order { (a b : TimeParts) → IsTime a → IsTime b →
        slice_cmp nat_cmp (time_bytes a) (time_bytes b) ≡ time_cmp a b }
    ensures one_text { (a b : TimeParts) → IsTime a → IsTime b → time_bytes a ≡ time_bytes b → a ≡ b }
{}

/// A law: pseudotimes are in a total order, in which each attempt has a range of its own.
pub fn order_of_times()
    ensures irreflexive { (a : TimeParts) → lt a a ≡ false }
    ensures transitive { (a b c : TimeParts) → lt a b ≡ true → lt b c ≡ true → lt a c ≡ true }
    ensures total { (a b : TimeParts) → lt a b ≡ false → lt b a ≡ false → a ≡ b }
    ensures stamps { (a b : TimeParts) → stamp_lt a.stamp b.stamp ≡ true → lt a b ≡ true }
    ensures own { (x t : TimeParts) → lt x t ≡ true → stamp_lt x.stamp t.stamp ≡ false → x.stamp ≡ t.stamp }
    ensures steps { (s : StampParts) (n m : ℕ) →
        lt (record { stamp = s; step = n }) (record { stamp = s; step = m }) ≡ nat_lt n m }
    ensures between { (q x t : TimeParts) → q.stamp ≡ t.stamp → lt x q ≡ false → lt x t ≡ true → x.stamp ≡ q.stamp }
{}
