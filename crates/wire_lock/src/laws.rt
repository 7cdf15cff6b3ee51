//! Laws of stories and of numbers.
ghost use Rattle.std.specs.Prelude.{◌≡◌, ◌≢◌, ℕ, Bool, true, false, List, All};
ghost use Rattle.pseudo_time.specs.StampParts.{StampParts, IsStamp};
ghost use Rattle.seat_lock.specs.Rule.{IsOneOf};
ghost use Rattle.seat_lock.specs.Story.{Begins, entries_of};
ghost use Rattle.world_core.specs.declared.entries.Entry.{Entry};
ghost use Rattle.wire_core.specs.Boards.{owner_of, place_of, number_of};
ghost use Rattle.wire_lock.specs.Decisions.{stamp_after};

/// Where a story has all entries of each owner, and the whole list begins with it, it is the whole
/// list.
pub fn law_of_whole_stories()
    ensures { (owners : List ℕ) (story whole : List Entry) → Begins story whole →
        All (λ e. IsOneOf owners (owner_of e)) whole
        → All (λ o. entries_of owner_of o story ≡ entries_of owner_of o whole) owners → story ≡ whole }
{}

/// No two decisions have the same number, and none has 0, which says that nothing was posted. The
/// examples are of stamps 1.1.1 and 4096.1.1, and of 4097.1.1, which has the word of the first.
pub fn law_of_numbers()
    ensures one { (s t : StampParts) (c d : Bool) → IsStamp s → IsStamp t → number_of s c ≡ number_of t d →
        (s ≡ t) × (c ≡ d) }
    ensures some { (s : StampParts) (c : Bool) → number_of s c ≢ 0 }
    ensures first { (place_of (stamp_after 0) ≡ 49) × (number_of (stamp_after 0) true ≡ 263173) ×
        (number_of (stamp_after 0) false ≡ 263174) }
    ensures later { (place_of (stamp_after 4095) ≡ 48) × (number_of (stamp_after 4095) true ≡ 1073742853) }
    ensures shared { place_of (stamp_after 4096) ≡ place_of (stamp_after 0) }
{}
