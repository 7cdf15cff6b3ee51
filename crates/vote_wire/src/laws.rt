//! Laws of the wire between polls and members.
ghost use Rattle.std.specs.Prelude.{◌≡◌, ◌++◌, ◌∷◌, [], ℕ, true, false, List, map, is_some};
ghost use Rattle.pseudo_time.specs.declared.down_causes.DownCause.{DownCause};
ghost use Rattle.pseudo_time.specs.declared.nodes.NodeId.{NodeId};
ghost use Rattle.message_form.specs.Posts.{posts};
ghost use Rattle.message_core.specs.Flights.{AllEmpty, State, passed, taken, waiting, was_shut};
ghost use Rattle.world_core.specs.declared.entries.Entry.{Entry};
ghost use Rattle.world_core.specs.declared.entries.Entry.TheVariants as entry;
ghost use Rattle.world_core.specs.declared.traces.Sent.{Sent};
ghost use Rattle.world_core.specs.Alike.{Alike};
ghost use Rattle.world_core.specs.Legal.{HasGone, Idle, MayTake, fates_of, is_behind, post_of};
ghost use Rattle.world_core.specs.Walks as walks;
ghost use Rattle.wire_core.specs.Copies.{IsTied, Marked, all_marked};
ghost use Rattle.vote_traces.specs.Walks.{Base, Hall, life_of, step, walk, world_of};
ghost use Rattle.vote_wire.specs.Carried.{IsAtRest, IsCarried, LeavesFlight};

/// Who is up, has gone, has heard, and has something to close: the entries alone decide it, as in a
/// run of the same nodes, whatever logs say.
pub fn entries_alone_decide()
    ensures { (b : Base) (c : walks.Base) (es : List Entry) →
        ((n : NodeId) → is_some (walks.opened_log b.opened n) ≡ is_some (walks.opened_log c.opened n)) →
        Alike (world_of (walk b es)) (walks.walk c es) }
{}

/// The front copy of a node's queue may be taken.
pub fn front_copies_may_be_taken()
    ensures { (b : Base) (h : Hall) (s : State) (sent : List Sent) (marks : List Marked) (n : NodeId) (number : ℕ)
        (rest : List ℕ) → IsCarried s h sent marks →
        (h.flags n).up ≡ true → HasGone (world_of h) n → is_behind (world_of h) n ≡ false →
        waiting s n ≡ number ∷ rest →
        MayTake (fates_of sent) (world_of h) n number ×
        IsCarried (taken s n) (step b h (entry.Take n number)) sent marks }
{}

/// A gate's messages are in flight behind it.
pub fn gates_are_carried()
    ensures { (b : Base) (h : Hall) (s after : State) (sent news : List Sent) (marks : List Marked) (n : NodeId) →
        IsCarried s h sent marks →
        map post_of news ≡ posts n (life_of h n.kind n.number).outs →
        (IsTied s (world_of h) sent marks → IsTied after (world_of h) (sent ++ news)
        (marks ++ all_marked h.ticks news)) →
        IsCarried after (step b h (entry.Gate n)) (sent ++ news) (marks ++ all_marked h.ticks news) }
{}

/// An entry that leaves the flight leaves its copies those of the trace, and a node that goes down
/// gives its copies up.
pub fn copies_are_carried()
    ensures left { (b : Base) (h : Hall) (s : State) (sent : List Sent) (marks : List Marked) (e : Entry) →
        LeavesFlight e → IsCarried s h sent marks →
        IsCarried s (step b h e) sent marks }
    ensures down { (b : Base) (h : Hall) (s : State) (sent : List Sent) (marks : List Marked) (n : NodeId)
        (cause : DownCause) → IsCarried s h sent marks →
        ((m : NodeId) → (h.flags m).up ≡ true → (h.flags m).known ≡ true) →
        IsCarried (was_shut s n) (step b h (entry.Down n cause)) sent marks }
{}

/// Where no copy is due and each node that is up has nothing to do, the place is idle, and a Tick's
/// copies are in flight.
pub fn ticks_may_pass()
    ensures idle { (h : Hall) (s : State) (sent : List Sent) (marks : List Marked) → IsCarried s h sent marks →
        AllEmpty s → IsAtRest h → Idle (fates_of sent) (world_of h) }
    ensures only { (h : Hall) (s : State) (sent : List Sent) (marks : List Marked) (n : NodeId) →
        IsCarried s h sent marks → Idle (fates_of sent) (world_of h) →
        (h.flags n).up ≡ true → waiting s n ≡ [] }
    ensures ticks { (b : Base) (h : Hall) (s : State) (sent : List Sent) (marks : List Marked) (moment : ℕ) →
        IsCarried s h sent marks →
        IsCarried (passed s) (step b h (entry.Tick moment)) sent marks }
{}
