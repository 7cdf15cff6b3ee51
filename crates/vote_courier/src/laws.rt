//! What a courier does is legal.
ghost use Rattle.std.specs.Prelude.{◌≡◌, ◌++◌, ◌∷◌, [], ℕ, Bool, true, false, List, Some, length};
ghost use Rattle.stream_port.specs.declared.fates.Asked.{Asked};
ghost use Rattle.pseudo_time.specs.declared.down_causes.DownCause.{DownCause};
ghost use Rattle.pseudo_time.specs.declared.nodes.NodeId.{NodeId};
ghost use Rattle.message_core.specs.declared.letters.Arrival.{Arrival};
ghost use Rattle.message_core.specs.Flights.{AllEmpty, passed, was_shut};
ghost use Rattle.message_core.specs.Parts.{state_of};
ghost use Rattle.record_votes.specs.Voting.{Line};
ghost use Rattle.message_form.specs.declared.turns.Out.{Out};
ghost use Rattle.world_core.specs.declared.entries.Entry.{Entry};
ghost use Rattle.world_core.specs.declared.entries.Entry.TheVariants as entry;
ghost use Rattle.world_core.specs.declared.traces.Opened.{Opened};
ghost use Rattle.vote_wire.specs.Flagged.{names_of};
ghost use Rattle.vote_wire.specs.Legal.{JustVoters, Rule, base_of};
ghost use Rattle.vote_wire.specs.Carried.{IsAtRest, LeavesFlight};
ghost use Rattle.vote_courier.specs.Couriers.{CourierParts, HasSent, IsNew, Takes, tick_moment, with_entry};
ghost use Rattle.vote_courier.specs.Stations.{MayAct, Stands, hall_of, owes, trace_of};
ghost use Rattle.world_core.specs.Legal.{fates_of};
ghost use Rattle.pseudo_time.specs.Nodes.{broker, same_node};
ghost use Rattle.record_votes.specs.Polls.{PollState};
ghost use Rattle.vote_courier.specs.Places.{Keeps, PollIsAt, PollIsNew};
ghost use Rattle.vote_courier.specs.Turns.{Goes, PollTurns};

/// A courier that begins between just the members and the polls has a legal trace.
pub fn couriers_begin_legal()
    ensures { (lines : List Line) (opened : List Opened) (asked : List Asked) (c : CourierParts) →
        JustVoters (length lines) opened →
        IsNew (names_of opened) opened asked c → Stands lines c }
{}

/// Each call of a courier keeps its trace legal, where the node may do what it is asked to do.
pub fn couriers_stay_legal()
    ensures takes { (lines : List Line) (n : NodeId) (c d : CourierParts) (a : Arrival) → Stands lines c →
        MayAct lines c n → Takes n c d (Some a) → Stands lines d }
    ensures notes { (lines : List Line) (c : CourierParts) (e : Entry) → Stands lines c → LeavesFlight e →
        Rule (base_of lines (trace_of c)) (fates_of c.sent) (hall_of lines c) e → Stands lines (with_entry c e) }
    ensures gates { (lines : List Line) (n : NodeId) (outs : List Out) (c d : CourierParts) → Stands lines c →
        ((hall_of lines c).flags n).up ≡ true →
        ((hall_of lines c).flags n).due ≡ true → outs ≡ owes lines c n → HasSent n outs c d → Stands lines d }
    ensures downs { (lines : List Line) (n : NodeId) (cause : DownCause) (c d : CourierParts) → Stands lines c →
        Rule (base_of lines (trace_of c)) (fates_of c.sent) (hall_of lines c) (entry.Down n cause) →
        state_of d.flight ≡ was_shut (state_of c.flight) n →
        d ≡ record (with_entry c (entry.Down n cause)) { flight = d.flight } → Stands lines d }
    ensures ticks { (lines : List Line) (c d : CourierParts) (answer : ℕ) → Stands lines c →
        AllEmpty (state_of c.flight) → IsAtRest (hall_of lines c) →
        d.entries ≡ c.entries ++ entry.Tick (tick_moment c answer) ∷ [] → d.last ≡ Some (tick_moment c answer) →
        state_of d.flight ≡ passed (state_of c.flight) →
        (d.start ≡ c.start) × (d.opened ≡ c.opened) × (d.sent ≡ c.sent) × (d.asked ≡ c.asked) → Stands lines d }
{}

/// A poll that goes, and each of its turns, keeps the trace legal; behind it the poll has nothing to
/// close, and has heard the last Tick.
pub fn polls_stay_legal()
    ensures goes { (lines : List Line) (i : ℕ) (p q : PollState) (c d : CourierParts) → Stands lines c →
        PollIsNew (hall_of lines c) i p →
        Goes (broker i) c d p q → Keeps lines (same_node (broker i)) c d × PollIsAt (hall_of lines d) i q false }
    ensures turns { (lines : List Line) (i : ℕ) (behind : Bool) (p q : PollState) (c d : CourierParts) →
        Stands lines c → PollIsAt (hall_of lines c) i p behind →
        PollTurns behind (broker i) c d p q → Keeps lines (same_node (broker i)) c d ×
        PollIsAt (hall_of lines d) i q false }
{}
