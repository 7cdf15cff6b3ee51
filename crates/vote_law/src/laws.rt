//! Votes of which nothing is lost come to an end.
ghost use Rattle.std.specs.Prelude.{◌≡◌, ◌*◌, ◌≤◌, false, [], List, length};
ghost use Rattle.pseudo_time.specs.Lists.{Every};
ghost use Rattle.stream_port.specs.declared.fates.Asked.{Asked};
ghost use Rattle.record_votes.specs.declared.member_numbers.MemberNumber.{MemberNumber};
ghost use Rattle.record_votes.specs.Voting.{Line, all_effects};
ghost use Rattle.world_core.specs.declared.entries.Entry.{Entry};
ghost use Rattle.world_core.specs.declared.traces.Trace.{Trace};
ghost use Rattle.world_core.specs.Counts.{is_tick};
ghost use Rattle.world_core.specs.Legal.{Idle, fates_of};
ghost use Rattle.vote_traces.specs.Walks.{log_at, walk, world_of};
ghost use Rattle.vote_traces.specs.Legal.{Legal, base_of};
ghost use Rattle.vote_law.specs.Smooth.{AreVotes, HoldAll, IsCalm, TicksForPolls};

/// So far as votes are calm, and tick only where a poll is open, no tick stands; where nobody has
/// anything to do each poll holds a decision; there are at most twelve messages for each poll; and the
/// log of a member that began with none has at most two effects for each, all Begins and Decides.
pub fn law_of_calm_votes()
    ensures quiet { (lines : List Line) (asked : List Asked) (t : Trace) (so_far : List Entry) → Legal lines asked t →
        IsCalm lines t so_far →
        TicksForPolls (base_of lines t) t.entries → Every (λ (e : Entry). is_tick e ≡ false) so_far }
    ensures held { (lines : List Line) (asked : List Asked) (t : Trace) (so_far : List Entry) → Legal lines asked t →
        IsCalm lines t so_far →
        TicksForPolls (base_of lines t) t.entries → Idle (fates_of t.sent) (world_of (walk (base_of lines t) so_far)) →
        HoldAll lines (walk (base_of lines t) so_far) }
    ensures few { (lines : List Line) (asked : List Asked) (t : Trace) (so_far : List Entry) → Legal lines asked t →
        IsCalm lines t so_far →
        TicksForPolls (base_of lines t) t.entries →
        length (walk (base_of lines t) so_far).sendings ≤ 12 * length lines }
    ensures short { (lines : List Line) (asked : List Asked) (t : Trace) (so_far : List Entry) (s : MemberNumber) →
        Legal lines asked t →
        IsCalm lines t so_far → TicksForPolls (base_of lines t) t.entries → log_at t.opened s ≡ [] →
        length (all_effects ((walk (base_of lines t) so_far).members s)) ≤ 2 * length lines }
    ensures votes { (lines : List Line) (asked : List Asked) (t : Trace) (so_far : List Entry) (s : MemberNumber) →
        Legal lines asked t →
        IsCalm lines t so_far → TicksForPolls (base_of lines t) t.entries → log_at t.opened s ≡ [] →
        AreVotes (all_effects ((walk (base_of lines t) so_far).members s)) }
{}
