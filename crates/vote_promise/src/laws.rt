//! What a poll holds is on the media of two members.
ghost use Rattle.std.specs.Prelude.{◌≡◌, ◌⊎◌, ◌≤◌, ℕ, List, Option, Some, None, length, IsTrue};
ghost use Rattle.stream_port.specs.declared.fates.Asked.{Asked};
ghost use Rattle.message_core.specs.Tallies.{numbered};
ghost use Rattle.record_votes.specs.Polls.{held};
ghost use Rattle.record_votes.specs.Voting.{Line};
ghost use Rattle.record_votes.specs.declared.member_numbers.MemberNumber.{MemberNumber};
ghost use Rattle.world_core.specs.declared.traces.Trace.{Trace};
ghost use Rattle.vote_law.specs.Legal.{Legal, hall_after};
ghost use Rattle.vote_promise.specs.Clauses.{HasEnded, HasRunOut, RestoresLogs, StandOnMedia, HaveCausesOnMedia};

use medium_port::Medium;

/// Where a poll's line holds a decision, two members' media have a Decide of that kind for its stamp,
/// whatever a crash leaves of them.
pub fn decisions_stand_on_media<M: Medium>()
    ensures { (lines : List Line) (asked : List Asked) (t : Trace) (media left : MemberNumber → Option M) →
        IsTrue M.tells →
        Legal lines asked t → RestoresLogs M.Medium lines media left t →
        StandOnMedia M.Medium lines left t }
{}

/// What a crash leaves of a member's medium resumes from the log that was opened, and each Decide
/// behind that has its cause.
pub fn decisions_on_media_have_causes<M: Medium>()
    ensures { (lines : List Line) (asked : List Asked) (t : Trace) (media left : MemberNumber → Option M) →
        IsTrue M.tells →
        Legal lines asked t → RestoresLogs M.Medium lines media left t →
        HaveCausesOnMedia M.Medium lines left t }
{}

/// A poll stays open only where enough messages were sent, or where the Ticks ran out at an idle
/// place.
pub fn open_only_where_it_ended_early()
    ensures { (most_ticks enough : ℕ) (lines : List Line) (t : Trace) (i : ℕ) (l : Line) →
        HasEnded most_ticks enough lines t → numbered lines i ≡ Some l →
        held ((hall_after lines t).polls i) ≡ None → (enough ≤ length t.sent) ⊎ HasRunOut most_ticks lines t }
{}
