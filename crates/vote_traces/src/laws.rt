//! Laws of legal vote traces.
ghost use Rattle.std.specs.Prelude.{◌≡◌, ◌+◌, ◌++◌, ◌∷◌, [], ℕ, Bool, true, List, Some, length, map};
ghost use Rattle.effect_form.specs.declared.effects.Effect.{Effect};
ghost use Rattle.record_votes.specs.declared.member_numbers.MemberNumber.{MemberNumber};
ghost use Rattle.stream_port.specs.declared.fates.Asked.{Asked};
ghost use Rattle.world_core.specs.declared.entries.Entry.{Entry};
ghost use Rattle.world_core.specs.declared.traces.Sent.{Sent};
ghost use Rattle.world_core.specs.declared.traces.Trace.{Trace};
ghost use Rattle.world_core.specs.Legal.{Numbered, asked_of, fates_of, post_of};
ghost use Rattle.world_core.specs.Walks.{sent_by};
ghost use Rattle.record_votes.specs.Polls.{held};
ghost use Rattle.record_votes.specs.Voting.{Event, Line, no_logs};
ghost use Rattle.vote_traces.specs.Causes.{HaveCauses};
ghost use Rattle.vote_traces.specs.Walks.{line_at, log_at, start_hall, step, walk, world_of};
ghost use Rattle.vote_traces.specs.Legal.{JustVoters, Legal, Meets, Rule, base_of, hall_after};
ghost use Rattle.vote_traces.specs.Rows.{early_tick, row_base, row_entries, row_fates, taken_twice};
ghost use Rattle.vote_traces.specs.Replays.{AreCalls, Call, IsRun, TwoDecided};

/// Each legal vote trace is a run of the world of votes.
pub fn law_of_replays()
    ensures { (lines : List Line) (asked : List Asked) (t : Trace) → Legal lines asked t →
        (events : List Event) × IsRun lines t events }
{}

/// Where a poll holds a decision, two members' durable logs have a Decide of that kind for its stamp,
/// whatever logs were opened.
pub fn law_of_decisions()
    ensures { (lines : List Line) (asked : List Asked) (t : Trace) (i : ℕ) (c : Bool) → Legal lines asked t →
        held ((hall_after lines t).polls i) ≡ Some c → TwoDecided (hall_after lines t) (line_at lines i).stamp c }
{}

/// A member's log goes on from the one that was opened, and each Decide behind that has its cause: a
/// poll wished it so, or the record's deadline had come at the moment of a Tick.
pub fn law_of_causes()
    ensures { (lines : List Line) (asked : List Asked) (t : Trace) (s : MemberNumber) → Legal lines asked t →
        (late : List Effect) × (((hall_after lines t).members s).gated ≡ log_at t.opened s ++ late) ×
        HaveCauses lines t.entries (log_at t.opened s) (late ++ ((hall_after lines t).members s).fresh) }
{}

/// No two polls of one stamp ever hold different decisions, in one call or in two that went on with
/// one another's logs.
pub fn one_decision_of_all_traces()
    ensures { (before between : List Call) (c d : Call) (i j : ℕ) (x y : Bool) →
        AreCalls no_logs (before ++ (c ∷ (between ++ (d ∷ [])))) →
        (line_at c.lines i).stamp ≡ (line_at d.lines j).stamp → held ((hall_after c.lines c.trace).polls i) ≡ Some x →
        held ((hall_after d.lines d.trace).polls j) ≡ Some y → x ≡ y }
{}

/// A trace without entries is legal for each list of polls whose members and polls were opened,
/// whatever fates were asked for before.
pub fn legal_begins()
    ensures { (lines : List Line) (asked : List Asked) (t : Trace) → JustVoters (length lines) t.opened → t.sent ≡ [] →
        t.entries ≡ [] → Legal lines asked t }
{}

/// A legal vote trace stays legal with one more entry that meets its rule, with the messages that it
/// sends and their fates.
pub fn legal_goes_on()
    ensures { (lines : List Line) (asked : List Asked) (t : Trace) (e : Entry) (new : List Sent) → Legal lines asked t
        → Rule (base_of lines t) (fates_of t.sent) (walk (base_of lines t) t.entries) e
        → sent_by (world_of (step (base_of lines t) (walk (base_of lines t) t.entries) e)) ≡
        sent_by (world_of (walk (base_of lines t) t.entries)) ++ map post_of new
        → Numbered (length t.sent + 1) new
        → Legal lines (asked ++ map asked_of new) (record {
          start = t.start;
          opened = t.opened;
          sent = t.sent ++ new;
          entries = t.entries ++ e ∷ [];
        }) }
{}

/// A worked trace meets the rules, and its poll holds a decision after twelve messages; one that ticks before its poll has gone doesn't, nor does one that
/// takes a message twice.
pub fn rules_by_example()
    ensures met { Meets row_base row_fates (start_hall row_base) row_entries }
    ensures decided { (held ((walk row_base row_entries).polls 1) ≡ Some true) ×
        (length (walk row_base row_entries).sendings ≡ 12) }
    ensures early { Meets row_base row_fates (start_hall row_base) early_tick → ⊥ }
    ensures twice { Meets row_base row_fates (start_hall row_base) taken_twice → ⊥ }
{}
