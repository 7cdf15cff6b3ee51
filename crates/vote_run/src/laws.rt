//! The members and polls of a run are those of its trace.
ghost use Rattle.std.specs.Prelude.{ℕ, List};
ghost use Rattle.effect_form.specs.declared.effects.Effect.{Effect};
ghost use Rattle.vote_courier.specs.Legal.{JustVoters};
ghost use Rattle.vote_run.specs.Voters.{opened_voters};

/// Three members with these logs and so many polls are what a vote trace has to be opened with.
pub fn members_and_polls_are_voters()
    ensures { (one two three : List Effect) (polls : ℕ) → JustVoters polls (opened_voters one two three polls) }
{}
