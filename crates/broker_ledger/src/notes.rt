//! The notes of a ledger: the last act and the last try.
ghost use Rattle.std.specs.Prelude.{◌≡◌, ◌≢◌, ◌≤◌, IfSome};
ghost use Rattle.broker_ledger.specs.Notes as spec;
ghost use Rattle.broker_ledger.specs.Fits as fits;

use effect_form::Outcome;
use pseudo_time::{PseudoTime, Stamp};

/// What a broker keeps of a try: its stamp, how many answers it got, and its end.
#[derive(Clone, Copy)]
pub struct Last {
    pub stamp: Stamp,
    pub answered: usize,
    pub end: Option<Outcome>,
}

/// What a broker keeps of its log. The last act and the last try are those of the run.
#[derive(Clone, Copy)]
pub struct Notes {
    /// The last run.
    pub run: u32,
    /// The greatest clock of a try, of all runs.
    pub clock: u64,
    /// The greatest clock that a refusal of this run has shown.
    pub shown: u64,
    /// How many acts were begun.
    pub started: usize,
    /// Whether each act before the last has its outcome.
    pub over_before: bool,
    /// Whether the last act is spent.
    pub spent: bool,
    /// How many tries the last act had.
    pub tries: usize,
    /// The last try of the run.
    pub last: Option<Last>,
}

impl Last {
    /// The pseudotime of the current request. A script makes 10,000 requests at most.
    pub fn time(&self) -> PseudoTime
        requires { self.now.answered ≤ 10000 }
        ensures { result ≡ spec.time_at self.now }
    {
        let Some(time) = PseudoTime::new(self.stamp, self.answered as u32 + 1) else {
            unreachable!()
        };
        time
    }
}

// Whether another try may follow this end.
pub fn calls_again(end: &Option<Outcome>) -> bool
    ensures { result ≡ fits.calls_again end.now }
{
    match end {
        Some(Outcome::LaterRead { .. })
        | Some(Outcome::LaterVersion { .. })
        | Some(Outcome::Expired { .. }) => true,
        _ => false,
    }
}

// The clock that an end has shown, if that is greater.
fn shown_by(outcome: &Outcome, shown: u64) -> u64
    ensures { result ≡ spec.shown_by outcome.now shown }
{
    match outcome {
        Outcome::LaterRead { end, .. } => shown.max(end.stamp().clock()),
        Outcome::LaterVersion { start, .. } => shown.max(start.stamp().clock()),
        _ => shown,
    }
}

impl Notes {
    /// Nothing is known yet.
    pub fn blank() -> Notes
        ensures { result ≡ spec.blank_notes }
    {
        Notes {
            run: 0,
            clock: 0,
            shown: 0,
            started: 0,
            over_before: true,
            spent: false,
            tries: 0,
            last: None,
        }
    }

    /// The last try of the last act, where it has no end.
    pub fn open(&self) -> Option<Last>
        ensures open { result ≡ spec.open_last self.now }
        ensures tried { IfSome result (λ l. self.now.tries ≢ 0) }
        ensures answered { IfSome result (λ l. l.answered ≡ spec.answered_in self.now.last) }
    {
        if self.tries == 0 {
            return None;
        }
        match self.last {
            Some(last) if last.end.is_none() => Some(last),
            _ => None,
        }
    }

    /// How many answers the last try got.
    pub fn answered(&self) -> usize
        ensures { result ≡ spec.answered_in self.now.last }
    {
        match self.last {
            Some(last) => last.answered,
            None => 0,
        }
    }

    fn has_end(&self) -> bool
        ensures { result ≡ spec.has_end self.now.last }
    {
        match self.last {
            Some(last) => last.end.is_some(),
            None => false,
        }
    }

    fn calls_on(&self) -> bool
        ensures { result ≡ spec.calls_on self.now.last }
    {
        match self.last {
            Some(last) => calls_again(&last.end),
            None => false,
        }
    }

    /// Whether another try of the last act may be made, of which there may be so many.
    pub fn another(&self, most: u8) -> bool
        ensures { result ≡ spec.another_at most self.now }
    {
        self.tries == 0 || self.calls_on() && self.tries < usize::from(most)
    }

    fn has_outcome(&self, most: u8) -> bool
        ensures { result ≡ spec.outcome_at most self.now }
    {
        self.spent || self.tries != 0 && self.has_end() && !self.another(most)
    }

    /// Whether each act has its outcome.
    pub fn is_over(&self, most: u8) -> bool
        ensures { result ≡ spec.over_at most self.now }
    {
        self.started == 0 || self.has_outcome(most) && self.over_before
    }

    /// Whether the last act lets the next begin.
    pub fn rests(&self) -> bool
        ensures { result ≡ spec.rests_at self.now }
    {
        self.started == 0 || self.spent || self.tries != 0 && self.has_end()
    }

    /// Whether a try may follow those that there are, be it of the number of tries allowed or not.
    pub fn may_follow(&self) -> bool
        ensures { result ≡ spec.may_follow_at self.now }
    {
        self.tries == 0 || self.calls_on()
    }

    /// A run begins.
    pub fn begin_run(&mut self, run: u32)
        ensures { self.new ≡ spec.run_begun run self.old }
    {
        let clock = self.clock;
        *self = Notes::blank();
        self.run = run;
        self.clock = clock;
    }

    /// An act begins, after one with so many tries.
    pub fn begin_act(&mut self, most: u8)
        requires { self.old.started ≤ 10000 }
        ensures { self.new ≡ spec.act_begun most self.old }
    {
        self.over_before = self.is_over(most);
        self.started += 1;
        self.spent = false;
        self.tries = 0;
    }

    /// A try begins.
    pub fn begin_try(&mut self, stamp: Stamp)
        requires { self.old.tries ≤ 1099511627775 }
        ensures begun { self.new ≡ spec.try_begun stamp self.old }
        ensures clock { stamp.clock ≤ 1099511627775 }
    {
        self.clock = self.clock.max(stamp.clock());
        self.tries += 1;
        self.last = Some(Last {
            stamp,
            answered: 0,
            end: None,
        });
    }

    /// The last try got one more answer.
    pub fn add_answer(&mut self)
        requires { spec.answered_in self.old.last ≤ 10000 }
        ensures { self.new ≡ spec.answer_noted self.old }
    {
        if let Some(last) = self.last {
            self.last = Some(Last {
                answered: last.answered + 1,
                ..last
            });
        }
    }

    /// The last try, or the last act, ends.
    pub fn end(&mut self, outcome: &Outcome)
        ensures { self.new ≡ spec.end_noted outcome.now self.old }
    {
        if let Outcome::Spent { .. } = outcome {
            self.spent = true;
            return;
        }
        self.shown = shown_by(outcome, self.shown);
        if let Some(last) = self.last {
            self.last = Some(Last {
                end: Some(*outcome),
                ..last
            });
        }
    }
}
