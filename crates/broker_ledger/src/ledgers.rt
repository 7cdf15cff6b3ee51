//! The ledger of a broker: what its log comes to.
ghost use Rattle.std.specs.Prelude.{◌≡◌, ◌≢◌, ◌≤◌, ◌==◌, [], ◌∷◌, ◌++◌, ◌+◌, Some, None, length, take, slice_get, IfOk, IfSome, OnOk, OnErr, MatchOption};
ghost use Rattle.std.specs.Option.{option_copied, option_map};
ghost use Rattle.pseudo_time.specs.Lists.{Every};
ghost use Rattle.script_run.specs.RunParts.{stop_of};
ghost use Rattle.broker_ledger.specs.Notes as notes;
ghost use Rattle.broker_ledger.specs.Ledgers as spec;

use crate::givens::{Given, give, resumed};
use crate::notes::Notes;
use effect_form::Effect;
use script_run::{Next, Run};
use std::alloc::{AllocError, Global};
use std::marker::Model;
use value_form::ActSpec;

/// What a log comes to for a broker in a run of a plan. Contracts see the plan's acts, the notes and
/// the answers of the last try.
#[derive(Drop)]
pub struct Ledger {
    alloc: Global,
    number: u8,
    run: u32,
    acts: Vec<ActSpec>,
    notes: Notes,
    /// Those of the last try, and maybe more behind them.
    answers: Vec<Given>,
    /// The script of the last act with the answers of its try, unless it is made anew.
    stepper: Option<Run>,
}

impl Model for Ledger {
    ghost use Rattle.std.specs.Coded.{codes};
    ghost use Rattle.value_form.specs.contracts.scripts.Stmt as stmt;
    ghost use Rattle.broker_ledger.specs.Ledgers.{LedgerParts, IsLedger};

    ghost Value = { LedgerParts };

    ghost coded = { Prim.hlevel (codes, stmt.the_row.coded) };

    ghost view = { λ l. record {
      number = l.number;
      run = l.run;
      acts = l.acts.items;
      notes = l.notes;
      answers = l.answers.items;
    } };

    ghost invariant = { λ l. IsLedger l.number l.acts.items l.notes l.answers.items l.stepper };
}

/// Copies of the acts.
pub fn copy_acts(alloc: Global, acts: &[ActSpec]) -> Result<Vec<ActSpec>, AllocError>
    ensures { IfOk result (λ v. v.items ≡ acts.now) }
{
    let mut copies = Vec::with_capacity(alloc, acts.len())?;
    for act in acts {
        copies.push(act.copy(alloc)?)?;
    }
    Ok(copies)
}

impl Ledger {
    /// Of an empty log.
    pub fn new(alloc: Global, number: u8, run: u32, acts: Vec<ActSpec>) -> Ledger
        requires low { 1 ≤ number }
        requires high { number ≤ 16 }
        requires acts { spec.AreBrokerActs acts.items }
        ensures { result ≡ record {
          number = number;
          run = run;
          acts = acts.items;
          notes = notes.blank_notes;
          answers = [];
        } }
    {
        Ledger {
            alloc,
            number,
            run,
            acts,
            notes: Notes::blank(),
            answers: Vec::new(alloc),
            stepper: None,
        }
    }

    /// Where it gets memory.
    pub fn alloc(&self) -> Global {
        self.alloc
    }

    /// The number of the broker.
    pub fn number(&self) -> u8
        ensures number { result ≡ self.now.number }
        ensures low { 1 ≤ result }
        ensures high { result ≤ 16 }
    {
        self.number
    }

    /// The run.
    pub fn run(&self) -> u32
        ensures { result ≡ self.now.run }
    {
        self.run
    }

    /// The notes on its log.
    pub fn notes(&self) -> Notes
        ensures notes { result ≡ self.now.notes }
        ensures are_notes { spec.AreNotes self.now.acts self.now.notes self.now.answers }
    {
        self.notes
    }

    /// Whether the last run of the log is this one.
    pub fn is_here(&self) -> bool
        ensures { result ≡ (self.now.notes.run == self.now.run) }
    {
        self.notes.run == self.run
    }

    /// The acts that the plan gives the broker.
    pub fn acts(&self) -> &[ActSpec]
        ensures acts { result.now ≡ self.now.acts }
        ensures are_acts { spec.AreBrokerActs result.now }
    {
        self.acts.as_slice()
    }

    /// How many acts the plan gives the broker.
    pub fn act_count(&self) -> usize
        ensures count { result ≡ length self.now.acts }
        ensures few { length self.now.acts ≤ 10000 }
    {
        self.acts.len()
    }

    /// The plan's act in this place.
    pub fn act(&self, place: usize) -> Option<&ActSpec>
        ensures { option_copied result ≡ slice_get self.now.acts place }
    {
        self.acts.get(place)
    }

    /// The act that was begun last.
    pub fn last_act(&self) -> Option<&ActSpec>
        ensures act { option_copied result ≡ notes.act_at self.now.acts self.now.notes }
        ensures is_act { IfSome result (λ a. spec.IsBrokerAct a.now) }
    {
        if self.notes.started == 0 {
            return None;
        }
        self.acts.get(self.notes.started - 1)
    }

    /// The index of the act that was begun last, or 0.
    pub fn last_index(&self) -> u32
        ensures { result ≡ notes.index_of (notes.act_at self.now.acts self.now.notes) }
    {
        match self.last_act() {
            Some(act) => act.index,
            None => 0,
        }
    }

    /// How many tries the act may have that was begun last, or 0.
    pub fn last_tries(&self) -> u8
        ensures { result ≡ notes.most_of (notes.act_at self.now.acts self.now.notes) }
    {
        match self.last_act() {
            Some(act) => act.tries,
            None => 0,
        }
    }

    /// The timeout in ticks of the act that was begun last, or 0.
    pub fn last_timeout(&self) -> u32
        ensures { result ≡ notes.timeout_of (notes.act_at self.now.acts self.now.notes) }
    {
        match self.last_act() {
            Some(act) => act.timeout,
            None => 0,
        }
    }

    // The script of the last act, with the answers of its try. None where no act was begun.
    fn resumed(&self) -> Result<Option<Run>, AllocError>
        requires { self.now.notes.tries ≢ 0 }
        ensures { IfOk result (λ o. MatchOption o (notes.act_at self.now.acts self.now.notes ≡ None)
            (λ r. (r.script ≡ spec.lines_of (notes.act_at self.now.acts self.now.notes)) ×
            (r.answers ≡ notes.answers_given (spec.kept self.now.notes self.now.answers)))) }
    {
        let Some(act) = self.last_act() else {
            return Ok(None);
        };
        let answers = &self.answers[..self.notes.answered()];
        let run = resumed(self.alloc, &act.script, answers)?;
        Ok(Some(run))
    }

    /// Where the script of the last act stops, after the answers of its try.
    pub fn stop(&mut self) -> Result<Next, AllocError>
        requires { self.old.notes.tries ≢ 0 }
        ensures same { self.new ≡ self.old }
        ensures stop { IfOk result (λ n. stop_of n ≡ notes.stop_at self.old.acts self.old.notes
            (spec.kept self.old.notes self.old.answers)) }
    {
        if let Some(run) = &mut self.stepper {
            let next = run.next(self.alloc)?;
            return Ok(next);
        }
        let Some(mut run) = self.resumed()? else {
            return Ok(Next::Finished);
        };
        let next = run.next(self.alloc)?;
        self.stepper = Some(run);
        Ok(next)
    }

    // The last try got an answer.
    fn add_answer(&mut self, given: Given) -> Result<(), AllocError>
        requires { spec.IsAskedFor self.old.acts self.old.notes (spec.kept self.old.notes self.old.answers) given }
        ensures ok { OnOk result (self.new ≡
            record self.old {
              notes = notes.answer_noted self.old.notes;
              answers = spec.kept self.old.notes self.old.answers ++ given ∷ [];
            }) }
        ensures notes { OnErr result (self.new.notes ≡ self.old.notes) }
        ensures kept { spec.kept self.old.notes self.new.answers ≡ spec.kept self.old.notes self.old.answers }
        ensures number { self.new.number ≡ self.old.number }
        ensures run { self.new.run ≡ self.old.run }
        ensures acts { self.new.acts ≡ self.old.acts }
    {
        self.answers.truncate(self.notes.answered());
        self.answers.reserve(1)?;
        if let Some(run) = &mut self.stepper {
            give(self.alloc, run, &given)?;
        }
        self.answers.push_reserved(given);
        self.notes.add_answer();
        Ok(())
    }

    /// Adds an effect of this run that counts and is no answer. An answer changes nothing.
    pub fn change(&mut self, effect: &Effect)
        requires { spec.MayAdd self.old.acts self.old.notes (spec.kept self.old.notes self.old.answers) effect.now }
        ensures { self.new ≡ record self.old { notes = notes.changed self.old.acts effect.now self.old.notes } }
    {
        match effect {
            Effect::Run { number } => {
                self.stepper = None;
                self.notes.begin_run(*number);
            }
            Effect::Act { .. } => {
                let most = self.last_tries();
                self.stepper = None;
                self.notes.begin_act(most);
            }
            Effect::Try { stamp, .. } => {
                self.stepper = None;
                self.notes.begin_try(*stamp);
            }
            Effect::End { outcome, .. } => self.notes.end(outcome),
            _ => {}
        }
    }

    /// Adds an effect of this run that counts.
    pub fn note(&mut self, effect: &Effect) -> Result<(), AllocError>
        requires { spec.MayAdd self.old.acts self.old.notes (spec.kept self.old.notes self.old.answers) effect.now }
        ensures ok { OnOk result (self.new ≡ record self.old {
          notes = notes.noted self.old.acts effect.now self.old.notes;
          answers = spec.answers_noted effect.now self.old.notes self.old.answers;
        }) }
        ensures notes { OnErr result (self.new.notes ≡ self.old.notes) }
        ensures kept { spec.kept self.old.notes self.new.answers ≡ spec.kept self.old.notes self.old.answers }
        ensures number { self.new.number ≡ self.old.number }
        ensures run { self.new.run ≡ self.old.run }
        ensures acts { self.new.acts ≡ self.old.acts }
    {
        match effect {
            Effect::Got { value, .. } => {
                let value = value.copy(self.alloc)?;
                self.add_answer(Given::Got(value))?;
            }
            Effect::Acked { .. } => self.add_answer(Given::Stored)?,
            _ => self.change(effect),
        }
        Ok(())
    }

    /// Passes over an effect of another run.
    pub fn pass(&mut self, effect: &Effect)
        ensures { self.new ≡ record self.old { notes = notes.passed effect.now self.old.notes } }
    {
        match effect {
            Effect::Run { number } if self.notes.run < *number => {
                self.stepper = None;
                self.notes.begin_run(*number);
            }
            Effect::Try { stamp, .. } => self.notes.clock = self.notes.clock.max(stamp.clock()),
            _ => {}
        }
    }

    /// Goes back to earlier notes, whose answers still stand.
    pub fn restore(&mut self, before: Notes)
        requires { spec.AreNotes self.old.acts before self.old.answers }
        ensures { self.new ≡ record self.old { notes = before } }
    {
        self.stepper = None;
        self.notes = before;
    }
}
