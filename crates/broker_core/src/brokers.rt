//! The broker: what it does when it begins, hears a message, or gets time.
ghost use Rattle.std.specs.Prelude.{◌≡◌, ◌≤◌, ◌++◌, [], ◌∷◌, ℕ, List, Some, None, reverse, length, IfOk, OnOk, OnErr};
ghost use Rattle.std.specs.Option.{option_copied};
ghost use Rattle.broker_ledger.specs.Effect.{Effect};
ghost use Rattle.message_form.specs.declared.turns.Out.{Out};
ghost use Rattle.broker_ledger.specs.Questions.{Tree};
ghost use Rattle.broker_ledger.specs.Tasks.{Scripted};
ghost use Rattle.broker_ledger.specs.Heards.{nothing_heard};
ghost use Rattle.broker_core.specs.Turns.{Go, Hear, Take};
ghost use Rattle.broker_core.specs.Phases as phases;
ghost use Rattle.broker_ledger.specs.Ledgers as ledgers;
ghost use Rattle.broker_core.specs.Inputs as inputs;
ghost use Rattle.broker_core.specs.Brokers as spec;
ghost use Rattle.broker_core.specs.Ranges as ranges;
ghost use Rattle.message_form.specs.Messages.{IsMessage};
ghost use Rattle.message_form.specs.Ranges.{AreEffects, AreOuts};

use crate::owed::settle;
use crate::phases::{Phase, phase_now, standing};
use crate::replies::{Reply, reply_to};
use broker_ledger::{ActSpec, Effect, Heard, Ledger, NodeId, ResumeFault, copy_acts, take_up_all};
use message_form::{Message, Out, SnapshotLog, Turn};
use std::alloc::{AllocError, Global};
use std::marker::Model;

/// A broker in a run of a plan. Contracts see its log; it keeps notes on it, and not the log.
///
/// A call that answers an error found no memory, and the broker is as before.
#[derive(Drop)]
pub struct Broker {
    ledger: Ledger,
    heard: Heard,
    /// The stage of the last try.
    phase: Phase,
    /// What the notes are on.
    log: SnapshotLog,
}

impl Model for Broker {
    ghost use Rattle.std.specs.Coded.{codes};
    ghost use Rattle.broker_ledger.specs.StmtContracts as stmt;
    ghost use Rattle.broker_core.specs.Parts.{BrokerParts, parts_of, IsBroker};

    ghost Value = { BrokerParts };

    ghost coded = { Prim.hlevel (codes, stmt.the_row.coded) };

    ghost view = { λ b. parts_of b.ledger b.heard b.log };

    ghost invariant = { λ b. IsBroker b.ledger b.heard b.phase b.log };
}

// What an input led to: the new effects, the messages and the stage.
#[derive(Drop)]
struct Gain {
    effects: Vec<Effect>,
    outs: Vec<Out>,
    phase: Phase,
}

// A list of what there is.
fn listed(alloc: Global, out: Option<Out>) -> Result<Vec<Out>, AllocError>
    ensures { IfOk result (λ v. v.items ≡ inputs.listed out) }
{
    let mut outs = Vec::new(alloc);
    if let Some(out) = out {
        outs.push(out)?;
    }
    Ok(outs)
}

// Adds the effect to the ledger, if there is one, and to the list.
fn add_first(
    ledger: &mut Ledger,
    effects: &mut Vec<Effect>,
    first: Option<Effect>,
) -> Result<(), AllocError>
    requires none { effects.old.items ≡ [] }
    requires may { inputs.MayBegin ledger.old.acts ledger.old.notes
        (ledgers.kept ledger.old.notes ledger.old.answers) first }
    ensures ok { OnOk result (ledger.new ≡ inputs.begun ledger.old first) }
    ensures effects { OnOk result (effects.new.items ≡ inputs.firsts first) }
    ensures notes { OnErr result (ledger.new.notes ≡ ledger.old.notes) }
    ensures kept { ledgers.kept ledger.old.notes ledger.new.answers ≡ ledgers.kept ledger.old.notes ledger.old.answers }
    ensures number { ledger.new.number ≡ ledger.old.number }
    ensures run { ledger.new.run ≡ ledger.old.run }
    ensures acts { ledger.new.acts ≡ ledger.old.acts }
{
    if let Some(effect) = first {
        effects.reserve(1)?;
        ledger.note(&effect)?;
        effects.push_reserved(effect);
    }
    Ok(())
}

// Adds the effect, and those that are owed after it, and says what is to be sent.
fn yielded(
    ledger: &mut Ledger,
    log: &mut SnapshotLog,
    first: Option<Effect>,
    heard: &Heard,
) -> Result<Gain, AllocError>
    requires { inputs.MayBegin ledger.old.acts ledger.old.notes
        (ledgers.kept ledger.old.notes ledger.old.answers) first }
    ensures effects { IfOk result (λ w. reverse w.effects.items ≡ inputs.effects_from ledger.old first heard.now) }
    ensures ledger { OnOk result (ledger.new ≡ inputs.ledger_from ledger.old first heard.now) }
    ensures phase { IfOk result (λ w. w.phase ≡ inputs.phase_in ledger.new heard.now) }
    ensures outs { IfOk result (λ w. w.outs.items ≡ inputs.listed
        (phases.standing_at ledger.new.acts ledger.new.notes w.phase)) }
    ensures are_notes { OnOk result (ledgers.AreNotes ledger.new.acts ledger.new.notes ledger.new.answers) }
    ensures kept { ledgers.kept ledger.old.notes ledger.new.answers ≡ ledgers.kept ledger.old.notes ledger.old.answers }
    ensures number { ledger.new.number ≡ ledger.old.number }
    ensures run { ledger.new.run ≡ ledger.old.run }
    ensures acts { ledger.new.acts ≡ ledger.old.acts }
    ensures logged { IfOk result (λ w. log.new ≡ log.old ++ w.effects.items) }
    ensures unlogged { OnErr result (log.new ≡ log.old) }
{
    let alloc = ledger.alloc();
    let mut effects = Vec::new(alloc);
    add_first(ledger, &mut effects, first)?;
    let phase = settle(ledger, heard, &mut effects)?;
    let out = standing(ledger, &phase)?;
    let outs = listed(alloc, out)?;
    log.add(alloc, effects.as_slice())?;
    Ok(Gain {
        effects,
        outs,
        phase,
    })
}

// Why the broker can't resume from a log that led to these notes: `other` is the index of the first act
// that isn't the plan's.
fn resume_fault(ledger: &Ledger, other: Option<u32>) -> Option<ResumeFault>
    ensures fault { result ≡ inputs.fault_of ledger.now other }
    ensures are_notes { ledgers.AreNotes ledger.now.acts ledger.now.notes ledger.now.answers }
{
    let latest = ledger.notes().run;
    if ledger.run() < latest {
        return Some(ResumeFault::OldRun { latest });
    }
    match other {
        Some(index) if ledger.is_here() => Some(ResumeFault::OtherPlan { index }),
        _ => None,
    }
}

// Whether each act of the plan has its outcome.
fn is_over(ledger: &Ledger) -> bool
    ensures { result ≡ inputs.over_by ledger.now.run ledger.now.acts ledger.now.notes }
{
    if !ledger.is_here() {
        return ledger.act_count() == 0;
    }
    let notes = ledger.notes();
    let most = ledger.last_tries();
    notes.started == ledger.act_count() && notes.is_over(most)
}

impl Broker {
    ghost use Rattle.broker_core.specs.Parts.{BrokerParts};

    /// The broker of this number resumes from its log, in a run with these acts.
    ///
    /// Numbers of brokers are 1 to 16, runs count from 1, the acts are those of a plan, and what the log
    /// says is in its ranges. OldRun exactly where the log's
    /// last run is later than this one; OtherPlan exactly where it is this one and the log has an act
    /// of it that isn't the plan's in its place, or doesn't fit.
    pub fn open(
        alloc: Global,
        number: u8,
        run: u32,
        acts: &[ActSpec],
        effects: &[Effect],
    ) -> Result<Broker, ResumeFault>
        requires low { 1 ≤ number }
        requires high { number ≤ 16 }
        requires run { 1 ≤ run }
        requires acts { ledgers.AreBrokerActs acts.now }
        requires log { AreEffects effects.now }
        ensures opens { (script : List ℕ → Tree) → Scripted script acts.now →
            spec.Opens script number run acts.now effects.now result }
        ensures fresh { IfOk result (λ b. b ≡ spec.opened_broker number run acts.now effects.now) }
    {
        let own = copy_acts(alloc, acts)?;
        Broker::open_with(alloc, number, run, own, effects)
    }

    /// As `open`, with acts that it keeps.
    pub fn open_with(
        alloc: Global,
        number: u8,
        run: u32,
        acts: Vec<ActSpec>,
        effects: &[Effect],
    ) -> Result<Broker, ResumeFault>
        requires low { 1 ≤ number }
        requires high { number ≤ 16 }
        requires run { 1 ≤ run }
        requires acts { ledgers.AreBrokerActs acts.items }
        requires log { AreEffects effects.now }
        ensures opens { (script : List ℕ → Tree) → Scripted script acts.items →
            spec.Opens script number run acts.items effects.now result }
        ensures fresh { IfOk result (λ b. b ≡ spec.opened_broker number run acts.items effects.now) }
    {
        let mut ledger = Ledger::new(alloc, number, run, acts);
        let other = take_up_all(&mut ledger, effects)?;
        if let Some(fault) = resume_fault(&ledger, other) {
            return Err(fault);
        }
        let heard = Heard::nothing();
        let phase = phase_now(&mut ledger, &heard)?;
        let mut log = SnapshotLog::new(alloc);
        log.add(alloc, effects)?;
        Ok(Broker {
            ledger,
            heard,
            phase,
            log,
        })
    }

    /// The acts that the plan gives it.
    pub fn acts(&self) -> &[ActSpec]
        ensures acts { result.now ≡ self.now.acts }
        ensures are_acts { ledgers.AreBrokerActs result.now }
    {
        self.ledger.acts()
    }

    // Adds the effect, hears what is heard now, and what follows.
    fn advance(&mut self, first: Option<Effect>, heard: Heard) -> Result<Turn, AllocError>
        requires fits { (script : List ℕ → Tree) → Scripted script self.old.acts →
            spec.FirstFits script self.old first }
        requires in_range { ranges.FirstInRange first }
        ensures gives { (script : List ℕ → Tree) → Scripted script self.old.acts →
            IfOk result (λ t. spec.Gives (spec.follows script self.old first heard) t self.old self.new) }
        ensures in_range { IfOk result (λ t. AreEffects t.effects × AreOuts t.outs) }
        ensures err { OnErr result (self.new ≡ self.old) }
        ensures acts { self.new.acts ≡ self.old.acts }
    {
        let before = self.ledger.notes();
        match yielded(&mut self.ledger, &mut self.log, first, &heard) {
            Ok(
                Gain {
                    effects,
                    outs,
                    phase,
                },
            ) => {
                self.heard = heard;
                self.phase = phase;
                Ok(Turn::of(effects, outs))
            }
            Err(wanting) => {
                self.ledger.restore(before);
                Err(wanting)
            }
        }
    }

    /// The broker goes: what is owed is done, and the outstanding request is sent.
    pub fn go(&mut self) -> Result<Turn, AllocError>
        ensures gives { (script : List ℕ → Tree) → Scripted script self.old.acts →
            IfOk result (λ t. spec.Gives (spec.turn_of script self.old Go) t self.old self.new) }
        ensures in_range { IfOk result (λ t. AreEffects t.effects × AreOuts t.outs) }
        ensures err { OnErr result (self.new ≡ self.old) }
        ensures acts { self.new.acts ≡ self.old.acts }
    {
        let heard = Heard {
            gone: true,
            ..self.heard
        };
        let turn = self.advance(None, heard)?;
        Ok(turn)
    }

    /// A message is heard where it answers the outstanding request. Then what is owed is done, and the
    /// next request is sent. Every other message is ignored. Nobody's word is taken for another's: the
    /// request has its stamp and step, so who sent the answer doesn't matter.
    pub fn take(&mut self, from: NodeId, message: &Message) -> Result<Turn, AllocError>
        requires message { IsMessage message.now }
        ensures gives { (script : List ℕ → Tree) → Scripted script self.old.acts →
            IfOk result (λ t. spec.Gives (spec.turn_of script self.old (Take from message.now)) t self.old self.new) }
        ensures in_range { IfOk result (λ t. AreEffects t.effects × AreOuts t.outs) }
        ensures err { OnErr result (self.new ≡ self.old) }
        ensures acts { self.new.acts ≡ self.old.acts }
    {
        match reply_to(&mut self.ledger, &self.phase, &self.heard, message)? {
            Reply::Ignored => Ok(Turn::quiet(self.ledger.alloc())),
            Reply::Hears(heard) => {
                let turn = self.advance(None, heard)?;
                Ok(turn)
            }
            Reply::Adds(effect) => {
                let heard = self.heard;
                let turn = self.advance(Some(effect), heard)?;
                Ok(turn)
            }
        }
    }

    /// A moment is heard, whichever it is, and the outstanding request is sent again.
    pub fn hear(&mut self, moment: u64) -> Result<Turn, AllocError>
        ensures gives { (script : List ℕ → Tree) → Scripted script self.old.acts →
            IfOk result (λ t. spec.Gives (spec.turn_of script self.old (Hear moment)) t self.old self.new) }
        ensures in_range { IfOk result (λ t. AreEffects t.effects × AreOuts t.outs) }
        ensures err { OnErr result (self.new ≡ self.old) }
        ensures acts { self.new.acts ≡ self.old.acts }
    {
        let alloc = self.ledger.alloc();
        let out = standing(&self.ledger, &self.phase)?;
        let outs = listed(alloc, out)?;
        Ok(Turn::of(Vec::new(alloc), outs))
    }

    /// Whether each act has its outcome and no request is outstanding. Takes no memory.
    pub fn done(&self) -> bool
        ensures { (script : List ℕ → Tree) → Scripted script self.now.acts → result ≡ spec.is_done script self.now }
    {
        is_over(&self.ledger) && self.phase.is_quiet()
    }
}
