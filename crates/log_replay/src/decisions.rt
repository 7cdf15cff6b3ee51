//! Attempts on whose decision the logs of repositories disagree.
ghost use Rattle.std.specs.FinMap as finite;
ghost use Rattle.std.specs.Prelude.{◌≡◌, ◌⊎◌, ◌↔◌, IsTrue, true, false, Some, IfOk, OnOk, List, ℕ, length, reverse};
ghost use Rattle.pseudo_time.specs.Lists.{Every, Has};
ghost use Rattle.pseudo_time.specs.Order.{stamp_lt};
ghost use Rattle.effect_form.specs.declared.effects.Effect.{Effect as AnEffect};
ghost use Rattle.effect_form.specs.declared.effects.Effect.TheVariants as effect;
ghost use Rattle.pseudo_time.specs.declared.decisions.Decision.{Decision};
ghost use Rattle.repository_log.specs.Logs as logs;
ghost use Rattle.world_core.specs.Deeds.{RunLogs, in_run, log_of};
ghost use Rattle.log_replay.specs.Decisions as spec;
ghost use Rattle.log_replay.specs.Folders.{items_of};

use effect_form::Effect;
use object_history::Settles;
use pseudo_time::Stamp;
use repository_log::is_commit;
use std::alloc::{AllocError, Global};

/// What homes decided, as far as it was read.
#[derive(Drop)]
pub(crate) struct Rulings {
    /// Whether they committed the attempt. What was decided first counts.
    pub decided: Settles,
    /// The least attempt on which logs disagree.
    pub least: Option<Stamp>,
}

// Whether a stamp comes before another one.
#[tactic(auto, unfolding(pseudo_time::specs::Order::stamp_lt))]
fn is_less(stamp: Stamp, other: Stamp) -> bool
    ensures { result ≡ stamp_lt stamp other }
{
    stamp < other
}

// Whether this is what is said.
fn is_so(said: Option<bool>, committed: bool) -> bool
    ensures { IsTrue result ↔ (said ≡ Some committed) }
{
    match said {
        Some(before) => before == committed,
        None => false,
    }
}

// The lesser of two stamps, if there are two.
fn lesser(least: Option<Stamp>, stamp: Stamp) -> Stamp
    ensures there { stamp_lt stamp result ≡ false }
    ensures least { (s : _) → spec.AtMost least s → stamp_lt s result ≡ false }
    ensures one { ((result ≡ stamp) × (spec.AtMost least stamp → ⊥)) ⊎ (least ≡ Some result) }
{
    match least {
        Some(least) => { if is_less(stamp, least) { stamp } else { least } }
        None => stamp,
    }
}

impl Rulings {
    // The logs disagree on the attempt.
    fn blame(&mut self, stamp: Stamp)
        ensures decided { self.new.decided ≡ self.old.decided }
        ensures there { spec.AtMost self.new.least stamp }
        ensures least { (s : _) → spec.AtMost self.old.least s → spec.AtMost self.new.least s }
        ensures one { ((self.new.least ≡ Some stamp) × (spec.AtMost self.old.least stamp → ⊥)) ⊎
            (self.new.least ≡ self.old.least) }
    {
        self.least = Some(lesser(self.least, stamp));
    }

    // Its home decides the attempt so.
    fn decide_home(&mut self, stamp: Stamp, committed: bool) -> Result<(), AllocError>
        ensures grown { OnOk result (spec.HasGrown self.old self.new) }
        ensures kept { OnOk result ((finite.get self.new.decided stamp ≡ Some committed) ⊎
            spec.AtMost self.new.least stamp) }
        ensures based { (k : RunLogs) (d : Decision) → Has (effect.Decide stamp d) (log_of k stamp.home) →
            committed ≡ logs.is_commit d → spec.IsBased k self.old → OnOk result (spec.IsBased k self.new) }
    {
        match self.decided.get(stamp) {
            None => {
                self.decided.put(stamp, committed)?;
                Ok(())
            }
            Some(before) => {
                if before != committed {
                    self.blame(stamp);
                }
                Ok(())
            }
        }
    }

    // The log of this repository decides the attempt so.
    fn decide(&mut self, repository: u8, stamp: Stamp, committed: bool) -> Result<(), AllocError>
        ensures grown { OnOk result (spec.HasGrown self.old self.new) }
        ensures kept { (d : Decision) → committed ≡ logs.is_commit d →
            OnOk result (spec.IsKept repository self.new.decided self.new.least (effect.Decide stamp d)) }
        ensures based { (k : RunLogs) (d : Decision) → in_run k repository ≡ true →
            Has (effect.Decide stamp d) (log_of k repository) → committed ≡ logs.is_commit d →
            spec.IsBased k self.old → OnOk result (spec.IsBased k self.new) }
    {
        if stamp.home() == repository {
            self.decide_home(stamp, committed)?;
            return Ok(());
        }
        self.blame(stamp);
        Ok(())
    }

    // The log of a repository says that the attempt was learned so.
    fn learn(&mut self, stamp: Stamp, committed: bool)
        ensures decided { self.new.decided ≡ self.old.decided }
        ensures least { (s : _) → spec.AtMost self.old.least s → spec.AtMost self.new.least s }
        ensures fits { spec.IsLearned self.new.decided self.new.least (effect.Learn stamp committed) }
        ensures based { (k : RunLogs) (r : ℕ) → in_run k r ≡ true →
            Has (effect.Learn stamp committed) (log_of k r) → spec.HasDecided k self.old →
            spec.IsBased k self.old → spec.IsBased k self.new }
    {
        if is_so(self.decided.get(stamp), committed) {
            return;
        }
        self.blame(stamp);
    }

    // Checks what an effect of a repository's log says was learned.
    fn check(&mut self, effect: &Effect)
        ensures decided { self.new.decided ≡ self.old.decided }
        ensures least { (s : _) → spec.AtMost self.old.least s → spec.AtMost self.new.least s }
        ensures fits { spec.IsLearned self.new.decided self.new.least effect.now }
        ensures based { (k : RunLogs) (r : ℕ) → in_run k r ≡ true → Has effect.now (log_of k r) →
            spec.HasDecided k self.old → spec.IsBased k self.old → spec.IsBased k self.new }
    {
        match effect {
            Effect::Learn { stamp, committed } => self.learn(*stamp, *committed),
            _ => {}
        }
    }

    // Reads what an effect of this repository's log decides.
    fn read(&mut self, repository: u8, effect: &Effect) -> Result<(), AllocError>
        ensures grown { OnOk result (spec.HasGrown self.old self.new) }
        ensures based { (k : RunLogs) → in_run k repository ≡ true → Has effect.now (log_of k repository) →
            spec.IsBased k self.old → OnOk result (spec.IsBased k self.new) }
        ensures kept { OnOk result (spec.IsKept repository self.new.decided self.new.least effect.now) }
    {
        match effect {
            Effect::Decide { stamp, decision } => {
                self.decide(repository, *stamp, is_commit(*decision))?;
                Ok(())
            }
            _ => Ok(()),
        }
    }

    // Reads what the log of this repository decides.
    fn read_log(&mut self, repository: u8, log: &[Effect]) -> Result<(), AllocError>
        ensures grown { OnOk result (spec.HasGrown self.old self.new) }
        ensures based { (k : RunLogs) → in_run k repository ≡ true → log_of k repository ≡ reverse log.now →
            spec.IsBased k self.old → OnOk result (spec.IsBased k self.new) }
        ensures kept { OnOk result (Every (spec.IsKept repository self.new.decided self.new.least) log.now) }
    {
        for effect in log {
            self.read(repository, effect)?;
        }
        Ok(())
    }

    // Checks what the log of a repository learned.
    fn check_log(&mut self, log: &[Effect])
        ensures decided { self.new.decided ≡ self.old.decided }
        ensures least { (s : _) → spec.AtMost self.old.least s → spec.AtMost self.new.least s }
        ensures fits { Every (spec.IsLearned self.new.decided self.new.least) log.now }
        ensures based { (k : RunLogs) (r : ℕ) → in_run k r ≡ true → log_of k r ≡ reverse log.now →
            spec.HasDecided k self.old → spec.IsBased k self.old → spec.IsBased k self.new }
    {
        for effect in log {
            self.check(effect);
        }
    }
}

// What the logs of repositories 1 to 16 decide. Each stands oldest first.
fn rulings_of(alloc: Global, repositories: &[Vec<Effect>]) -> Result<Rulings, AllocError>
    requires { length repositories.now ≡ 16 }
    ensures kept { IfOk result (λ r. spec.AreKept r.decided r.least 0 (items_of repositories.now)) }
    ensures based { (k : RunLogs) → spec.HaveLogs k (items_of repositories.now) → IfOk result (spec.IsBased k) }
{
    let mut rulings = Rulings {
        decided: Settles::new(alloc),
        least: None,
    };
    for (place, log) in repositories.iter().enumerate() {
        rulings.read_log(place as u8 + 1, log.as_slice())?;
    }
    Ok(rulings)
}

// Checks what the logs of repositories 1 to 16 learned. Each stands oldest first.
fn check_logs(rulings: Rulings, repositories: &[Vec<Effect>]) -> Rulings
    requires length { length repositories.now ≡ 16 }
    requires kept { spec.AreKept rulings.decided rulings.least 0 (items_of repositories.now) }
    ensures decided { result.decided ≡ rulings.decided }
    ensures least { (s : _) → spec.AtMost rulings.least s → spec.AtMost result.least s }
    ensures learned { spec.AreLearned result.decided result.least (items_of repositories.now) }
    ensures based { (k : RunLogs) → spec.HaveLogs k (items_of repositories.now) → spec.IsBased k rulings →
        spec.IsBased k result }
{
    let mut rulings = rulings;
    for log in repositories {
        rulings.check_log(log.as_slice());
    }
    rulings
}

/// The least attempt on whose decision the logs of repositories 1 to 16 disagree: it was decided away from its home,
/// or twice, as committed and as not, or it was learned as its home didn't decide it. None if there is none. Each log
/// stands oldest first.
pub fn first_misdecided(
    alloc: Global,
    repositories: &[Vec<Effect>],
) -> Result<Option<Stamp>, AllocError>
    requires { length repositories.now ≡ 16 }
    ensures { IfOk result (λ first. (k : RunLogs) → spec.HaveLogs k (items_of repositories.now) →
        spec.IsFirstMisdecided k first) }
{
    let rulings = rulings_of(alloc, repositories)?;
    let rulings = check_logs(rulings, repositories);
    Ok(rulings.least)
}
