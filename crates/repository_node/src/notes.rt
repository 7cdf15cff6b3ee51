//! What a repository notes of its log beside it.
ghost use Rattle.std.specs.Prelude.{◌≡◌, ◌++◌, ◌&&◌, [], not, true, List, IfOk, OnOk};
ghost use Rattle.std.specs.Option.{option_to_list};
ghost use Rattle.effect_form.specs.declared.effects.Effect.{Effect};
ghost use Rattle.repository_node.specs.Doubts.{given, given_by, is_own_learn, is_plain};

use effect_form::Effect;
use message_form::Turn;
use object_history::HistoryFault;
use pseudo_time::Stamp;
use std::alloc::{AllocError, Global};

/// What a repository notes of its log: the stamps of versions that it was given for other homes, one for
/// each version, and whether it learned no decision of its own.
#[derive(Drop)]
pub struct Notes {
    pub given: Vec<Stamp>,
    pub is_plain: bool,
    /// False if memory ran out for a note.
    pub is_whole: bool,
}

// The stamp of a version that was given for another home.
fn given_by(repository: u8, effect: &Effect) -> Option<Stamp>
    ensures { option_to_list result ≡ given_by repository effect.now }
{
    match effect {
        Effect::Put { start, .. } => {
            let stamp = start.stamp();
            if stamp.home() == repository {
                return None;
            }
            Some(stamp)
        }
        _ => None,
    }
}

// Whether the effect is a Learn of a stamp whose home this repository is.
fn is_own_learn(repository: u8, effect: &Effect) -> bool
    ensures { result ≡ is_own_learn repository effect.now }
{
    match effect {
        Effect::Learn { stamp, .. } => stamp.home() == repository,
        _ => false,
    }
}

impl Notes {
    ghost use Rattle.repository_node.specs.NotedLogs.{AreNotes};

    // Those of an empty log.
    fn new(alloc: Global) -> Notes
        ensures { (result.given.items ≡ []) × (result.is_plain ≡ true) }
    {
        Notes {
            given: Vec::new(alloc),
            is_plain: true,
            is_whole: true,
        }
    }

    // One effect more.
    fn add(&mut self, repository: u8, effect: &Effect) -> Result<(), AllocError>
        ensures added { OnOk result ((self.new.given.items ≡ self.old.given.items ++ given_by repository effect.now) ×
            (self.new.is_plain ≡ (self.old.is_plain && not (is_own_learn repository effect.now)))) }
        ensures whole { self.new.is_whole ≡ self.old.is_whole }
    {
        if let Some(stamp) = given_by(repository, effect) {
            self.given.push(stamp)?;
        }
        if is_own_learn(repository, effect) {
            self.is_plain = false;
        }
        Ok(())
    }

    // So many effects more.
    fn add_all(&mut self, repository: u8, effects: &[Effect]) -> Result<(), AllocError>
        ensures noted { (log : List Effect) → self.old.given.items ≡ given repository log →
            self.old.is_plain ≡ is_plain repository log →
            OnOk result ((self.new.given.items ≡ given repository (log ++ effects.now)) ×
            (self.new.is_plain ≡ is_plain repository (log ++ effects.now))) }
        ensures whole { self.new.is_whole ≡ self.old.is_whole }
    {
        for effect in effects {
            self.add(repository, effect)?;
        }
        Ok(())
    }

    // The log has these effects more.
    fn follow(&mut self, repository: u8, effects: &[Effect])
        ensures { (log : List Effect) → AreNotes repository log self.old →
            AreNotes repository (log ++ effects.now) self.new }
    {
        if self.add_all(repository, effects).is_err() {
            self.is_whole = false;
        }
    }

    /// Those of a log, oldest first.
    pub fn of(alloc: Global, repository: u8, effects: &[Effect]) -> Notes
        ensures { AreNotes repository effects.now result }
    {
        let mut notes = Notes::new(alloc);
        notes.follow(repository, effects);
        notes
    }

    /// What a core gave joins the log.
    pub fn follow_turn(&mut self, repository: u8, gave: &Result<Turn, HistoryFault>)
        ensures { (log : List Effect) → AreNotes repository log self.old →
            IfOk gave.now (λ t. AreNotes repository (log ++ t.effects) self.new) }
    {
        if let Ok(turn) = gave {
            self.follow(repository, turn.effects.as_slice());
        }
    }
}
