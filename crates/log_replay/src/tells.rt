//! What logs tell of each stamp.
ghost use Rattle.std.specs.Prelude.{◌≡◌, ◌∷◌, ◌++◌, [], List, ℕ, map, length, reverse, IfOk, IfErr, OnOk};
ghost use Rattle.std.specs.BTreeMap.{values, IsOrdered};
ghost use Rattle.pseudo_time.specs.Lists.{Has};
ghost use Rattle.pseudo_time.specs.StampParts.{StampParts, stamp_cmp};
ghost use Rattle.value_form.specs.Mirror.{block};
ghost use Rattle.value_form.specs.Ranges.{IsScript};
ghost use Rattle.serial_model.specs.Questions.{Tree, denote};
ghost use Rattle.broker_core.specs.Book as books;
ghost use Rattle.world_core.specs.Deeds.{RunLogs, Try, attempt, written};
ghost use Rattle.world_core.specs.Deeds as deeds;
ghost use Rattle.script_replay.specs.Attempts.{versions_of};
ghost use Rattle.script_replay.specs.Replays.{HaveScripts};
ghost use Rattle.log_replay.specs.Drafts as drafts;
ghost use Rattle.log_replay.specs.Folders as folders;
ghost use Rattle.log_replay.specs.Tellers.{AllScripts, HasTold, KeysIn, Knows};
ghost use Rattle.log_replay.specs.Telling.{told_at};
ghost use Rattle.log_replay.specs.Tells.{Says};
ghost use Rattle.log_replay.specs.Untold.{Tells};
ghost use Rattle.log_replay.specs.Unfit.{HasUnfit, IsCause, IsFault, IsNoScript, IsUnfitAfter, stamps_of, tries_in};

use crate::commits::{commits_of, is_committed};
use crate::drafts::{Draft, Drafts, drafts_of};
use crate::faults::ToldFault;
use crate::gifts::give_rest;
use crate::puts::{puts_of_all, take_puts};
use effect_form::Effect;
use object_history::Settles;
use pseudo_time::Stamp;
use script_form::{ParseFault, parse};
use script_replay::{Attempt, Put, Told};
use std::alloc::{AllocError, Global};
use std::collections::BTreeMap;
use value_form::{Items, Script};

// The script of an attempt in the log with this number.
fn script_of(alloc: Global, number: u8, draft: &Draft) -> Result<Script, ToldFault>
    ensures reads { (script : List ℕ → Tree) → folders.Reads script draft.now.text →
        IfOk result (λ s. denote (block s.lines) ≡ script draft.now.text) }
    ensures in_range { IfOk result (λ s. IsScript s.lines) }
    ensures none { IfErr result (IsCause number (IsNoScript draft.now.text)) }
{
    match parse(alloc, draft.text.as_slice()) {
        Ok(script) => Ok(script),
        Err(ParseFault::NoMemory) => Err(ToldFault::NoMemory),
        Err(ParseFault::Fault { .. }) => Err(ToldFault::Log(number)),
    }
}

// What is told of an attempt in the log with this number.
fn attempt_of(
    alloc: Global,
    number: u8,
    draft: Draft,
    committed: bool,
    puts: Vec<Put>,
) -> Result<Attempt, ToldFault>
    ensures says { (script : List ℕ → Tree) (k : RunLogs) → folders.Reads script draft.text →
        committed ≡ deeds.committed k draft.stamp → versions_of puts.items ≡ written k draft.stamp →
        IfOk result (Says k (drafts.draft_try script (drafts.draft_parts draft))) }
    ensures in_range { IfOk result (λ a. IsScript a.script.lines) }
    ensures none { IfErr result (IsCause number (IsNoScript draft.text)) }
{
    let script = script_of(alloc, number, &draft)?;
    let Draft {
        stamp,
        text: _,
        replies,
        ended,
    } = draft;
    Ok(Attempt {
        stamp,
        script,
        replies: Items::of(replies),
        ended,
        committed,
        puts: Items::of(puts),
    })
}

/// What is told of the stamps so far, and the versions of those that are left.
#[derive(Drop)]
pub(crate) struct Teller {
    pub told: BTreeMap<Stamp, Told>,
    pub puts: BTreeMap<Stamp, Vec<Put>>,
    /// Which attempts each repository's log commits.
    pub commits: Vec<Settles>,
}

impl Teller {
    // Tells of an attempt in the log with this number.
    fn tell(&mut self, alloc: Global, number: u8, draft: Draft) -> Result<(), ToldFault>
        ensures told { (script : List ℕ → Tree) (k : RunLogs) (ts : List Try) → folders.Reads script draft.text →
            Knows k self.old → HasTold k ts self.old →
            OnOk result (HasTold k (drafts.draft_try script (drafts.draft_parts draft) ∷ ts) self.new) }
        ensures commits { self.new.commits ≡ self.old.commits }
        ensures scripts { AllScripts (told_at self.old.told) → OnOk result (AllScripts (told_at self.new.told)) }
        ensures keys { (ss : List StampParts) → KeysIn ss self.old →
            OnOk result (KeysIn (draft.stamp ∷ ss) self.new) }
        ensures unfit { (ss : List StampParts) → KeysIn ss self.old →
            IfErr result (IsCause number (IsUnfitAfter ss (drafts.draft_parts draft))) }
    {
        let stamp = draft.stamp;
        if self.told.get(&stamp).is_some() {
            return Err(ToldFault::Log(number));
        }
        let committed = is_committed(self.commits.as_slice(), stamp);
        let puts = take_puts(&mut self.puts, alloc, stamp);
        let attempt = attempt_of(alloc, number, draft, committed, puts)?;
        self.told.insert(stamp, Told::Tried(attempt))?;
        Ok(())
    }

    // Tells of all attempts of the log of the broker with this number, which stands oldest first.
    fn tell_log(&mut self, alloc: Global, number: u8, log: &[Effect]) -> Result<(), ToldFault>
        ensures told { (script : List ℕ → Tree) (k : RunLogs) (ts : List Try) →
            ((t : books.Try) → Has t (books.tries (books.book (reverse log.now))) → folders.Reads script t.task.script) →
            Knows k self.old → HasTold k ts self.old →
            OnOk result (HasTold k (map (attempt script) (books.tries (books.book (reverse log.now))) ++ ts) self.new) }
        ensures commits { self.new.commits ≡ self.old.commits }
        ensures scripts { AllScripts (told_at self.old.told) → OnOk result (AllScripts (told_at self.new.told)) }
        ensures keys { (ss : List StampParts) → KeysIn ss self.old →
            OnOk result (KeysIn (stamps_of (tries_in log.now) ++ ss) self.new) }
        ensures unfit { (ss : List StampParts) → KeysIn ss self.old →
            IfErr result (IsCause number (HasUnfit ss (tries_in log.now))) }
    {
        let Drafts {
            tries,
            text: _,
            live: _,
        } = drafts_of(alloc, log)?;
        // From the last place on, so that each is moved out: the oldest first.
        let mut tries = tries;
        tries.reverse();
        while let Some(draft) = tries.pop() {
            match self.tell(alloc, number, draft) {
                Ok(()) => {}
                Err(fault) => return Err(fault),
            }
        }
        Ok(())
    }
}

// All attempts of these logs, each of which stands oldest first.
fn attempts_of(
    alloc: Global,
    repositories: &[Vec<Effect>],
    brokers: &[Vec<Effect>],
) -> Result<Teller, ToldFault>
    requires repositories { length repositories.now ≡ 16 }
    requires brokers { length brokers.now ≡ 16 }
    ensures knows { (script : List ℕ → Tree) →
        IfOk result (Knows (folders.run_in script (folders.items_of repositories.now) (folders.items_of brokers.now))) }
    ensures told { (script : List ℕ → Tree) → folders.ReadsLogs script (folders.items_of brokers.now) →
        IfOk result (HasTold (folders.run_in script (folders.items_of repositories.now) (folders.items_of brokers.now))
        (folders.tries_of script (folders.items_of brokers.now))) }
    ensures scripts { IfOk result (λ t. AllScripts (told_at t.told)) }
    ensures unfit { IfErr result (IsFault (folders.items_of brokers.now)) }
{
    let puts = puts_of_all(alloc, repositories)?;
    let commits = commits_of(alloc, repositories)?;
    let mut teller = Teller {
        told: BTreeMap::new(alloc),
        puts,
        commits,
    };
    for (place, log) in brokers.iter().enumerate() {
        match teller.tell_log(alloc, place as u8 + 1, log.as_slice()) {
            Ok(()) => {}
            Err(fault) => return Err(fault),
        }
    }
    Ok(teller)
}

// What is told, in rising stamps.
fn list_of(alloc: Global, told: BTreeMap<Stamp, Told>) -> Result<Vec<Told>, AllocError>
    ensures items { IfOk result (λ list. list.items ≡ values told) }
    ensures rising { IsOrdered stamp_cmp told }
{
    told.into_values().collect(alloc)
}

/// What logs tell.
#[derive(Drop)]
pub struct Telling {
    /// Of each stamp, in rising stamps.
    pub told: Vec<Told>,
    /// The least stamp of a version without an attempt whose broker has a log. The versions above it that no
    /// attempt has aren't told.
    pub untried: Option<Stamp>,
}

/// What the logs of repositories 1 to 16 and of brokers 1 to 16 tell of each stamp, in rising stamps: of each attempt
/// of each run its script, its answers, its End, how its home decided and the versions with its stamp; and the committed
/// versions whose broker has no log. Each log stands oldest first. That of a repository has all versions that ever stood.
///
/// It takes each effect once, and a walk down a map of stamps for most of them.
pub fn told_of(
    alloc: Global,
    repositories: &[Vec<Effect>],
    brokers: &[Vec<Effect>],
) -> Result<Telling, ToldFault>
    requires repositories { length repositories.now ≡ 16 }
    requires brokers { length brokers.now ≡ 16 }
    ensures tells { (script : List ℕ → Tree) → folders.ReadsLogs script (folders.items_of brokers.now) →
        IfOk result (λ t. Tells (folders.run_in script (folders.items_of repositories.now)
        (folders.items_of brokers.now)) t.told.items t.untried) }
    ensures scripts { IfOk result (λ t. HaveScripts t.told.items) }
    ensures unfit { IfErr result (IsFault (folders.items_of brokers.now)) }
{
    let Teller {
        told,
        puts,
        commits,
    } = attempts_of(alloc, repositories, brokers)?;
    let (told, untried) = give_rest(told, puts, commits.as_slice(), brokers)?;
    let told = list_of(alloc, told)?;
    Ok(Telling { told, untried })
}
