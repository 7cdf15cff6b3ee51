//! A repository's core with its log.
ghost use Rattle.std.specs.Prelude.{◌≡◌, ◌≤◌, ◌^◌, ◌++◌, ◌∷◌, [], true, false, not, IsTrue, IfOk, IfErr, OnOk};
ghost use Rattle.std.specs.List.{filter};
ghost use Rattle.effect_form.specs.Effects.{AreEffects};
ghost use Rattle.repository_log.specs.Logs.{HasMarks};
ghost use Rattle.repository_core.specs.Turns.{opened_mind};
ghost use Rattle.version_store.specs.StoreWords.{medium_of, effects_in};
ghost use Rattle.object_header.specs.Ledgers.{content};
ghost use Rattle.object_header.specs.Tables.{ledger_of, store_of};
ghost use Rattle.repository_node.specs.KeptCores.{HasMarksOfLog, medium_in};
ghost use Rattle.repository_node.specs.NotedLogs.{AreNotes, HasNotesOfLog};

use crate::kept_cores::KeptCore;
use crate::notes::Notes;
use effect_form::Effect;
use medium_port::Medium;
use message_form::{Message, Turn};
use node_turn::{Meanings, StoredCore, open_again};
use object_header::HeaderTable;
use object_history::HistoryFault;
use pseudo_time::{NodeId, Stamp};
use repository_core::Repository;
use std::alloc::{AllocError, Global};
use version_store::{OpenFault, Store, StoreFault};

/// A repository with its log and its histories on a medium.
#[derive(Drop)]
pub struct RepositoryCore<M: Medium> {
    pub(crate) number: u8,
    /// The moment at which the run began.
    pub(crate) start: u64,
    pub(crate) kept: KeptCore<M>,
    pub(crate) notes: Notes,
    ghost moment: { start ≤ 2 ^ 62 },
    ghost marked: { HasMarksOfLog kept },
    ghost noted: { HasNotesOfLog number kept notes },
}

impl<M: Medium> Meanings<M> for RepositoryCore<M> {
    ghost use Rattle.std.specs.Prelude.{◌≡◌};
    ghost use Rattle.pseudo_time.specs.Nodes.{repository};
    ghost use Rattle.repository_node.specs.KeptCores.{is_able, medium_in, HasLife, Owes};

    ghost parts = { λ c. record { node = repository c.number; able = is_able c.kept; medium = medium_in c.kept } };

    ghost fits = { λ b c. b.start ≡ c.start };

    ghost lives = { λ b c l. HasLife c.kept (repository c.number) l };

    ghost owes = { λ c effects. Owes c.kept effects };
}

impl<M: Medium> StoredCore<M> for RepositoryCore<M> {
    fn node(&self) -> NodeId {
        NodeId::repository(self.number)
    }

    // A repository has nowhere to go: nobody calls this.
    fn go(&mut self) -> Result<Turn, HistoryFault> {
        Err(HistoryFault::NoMemory)
    }

    fn take(&mut self, from: NodeId, message: &Message) -> Result<Turn, HistoryFault> {
        match &mut self.kept {
            KeptCore::Open(core) => {
                let gave = core.take(from, message);
                self.notes.follow_turn(self.number, &gave);
                gave
            }
            KeptCore::Shut(_) => Err(HistoryFault::NoMemory),
        }
    }

    fn learn(&mut self, stamp: Stamp, committed: bool) -> Result<Turn, HistoryFault> {
        match &mut self.kept {
            KeptCore::Open(core) => {
                let gave = core.learn(stamp, committed);
                self.notes.follow_turn(self.number, &gave);
                gave
            }
            KeptCore::Shut(_) => Err(HistoryFault::NoMemory),
        }
    }

    fn hear(&mut self, moment: u64) -> Result<Turn, HistoryFault> {
        match &mut self.kept {
            KeptCore::Open(core) => {
                let gave = core.hear(moment);
                self.notes.follow_turn(self.number, &gave);
                gave
            }
            KeptCore::Shut(_) => Err(HistoryFault::NoMemory),
        }
    }

    fn knows(&self, stamp: Stamp) -> bool {
        self.is_known(stamp)
    }

    fn append(self, effects: &[Effect]) -> (RepositoryCore<M>, Result<(), StoreFault>) {
        let RepositoryCore {
            number,
            start,
            kept,
            notes,
        } = self;
        match kept {
            KeptCore::Shut(medium) => {
                let core = RepositoryCore {
                    number,
                    start,
                    kept: KeptCore::Shut(medium),
                    notes,
                };
                (core, Err(StoreFault::NoMemory))
            }
            KeptCore::Open(core) => {
                let (rest, table) = core.part();
                match table.flush(effects) {
                    Ok(table) => {
                        let core = RepositoryCore {
                            number,
                            start,
                            kept: KeptCore::Open(rest.join(table)),
                            notes,
                        };
                        (core, Ok(()))
                    }
                    Err((medium, fault)) => {
                        let core = RepositoryCore {
                            number,
                            start,
                            kept: KeptCore::Shut(medium),
                            notes,
                        };
                        (core, Err(fault))
                    }
                }
            }
        }
    }

    fn reopen(self, alloc: Global) -> (RepositoryCore<M>, Result<usize, OpenFault>) {
        let RepositoryCore {
            number,
            start,
            kept,
            notes,
        } = self;
        match open_again(alloc, medium_from(kept)) {
            Err((medium, fault)) => {
                let core = RepositoryCore {
                    number,
                    start,
                    kept: KeptCore::Shut(medium),
                    notes,
                };
                (core, Err(fault))
            },
            Ok((store, effects)) => match open_core(
                alloc,
                number,
                start,
                store,
                effects.as_slice(),
            ) {
                Err(medium) => {
                    let core = RepositoryCore {
                        number,
                        start,
                        kept: KeptCore::Shut(medium),
                        notes,
                    };
                    (core, Err(OpenFault::NoMemory))
                },
                Ok(core) => {
                    let core = RepositoryCore {
                        number,
                        start,
                        kept: KeptCore::Open(core),
                        notes: Notes::of(alloc, number, effects.as_slice()),
                    };
                    (core, Ok(effects.len()))
                }
            },
        }
    }

    fn release(self) -> M {
        let RepositoryCore {
            number: _,
            start: _,
            kept,
            notes: _,
        } = self;
        medium_from(kept)
    }
}

impl<M: Medium> RepositoryCore<M> {
    ghost use Rattle.repository_log.specs.Logs.{knows};
    ghost use Rattle.repository_node.specs.Doubts.{decided_at, doubts};
    ghost use Rattle.repository_node.specs.KeptCores.{is_able, log_in};

    // Whether its log has a Decide or a Learn of the attempt.
    fn is_known(&self, stamp: Stamp) -> bool
        requires able { is_able self.now.kept ≡ true }
        ensures { result ≡ knows (log_in self.now.kept) stamp }
    {
        match &self.kept {
            KeptCore::Open(core) => core.known(stamp).is_some(),
            KeptCore::Shut(_) => false,
        }
    }

    // Adds a stamp if it is in doubt.
    fn add_doubt(&self, stamp: Stamp, all: &mut Vec<Stamp>) -> Result<(), AllocError>
        requires able { is_able self.now.kept ≡ true }
        ensures { OnOk result (all.new.items ≡ all.old.items ++
            filter (λ s. not (knows (log_in self.now.kept) s)) (stamp ∷ [])) }
    {
        if !self.is_known(stamp) {
            all.push(stamp)?;
        }
        Ok(())
    }

    /// The stamps in doubt by its log, one for each version. An error found no memory, now or before.
    pub fn doubts(&self, alloc: Global) -> Result<Vec<Stamp>, AllocError>
        requires able { is_able self.now.kept ≡ true }
        ensures { IfOk result (λ all. all.items ≡ doubts self.now.number (log_in self.now.kept)) }
    {
        if !self.notes.is_whole {
            return Err(AllocError);
        }
        let mut all = Vec::new(alloc);
        for stamp in &self.notes.given {
            self.add_doubt(*stamp, &mut all)?;
        }
        Ok(all)
    }

    /// How it decided the stamp, as its home, by its log. An error found no memory before.
    pub fn decided(&self, stamp: Stamp) -> Result<Option<bool>, AllocError>
        requires able { is_able self.now.kept ≡ true }
        ensures { IfOk result (λ o. o ≡ decided_at self.now.number (log_in self.now.kept) stamp) }
    {
        if !self.notes.is_whole {
            return Err(AllocError);
        }
        if stamp.home() != self.number || !self.notes.is_plain {
            return Ok(None);
        }
        match &self.kept {
            KeptCore::Open(core) => Ok(core.known(stamp)),
            KeptCore::Shut(_) => Ok(None),
        }
    }
}

// The medium.
fn medium_from<M: Medium>(kept: KeptCore<M>) -> M
    ensures { result ≡ medium_in kept }
{
    match kept {
        KeptCore::Open(core) => {
            let (_, table) = core.part();
            table.release()
        }
        KeptCore::Shut(medium) => medium,
    }
}

/// The core of a repository over the log of a store, whose effects these are. Where memory
/// runs out, the medium comes back.
pub(crate) fn open_core<M: Medium>(
    alloc: Global,
    number: u8,
    start: u64,
    store: Store<M>,
    effects: &[Effect],
) -> Result<Repository<HeaderTable<M>>, M>
    requires open { M.is_failed (medium_of store) ≡ false }
    requires log { IsTrue M.tells → effects_in M.reads store ≡ effects.now }
    requires ranges { AreEffects effects.now }
    requires moment { start ≤ 2 ^ 62 }
    ensures number { IfOk result (λ r. r.number ≡ number) }
    ensures log { IfOk result (λ r. r.log ≡ effects.now) }
    ensures mind { IfOk result (λ r. r.mind ≡ opened_mind start) }
    ensures able { IfOk result (λ r. r.is_failed ≡ false) }
    ensures marks { IfOk result (λ r. HasMarks (content (ledger_of r.histories)) effects.now) }
    ensures stored { IfOk result (λ r. (ledger_of r.histories).log ≡ effects.now) }
    ensures store { IfOk result (λ r. store_of r.histories ≡ store) }
    ensures back { IfErr result (λ m. m ≡ medium_of store) }
{
    match HeaderTable::rebuild(alloc, store, effects) {
        Err((medium, _)) => Err(medium),
        Ok(table) => match Repository::open(alloc, number, start, effects, table) {
            Err((table, _)) => Err(table.release()),
            Ok(core) => Ok(core),
        },
    }
}
