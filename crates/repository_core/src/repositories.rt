//! The core of a repository: its rules.
ghost use Rattle.std.specs.Prelude.{◌≡◌, ◌≤◌, ◌^◌, false, IsTrue, IfOk, IfErr, reverse};
ghost use Rattle.repository_draft.specs.Messages.{IsMessage};
ghost use Rattle.repository_core.specs.Cores.{HasMarks, IsByRules, IsCalled};
ghost use Rattle.repository_log.specs.Logs.{known};
ghost use Rattle.repository_core.specs.Turns.{opened_mind, Taking, Learning, Hearing};

use crate::books::Books;
use crate::openings::open_books;
use crate::works::Work;
use commit_record::Records;
use pseudo_time::{Decision, NodeId, Stamp};
use repository_draft::{Draft, Effect, Histories, HistoryFault, Message, Turn};
use std::alloc::{AllocError, Global};
use std::collections::BTreeMap;
use std::marker::Model;
use std::snapshot::Snapshot;

/// Why a core gave no turn. After any of the three it can only be parted.
pub type CoreFault = HistoryFault;

/// The core of a repository: its rules, carried out over its histories. Contracts see its number,
/// its log, what it remembers beside it, and its histories.
#[derive(Drop)]
pub struct Repository<H: Histories> {
    work: Work<H>,
    /// Whether a call has failed.
    is_failed: bool,
}

impl<H: Histories> Model for Repository<H> {
    ghost use Rattle.std.specs.Prelude.{◌≡◌, false, reverse, []};
    ghost use Rattle.repository_core.specs.Turns.{mind_of};
    ghost use Rattle.repository_core.specs.Cores.{Core};
    ghost use Rattle.repository_core.specs.Accounts.{IsOpen};

    ghost Value = { Core H };

    ghost view = { λ r. record {
      number = r.work.draft.number;
      log = reverse r.work.draft.past;
      mind = mind_of r.work.draft;
      is_failed = r.is_failed;
      histories = r.work.books.histories;
    } };

    ghost invariant = { λ r. r.is_failed ≡ false → IsOpen H.content r.work.draft r.work.books };
}

impl<H: Histories> Repository<H> {
    /// Takes a message from a node. Where the histories tell their content, the turn and what the
    /// repository then remembers are those of the rules.
    pub fn take(&mut self, from: NodeId, message: &Message) -> Result<Turn, CoreFault>
        requires able { self.old.is_failed ≡ false }
        requires message { IsMessage message.now }
        ensures gives { IsTrue H.tells → IsByRules (Taking from message.now) self.old self.new result }
        ensures called { IsCalled H.tells H.content H.below H.faults H.damage self.old self.new result }
    {
        self.is_failed = true;
        self.work.start();
        self.work.on_message(from, message)?;
        let turn = self.work.draft.close()?;
        self.is_failed = false;
        Ok(turn)
    }

    /// Learns the decision of an attempt, which stands at its home.
    pub fn learn(&mut self, stamp: Stamp, committed: bool) -> Result<Turn, CoreFault>
        requires able { self.old.is_failed ≡ false }
        ensures gives { IsTrue H.tells → IsByRules (Learning stamp committed) self.old self.new result }
        ensures called { IsCalled H.tells H.content H.below H.faults H.damage self.old self.new result }
    {
        self.is_failed = true;
        self.work.start();
        self.work.on_learn(stamp, committed)?;
        let turn = self.work.draft.close()?;
        self.is_failed = false;
        Ok(turn)
    }

    /// Hears a moment of at most 2^63.
    pub fn hear(&mut self, moment: u64) -> Result<Turn, CoreFault>
        requires able { self.old.is_failed ≡ false }
        requires moment { moment ≤ 2 ^ 63 }
        ensures gives { IsTrue H.tells → IsByRules (Hearing moment) self.old self.new result }
        ensures called { IsCalled H.tells H.content H.below H.faults H.damage self.old self.new result }
    {
        self.is_failed = true;
        self.work.start();
        self.work.on_moment(moment)?;
        let turn = self.work.draft.close()?;
        self.is_failed = false;
        Ok(turn)
    }

    /// Opens the core of a repository over its log, oldest first. It remembers nothing beside it but
    /// the moment, of at most 2^63. Where memory runs out, the histories come back as they were.
    pub fn open(
        alloc: Global,
        number: u8,
        moment: u64,
        effects: &[Effect],
        histories: H,
    ) -> Result<Repository<H>, (H, AllocError)>
        requires marks { HasMarks (H.content histories) effects.now }
        requires moment { moment ≤ 2 ^ 63 }
        ensures number { IfOk result (λ r. r.number ≡ number) }
        ensures log { IfOk result (λ r. r.log ≡ effects.now) }
        ensures mind { IfOk result (λ r. r.mind ≡ opened_mind moment) }
        ensures able { IfOk result (λ r. r.is_failed ≡ false) }
        ensures histories { IfOk result (λ r. r.histories ≡ histories) }
        ensures back { IfErr result (λ e. e.0 ≡ histories) }
    {
        match open_books(alloc, number, moment, effects) {
            Err(wanting) => Err((histories, wanting)),
            Ok((draft, records, early)) => {
                let first = Snapshot::of(&histories);
                let books = Books {
                    records,
                    early,
                    histories,
                    first,
                };
                let work = Work {
                    alloc,
                    draft,
                    books,
                };
                Ok(Repository {
                    work,
                    is_failed: false,
                })
            }
        }
    }

    /// Parts the core and its histories.
    pub fn part(self) -> (RepositoryRest, H)
        ensures state { result.0 ≡ record {
          number = self.number;
          log = self.log;
          mind = self.mind;
          is_failed = self.is_failed;
        } }
        ensures histories { result.1 ≡ self.histories }
    {
        let Repository { work, is_failed } = self;
        let Work {
            alloc,
            draft,
            books,
        } = work;
        let Books {
            records,
            early,
            histories,
            first: _,
        } = books;
        let rest = RepositoryRest {
            alloc,
            draft,
            records,
            early,
            is_failed,
        };
        (rest, histories)
    }

    /// How the attempt was decided. None where no Decide or Learn of it is in the log.
    pub fn known(&self, stamp: Stamp) -> Option<bool>
        requires able { self.now.is_failed ≡ false }
        ensures { result ≡ known (reverse self.now.log) stamp }
    {
        self.work.books.known(stamp)
    }
}

/// A core that was parted from its histories.
#[derive(Drop)]
pub struct RepositoryRest {
    alloc: Global,
    draft: Draft,
    records: Records,
    early: BTreeMap<Stamp, Decision>,
    is_failed: bool,
}

impl Model for RepositoryRest {
    ghost use Rattle.std.specs.Prelude.{◌≡◌, false, reverse, []};
    ghost use Rattle.repository_core.specs.Turns.{mind_of};
    ghost use Rattle.repository_core.specs.Cores.{CoreState};
    ghost use Rattle.repository_log.specs.Logs.{marks};
    ghost use Rattle.repository_log.specs.Lookups.{BooksShow};

    ghost Value = { CoreState };

    ghost view = { λ r. record {
      number = r.draft.number;
      log = reverse r.draft.past;
      mind = mind_of r.draft;
      is_failed = r.is_failed;
    } };

    ghost invariant = { λ r. r.is_failed ≡ false → (r.draft.added ≡ []) × (r.draft.outs ≡ []) ×
        BooksShow [] r.draft.past (marks r.draft.past) r.records r.early.entries };
}

impl RepositoryRest {
    /// The core with its histories, which are as they were when it was parted.
    pub fn join<H: Histories>(self, histories: H) -> Repository<H>
        requires marks { self.is_failed ≡ false → HasMarks (H.content histories) self.log }
        ensures { result ≡ record {
          number = self.number;
          log = self.log;
          mind = self.mind;
          is_failed = self.is_failed;
          histories = histories;
        } }
    {
        let RepositoryRest {
            alloc,
            draft,
            records,
            early,
            is_failed,
        } = self;
        let first = Snapshot::of(&histories);
        let books = Books {
            records,
            early,
            histories,
            first,
        };
        let work = Work {
            alloc,
            draft,
            books,
        };
        Repository { work, is_failed }
    }
}
