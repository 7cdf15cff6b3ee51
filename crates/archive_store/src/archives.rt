//! The archive of a repository: the logs of all its volumes, in order.
ghost use Rattle.std.specs.Prelude.{◌≡◌, ◌<◌, ◌≤◌, ◌⊎◌, Some, None, length, map, reverse, IfOk, IfErr, OnOk};
ghost use Rattle.value_form.specs.declared.objects.ObjectId.{ObjectId};
ghost use Rattle.commit_watch.specs.Lists.{moved_at, AreRising};
ghost use Rattle.archive_store.specs.declared.faults.AsOfFault.TheVariants as fault;
ghost use Rattle.archive_store.specs.declared.starts.Start.{Start};
ghost use Rattle.archive_store.specs.Latest.{last_below, entry_of};
ghost use Rattle.archive_store.specs.Opens.{first_open};

use crate::faults::AsOfFault;
use crate::holders::holder_among;
use crate::joins::joined_with;
use crate::latest::latest_of;
use crate::opens::first_open;
use commit_watch::Moved;
use object_history::Mark;
use pseudo_time::PseudoTime;
use std::alloc::{AllocError, Global};
use std::marker::Model;
use value_form::{ObjectId, Value};

/// The logs of a repository's volumes, in their order. Contracts see the marks of each, oldest first.
#[derive(Drop)]
pub struct Archive {
    logs: Vec<Vec<Mark>>,
    alloc: Global,
}

impl Model for Archive {
    ghost use Rattle.std.specs.Prelude.{List, map, length, ◌<◌, ◌≤◌};
    ghost use Rattle.std.specs.Coded.{coded_list};
    ghost use Rattle.object_history.specs.declared.marks.Mark.{Mark};
    ghost use Rattle.object_history.specs.contracts.marks.Mark as mark;

    ghost Value = { List (List Mark) };

    ghost coded = { coded_list (coded_list mark.the_row.coded) };

    ghost view = { λ a. map (λ log. log.items) a.logs.items };

    ghost invariant = { λ a. (0 < length a.logs.items) × (length a.logs.items ≤ 4294967295) };
}

impl Archive {
    ghost use Rattle.archive_store.specs.Joined.{joined, holder_of};

    /// The archive of these logs, at least one, in the order of their volumes.
    pub fn of(alloc: Global, logs: Vec<Vec<Mark>>) -> Archive
        requires some { 0 < length logs.items }
        requires within { length logs.items ≤ 4294967295 }
        ensures { result ≡ map (λ log. log.items) logs.items }
    {
        Archive { logs, alloc }
    }

    /// What the last log gave up, then the last log without its floors, oldest first.
    pub fn joined(&self) -> Result<Vec<Mark>, AllocError>
        ensures { IfOk result (λ marks. marks.items ≡ joined self.now) }
    {
        let logs = self.logs.as_slice();
        let last = &logs[logs.len() - 1];
        joined_with(self.alloc, logs, last.as_slice())
    }

    /// The place of the last log that has a put of the object with this start, from 0. None where none has.
    pub fn holder(&self, object: ObjectId, start: PseudoTime) -> Option<u32>
        ensures { result ≡ holder_of object start self.now }
    {
        holder_among(self.logs.as_slice(), object, start)
    }

    /// The map as of the pseudotime: of each object its last committed version below.
    pub fn asof(&self, mark: PseudoTime) -> Result<Vec<Moved<Value>>, AsOfFault>
        ensures ok { IfOk result (λ list. (o : ObjectId) →
            moved_at o list.items ≡ entry_of o (last_below (reverse (joined self.now)) o mark)) }
        ensures rising { IfOk result (λ list. AreRising list.items) }
        ensures decided { OnOk result (first_open (reverse (joined self.now)) mark ≡ None) }
        ensures undecided { IfErr result (λ e. (e ≡ fault.NoMemory) ⊎
            ((s : Start) × (first_open (reverse (joined self.now)) mark ≡ Some s) ×
            (e ≡ fault.Undecided s.object s.start))) }
    {
        let marks = self.joined()?;
        if let Some(first) = first_open(self.alloc, marks.as_slice(), mark)? {
            return Err(AsOfFault::Undecided {
                object: first.object,
                start: first.start,
            });
        }
        latest_of(self.alloc, marks.as_slice(), mark)
    }
}
