//! A table of headers is a repository's histories.
ghost use Rattle.version_store.specs.StoreWords.{medium_of, left_in, damage_in};
ghost use Rattle.object_header.specs.Ledgers.{beneath, content, told_medium};

use crate::beneath::Beneath;
use crate::headers::HeaderTable;
use medium_port::Medium;
use object_history::{Histories, HistoryFault, ReadStep, WriteStep, has_stretched};
use pseudo_time::{PseudoTime, Stamp};
use value_form::{ObjectId, Value};

impl<M: Medium> Histories for HeaderTable<M> {
    type Below = Beneath;

    ghost use Rattle.object_header.specs.Tables.{ledger_of, store_of};

    ghost tells = { M.tells };

    ghost content = { λ t. content (ledger_of t) };

    ghost faults = { λ t. M.faults (medium_of (store_of t)) };

    ghost damage = { λ t. damage_in (store_of t) };

    ghost below = { λ t. beneath (ledger_of t) (left_in (store_of t))
        (told_medium M.tells (M.reads (medium_of (store_of t))) (M.stages (medium_of (store_of t)))) };

    fn read(&mut self, object: ObjectId, at: PseudoTime) -> Result<ReadStep, HistoryFault> {
        let step = self.answer(object, at)?;
        if has_stretched(&step) {
            self.ledger.stretch(object, at)?;
        }
        Ok(step)
    }

    fn write(
        &mut self,
        object: ObjectId,
        at: PseudoTime,
        value: &Value,
    ) -> Result<WriteStep, HistoryFault> {
        if self.ledger.is_odd(object) {
            let step = self.ledger.write_odd(object, at, value)?;
            if step == WriteStep::Put {
                let value = value.copy(self.alloc)?;
                self.ledger.put(object, at, value)?;
            }
            return Ok(step);
        }
        if self.stands_there(object, at, value)? {
            return Ok(WriteStep::Again);
        }
        let step = self.ledger.new_write(object, at);
        if step == WriteStep::Put {
            let value = value.copy(self.alloc)?;
            self.ledger.puts_rise(object, at);
            self.ledger.put(object, at, value)?;
        }
        Ok(step)
    }

    fn stands(
        &mut self,
        object: ObjectId,
        start: PseudoTime,
        value: &Value,
    ) -> Result<bool, HistoryFault> {
        self.stands_there(object, start, value)
    }

    fn settle(&mut self, stamp: Stamp, committed: bool) -> Result<(), HistoryFault> {
        self.ledger.settle(stamp, committed)?;
        Ok(())
    }

    fn settled(&self, stamp: Stamp) -> Option<bool> {
        self.ledger.settled(stamp)
    }
}
