//! The last committed version of each object.
ghost use Rattle.std.specs.Prelude.{◌≡◌, ◌++◌, ◌∷◌, [], List, map, reverse, IfOk, OnOk};
ghost use Rattle.std.specs.Option.{option_to_list};
ghost use Rattle.std.specs.BTreeMap.{IsOrdered};
ghost use Rattle.pseudo_time.specs.declared.nodes.NodeId.{NodeId};
ghost use Rattle.value_form.specs.Objects.{object_cmp};
ghost use Rattle.object_history.specs.declared.marks.Mark.{Mark};
ghost use Rattle.object_history.specs.declared.marks.Mark.TheVariants as mark;
ghost use Rattle.repository_log.specs.Logs.{mark_of, marks};
ghost use Rattle.world_core.specs.Deeds.{RunLogs};
ghost use Rattle.trace_report.specs.Decided.{AreDecided};
ghost use Rattle.trace_report.specs.Finals.{marks_to};
ghost use Rattle.trace_report.specs.LastVersions as spec;
ghost use Rattle.trace_report.specs.LastVersions.{AreLast};
ghost use Rattle.trace_report.specs.Reports.{logs_by};

use crate::decided::is_committed;
use crate::firsts::Firsts;
use crate::node_logs::log_of;
use effect_form::Effect;
use pseudo_time::{NodeId, PseudoTime};
use report_writer::Final;
use std::alloc::{AllocError, Global};
use std::collections::BTreeMap;
use value_form::{ObjectId, Value};
use world_core::Opened;

/// A version of an object.
#[derive(Drop)]
pub struct Last {
    pub start: PseudoTime,
    pub value: Value,
}

/// The committed version of each object with the greatest start, as far as logs were read.
#[derive(Drop)]
pub struct LastVersions {
    pub versions: BTreeMap<ObjectId, Last>,
}

// The entries of a map, which rise.
fn entries_of(
    alloc: Global,
    map: BTreeMap<ObjectId, Last>,
) -> Result<Vec<(ObjectId, Last)>, AllocError>
    ensures items { IfOk result (λ v. v.items ≡ map.entries) }
    ensures rising { IsOrdered object_cmp map }
{
    map.into_iter().collect(alloc)
}

impl LastVersions {
    /// Nothing was read.
    pub fn new(alloc: Global) -> LastVersions
        ensures { (k : RunLogs) → AreLast k [] result }
    {
        LastVersions {
            versions: BTreeMap::new(alloc),
        }
    }

    // Whether the version of the object starts above.
    fn is_above(&self, object: ObjectId, start: PseudoTime) -> bool
        ensures { result ≡ spec.is_above (spec.last_at self.now.versions.entries object) start }
    {
        match self.versions.get(&object) {
            Some(last) => start.is_before(last.start),
            None => false,
        }
    }

    // A put. It counts where it is committed and no other one of the object starts above it.
    fn add_put(
        &mut self,
        alloc: Global,
        firsts: &[Firsts],
        object: ObjectId,
        start: PseudoTime,
        value: &Value,
    ) -> Result<(), AllocError>
        ensures { (k : RunLogs) (m : List Mark) → AreDecided k firsts.now → AreLast k m self.old →
            OnOk result (AreLast k (mark.Put object start value.now ∷ m) self.new) }
    {
        if !is_committed(firsts, start.stamp()) {
            return Ok(());
        }
        if !self.is_above(object, start) {
            let value = value.copy(alloc)?;
            self.versions.insert(object, Last { start, value })?;
        }
        Ok(())
    }

    // An effect of a repository's log.
    fn add_effect(
        &mut self,
        alloc: Global,
        firsts: &[Firsts],
        effect: &Effect,
    ) -> Result<(), AllocError>
        ensures { (k : RunLogs) (m : List Mark) → AreDecided k firsts.now → AreLast k m self.old →
            OnOk result (AreLast k (option_to_list (mark_of effect.now) ++ m) self.new) }
    {
        match effect {
            Effect::Put {
                object,
                start,
                value,
            } => self.add_put(alloc, firsts, *object, *start, value),
            _ => Ok(()),
        }
    }

    // A repository's log.
    fn add_log(
        &mut self,
        alloc: Global,
        firsts: &[Firsts],
        effects: &[Effect],
    ) -> Result<(), AllocError>
        ensures { (k : RunLogs) (m : List Mark) → AreDecided k firsts.now → AreLast k m self.old →
            OnOk result (AreLast k (marks (reverse effects.now) ++ m) self.new) }
    {
        for effect in effects {
            self.add_effect(alloc, firsts, effect)?;
        }
        Ok(())
    }

    /// The logs of repositories 1 to this number.
    pub fn add_logs(
        &mut self,
        alloc: Global,
        firsts: &[Firsts],
        repositories: u8,
        logs: &[Opened],
    ) -> Result<(), AllocError>
        ensures { (k : RunLogs) → ((n : NodeId) → k.logs n ≡ reverse (logs_by logs.now n)) → AreDecided k firsts.now →
            AreLast k [] self.old → OnOk result (AreLast k (marks_to k repositories) self.new) }
    {
        for below in 0..repositories {
            let log = log_of(logs, NodeId::repository(below + 1));
            self.add_log(alloc, firsts, log)?;
        }
        Ok(())
    }

    /// As finals of a report, the objects rising.
    pub fn into_finals(self, alloc: Global) -> Result<Vec<Final>, AllocError>
        ensures items { IfOk result (λ finals. finals.items ≡ map spec.final_last self.versions.entries) }
        ensures rising { IsOrdered object_cmp self.versions }
    {
        let LastVersions { versions } = self;
        let mut finals = Vec::new(alloc);
        for (object, last) in entries_of(alloc, versions)? {
            finals.push(Final {
                object,
                value: last.value,
            })?;
        }
        Ok(finals)
    }
}
