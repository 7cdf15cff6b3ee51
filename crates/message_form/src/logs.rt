//! A node's log, for contracts alone.
ghost use Rattle.std.specs.Prelude.{◌≡◌, ◌++◌, [], map, IfOk, OnOk, OnErr};

use effect_form::Effect;
use std::alloc::{AllocError, Global};
use std::marker::Model;
use std::snapshot::Snapshot;

/// A node's log, oldest effect first, for contracts alone: it keeps snapshots, which have no bytes.
#[derive(Drop)]
pub struct SnapshotLog {
    effects: Vec<Snapshot<Effect>>,
}

impl Model for SnapshotLog {
    ghost use Rattle.std.specs.Prelude.{List, map};
    ghost use Rattle.effect_form.specs.declared.effects.Effect.{Effect};

    ghost Value = { List Effect };

    ghost view = { λ l. map (λ s. s.value) l.effects.items };
}

// Snapshots of these effects.
fn snapshots_of(alloc: Global, effects: &[Effect]) -> Result<Vec<Snapshot<Effect>>, AllocError>
    ensures { IfOk result (λ v. map (λ s. s.value) v.items ≡ effects.now) }
{
    let mut snapshots = Vec::new(alloc);
    for effect in effects {
        snapshots.push(Snapshot::of(effect))?;
    }
    Ok(snapshots)
}

impl SnapshotLog {
    /// An empty log.
    pub fn new(alloc: Global) -> SnapshotLog
        ensures { result ≡ [] }
    {
        SnapshotLog {
            effects: Vec::new(alloc),
        }
    }

    /// The log has these effects more, the newest last. Where memory runs out it is as before.
    pub fn add(&mut self, alloc: Global, effects: &[Effect]) -> Result<(), AllocError>
        ensures ok { OnOk result (self.new ≡ self.old ++ effects.now) }
        ensures err { OnErr result (self.new ≡ self.old) }
    {
        let mut more = snapshots_of(alloc, effects)?;
        self.effects.append(&mut more)?;
        Ok(())
    }
}
