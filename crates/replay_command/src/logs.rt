//! The log of a node, by its volumes as they were opened.
ghost use Rattle.std.specs.Prelude.{◌≡◌, ◌++◌, ◌∷◌, ◌<◌, ◌≤◌, ◌+◌, [], IfOk, OnOk, length, map};
ghost use Rattle.log_replay.specs.Folders.{items_of};
ghost use Rattle.snapshot_command.specs.Archives as archives;
ghost use Rattle.snapshot_command.specs.Openings.{log_in};
ghost use Rattle.snapshot_command.specs.Volumes.{logs_of as volume_logs};
ghost use Rattle.replay_command.specs.Nodes as spec;

use effect_form::Effect;
use forward_copy::has_whole;
use log_replay::whole_of;
use medium_port::Medium;
use snapshot_command::Opening;
use std::alloc::{AllocError, Global};
use value_form::Items;

/// The log of a node.
#[derive(Drop)]
pub struct NodeLog {
    /// Oldest effect first: those of its last complete volume, with all versions that only earlier ones have.
    pub effects: Items<Effect>,
    /// How many complete volumes it has.
    pub volumes: u32,
}

// The volume's log: one that can't be opened has none.
fn log_of<M: Medium>(opening: &Opening<M>) -> &[Effect]
    ensures { result.now ≡ log_in opening.now }
{
    match opening {
        Opening::Open(_, effects) => effects.as_slice(),
        Opening::Shut(_, _) => &[],
        Opening::Wanting(_) => &[],
    }
}

// Whether a volume with this log is complete.
fn is_complete(volume: usize, log: &[Effect]) -> bool
    ensures { result ≡ archives.is_complete volume log.now }
{
    volume == 0 || has_whole(log)
}

// Equal effects.
fn copies(alloc: Global, effects: &[Effect]) -> Result<Vec<Effect>, AllocError>
    ensures { IfOk result (λ copied. copied.items ≡ effects.now) }
{
    let mut copied = Vec::with_capacity(alloc, effects.len())?;
    for effect in effects {
        copied.push(effect.copy(alloc)?)?;
    }
    Ok(copied)
}

// Adds the log of a volume, if it is complete.
fn add_volume(
    alloc: Global,
    logs: &mut Vec<Vec<Effect>>,
    volume: usize,
    log: &[Effect],
) -> Result<(), AllocError>
    ensures logs { OnOk result (items_of logs.new.items ≡ items_of logs.old.items ++
        map (λ c. c.log) (archives.complete_from volume (log.now ∷ []))) }
    ensures one { OnOk result (length logs.new.items ≤ length logs.old.items + 1) }
{
    if is_complete(volume, log) {
        let log = copies(alloc, log)?;
        logs.push(log)?;
    }
    Ok(())
}

// The logs of the complete ones among these volumes, from volume 0 on.
fn complete_logs<M: Medium>(
    alloc: Global,
    openings: &[Opening<M>],
) -> Result<Vec<Vec<Effect>>, AllocError>
    ensures logs { IfOk result (λ logs. items_of logs.items ≡ spec.complete_of (volume_logs openings.now)) }
    ensures few { IfOk result (λ logs. length logs.items ≤ length openings.now) }
{
    let mut logs = Vec::new(alloc);
    for (volume, opening) in openings.iter().enumerate() {
        let log = log_of(opening);
        add_volume(alloc, &mut logs, volume, log)?;
    }
    Ok(logs)
}

/// The log of a node with these volumes, from volume 0 on.
pub fn node_log<M: Medium>(alloc: Global, openings: &[Opening<M>]) -> Result<NodeLog, AllocError>
    requires { length openings.now ≤ 1000 }
    ensures { IfOk result (λ log. log ≡ spec.node_log (volume_logs openings.now)) }
{
    let logs = complete_logs(alloc, openings)?;
    let volumes = logs.len() as u32;
    let effects = whole_of(alloc, logs)?;
    Ok(NodeLog {
        effects: Items::of(effects),
        volumes,
    })
}

/// The logs of these nodes.
pub fn logs_of(alloc: Global, nodes: Vec<NodeLog>) -> Result<Vec<Vec<Effect>>, AllocError>
    ensures { IfOk result (λ logs. items_of logs.items ≡ map (λ n. n.effects) nodes.items) }
{
    let mut logs = Vec::with_capacity(alloc, nodes.len())?;
    let mut left = nodes;
    while let Some(node) = left.pop() {
        let NodeLog {
            effects,
            volumes: _,
        } = node;
        logs.push(effects.into_vec())?;
    }
    logs.reverse();
    Ok(logs)
}
