//! The nodes that are down at the end of a trace.
ghost use Rattle.std.specs.Prelude.{◌≡◌, ◌++◌, IfOk, OnOk};
ghost use Rattle.std.specs.List.{flat_map};
ghost use Rattle.trace_report.specs.Downs as spec;
ghost use Rattle.trace_report.specs.Reports.{downs_shown};

use plan_form::Plan;
use pseudo_time::{DownCause, NodeId, NodeKind};
use report_writer::Down;
use std::alloc::{AllocError, Global};
use world_core::{Entry, Trace};

// The nodes that went down, in the order in which they did.
fn fallen(alloc: Global, entries: &[Entry]) -> Result<Vec<Down>, AllocError>
    ensures { IfOk result (λ downs. downs.items ≡ spec.fallen entries.now) }
{
    let mut downs = Vec::new(alloc);
    for entry in entries {
        if let Entry::Down { node, cause } = entry {
            downs.push(Down {
                node: *node,
                cause: *cause,
            })?;
        }
    }
    Ok(downs)
}

// The first cause of the node among these.
fn cause_of(downs: &[Down], node: NodeId) -> Option<DownCause>
    ensures { result ≡ spec.cause_of downs.now node }
{
    for down in downs {
        if down.node == node {
            return Some(down.cause);
        }
    }
    None
}

// Appends the node, if it is among these.
fn push_node(shown: &mut Vec<Down>, fallen: &[Down], node: NodeId) -> Result<(), AllocError>
    ensures { OnOk result (shown.new.items ≡ shown.old.items ++ spec.shown fallen.now node) }
{
    if let Some(cause) = cause_of(fallen, node) {
        shown.push(Down { node, cause })?;
    }
    Ok(())
}

// Appends those of the nodes of a kind, with the numbers 1 to the greatest, that are among these.
fn push_nodes(
    shown: &mut Vec<Down>,
    fallen: &[Down],
    kind: NodeKind,
    most: u8,
) -> Result<(), AllocError>
    ensures { OnOk result (shown.new.items ≡ shown.old.items ++ flat_map (spec.shown fallen.now)
        (spec.nodes_of_kind kind most)) }
{
    for below in 0..most {
        let number = below + 1;
        push_node(shown, fallen, NodeId { kind, number })?;
    }
    Ok(())
}

/// The nodes of the plan that are down, with their causes, in the order of their names.
pub fn downs_of(alloc: Global, plan: &Plan, trace: &Trace) -> Result<Vec<Down>, AllocError>
    ensures { IfOk result (λ downs. downs.items ≡ downs_shown plan.now trace.now) }
{
    let fallen = fallen(alloc, trace.entries.as_slice())?;
    let mut shown = Vec::new(alloc);
    push_nodes(
        &mut shown,
        fallen.as_slice(),
        NodeKind::Repository,
        plan.repositories,
    )?;
    push_nodes(
        &mut shown,
        fallen.as_slice(),
        NodeKind::Broker,
        plan.brokers,
    )?;
    Ok(shown)
}
