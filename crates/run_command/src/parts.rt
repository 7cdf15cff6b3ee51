//! Which repositories take part in a run, and which of them couldn't be opened.
ghost use Rattle.std.specs.Prelude.{◌≡◌, ◌↔◌, IsTrue};
ghost use Rattle.std.specs.List.{list_all, list_any};
ghost use Rattle.pseudo_time.specs.Nodes.{repository};
ghost use Rattle.world_core.specs.Pasts.{WasNotOpened};
ghost use Rattle.world_core.specs.Walks as walks;
ghost use Rattle.run_command.specs.Parts as spec;

use pseudo_time::NodeId;
use world_core::{Entry, Opened, Trace};

/// Whether a node goes down.
pub fn is_down(entry: &Entry) -> bool
    ensures { result ≡ walks.is_down entry.now }
{
    match entry {
        Entry::Down { node: _, cause: _ } => true,
        _ => false,
    }
}

// Whether this is the Down of the node.
fn falls(entry: &Entry, node: NodeId) -> bool
    ensures { result ≡ spec.falls node entry.now }
{
    match entry {
        Entry::Down {
            node: down,
            cause: _,
        } => *down == node,
        _ => false,
    }
}

// Whether nothing but Downs happened.
fn all_down(entries: &[Entry]) -> bool
    ensures { result ≡ list_all walks.is_down entries.now }
{
    entries.iter().all(|entry| is_down(entry))
}

// Whether the node's Down is among these.
fn some_falls(entries: &[Entry], node: NodeId) -> bool
    ensures { result ≡ list_any (spec.falls node) entries.now }
{
    for entry in entries {
        if falls(entry, node) {
            return true;
        }
    }
    false
}

// Whether the node is among those that were opened, or were to be.
fn is_among(opened: &[Opened], node: NodeId) -> bool
    ensures { result ≡ spec.takes_part opened.now node }
{
    for one in opened {
        if one.node == node {
            return true;
        }
    }
    false
}

/// Whether the repository of this number is a node of the run.
pub fn takes_part(trace: &Trace, number: u8) -> bool
    ensures { result ≡ spec.takes_part trace.now.opened (repository number) }
{
    is_among(trace.opened.as_slice(), NodeId::repository(number))
}

// Whether nothing but Downs happened, and one is the node's.
fn tells_unopened(entries: &[Entry], node: NodeId) -> bool
    ensures { result ≡ spec.tells_unopened node entries.now }
{
    all_down(entries) && some_falls(entries, node)
}

/// Whether the repository of this number is a node of the run that couldn't be opened, so that no act was
/// run.
pub fn was_not_opened(trace: &Trace, number: u8) -> bool
    ensures { IsTrue result ↔ WasNotOpened trace.now.entries (repository number) }
{
    tells_unopened(trace.entries.as_slice(), NodeId::repository(number))
}
