//! The queues of due copies, one for each node that is up.
ghost use Rattle.std.specs.Prelude.{◌≡◌, ◌↔◌, ◌+◌, ◌-◌, ◌≤◌, ◌<◌, ◌++◌, ◌∷◌, [], ℕ, List, Option, length, take, drop, slice_get, IsTrue, IfOk, OnOk, OnErr, Some, None, if◌then◌else◌};
ghost use Rattle.std.specs.Option.{option_map, unwrap_or};
ghost use Rattle.std.specs.List.{list_any};
ghost use Rattle.std.specs.VecDeque.{deque_len, deque_capacity};
ghost use Rattle.pseudo_time.specs.declared.nodes.NodeId.{NodeId};
ghost use Rattle.message_core.specs.declared.letters.HeldCopy.{HeldCopy};
ghost use Rattle.pseudo_time.specs.Nodes.{same_node};
ghost use Rattle.message_core.specs.Flights.{put, puts};
ghost use Rattle.message_core.specs.Queues.{queue_in, held_in, Grew};

use crate::holds::Holds;
use crate::letters::HeldCopy;
use pseudo_time::NodeId;
use std::alloc::{AllocError, Global};
use std::collections::{BTreeMap, VecDeque};

/// The due copies of each node that is up, by the numbers of their messages, the front one first.
pub type Queues = BTreeMap<NodeId, VecDeque<u32>>;

// An empty queue for each of these nodes.
pub fn empty_queues(alloc: Global, nodes: &[NodeId]) -> Result<Queues, AllocError>
    ensures { IfOk result (λ queues. (n : NodeId) →
        queue_in queues.entries n ≡ (if list_any (λ m. same_node m n) nodes.now then Some [] else None)) }
{
    let mut queues = BTreeMap::new(alloc);
    for node in nodes {
        queues.insert(*node, VecDeque::new(alloc))?;
    }
    Ok(queues)
}

// Puts a copy into a queue that has room, before the last `overtake` copies there.
fn put_copy(queue: &mut VecDeque<u32>, number: u32, overtake: u32)
    requires { deque_len queue.old < deque_capacity queue.old }
    ensures items { queue.new.items ≡ put number overtake queue.old.items }
    ensures len { deque_len queue.new ≡ deque_len queue.old + 1 }
    ensures room { deque_capacity queue.old ≤ deque_capacity queue.new }
{
    let at = queue.len().saturating_sub(overtake as usize);
    let _ = queue.insert(at, number);
}

// Puts copies into a queue, one after the other.
fn put_copies(
    queue: &mut VecDeque<u32>,
    number: u32,
    copies: u8,
    overtake: u32,
) -> Result<(), AllocError>
    ensures ok { OnOk result (queue.new.items ≡ puts copies number overtake queue.old.items) }
    ensures err { OnErr result (queue.new.items ≡ queue.old.items) }
{
    queue.reserve(usize::from(copies))?;
    for _ in 0..copies {
        put_copy(queue, number, overtake);
    }
    Ok(())
}

// Puts copies into the queue of a node, if it is up.
pub fn put_in(
    queues: &mut Queues,
    to: NodeId,
    number: u32,
    copies: u8,
    overtake: u32,
) -> Result<(), AllocError>
    ensures ok { OnOk result ((n : NodeId) →
        queue_in queues.new.entries n ≡ (if same_node to n then option_map (puts copies number overtake)
        (queue_in queues.old.entries n) else queue_in queues.old.entries n)) }
    ensures err { OnErr result ((n : NodeId) → queue_in queues.new.entries n ≡ queue_in queues.old.entries n) }
{
    let Some(queue) = queues.get_mut(&to) else {
        return Ok(());
    };
    put_copies(queue, number, copies, overtake)
}

// A copy goes to the end of its queue, if its node is up.
fn add(queues: &mut Queues, copy: HeldCopy) -> Result<(), AllocError>
    ensures ok { OnOk result (Grew (copy ∷ []) (queue_in queues.old.entries) (queue_in queues.new.entries)) }
    ensures err { OnErr result ((n : NodeId) → queue_in queues.new.entries n ≡ queue_in queues.old.entries n) }
{
    if let Some(queue) = queues.get_mut(&copy.to) {
        queue.push_back(copy.number)?;
    }
    Ok(())
}

// The copy at the end of a queue leaves it.
fn drop_last(queue: &mut VecDeque<u32>)
    ensures { queue.new.items ≡ take (length queue.old.items - 1) queue.old.items }
{
    queue.pop_back();
}

// Takes the copy at the end of its queue away again.
fn take_back(queues: &mut Queues, copy: HeldCopy)
    ensures { (before : NodeId → Option (List ℕ)) (earlier : List HeldCopy) →
        Grew (earlier ++ copy ∷ []) before (queue_in queues.old.entries) →
        Grew earlier before (queue_in queues.new.entries) }
{
    if let Some(queue) = queues.get_mut(&copy.to) {
        drop_last(queue);
    }
}

// These copies go to the ends of their queues, in order, each whose node is up.
fn spread(queues: &mut Queues, copies: &[HeldCopy]) -> Result<(), AllocError>
    ensures ok { OnOk result (Grew copies.now (queue_in queues.old.entries) (queue_in queues.new.entries)) }
    ensures err { OnErr result ((n : NodeId) → queue_in queues.new.entries n ≡ queue_in queues.old.entries n) }
{
    for index in 0..copies.len() {
        if let Err(failed) = add(queues, copies[index]) {
            gather(queues, &copies[..index]);
            return Err(failed);
        }
    }
    Ok(())
}

// The copies that are held until this tick go to the ends of their queues.
pub fn arrive(queues: &mut Queues, held: &Holds, tick: u64) -> Result<(), AllocError>
    ensures ok { OnOk result (Grew (held_in held.now.entries tick) (queue_in queues.old.entries)
        (queue_in queues.new.entries)) }
    ensures err { OnErr result ((n : NodeId) → queue_in queues.new.entries n ≡ queue_in queues.old.entries n) }
{
    match held.get(&tick) {
        Some(copies) => spread(queues, copies.as_slice()),
        None => Ok(()),
    }
}

// Takes these copies away from the ends of their queues again, the last one first.
fn gather(queues: &mut Queues, copies: &[HeldCopy])
    ensures { (before : NodeId → Option (List ℕ)) → Grew copies.now before (queue_in queues.old.entries) →
        Grew [] before (queue_in queues.new.entries) }
{
    for back in 0..copies.len() {
        take_back(queues, copies[copies.len() - 1 - back]);
    }
}

fn front_number(queue: &VecDeque<u32>) -> Option<u32>
    ensures { result ≡ slice_get queue.now.items 0 }
{
    queue.front().copied()
}

// The number of the front copy of a node.
pub fn front_of(queues: &Queues, node: NodeId) -> Option<u32>
    ensures { result ≡ slice_get (unwrap_or (queue_in queues.now.entries node) []) 0 }
{
    match queues.get(&node) {
        Some(queue) => front_number(queue),
        None => None,
    }
}

// The front copy of a node leaves its queue.
pub fn drop_front(queues: &mut Queues, node: NodeId)
    ensures { (n : NodeId) → queue_in queues.new.entries n ≡
        (if same_node node n then option_map (drop 1) (queue_in queues.old.entries n) else queue_in
        queues.old.entries n) }
{
    if let Some(queue) = queues.get_mut(&node) {
        queue.pop_front();
    }
}

// The queue of a node is given up.
pub fn close_queue(queues: &mut Queues, node: NodeId)
    ensures { (n : NodeId) → queue_in queues.new.entries n ≡
        (if same_node node n then None else queue_in queues.old.entries n) }
{
    queues.remove(&node);
}

// Whether each queue is empty.
pub fn are_empty(queues: &Queues) -> bool
    ensures { IsTrue result ↔ ((n : NodeId) → unwrap_or (queue_in queues.now.entries n) [] ≡ []) }
{
    for (node, _queue) in queues {
        if front_of(queues, *node).is_some() {
            return false;
        }
    }
    true
}
