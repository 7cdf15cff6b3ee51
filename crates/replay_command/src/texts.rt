//! The text of a replay, and the lines that say what differs.
ghost use Rattle.std.specs.Prelude.{◌≡◌, ◌++◌, ◌≤◌, IfOk, OnOk, codes, length};
ghost use Rattle.std.specs.List.{flat_map};
ghost use Rattle.log_replay.specs.Folders.{items_of};
ghost use Rattle.report_writer.specs.Parts.{access_text};
ghost use Rattle.snapshot_command.specs.ArchiveLines.{value_line};
ghost use Rattle.replay_command.specs.Replayed as spec;
ghost use Rattle.replay_command.specs.Texts as lines;

use crate::counts::{Counts, counts_of, versions_in};
use crate::gathering::node_at;
use crate::judging::{Found, Kind, Verdict, judge};
use crate::logs::{NodeLog, logs_of};
use effect_form::Effect;
use pseudo_time::{NodeId, NodeKind};
use report_writer::{push_named, push_object, push_stamp};
use script_replay::Told;
use serial_model::ObjectMap;
use snapshot_command::{Outcome, refused, told};
use std::alloc::{AllocError, Global};
use value_form::{Bytes, ObjectId, Value};

// ---- nodes

// Appends what the line of a node says.
fn push_front(
    alloc: Global,
    out: &mut Vec<u8>,
    node: NodeId,
    volumes: u32,
) -> Result<(), AllocError>
    ensures { OnOk result (out.new.items ≡ out.old.items ++ lines.front_of node.kind node.number volumes) }
{
    match node.kind {
        NodeKind::Repository => {
            push_named(alloc, out, b"node repository ", node.number as u64)?;
            push_named(alloc, out, b" volumes ", volumes as u64)
        }
        NodeKind::Broker => push_named(alloc, out, b"node broker ", node.number as u64),
    }
}

// Appends the line of a node.
fn push_line(alloc: Global, out: &mut Vec<u8>, node: NodeId, volumes: u32) -> Result<(), AllocError>
    ensures { OnOk result (out.new.items ≡ out.old.items ++ lines.line_of node volumes) }
{
    push_front(alloc, out, node, volumes)?;
    out.push(b'\n')?;
    Ok(())
}

// Appends the line of a node, if its log isn't empty.
fn push_node(
    alloc: Global,
    out: &mut Vec<u8>,
    node: NodeId,
    log: &NodeLog,
) -> Result<(), AllocError>
    ensures { OnOk result (out.new.items ≡ out.old.items ++ lines.node_line node log.now) }
{
    if log.effects.as_slice().is_empty() {
        return Ok(());
    }
    push_line(alloc, out, node, log.volumes)
}

// Appends the lines of the nodes, in their order.
fn push_nodes(alloc: Global, out: &mut Vec<u8>, nodes: &[NodeLog]) -> Result<(), AllocError>
    requires { length nodes.now ≤ 32 }
    ensures { OnOk result (out.new.items ≡ out.old.items ++ lines.node_lines 0 nodes.now) }
{
    for place in 0..nodes.len() {
        push_node(alloc, out, node_at(place as u8), &nodes[place])?;
    }
    Ok(())
}

// ---- counts

// Appends how many attempts there are.
fn push_attempts(alloc: Global, out: &mut Vec<u8>, counts: Counts) -> Result<(), AllocError>
    ensures { OnOk result (out.new.items ≡ out.old.items ++ lines.attempts_line counts) }
{
    push_named(alloc, out, b"attempts ", counts.attempts as u64)?;
    push_named(alloc, out, b" committed ", counts.committed as u64)?;
    push_named(alloc, out, b" open ", counts.unended as u64)?;
    out.push(b'\n')?;
    Ok(())
}

// Appends how many versions there are, and how many stamps are given.
fn push_versions(
    alloc: Global,
    out: &mut Vec<u8>,
    versions: u64,
    given: usize,
) -> Result<(), AllocError>
    ensures { OnOk result (out.new.items ≡ out.old.items ++ lines.versions_line versions given) }
{
    push_named(alloc, out, b"versions ", versions)?;
    push_named(alloc, out, b" given ", given as u64)?;
    out.push(b'\n')?;
    Ok(())
}

// ---- values

// Appends the line of an object with a value that isn't Nothing.
fn push_some(
    alloc: Global,
    out: &mut Vec<u8>,
    object: ObjectId,
    value: &Value,
) -> Result<(), AllocError>
    ensures { OnOk result (out.new.items ≡ out.old.items ++ access_text (codes "value ") object value.now) }
{
    out.extend_from_slice(b"value ")?;
    push_object(alloc, out, object)?;
    out.push(b' ')?;
    value.print(alloc, out)?;
    out.push(b'\n')?;
    Ok(())
}

// Appends the line of an object, if its value isn't Nothing.
fn push_value(
    alloc: Global,
    out: &mut Vec<u8>,
    object: ObjectId,
    value: &Value,
) -> Result<(), AllocError>
    ensures { OnOk result (out.new.items ≡ out.old.items ++ value_line object value.now) }
{
    match value {
        Value::Nothing => Ok(()),
        Value::Number(_) => push_some(alloc, out, object, value),
        Value::Text(_) => push_some(alloc, out, object, value),
    }
}

// Appends the lines of objects.
fn push_list(alloc: Global, out: &mut Vec<u8>, list: &[(ObjectId, Value)]) -> Result<(), AllocError>
    ensures { OnOk result (out.new.items ≡ out.old.items ++ flat_map lines.entry_line list.now) }
{
    for entry in list {
        push_value(alloc, out, entry.0, &entry.1)?;
    }
    Ok(())
}

// Appends the values of a map, if there is one.
fn push_values(
    alloc: Global,
    out: &mut Vec<u8>,
    values: Option<ObjectMap>,
) -> Result<(), AllocError>
    ensures { OnOk result (out.new.items ≡ out.old.items ++ lines.values_text values) }
{
    match values {
        None => Ok(()),
        Some(map) => {
            let list = map.into_list(alloc)?;
            push_list(alloc, out, list.as_slice())
        }
    }
}

// ---- the whole

// The first line, and those of the nodes.
fn head_text(alloc: Global, nodes: &[NodeLog]) -> Result<Vec<u8>, AllocError>
    requires { length nodes.now ≤ 32 }
    ensures { IfOk result (λ out. out.items ≡ lines.head_text nodes.now) }
{
    let mut out = Vec::new(alloc);
    out.extend_from_slice(b"replay\n")?;
    push_nodes(alloc, &mut out, nodes)?;
    Ok(out)
}

// The text of a replay, with this at its front.
fn replay_text(
    alloc: Global,
    head: Vec<u8>,
    versions: u64,
    counts: Counts,
    values: Option<ObjectMap>,
) -> Result<Bytes, AllocError>
    ensures { IfOk result (λ text. text ≡ head.items ++ lines.rest_text versions counts values) }
{
    let mut out = head;
    push_attempts(alloc, &mut out, counts)?;
    push_versions(alloc, &mut out, versions, counts.given)?;
    push_values(alloc, &mut out, values)?;
    Ok(Bytes::of(out))
}

// ---- what differs

// Appends the word of a kind.
fn push_kind(out: &mut Vec<u8>, kind: Kind) -> Result<(), AllocError>
    ensures { OnOk result (out.new.items ≡ out.old.items ++ lines.kind_word kind) }
{
    match kind {
        Kind::Answers => out.extend_from_slice(b"answers"),
        Kind::Ending => out.extend_from_slice(b"ending"),
        Kind::Versions => out.extend_from_slice(b"versions"),
        Kind::Decision => out.extend_from_slice(b"decision"),
        Kind::Attempt => out.extend_from_slice(b"attempt"),
    }
}

// The line of an attempt that differs.
fn differs_line(alloc: Global, found: Found) -> Result<Bytes, AllocError>
    ensures { IfOk result (λ line. line ≡ lines.differs_line found) }
{
    let mut out = Vec::new(alloc);
    out.extend_from_slice(b"differs ")?;
    push_stamp(alloc, &mut out, found.stamp)?;
    out.push(b' ')?;
    push_kind(&mut out, found.kind)?;
    out.push(b'\n')?;
    Ok(Bytes::of(out))
}

// The line of a broker's log that can't be told.
fn log_line(alloc: Global, number: u8) -> Result<Bytes, AllocError>
    ensures { IfOk result (λ line. line ≡ lines.log_line number) }
{
    let mut out = Vec::new(alloc);
    push_named(alloc, &mut out, b"differs broker ", number as u64)?;
    out.extend_from_slice(b" log\n")?;
    Ok(Bytes::of(out))
}

// ---- what is told

// The map, if its values are asked for.
fn asked(values: bool, map: ObjectMap) -> Option<ObjectMap>
    ensures { result ≡ lines.asked values map }
{
    if values { Some(map) } else { None }
}

// What came of a verdict.
fn tell_verdict(
    alloc: Global,
    head: Vec<u8>,
    versions: u64,
    values: bool,
    verdict: Verdict,
) -> Outcome
    ensures { spec.TellsVerdict head.items versions values verdict result }
{
    match verdict {
        Verdict::Replayed(list, map) => {
            let counts = counts_of(list.as_slice());
            told(replay_text(alloc, head, versions, counts, asked(values, map)))
        }
        Verdict::Differs(found) => refused(differs_line(alloc, found)),
        Verdict::Log(number) => refused(log_line(alloc, number)),
    }
}

// What came of these logs, with this at the front of a text.
fn tell_logs(alloc: Global, head: Vec<u8>, logs: &[Vec<Effect>], values: bool) -> Outcome
    requires { length logs.now ≡ 32 }
    ensures { spec.TellsLogs head.items values (items_of logs.now) result }
{
    let (repositories, brokers) = logs.split_at(16);
    match judge(alloc, repositories, brokers) {
        Ok(verdict) => tell_verdict(alloc, head, versions_in(repositories), values, verdict),
        Err(_) => Outcome::NoMemory,
    }
}

/// What comes of the logs of all nodes.
pub fn tell(alloc: Global, nodes: Vec<NodeLog>, values: bool) -> Outcome
    requires { length nodes.items ≡ 32 }
    ensures { spec.Tells values nodes.items result }
{
    let Ok(head) = head_text(alloc, nodes.as_slice()) else {
        return Outcome::NoMemory;
    };
    match logs_of(alloc, nodes) {
        Ok(logs) => tell_logs(alloc, head, logs.as_slice(), values),
        Err(_) => Outcome::NoMemory,
    }
}
