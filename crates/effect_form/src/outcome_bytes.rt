//! Reads and writes the bytes of an outcome.
ghost use Rattle.std.specs.Prelude.{◌≡◌, ◌++◌, ◌∷◌, OnOk};
ghost use Rattle.pseudo_time.specs.TimeParts.{time_bytes};
ghost use Rattle.std.specs.Option.{option_map};
ghost use Rattle.std.specs.Int.{w64};
ghost use Rattle.field_form.specs.Numbers.{number_at};
ghost use Rattle.field_form.specs.Times.{time_at};
ghost use Rattle.value_form.specs.ObjectBytes.{object_bytes, object_bytes_at};
ghost use Rattle.effect_form.specs.Outcomes.{fail_number, fail_from, fail_at, line_at, clock_at, outcome_bytes, outcome_of_tag, outcome_at};
ghost use Rattle.effect_form.specs.Sequences.{part_two};
ghost use Rattle.effect_form.specs.declared.outcomes.Outcome.TheVariants as variant;

use crate::outcomes::Outcome;
use field_form::{byte_of, push_time, time_of, u16_in, u64_in, u64_of};
use pseudo_time::PseudoTime;
use std::alloc::AllocError;
use value_form::{FailKind, ObjectId, object_bytes_of, push_object_bytes};

/// The greatest line of a script.
const LAST_LINE: u16 = 200;

/// The greatest clock of a stamp.
const LAST_CLOCK: u64 = 1_099_511_627_775;

// The number of a kind of failure, from 1 to 7.
fn number_of(kind: FailKind) -> u8
    ensures { result ≡ fail_number kind }
{
    match kind {
        FailKind::Overflow => 1,
        FailKind::Division => 2,
        FailKind::Kind => 3,
        FailKind::Long => 4,
        FailKind::Object => 5,
        FailKind::Count => 6,
        FailKind::Budget => 7,
    }
}

// The kind of failure with this number.
fn kind_of(number: u8) -> Option<FailKind>
    ensures { result ≡ fail_from number }
{
    match number {
        1 => Some(FailKind::Overflow),
        2 => Some(FailKind::Division),
        3 => Some(FailKind::Kind),
        4 => Some(FailKind::Long),
        5 => Some(FailKind::Object),
        6 => Some(FailKind::Count),
        7 => Some(FailKind::Budget),
        _ => None,
    }
}

fn kind_field(bytes: &[u8]) -> Option<(FailKind, &[u8])>
    ensures { option_map (λ p. (p.0, p.1.now)) result ≡ fail_at bytes.now }
{
    let Some((number, rest)) = byte_of(bytes) else {
        return None;
    };
    let Some(kind) = kind_of(number) else {
        return None;
    };
    Some((kind, rest))
}

fn line_field(bytes: &[u8]) -> Option<(u16, &[u8])>
    ensures { option_map (λ p. (p.0, p.1.now)) result ≡ line_at bytes.now }
{
    u16_in(1, LAST_LINE, bytes)
}

fn clock_field(bytes: &[u8]) -> Option<(u64, &[u8])>
    ensures { option_map (λ p. (p.0, p.1.now)) result ≡ clock_at bytes.now }
{
    u64_in(1, LAST_CLOCK, bytes)
}

fn failed(bytes: &[u8]) -> Option<(Outcome, &[u8])>
    ensures { option_map (λ p. (p.0, p.1.now)) result ≡ part_two variant.Failed line_at fail_at bytes.now }
{
    let Some((line, rest)) = line_field(bytes) else {
        return None;
    };
    let Some((kind, rest)) = kind_field(rest) else {
        return None;
    };
    Some((Outcome::Failed { line, kind }, rest))
}

fn later_read(bytes: &[u8]) -> Option<(Outcome, &[u8])>
    ensures { option_map (λ p. (p.0, p.1.now)) result ≡ part_two variant.LaterRead object_bytes_at time_at bytes.now }
{
    let Some((object, rest)) = object_bytes_of(bytes) else {
        return None;
    };
    let Some((end, rest)) = time_of(rest) else {
        return None;
    };
    Some((Outcome::LaterRead { object, end }, rest))
}

fn later_version(bytes: &[u8]) -> Option<(Outcome, &[u8])>
    ensures { option_map (λ p. (p.0, p.1.now)) result ≡
        part_two variant.LaterVersion object_bytes_at time_at bytes.now }
{
    let Some((object, rest)) = object_bytes_of(bytes) else {
        return None;
    };
    let Some((start, rest)) = time_of(rest) else {
        return None;
    };
    Some((Outcome::LaterVersion { object, start }, rest))
}

fn expired(bytes: &[u8]) -> Option<(Outcome, &[u8])>
    ensures { option_map (λ p. (p.0, p.1.now)) result ≡ part_two variant.Expired (number_at w64)
        (number_at w64) bytes.now }
{
    let Some((deadline, rest)) = u64_of(bytes) else {
        return None;
    };
    let Some((moment, rest)) = u64_of(rest) else {
        return None;
    };
    Some((Outcome::Expired { deadline, moment }, rest))
}

// What follows a tag.
#[tactic(auto, unfolding(crate::specs::Outcomes::outcome_of_tag))]
fn tagged(tag: u8, rest: &[u8]) -> Option<(Outcome, &[u8])>
    ensures { option_map (λ p. (p.0, p.1.now)) result ≡ outcome_of_tag tag rest.now }
{
    if tag == 1 {
        return Some((Outcome::Committed, rest));
    }
    if tag == 2 {
        let Some((line, rest)) = line_field(rest) else {
            return None;
        };
        return Some((Outcome::Withdrawn { line }, rest));
    }
    if tag == 3 {
        return failed(rest);
    }
    if tag == 4 {
        return later_read(rest);
    }
    if tag == 5 {
        return later_version(rest);
    }
    if tag == 6 {
        return expired(rest);
    }
    if tag != 7 {
        return None;
    }
    let Some((clock, rest)) = clock_field(rest) else {
        return None;
    };
    Some((Outcome::Spent { clock }, rest))
}

/// The outcome at the front. None where no front of the bytes is one.
#[tactic(auto, unfolding(crate::specs::Outcomes::outcome_at))]
pub fn outcome_of(bytes: &[u8]) -> Option<(Outcome, &[u8])>
    ensures { option_map (λ p. (p.0, p.1.now)) result ≡ outcome_at bytes.now }
{
    let Some((tag, rest)) = byte_of(bytes) else {
        return None;
    };
    tagged(tag, rest)
}

// A tag, an object and a pseudotime.
fn push_refusal(
    out: &mut Vec<u8>,
    tag: u8,
    object: ObjectId,
    time: PseudoTime,
) -> Result<(), AllocError>
    ensures { OnOk result (out.new.items ≡ out.old.items ++ (tag ∷ (object_bytes object ++ time_bytes time))) }
{
    out.push(tag)?;
    push_object_bytes(out, object)?;
    push_time(out, time)?;
    Ok(())
}

fn push_failed(out: &mut Vec<u8>, line: u16, kind: FailKind) -> Result<(), AllocError>
    ensures { OnOk result (out.new.items ≡ out.old.items ++ outcome_bytes (variant.Failed line kind)) }
{
    let [a, b] = line.to_be_bytes();
    out.extend_from_slice(&[3, a, b, number_of(kind)])
}

fn push_expired(out: &mut Vec<u8>, deadline: u64, moment: u64) -> Result<(), AllocError>
    ensures { OnOk result (out.new.items ≡ out.old.items ++ outcome_bytes (variant.Expired deadline moment)) }
{
    out.push(6)?;
    out.extend_from_slice(&deadline.to_be_bytes())?;
    out.extend_from_slice(&moment.to_be_bytes())
}

/// Appends the bytes of an outcome.
pub fn push_outcome(out: &mut Vec<u8>, outcome: Outcome) -> Result<(), AllocError>
    ensures { OnOk result (out.new.items ≡ out.old.items ++ outcome_bytes outcome) }
{
    match outcome {
        Outcome::Committed => out.extend_from_slice(&[1]),
        Outcome::Withdrawn { line } => {
            let [a, b] = line.to_be_bytes();
            out.extend_from_slice(&[2, a, b])
        }
        Outcome::Failed { line, kind } => push_failed(out, line, kind),
        Outcome::LaterRead { object, end } => push_refusal(out, 4, object, end),
        Outcome::LaterVersion { object, start } => push_refusal(out, 5, object, start),
        Outcome::Expired { deadline, moment } => push_expired(out, deadline, moment),
        Outcome::Spent { clock } => {
            let [a, b, c, d, e, f, g, h] = clock.to_be_bytes();
            out.extend_from_slice(&[7, a, b, c, d, e, f, g, h])
        }
    }
}
