//! A member's turns.
ghost use Rattle.std.specs.Prelude.{◌≡◌, ◌⊎◌, ◌≤◌, ◌-◌, ◌^◌, false, length, IfOk, OnOk};
ghost use Rattle.pseudo_time.specs.Nodes.{repository};
ghost use Rattle.world_core.specs.declared.entries.Entry.TheVariants as entry;
ghost use Rattle.vote_courier.specs.Couriers.{with_entry};
ghost use Rattle.effect_form.specs.Effects.{AreEffects};
ghost use Rattle.message_form.specs.Ranges.{AreOuts};
ghost use Rattle.version_store.specs.StoreWords.{medium_of};
ghost use Rattle.vote_run.specs.MemberTurns.{Acted, Begins, EndsAs, MayTurn, Sends, Stayed, Turns, Wants};

use crate::seats::Seat;
use effect_form::Effect;
use medium_port::Medium;
use message_form::{Out, Turn};
use pseudo_time::NodeId;
use record_votes::Member;
use std::alloc::{AllocError, Global};
use stream_port::{Clock, Fates};
use version_store::Store;
use vote_courier::Courier;
use vote_members::{Closed, close};

/// What a member's turn begins with. Behind the last tick, whose moment this is, it hears; else it
/// takes a copy, if one is due.
pub fn begin<F: Fates, C: Clock>(
    courier: &mut Courier<F, C>,
    node: NodeId,
    member: &mut Member,
    behind: bool,
    moment: u64,
) -> Result<Option<Turn>, AllocError>
    requires { moment ≤ 2 ^ 63 }
    ensures { IfOk result (Begins behind node moment courier.old courier.new member.old member.new) }
{
    if behind {
        courier.hear(node)?;
        let turn = member.hear(moment)?;
        return Ok(Some(turn));
    }
    let Some(arrival) = courier.take(node)? else {
        return Ok(None);
    };
    let turn = member.take(arrival.from, &arrival.message)?;
    Ok(Some(turn))
}

// The member resumes from the log that was found.
fn resume<F: Fates, C: Clock>(
    alloc: Global,
    courier: &mut Courier<F, C>,
    number: u8,
    durable: usize,
    found: &[Effect],
) -> Result<Member, AllocError>
    ensures entry { OnOk result (courier.new ≡ with_entry courier.old
        (entry.Crash (repository number) (length found.now - durable))) }
    ensures member { IfOk result (λ m. m ≡ record { number = number; log = found.now; moment = courier.old.start }) }
{
    let node = NodeId::repository(number);
    let member = Member::open(alloc, number, courier.start(), found)?;
    match u32::try_from(found.len().saturating_sub(durable)) {
        Err(_) => Err(AllocError),
        Ok(kept) => {
            courier.crash(node, kept)?;
            Ok(member)
        }
    }
}

// The turn's effects are durable: its messages are sent.
fn gate<F: Fates, C: Clock, M: Medium>(
    courier: &mut Courier<F, C>,
    node: NodeId,
    member: Member,
    store: Store<M>,
    count: Option<usize>,
    outs: Vec<Out>,
) -> Seat<M>
    requires outs { AreOuts outs.items }
    ensures { Sends M.Medium node outs.items courier.old courier.new member store count result }
{
    let Some(count) = count else {
        return Seat::Wanting(store.release());
    };
    match courier.gate(node, outs) {
        Ok(()) => Seat::Up(member, store, count, false),
        Err(_) => Seat::Wanting(store.release()),
    }
}

/// Ends a member's turn: its effects are made durable, and then its messages are sent. After a fault
/// of its medium it resumes from the log that is found, or is down.
pub fn end<F: Fates, C: Clock, M: Medium>(
    alloc: Global,
    courier: &mut Courier<F, C>,
    number: u8,
    durable: usize,
    member: Member,
    store: Store<M>,
    effects: &[Effect],
    outs: Vec<Out>,
) -> Seat<M>
    requires number { member.number ≡ number }
    requires sound { M.is_failed (medium_of store) ≡ false }
    requires effects { AreEffects effects.now }
    requires outs { AreOuts outs.items }
    ensures { EndsAs M.Medium (repository number) durable courier.old courier.new store effects.now
        outs.items member result }
{
    let node = NodeId::repository(number);
    let behind = courier.has_ticked();
    match close(alloc, store, effects) {
        Closed::Durable(store) => {
            let count = durable.checked_add(effects.len());
            gate(courier, node, member, store, count, outs)
        }
        Closed::Reopened(store, found) => {
            match resume(alloc, courier, number, durable, found.as_slice()) {
                Ok(member) => Seat::Up(member, store, found.len(), behind),
                Err(_) => Seat::Wanting(store.release()),
            }
        }
        Closed::Fallen(medium, cause) => match courier.down(node, cause) {
            Ok(()) => Seat::Fallen(Some(medium)),
            Err(_) => Seat::Wanting(medium),
        },
        Closed::Wanting(medium) => Seat::Wanting(medium),
    }
}

// The turn of a member that is up.
fn act<F: Fates, C: Clock, M: Medium>(
    alloc: Global,
    courier: &mut Courier<F, C>,
    number: u8,
    member: Member,
    store: Store<M>,
    durable: usize,
    behind: bool,
) -> Seat<M>
    requires number { member.number ≡ number }
    requires sound { M.is_failed (medium_of store) ≡ false }
    ensures { Acted M.Medium (repository number) courier.old courier.new member store durable behind result
        ⊎ (Stayed M.Medium (repository number) courier.old courier.new member store durable behind result ⊎
        Wants M.Medium (medium_of store) result) }
{
    let node = NodeId::repository(number);
    let moment = courier.moment();
    let mut member = member;
    match begin(courier, node, &mut member, behind, moment) {
        Err(_) => Seat::Wanting(store.release()),
        Ok(None) => Seat::Up(member, store, durable, behind),
        Ok(Some(turn)) => {
            let Turn { effects, outs } = turn;
            end(
                alloc,
                courier,
                number,
                durable,
                member,
                store,
                effects.as_slice(),
                outs.into_vec(),
            )
        }
    }
}

/// A member's turn. One that isn't up has none.
pub fn turn<F: Fates, C: Clock, M: Medium>(
    alloc: Global,
    courier: &mut Courier<F, C>,
    number: u8,
    seat: Seat<M>,
) -> Seat<M>
    requires { MayTurn M.Medium number seat }
    ensures turns { Turns M.Medium (repository number) courier.old courier.new seat result }
    ensures may { MayTurn M.Medium number result }
{
    match seat {
        Seat::Up(member, store, durable, behind) => {
            act(alloc, courier, number, member, store, durable, behind)
        }
        Seat::Fallen(medium) => Seat::Fallen(medium),
        Seat::Wanting(medium) => Seat::Wanting(medium),
    }
}
