//! Turns of what threads own beside what they share: a round.
ghost use Rattle.std.specs.Prelude.{◌≡◌, All, true, vec_len, vec_capacity};
ghost use Rattle.std.specs.List.{AllZip};
ghost use Rattle.node_rounds.specs.Turns.{GoesFurther, HadSome};

use std::sync::Wait;
use std::thread::{self, Threads, join_mut};

/// One that has turns, beside others with which it shares an L.
pub trait Turns<L> {
    /// It may have a turn.
    ghost ready: { L → Self → Type 0 };

    /// What turns make of it, one or several.
    ghost does: { L → Self → Self → Type 0 };

    /// One turn. It may wait for others. True where it did anything.
    fn take_turn<R: Wait>(self, rt: &R, shared: &L) -> (Self, bool)
        requires ready { ready shared.now self }
        ensures does { does shared.now self result.0 };

    /// Whether it may have another turn.
    fn may_go_on(&self) -> bool
        ensures { result ≡ true → (shared : L) (first : Self) → does shared first self.now → ready shared self.now };

    /// A law: a turn behind others makes of it what turns make.
    fn turns_join()
        ensures { (shared : L) (first mid last : Self) → does shared first mid → ready shared mid →
            does shared mid last → does shared first last };
}

/// One worker's share: each of its nodes has a turn, in their order. True where one of them did anything.
/// Takes no memory.
pub fn share<L, S: Turns<L>, R: Wait>(rt: &R, shared: &L, nodes: &mut Vec<S>) -> bool
    requires ready { All (S.ready shared.now) nodes.old.items }
    ensures does { AllZip (S.does shared.now) nodes.old.items nodes.new.items }
    ensures room { (vec_len nodes.new ≡ vec_len nodes.old) × (vec_capacity nodes.new ≡ vec_capacity nodes.old) }
{
    let Some(last) = nodes.pop() else {
        return false;
    };
    let before = share(rt, shared, nodes);
    let (last, worked) = last.take_turn(rt, shared);
    nodes.push_reserved(last);
    before | worked
}

// A node that had turns has another, where it may.
fn turn_again<L, S: Turns<L>, R: Wait>(rt: &R, shared: &L, node: S) -> (S, bool)
    requires had { HadSome (S.does shared.now) node }
    ensures does { GoesFurther (S.does shared.now) node result.0 }
{
    if node.may_go_on() {
        S::turns_join();
        node.take_turn(rt, shared)
    } else {
        (node, false)
    }
}

// The nodes of a share, which had turns, have another, in their order.
fn share_again<L, S: Turns<L>, R: Wait>(rt: &R, shared: &L, nodes: &mut Vec<S>) -> bool
    requires had { All (HadSome (S.does shared.now)) nodes.old.items }
    ensures does { AllZip (GoesFurther (S.does shared.now)) nodes.old.items nodes.new.items }
    ensures room { (vec_len nodes.new ≡ vec_len nodes.old) × (vec_capacity nodes.new ≡ vec_capacity nodes.old) }
{
    let Some(last) = nodes.pop() else {
        return false;
    };
    let before = share_again(rt, shared, nodes);
    let (last, worked) = turn_again(rt, shared, last);
    nodes.push_reserved(last);
    before | worked
}

// How often in a row the nodes of a share find nothing to do before its part of a round ends. What the nodes
// of another thread send comes within a few of these, and then costs no round more, which makes as many
// threads as there are shares.
const PATIENCE: u32 = 16;

// How often in a row nothing was found, behind one time more. Where nothing was, another thread may go on.
fn idle_behind(idle: u32, worked: bool) -> u32 {
    if worked {
        return 0;
    }
    thread::yield_now();
    idle.saturating_add(1)
}

/// A share's part of a round: its nodes have so many turns, one at least, or fewer if none of them does
/// anything in several that follow one another. Takes no memory.
pub fn share_often<L, S: Turns<L>, R: Wait>(rt: &R, shared: &L, turns: u32, nodes: &mut Vec<S>)
    requires ready { All (S.ready shared.now) nodes.old.items }
    ensures does { AllZip (S.does shared.now) nodes.old.items nodes.new.items }
    ensures room { (vec_len nodes.new ≡ vec_len nodes.old) × (vec_capacity nodes.new ≡ vec_capacity nodes.old) }
{
    let worked = share(rt, shared, nodes);
    let mut idle = idle_behind(0, worked);
    for _ in 1..turns {
        if idle >= PATIENCE {
            return;
        }
        let worked = share_again(rt, shared, nodes);
        idle = idle_behind(idle, worked);
    }
}

// Whether a share needs no thread beside those of the others: one thread is to be alone, or there is nothing to
// give beside it.
fn stands_alone<S>(alone: bool, share: &Vec<S>, others: &Vec<Vec<S>>) -> bool {
    alone || others.is_empty() || share.is_empty()
}

// A share on this thread, and a round of the others on another. Takes no memory.
#[cycle(rounds)]
fn beside<L: Sync, S: Turns<L> + Send, R: Threads + Wait + Sync>(
    rt: &R,
    shared: &L,
    turns: u32,
    last: &mut Vec<S>,
    shares: &mut Vec<Vec<S>>,
)
    requires own { All (S.ready shared.now) last.old.items }
    requires others { All (λ nodes. All (S.ready shared.now) nodes.items) shares.old.items }
    ensures own { AllZip (S.does shared.now) last.old.items last.new.items }
    ensures others { AllZip (λ old new. AllZip (S.does shared.now) old.items new.items) shares.old.items shares.new.items }
    ensures room { (vec_len shares.new ≡ vec_len shares.old) × (vec_capacity shares.new ≡ vec_capacity shares.old) }
{
    join_mut(
        rt,
        &mut ||
            requires { All (S.ready shared.now) last.now.items }
            ensures { AllZip (S.does shared.entry.now) last.entry.now.items last.exit.now.items }
        { share_often(rt, shared, turns, last) },
        &mut ||
            requires { All (λ nodes. All (S.ready shared.now) nodes.items) shares.now.items }
            ensures { AllZip (λ old new. AllZip (S.does shared.entry.now) old.items new.items) shares.entry.now.items
                shares.exit.now.items × (vec_len shares.exit.now ≡ vec_len shares.entry.now) ×
                (vec_capacity shares.exit.now ≡ vec_capacity shares.entry.now) }
        { round(rt, shared, turns, false, shares) },
    );
}

/// A round: each share is a thread's, and the first one and those without nodes are this thread's; or
/// `alone`, so that all are this thread's, one after another. The nodes of each have so many turns, or
/// fewer where none of the share does anything in one. Takes no memory.
#[cycle(rounds)]
pub fn round<L: Sync, S: Turns<L> + Send, R: Threads + Wait + Sync>(
    rt: &R,
    shared: &L,
    turns: u32,
    alone: bool,
    shares: &mut Vec<Vec<S>>,
)
    requires ready { All (λ nodes. All (S.ready shared.now) nodes.items) shares.old.items }
    ensures does { AllZip (λ old new. AllZip (S.does shared.now) old.items new.items) shares.old.items shares.new.items }
    ensures room { (vec_len shares.new ≡ vec_len shares.old) × (vec_capacity shares.new ≡ vec_capacity shares.old) }
{
    let Some(mut last) = shares.pop() else {
        return;
    };
    if stands_alone(alone, &last, shares) {
        share_often(rt, shared, turns, &mut last);
        round(rt, shared, turns, alone, shares);
        shares.push_reserved(last);
        return;
    }
    beside(rt, shared, turns, &mut last, shares);
    shares.push_reserved(last);
}
