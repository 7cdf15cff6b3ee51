//! The lock between threads: two clerks at the same time, visits that note nothing, and words of the board.
ghost use Rattle.std.specs.Prelude.{Bool, ◌≡◌, ◌≤◌, ◌<◌, [], ◌∷◌, ◌++◌, ◌-◌, All, length, map, take, get_or, MatchBool, IfSome};
ghost use Rattle.seat_lock.specs.Words.{IsPassOf, knows, owners_of, board_size};

use seat_lock::{Pass, SeatLock, Storied};
use std::alloc::Global;
use std::marker::Model;
use std::process::Abort;
use std::sync::Wait;
use std::test::*;
use std::thread::{Threads, join};

type Pair = (u32, u32);

/// Pairs of a clerk and a number, with their count.
#[derive(Drop)]
struct Pairs {
    pairs: Vec<Pair>,
    count: u64,
}

impl Model for Pairs {
    ghost use Rattle.std.specs.Prelude.{◌≡◌, ℕ, List, length};

    ghost Value = { List (ℕ × ℕ) };

    ghost view = { λ p. p.pairs.items };

    ghost invariant = { λ p. p.count ≡ length p.pairs.items };
}

impl Storied for Pairs {
    ghost use Rattle.std.specs.Prelude.{◌≤◌, [], ◌∷◌, ◌++◌, length};
    ghost use Rattle.std.proofs.Common.{arith, length-append};

    type Entry = Pair;

    ghost story = { λ l. l };

    ghost stands = { λ base l. length base ≤ length l };

    ghost owner = { λ e. e.0 };

    // A word holds how many pairs there were at some moment.
    ghost may_hold = { λ base l word number. number ≤ length l };

    ghost none_held = { λ base l word. omega arith };

    ghost stays_held = { λ base l e word number held. omega (arith, held, length-append l (e ∷ [])) };
}

impl Pairs {
    fn new(alloc: Global) -> Pairs
        ensures { result ≡ [] }
    {
        Pairs {
            pairs: Vec::new(alloc),
            count: 0,
        }
    }

    // False where memory runs out.
    fn add(&mut self, pair: Pair) -> bool
        ensures { MatchBool result (self.new ≡ self.old ++ pair ∷ []) (self.new ≡ self.old) }
    {
        if self.pairs.push(pair).is_err() {
            return false;
        }
        self.count += 1;
        true
    }
}

/// Who has a pass, and knows whose it is.
#[derive(Drop)]
struct Clerk {
    who: u32,
    pass: Pass<Pairs>,
    ghost own: { (knows pass).owner ≡ who },
}

// One visit: adds the clerk's pair.
fn put(rt: &impl Wait, lock: &SeatLock<Pairs>, clerk: Clerk, number: u32) -> Clerk
    requires pass { IsPassOf lock.now clerk.pass }
    ensures pass { IsPassOf lock.now result.pass }
{
    let Clerk { who, pass } = clerk;
    let mut visit = lock.enter(rt, pass);
    let pair = (who, number);
    if !visit.value().add(pair) {
        return Clerk {
            who,
            pass: visit.leave(),
        };
    }
    visit.note(&pair);
    Clerk {
        who,
        pass: visit.leave(),
    }
}

// The pass of the last owner, which is `who`.
fn last_clerk(
    lock: &SeatLock<Pairs>,
    mut passes: Vec<Pass<Pairs>>,
    who: u32,
) -> Option<(Vec<Pass<Pairs>>, Clerk)>
    requires pass { All (IsPassOf lock.now) passes.items }
    requires last { get_or (map (λ p. (knows p).owner) passes.items) (length passes.items - 1) 0 ≡ who }
    ensures pass { IfSome result (λ r. All (IsPassOf lock.now) r.0.items × IsPassOf lock.now r.1.pass) }
    ensures rest { IfSome result (λ r. map (λ p. (knows p).owner) r.0.items ≡ take (length passes.items - 1)
        (map (λ p. (knows p).owner) passes.items)) }
{
    let pass = passes.pop()?;
    Some((passes, Clerk { who, pass }))
}

// The clerks 1 and 2 of a new lock with the largest board that is used.
fn two_clerks(alloc: Global) -> Option<(SeatLock<Pairs>, Clerk, Clerk)>
    ensures pass { IfSome result (λ r. IsPassOf r.0 r.1.pass × IsPassOf r.0 r.2.pass) }
    ensures lock { IfSome result (λ r. (owners_of r.0 ≡ 1 ∷ 2 ∷ []) × (board_size r.0 ≡ 4096)) }
{
    let Ok((lock, passes)) = SeatLock::new(alloc, Pairs::new(alloc), &[1, 2], 4096) else {
        return None;
    };
    let (passes, two) = last_clerk(&lock, passes, 2)?;
    let (_, one) = last_clerk(&lock, passes, 1)?;
    Some((lock, one, two))
}

// Ends the lock.
fn end_two(alloc: Global, lock: SeatLock<Pairs>, one: Clerk, two: Clerk) -> Option<Pairs>
    requires pass { IsPassOf lock one.pass × IsPassOf lock two.pass }
    requires all { owners_of lock ≡ 1 ∷ 2 ∷ [] }
{
    let Ok(mut passes) = Vec::with_capacity(alloc, 2) else {
        return None;
    };
    passes.push_reserved(one.pass);
    passes.push_reserved(two.pass);
    Some(lock.close(passes))
}

// Adds the numbers from 1 to `count`, one in each visit.
fn put_all(rt: &impl Wait, lock: &SeatLock<Pairs>, clerk: Clerk, count: u32) -> Clerk
    requires pass { IsPassOf lock.now clerk.pass }
    ensures pass { IsPassOf lock.now result.pass }
{
    let mut clerk = clerk;
    for number in 0..count {
        clerk = put(rt, lock, clerk, number + 1);
    }
    clerk
}

// Two clerks add at the same time.
fn put_by_two<R: Threads + Wait + Sync>(
    rt: &R,
    lock: &SeatLock<Pairs>,
    one: Clerk,
    two: Clerk,
    count: u32,
) -> (Clerk, Clerk)
    requires pass { IsPassOf lock.now one.pass × IsPassOf lock.now two.pass }
    ensures pass { IsPassOf lock.now result.0.pass × IsPassOf lock.now result.1.pass }
{
    join(
        rt,
        || -> Clerk
            requires { IsPassOf lock.now one.pass }
            ensures { IsPassOf lock.entry.now result.pass }
        { put_all(rt, lock, one, count) },
        || -> Clerk
            requires { IsPassOf lock.now two.pass }
            ensures { IsPassOf lock.entry.now result.pass }
        { put_all(rt, lock, two, count) },
    )
}

// Whether the pairs of the clerk are the numbers from 1 to `count`, in order.
fn has_numbers(pairs: &Pairs, who: u32, count: u32) -> bool {
    let mut next = 1u32;
    for (by, number) in pairs.pairs.as_slice() {
        if *by == who {
            if *number != next {
                return false;
            }
            next = next.saturating_add(1);
        }
    }
    next == count.saturating_add(1)
}

// A visit that notes nothing, and answers how many pairs there are.
fn look(rt: &impl Wait, lock: &SeatLock<Pairs>, clerk: Clerk) -> (Clerk, u64)
    requires pass { IsPassOf lock.now clerk.pass }
    ensures pass { IsPassOf lock.now result.0.pass }
{
    let Clerk { who, pass } = clerk;
    let mut visit = lock.enter(rt, pass);
    let count = visit.value().count;
    let pass = visit.leave();
    (Clerk { who, pass }, count)
}

// A visit that posts how many pairs there were at least.
fn post_one(rt: &impl Wait, lock: &SeatLock<Pairs>, clerk: Clerk, word: u32) -> Clerk
    requires pass { IsPassOf lock.now clerk.pass }
    requires word { word < board_size lock.now }
    ensures pass { IsPassOf lock.now result.pass }
{
    let Clerk { who, pass } = clerk;
    let mut visit = lock.enter(rt, pass);
    let pair = (who, 1);
    if visit.value().add(pair) {
        visit.note(&pair);
        visit.post(word, 1);
        return Clerk {
            who,
            pass: visit.leave(),
        };
    }
    Clerk {
        who,
        pass: visit.leave(),
    }
}

fn two_threads<R: Threads + Wait + Abort + Sync>(rt: &R, alloc: Global) -> Result<(), Fail> {
    let (lock, one, two) = two_clerks(alloc).ok_or("a lock")?;
    let (one, two) = put_by_two(rt, &lock, one, two, 3);
    let pairs = end_two(alloc, lock, one, two).ok_or("the list")?;
    assert_eq!(rt; pairs.pairs.len(), 6);
    assert!(rt; has_numbers(&pairs, 1, 3));
    assert!(rt; has_numbers(&pairs, 2, 3));
    Ok(())
}

fn nothing_noted<R: Wait + Abort>(rt: &R, alloc: Global) -> Result<(), Fail> {
    let (lock, one, two) = two_clerks(alloc).ok_or("a lock")?;
    let one = put(rt, &lock, one, 1);
    let (two, before) = look(rt, &lock, two);
    let (two, after) = look(rt, &lock, two);
    assert_eq!(rt; before, 1);
    assert_eq!(rt; after, 1);
    let pairs = end_two(alloc, lock, one, two).ok_or("the list")?;
    assert_eq!(rt; pairs.pairs.as_slice(), [(1, 1)].as_slice());
    Ok(())
}

fn board<R: Wait + Abort>(rt: &R, alloc: Global) -> Result<(), Fail> {
    let (lock, one, two) = two_clerks(alloc).ok_or("a lock")?;
    let one = post_one(rt, &lock, one, 4095);
    let Clerk { who, mut pass } = two;
    assert_eq!(rt; lock.test(&mut pass, 4094), 0);
    assert_eq!(rt; lock.test(&mut pass, 4095), 1);
    let Clerk {
        who: first,
        pass: mut other,
    } = one;
    lock.meet(&mut other, &mut pass);
    let one = Clerk {
        who: first,
        pass: other,
    };
    let two = Clerk { who, pass };
    let pairs = end_two(alloc, lock, one, two).ok_or("the list")?;
    assert_eq!(rt; pairs.pairs.as_slice(), [(1, 1)].as_slice());
    Ok(())
}

#[test]
fn two_threads_add_three_each(rt: HostRuntime) -> Result<(), Fail> {
    two_threads(&rt, rt.alloc())
}

#[test]
fn a_visit_may_note_nothing(rt: HostRuntime) -> Result<(), Fail> {
    nothing_noted(&rt, rt.alloc())
}

#[test]
fn a_post_is_seen_by_a_test(rt: HostRuntime) -> Result<(), Fail> {
    board(&rt, rt.alloc())
}
