//! Makes a plan from a seed.
ghost use Rattle.std.specs.Prelude.{◌≡◌, ◌≤◌, ◌<◌, ◌^◌, IfOk, OnOk};
ghost use Rattle.value_form.specs.MirrorLaws.{made_all};
ghost use Rattle.plan_form.specs.Making as spec;

use crate::plans::Plan;
use crate::transfers::{audit, transfer};
use std::alloc::{AllocError, Global};
use value_form::{ActSpec, Items, ObjectId, Script};

const REPOSITORIES: u8 = 8;

const BROKERS: u8 = 8;

const ACCOUNTS: u64 = 64;

// A row of draws.
#[derive(Clone, Copy)]
struct Draws {
    state: u64,
}

/// The state of the generator after this one.
pub fn step(state: u64) -> u64
    ensures { result ≡ spec.step state }
{
    state
        .wrapping_mul(6_364_136_223_846_793_005)
        .wrapping_add(1_442_695_040_888_963_407)
}

impl Draws {
    ghost use Rattle.plan_form.specs.Making as spec;

    // The next draw below this number.
    fn below(&mut self, number: u64) -> u64
        requires { 0 < number }
        ensures state { self.new.state ≡ spec.step self.old.state }
        ensures value { result ≡ spec.drawn (spec.step self.old.state) number }
        ensures below { result < number }
    {
        self.state = step(self.state);
        (self.state >> 33) % number
    }
}

fn account(number: u64) -> ObjectId
    requires { number < 64 }
    ensures { result ≡ spec.account number }
{
    ObjectId {
        repository: 1 + (number / 8) as u8,
        number: 1 + (number % 8) as u32,
    }
}

// The account to which money goes, which is another than the source.
fn target_of(source: u64, target: u64) -> u64
    requires { target < 64 }
    ensures account { result ≡ spec.target_of source target }
    ensures below { result < 64 }
{
    if target == source {
        (target + 1) % ACCOUNTS
    } else {
        target
    }
}

fn act_of(index: u32, broker: u8, home: u8, script: Script) -> ActSpec
    ensures { result ≡ record {
      index = index;
      broker = broker;
      home = home;
      timeout = 100000;
      tries = 100;
      clock = 1;
      script = script;
    } }
{
    ActSpec {
        index,
        broker,
        home,
        timeout: 100_000,
        tries: 100,
        clock: 1,
        script,
    }
}

// The next transfer, whose number is `index`.
fn drawn_act(alloc: Global, index: u32, draws: &mut Draws) -> Result<ActSpec, AllocError>
    ensures act { IfOk result (λ a. a ≡ spec.drawn_act draws.old.state index) }
    ensures state { OnOk result (draws.new.state ≡ spec.after_act draws.old.state) }
{
    let home = draws.below(REPOSITORIES as u64);
    let source = draws.below(ACCOUNTS);
    let drawn = draws.below(ACCOUNTS);
    let amount = draws.below(20) + 1;
    let target = target_of(source, drawn);
    let script = transfer(alloc, account(source), account(target), amount)?;
    let broker = 1 + (index % BROKERS as u32) as u8;
    Ok(act_of(index, broker, 1 + home as u8, script))
}

fn transfers(alloc: Global, seed: u64, count: u32) -> Result<Vec<ActSpec>, AllocError>
    requires { count ≤ 9999 }
    ensures { IfOk result (λ acts. acts.items ≡ spec.transfers count seed 1) }
{
    let mut draws = Draws { state: seed };
    let mut acts = Vec::new(alloc);
    for before in 0..count {
        acts.push(drawn_act(alloc, before + 1, &mut draws)?)?;
    }
    Ok(acts)
}

/// The plan of this seed: `count` transfers between 64 accounts, whose brokers, homes, accounts and
/// amounts are drawn, and an act that prints the sum of all accounts.
pub fn make(alloc: Global, seed: u64, count: u32) -> Result<Plan, AllocError>
    requires least { 1 ≤ count }
    requires most { count ≤ 9999 }
    ensures { IfOk result (λ plan. plan ≡ spec.made_plan seed count) }
{
    let mut acts = transfers(alloc, seed, count)?;
    acts.push(act_of(count + 1, 1, 1, audit(alloc)?))?;
    Ok(Plan {
        run: 1,
        repositories: REPOSITORIES,
        brokers: BROKERS,
        acts: Items::of(acts),
    })
}
