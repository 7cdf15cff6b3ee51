//! A poll: it asks the members, and holds what two of them say.
ghost use Rattle.std.specs.Prelude.{◌≡◌, ◌++◌, [], OnOk, OnErr, IfOk, Some, None, true};
ghost use Rattle.message_form.specs.Messages.{IsMessage, IsTimeout};
ghost use Rattle.message_form.specs.Ranges.{AreOuts};
ghost use Rattle.record_votes.specs.Polls as polls;

use crate::ballots::{Ballot, Wish};
use crate::member_numbers::MemberNumber;
use message_form::{Message, Out, Turn};
use pseudo_time::{Decision, NodeId, NodeKind, Stamp};
use repository_log::is_commit;
use std::alloc::{AllocError, Global};
use std::marker::Model;

/// A poll: a broker that asks the three members to decide a stamp, and hears how they vote. Contracts
/// see its number, stamp, timeout and wish, and what it heard from each member. It keeps no log.
#[derive(Drop)]
pub struct Poll {
    alloc: Global,
    number: u8,
    stamp: Stamp,
    timeout: u32,
    wish: Wish,
    first: Ballot,
    second: Ballot,
    third: Ballot,
}

impl Model for Poll {
    ghost use Rattle.message_form.specs.Messages.{IsTimeout};
    ghost use Rattle.record_votes.specs.Polls.{PollState};

    ghost Value = { PollState };

    ghost view = { λ p. record {
      number = p.number;
      stamp = p.stamp;
      timeout = p.timeout;
      wish = p.wish;
      first = p.first;
      second = p.second;
      third = p.third;
    } };

    ghost invariant = { λ p. IsTimeout p.timeout };
}

const SILENT: Ballot = Ballot {
    begun: false,
    vote: None,
};

impl Poll {
    ghost use Rattle.record_votes.specs.Voting.{new_poll};

    /// A poll that has heard nothing. The timeout is how many moments a record stays unknown, 1 to
    /// 1,000,000.
    pub fn new(alloc: Global, number: u8, stamp: Stamp, timeout: u32, wish: Wish) -> Poll
        requires { IsTimeout timeout }
        ensures { result ≡ new_poll number (record { stamp = stamp; timeout = timeout; wish = wish }) }
    {
        Poll {
            alloc,
            number,
            stamp,
            timeout,
            wish,
            first: SILENT,
            second: SILENT,
            third: SILENT,
        }
    }

    /// The decision that two members voted: true where it commits. None where no two agree yet.
    pub fn held(&self) -> Option<bool>
        ensures { result ≡ polls.held self.now }
    {
        held_of(self.first.vote, self.second.vote, self.third.vote)
    }

    fn ballot(&self, voter: MemberNumber) -> Ballot
        ensures { result ≡ polls.ballot self.now voter }
    {
        match voter {
            MemberNumber::First => self.first,
            MemberNumber::Second => self.second,
            MemberNumber::Third => self.third,
        }
    }

    fn set_ballot(&mut self, voter: MemberNumber, ballot: Ballot)
        ensures { self.new ≡ polls.with_ballot self.old voter ballot }
    {
        match voter {
            MemberNumber::First => self.first = ballot,
            MemberNumber::Second => self.second = ballot,
            MemberNumber::Third => self.third = ballot,
        }
    }

    // The message that is outstanding at a member.
    fn outstanding(&self, begun: bool) -> Message
        ensures outstanding { result ≡ polls.outstanding self.now begun }
        ensures in_range { IsMessage result }
    {
        let stamp = self.stamp;
        let _in_range = stamp.clock();
        if !begun {
            return Message::Begin {
                stamp,
                timeout: self.timeout,
            };
        }
        match self.wish {
            Wish::Commit => Message::Commit { stamp },
            Wish::Withdraw => Message::Withdraw { stamp },
        }
    }

    // Asks a member, unless it has voted.
    fn ask(
        &self,
        outs: &mut Vec<Out>,
        voter: MemberNumber,
        begun: bool,
        vote: Option<bool>,
    ) -> Result<(), AllocError>
        requires { AreOuts outs.old.items }
        ensures asked { OnOk result (outs.new.items ≡ outs.old.items ++ polls.asked self.now voter begun vote) }
        ensures in_range { OnOk result (AreOuts outs.new.items) }
    {
        if vote.is_some() {
            return Ok(());
        }
        let message = self.outstanding(begun);
        push_to(outs, voter, message)
    }

    // Asks a member again.
    fn ask_again(&self, outs: &mut Vec<Out>, voter: MemberNumber) -> Result<(), AllocError>
        requires { AreOuts outs.old.items }
        ensures asked { OnOk result (outs.new.items ≡ outs.old.items ++ polls.asked_again self.now voter) }
        ensures in_range { OnOk result (AreOuts outs.new.items) }
    {
        let ballot = self.ballot(voter);
        self.ask(outs, voter, ballot.begun, ballot.vote)
    }

    // Asks a member for a record.
    fn begin(&self, outs: &mut Vec<Out>, voter: MemberNumber) -> Result<(), AllocError>
        requires { AreOuts outs.old.items }
        ensures asked { OnOk result (outs.new.items ≡ outs.old.items ++ polls.begin_to self.now voter) }
        ensures in_range { OnOk result (AreOuts outs.new.items) }
    {
        self.ask(outs, voter, false, None)
    }

    /// The poll goes: it asks each member for a record. Want of memory is the one error.
    #[tactic(auto, unfolding(crate::specs::Polls::poll_goes))]
    pub fn go(&mut self) -> Result<Turn, AllocError>
        ensures gives { IfOk result (λ t. (t.effects ≡ []) × (t.outs ≡ polls.poll_goes self.old)) }
        ensures in_range { IfOk result (λ t. AreOuts t.outs) }
        ensures same { self.new ≡ self.old }
    {
        let mut outs = Vec::new(self.alloc);
        if self.held().is_none() {
            self.begin(&mut outs, MemberNumber::First)?;
            self.begin(&mut outs, MemberNumber::Second)?;
            self.begin(&mut outs, MemberNumber::Third)?;
        }
        Ok(Turn::of(Vec::new(self.alloc), outs))
    }

    /// Hears a moment: what is outstanding is sent again, to the members in order. Which moment it is
    /// makes no difference. Want of memory is the one error.
    #[tactic(auto, unfolding(crate::specs::Polls::poll_hears))]
    pub fn hear(&mut self, _moment: u64) -> Result<Turn, AllocError>
        ensures gives { IfOk result (λ t. (t.effects ≡ []) × (t.outs ≡ polls.poll_hears self.old)) }
        ensures in_range { IfOk result (λ t. AreOuts t.outs) }
        ensures same { self.new ≡ self.old }
    {
        let mut outs = Vec::new(self.alloc);
        if self.held().is_none() {
            self.ask_again(&mut outs, MemberNumber::First)?;
            self.ask_again(&mut outs, MemberNumber::Second)?;
            self.ask_again(&mut outs, MemberNumber::Third)?;
        }
        Ok(Turn::of(Vec::new(self.alloc), outs))
    }

    // What the first Begun of a member asks for.
    fn wish_of(&self, voter: MemberNumber, ballot: Ballot) -> Result<Vec<Out>, AllocError>
        ensures asked { ballot ≡ polls.ballot self.now voter →
            IfOk result (λ v. v.items ≡ (polls.begun_heard self.now voter ballot).outs) }
        ensures in_range { IfOk result (λ v. AreOuts v.items) }
    {
        let mut outs = Vec::new(self.alloc);
        if !ballot.begun && self.held().is_none() {
            self.ask(&mut outs, voter, true, ballot.vote)?;
        }
        Ok(outs)
    }

    // Hears Begun from a member.
    fn hear_begun(&mut self, voter: MemberNumber) -> Result<Turn, AllocError>
        ensures gives { IfOk result (λ t. (t.effects ≡ []) ×
            (t.outs ≡ (polls.begun_heard self.old voter (polls.ballot self.old voter)).outs)) }
        ensures in_range { IfOk result (λ t. AreOuts t.outs) }
        ensures heard { OnOk result (self.new ≡ (polls.begun_heard self.old voter (polls.ballot self.old voter)).poll) }
        ensures err { OnErr result (self.new ≡ self.old) }
    {
        let ballot = self.ballot(voter);
        let outs = self.wish_of(voter, ballot)?;
        self.set_ballot(
            voter,
            Ballot {
                begun: true,
                vote: ballot.vote,
            },
        );
        Ok(Turn::of(Vec::new(self.alloc), outs))
    }

    // Hears Decided from a member.
    fn hear_vote(&mut self, voter: MemberNumber, decision: Decision)
        ensures { self.new ≡ (polls.vote_heard self.old voter decision (polls.ballot self.old voter)
            (polls.ballot self.old voter).vote).poll }
    {
        let ballot = self.ballot(voter);
        if ballot.vote.is_none() {
            self.set_ballot(
                voter,
                Ballot {
                    begun: ballot.begun,
                    vote: Some(is_commit(decision)),
                },
            );
        }
    }

    // Hears a message from a member.
    fn hear_from(&mut self, voter: MemberNumber, message: &Message) -> Result<Turn, AllocError>
        ensures gives { IfOk result (λ t. (t.effects ≡ []) ×
            (t.outs ≡ (polls.heard_from self.old voter message.now).outs)) }
        ensures in_range { IfOk result (λ t. AreOuts t.outs) }
        ensures heard { OnOk result (self.new ≡ (polls.heard_from self.old voter message.now).poll) }
        ensures err { OnErr result (self.new ≡ self.old) }
    {
        match message {
            Message::Begun { stamp } => {
                if stamp.is_same(self.stamp) {
                    return self.hear_begun(voter);
                }
            }
            Message::Decided { stamp, decision } => {
                if stamp.is_same(self.stamp) {
                    self.hear_vote(voter, *decision);
                }
            }
            _ => (),
        }
        Ok(Turn::quiet(self.alloc))
    }

    /// Takes a message: the first Begun of a member asks for the wish, and the first Decided is its
    /// vote. Where memory runs out, the poll is as before.
    #[tactic(auto, unfolding(crate::specs::Polls::poll_takes))]
    pub fn take(&mut self, from: NodeId, message: &Message) -> Result<Turn, AllocError>
        ensures gives { IfOk result (λ t. (t.effects ≡ []) ×
            (t.outs ≡ (polls.poll_takes self.old from message.now).outs)) }
        ensures in_range { IfOk result (λ t. AreOuts t.outs) }
        ensures heard { OnOk result (self.new ≡ (polls.poll_takes self.old from message.now).poll) }
        ensures err { OnErr result (self.new ≡ self.old) }
    {
        match voter_of(from) {
            None => Ok(Turn::quiet(self.alloc)),
            Some(voter) => self.hear_from(voter, message),
        }
    }
}

// A message to a member.
fn push_to(outs: &mut Vec<Out>, voter: MemberNumber, message: Message) -> Result<(), AllocError>
    requires outs { AreOuts outs.old.items }
    requires message { IsMessage message }
    ensures pushed { OnOk result (outs.new.items ≡ outs.old.items ++ polls.to_member voter message) }
    ensures in_range { OnOk result (AreOuts outs.new.items) }
{
    let to = member(voter);
    outs.push(Out { to, message })?;
    Ok(())
}

fn member(voter: MemberNumber) -> NodeId
    ensures { result ≡ polls.member voter }
{
    let number = match voter {
        MemberNumber::First => 1,
        MemberNumber::Second => 2,
        MemberNumber::Third => 3,
    };
    NodeId::repository(number)
}

fn voter_of(node: NodeId) -> Option<MemberNumber>
    ensures { result ≡ polls.voter_of node }
{
    match node.kind {
        NodeKind::Repository => voter_at(node.number),
        NodeKind::Broker => None,
    }
}

fn voter_at(number: u8) -> Option<MemberNumber>
    ensures { result ≡ polls.voter_at number }
{
    if number == 1 {
        return Some(MemberNumber::First);
    }
    if number == 2 {
        return Some(MemberNumber::Second);
    }
    if number == 3 {
        return Some(MemberNumber::Third);
    }
    None
}

fn is_vote(commit: bool, vote: Option<bool>) -> bool
    ensures { result ≡ polls.is_vote commit vote }
{
    match vote {
        None => false,
        Some(heard) => heard == commit,
    }
}

fn is_held(commit: bool, x: Option<bool>, y: Option<bool>, z: Option<bool>) -> bool
    ensures { result ≡ polls.is_held commit x y z }
{
    let (a, b, c) = (is_vote(commit, x), is_vote(commit, y), is_vote(commit, z));
    (a && b) || ((a && c) || (b && c))
}

fn held_of(x: Option<bool>, y: Option<bool>, z: Option<bool>) -> Option<bool>
    ensures { result ≡ polls.held_of x y z }
{
    if is_held(true, x, y, z) {
        return Some(true);
    }
    if is_held(false, x, y, z) {
        return Some(false);
    }
    None
}
