//! Three members that vote on records, and two polls of one stamp: one that commits and one that withdraws.
ghost use Rattle.effect_form.specs.Effects.{AreEffects};
ghost use Rattle.message_form.specs.Messages.{IsMessage};

use crate::turns::turn_text;
use case_words::{CaseFault, Subject, arrival, joined, log_of, node, number, stamp, told};
use effect_form::Effect;
use message_form::{Message, Turn};
use pseudo_time::{NodeId, NodeKind, Stamp};
use record_votes::{Member, Poll, Wish};
use std::alloc::{AllocError, Global};

/// Three members and two polls.
#[derive(Drop)]
pub struct Room {
    first: Member,
    second: Member,
    third: Member,
    one: Poll,
    two: Poll,
}

// A room in which nothing has happened, over this log of the first member.
fn open_room(alloc: Global, stamp: Stamp, log: &[Effect]) -> Result<Room, AllocError>
    requires { AreEffects log.now }
{
    Ok(Room {
        first: Member::open(alloc, 1, 0, log)?,
        second: Member::open(alloc, 2, 0, &[])?,
        third: Member::open(alloc, 3, 0, &[])?,
        one: Poll::new(alloc, 1, stamp, 5, Wish::Commit),
        two: Poll::new(alloc, 2, stamp, 5, Wish::Withdraw),
    })
}

impl Room {
    // A poll goes.
    fn go(&mut self, broker: NodeId) -> Result<Turn, AllocError> {
        if broker.number == 1 {
            self.one.go()
        } else {
            self.two.go()
        }
    }

    // What a poll holds.
    fn held(&self, broker: NodeId) -> Option<bool> {
        if broker.number == 1 {
            self.one.held()
        } else {
            self.two.held()
        }
    }

    // A poll hears the time.
    fn hear_poll(&mut self, broker: u8, moment: u64) -> Result<Turn, AllocError> {
        if broker == 1 {
            self.one.hear(moment)
        } else {
            self.two.hear(moment)
        }
    }

    // A member hears the time.
    fn hear_member(&mut self, repository: u8, moment: u64) -> Result<Turn, AllocError> {
        let moment = moment.min(1_000_000);
        match repository {
            1 => self.first.hear(moment),
            2 => self.second.hear(moment),
            _ => self.third.hear(moment),
        }
    }

    fn hear(&mut self, node: NodeId, moment: u64) -> Result<Turn, AllocError> {
        match node.kind {
            NodeKind::Broker => self.hear_poll(node.number, moment),
            NodeKind::Repository => self.hear_member(node.number, moment),
        }
    }

    // A poll takes a message.
    fn take_by_poll(
        &mut self,
        broker: u8,
        from: NodeId,
        message: &Message,
    ) -> Result<Turn, AllocError>
        requires { IsMessage message.now }
    {
        if broker == 1 {
            self.one.take(from, message)
        } else {
            self.two.take(from, message)
        }
    }

    // A member takes a message.
    fn take_by_member(
        &mut self,
        repository: u8,
        from: NodeId,
        message: &Message,
    ) -> Result<Turn, AllocError>
        requires { IsMessage message.now }
    {
        match repository {
            1 => self.first.take(from, message),
            2 => self.second.take(from, message),
            _ => self.third.take(from, message),
        }
    }

    fn take(&mut self, node: NodeId, from: NodeId, message: &Message) -> Result<Turn, AllocError>
        requires { IsMessage message.now }
    {
        match node.kind {
            NodeKind::Broker => self.take_by_poll(node.number, from, message),
            NodeKind::Repository => self.take_by_member(node.number, from, message),
        }
    }

    // What comes of a message to a node, `KIND N HEX..`.
    fn taken(&mut self, alloc: Global, node: NodeId, words: &[&str]) -> Result<String, CaseFault> {
        let (from, message) = arrival(alloc, words)?;
        turn_text(alloc, &self.take(node, from, &message)?)
    }

    // What comes of the time that a node hears.
    fn heard(&mut self, alloc: Global, node: NodeId, moment: &str) -> Result<String, CaseFault> {
        turn_text(alloc, &self.hear(node, number(moment)?)?)
    }

    // What comes of a line about a node.
    fn on_node(
        &mut self,
        alloc: Global,
        node: NodeId,
        verb: &str,
        words: &[&str],
    ) -> Result<String, CaseFault> {
        match (verb, words) {
            ("go", []) => turn_text(alloc, &self.go(node)?),
            ("held", []) => told(alloc, &self.held(node)),
            ("hear", [moment]) => self.heard(alloc, node, moment),
            ("take", words) => self.taken(alloc, node, words),
            _ => Err(CaseFault::Line),
        }
    }

    // What comes of a line in the room.
    fn carry_out(&mut self, alloc: Global, words: &[&str]) -> Result<String, CaseFault> {
        match words {
            [verb, kind, place, rest @ ..] => self.on_node(alloc, node(kind, place)?, verb, rest),
            _ => Err(CaseFault::Line),
        }
    }
}

/// Votes on the records of a stamp.
#[derive(Drop)]
pub struct Votes {
    /// The log that the next first member finds.
    log: String,
    room: Option<Room>,
}

impl Votes {
    // Votes on the records of a stamp, over the log of the first member.
    fn begin(&mut self, alloc: Global, name: &str) -> Result<String, CaseFault> {
        let log = log_of(alloc, self.log.as_str())?;
        let room = open_room(alloc, stamp(name)?, log.as_slice())?;
        *self = Votes {
            log: String::new(alloc),
            room: Some(room),
        };
        Ok(String::new(alloc))
    }

    // Takes the log that the next first member finds.
    fn keep(&mut self, alloc: Global, words: &[&str]) -> Result<String, CaseFault> {
        let log = joined(alloc, words)?;
        *self = Votes { log, room: None };
        Ok(String::new(alloc))
    }
}

impl Subject for Votes {
    fn nothing(alloc: Global) -> Votes {
        Votes {
            log: String::new(alloc),
            room: None,
        }
    }

    fn carry_out(
        &mut self,
        alloc: Global,
        _line: &str,
        words: &[&str],
    ) -> Result<String, CaseFault> {
        match words {
            ["log", words @ ..] => return self.keep(alloc, words),
            ["votes", name] => return self.begin(alloc, name),
            _ => {}
        }
        match &mut self.room {
            Some(room) => room.carry_out(alloc, words),
            None => Err(CaseFault::Subject),
        }
    }
}
