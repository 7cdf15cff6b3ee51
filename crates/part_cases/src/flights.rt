//! Messages on their way between nodes.

use case_words::{CaseFault, Subject, message, node, number};
use message_core::{Arrival, Flight};
use pseudo_time::NodeId;
use std::alloc::{AllocError, Global};
use stream_port::Fate;

// A flight between repository 1 and broker 1.
fn flight(alloc: Global) -> Result<Flight, AllocError> {
    Flight::new(alloc, &[NodeId::repository(1), NodeId::broker(1)])
}

// The node that two words are.
fn one_node(words: &[&str]) -> Result<NodeId, CaseFault> {
    match words {
        [kind, number] => node(kind, number),
        _ => Err(CaseFault::Line),
    }
}

// What comes of a message, from `COPIES OVERTAKE HOLD`.
fn fate(copies: &str, overtake: &str, hold: &str) -> Result<Fate, CaseFault> {
    Ok(Fate {
        copies: number(copies)?,
        overtake: number(overtake)?,
        hold: number(hold)?,
    })
}

// Sends the message whose bytes these are from broker 1.
fn send_to(
    alloc: Global,
    flight: &mut Flight,
    to: NodeId,
    fate: Fate,
    words: &[&str],
) -> Result<String, CaseFault> {
    let message = message(alloc, words)?;
    let number = flight.send(NodeId::broker(1), to, &message, fate)?;
    Ok(format!(in alloc; "  sent {number}\n")?)
}

fn send(alloc: Global, flight: &mut Flight, words: &[&str]) -> Result<String, CaseFault> {
    let [kind, number, copies, overtake, hold, words @ ..] = words else {
        return Err(CaseFault::Line);
    };
    let fate = fate(copies, overtake, hold)?;
    send_to(alloc, flight, node(kind, number)?, fate, words)
}

// A copy that a node took.
fn copy_text(alloc: Global, arrival: &Arrival) -> Result<String, AllocError> {
    format!(in alloc; "  copy {} {:?}\n", arrival.number, arrival.message)
}

// The copy that the node takes.
fn take(alloc: Global, flight: &mut Flight, words: &[&str]) -> Result<String, CaseFault> {
    match flight.take(one_node(words)?)? {
        None => Ok(format!(in alloc; "  none\n")?),
        Some(arrival) => Ok(copy_text(alloc, &arrival)?),
    }
}

fn pass(alloc: Global, flight: &mut Flight) -> Result<String, CaseFault> {
    flight.pass()?;
    Ok(String::new(alloc))
}

fn shut(alloc: Global, flight: &mut Flight, words: &[&str]) -> Result<String, CaseFault> {
    flight.shut(one_node(words)?);
    Ok(String::new(alloc))
}

fn empty(alloc: Global, flight: &Flight) -> Result<String, CaseFault> {
    Ok(format!(in alloc; "  {}\n", flight.empty())?)
}

// What comes of a line on a flight.
fn carry_out(alloc: Global, flight: &mut Flight, words: &[&str]) -> Result<String, CaseFault> {
    match words {
        ["send", rest @ ..] => send(alloc, flight, rest),
        ["take", rest @ ..] => take(alloc, flight, rest),
        ["pass"] => pass(alloc, flight),
        ["shut", rest @ ..] => shut(alloc, flight, rest),
        ["empty"] => empty(alloc, flight),
        _ => Err(CaseFault::Line),
    }
}

/// Cases of a flight.
#[derive(Drop)]
pub struct FlightCases {
    flight: Option<Flight>,
}

impl Subject for FlightCases {
    fn nothing(_alloc: Global) -> FlightCases {
        FlightCases { flight: None }
    }

    fn carry_out(
        &mut self,
        alloc: Global,
        _line: &str,
        words: &[&str],
    ) -> Result<String, CaseFault> {
        if let ["flight"] = words {
            self.flight = Some(flight(alloc)?);
            return Ok(String::new(alloc));
        }
        match &mut self.flight {
            Some(flight) => carry_out(alloc, flight, words),
            None => Err(CaseFault::Subject),
        }
    }
}
