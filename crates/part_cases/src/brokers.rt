//! The core of a broker.
ghost use Rattle.std.specs.Prelude.{IfOk};
ghost use Rattle.pseudo_time.specs.Lists.{Every};
ghost use Rattle.value_form.specs.Mirror.{block};
ghost use Rattle.effect_form.specs.Effects.{AreEffects};
ghost use Rattle.script_form.specs.Printable.{IsPrintable};
ghost use Rattle.broker_core.specs.Ledgers.{IsBrokerAct};

use crate::turns::turn_text;
use broker_core::{Broker, ResumeFault};
use case_words::{CaseFault, Subject, arrival, joined, log_of, number};
use effect_form::Effect;
use pseudo_time::LAST_CLOCK;
use script_form::{law_of_lines, parse};
use std::alloc::Global;
use value_form::{ActSpec, Script};

// The script of a text.
fn script_of(alloc: Global, text: &[u8]) -> Result<Script, CaseFault>
    ensures { IfOk result (λ s. IsPrintable 16 (block s.lines)) }
{
    law_of_lines();
    match parse(alloc, text) {
        Ok(script) => Ok(script),
        Err(_) => Err(CaseFault::Script),
    }
}

// An act of broker 1 with home 1, timeout 5, three tries and this least clock.
fn act_of(alloc: Global, text: &[u8], index: u32, clock: u64) -> Result<ActSpec, CaseFault>
    ensures { IfOk result (λ a. IsBrokerAct a) }
{
    if index < 1 || index > 10_000 || clock < 1 || clock > LAST_CLOCK {
        return Err(CaseFault::Line);
    }
    let script = script_of(alloc, text)?;
    Ok(ActSpec {
        index,
        broker: 1,
        home: 1,
        timeout: 5,
        tries: 3,
        clock,
        script,
    })
}

// An act of this script for each clock.
fn acts_of(alloc: Global, text: &[u8], clocks: &[&str]) -> Result<Vec<ActSpec>, CaseFault>
    ensures { IfOk result (λ v. Every IsBrokerAct v.items) }
{
    let mut acts = Vec::new(alloc);
    let mut index = 0u32;
    for clock in clocks {
        index = index.saturating_add(1);
        let act = act_of(alloc, text, index, number(clock)?)?;
        acts.push(act)?;
    }
    Ok(acts)
}

// Broker 1 in run 1, with an act of this script for each clock, at most three, over this log.
fn opened(
    alloc: Global,
    text: &[u8],
    clocks: &[&str],
    log: &[Effect],
) -> Result<Result<Broker, ResumeFault>, CaseFault>
    requires { AreEffects log.now }
{
    let acts = acts_of(alloc, text, clocks)?;
    if acts.is_empty() || acts.len() > 3 {
        return Err(CaseFault::Line);
    }
    Ok(Broker::open(alloc, 1, 1, acts.as_slice(), log))
}

fn take(alloc: Global, broker: &mut Broker, words: &[&str]) -> Result<String, CaseFault> {
    let (from, message) = arrival(alloc, words)?;
    turn_text(alloc, &broker.take(from, &message)?)
}

fn hear(alloc: Global, broker: &mut Broker, moment: &str) -> Result<String, CaseFault> {
    turn_text(alloc, &broker.hear(number(moment)?)?)
}

// What comes of a line on a broker.
fn on_broker(alloc: Global, broker: &mut Broker, words: &[&str]) -> Result<String, CaseFault> {
    match words {
        ["go"] => turn_text(alloc, &broker.go()?),
        ["hear", moment] => hear(alloc, broker, moment),
        ["take", rest @ ..] => take(alloc, broker, rest),
        ["done"] => Ok(format!(in alloc; "  {}\n", broker.done())?),
        _ => Err(CaseFault::Line),
    }
}

// Why a broker can't go on.
fn resume_text(alloc: Global, fault: ResumeFault) -> Result<String, CaseFault> {
    match fault {
        ResumeFault::NoMemory => Err(CaseFault::NoMemory),
        fault => Ok(format!(in alloc; "  {fault:?}\n")?),
    }
}

/// A broker, and what stands before it is begun.
#[derive(Drop)]
pub struct Brokers {
    /// Whether the script of its acts goes on.
    is_open: bool,
    script: String,
    /// The log that it finds.
    log: String,
    broker: Option<Broker>,
}

impl Brokers {
    fn new(alloc: Global, is_open: bool) -> Brokers {
        Brokers {
            is_open,
            script: String::new(alloc),
            log: String::new(alloc),
            broker: None,
        }
    }

    // Adds a line of the script, or ends it.
    fn script_line(&mut self, alloc: Global, line: &str) -> Result<String, CaseFault> {
        if line == "end program" {
            self.is_open = false;
        } else {
            self.script.push_str(line)?;
            self.script.push('\n')?;
        }
        Ok(String::new(alloc))
    }

    // What the broker of the acts with these clocks comes to.
    fn resumed(
        &self,
        alloc: Global,
        clocks: &[&str],
    ) -> Result<Result<Broker, ResumeFault>, CaseFault> {
        let log = log_of(alloc, self.log.as_str())?;
        opened(alloc, self.script.as_bytes(), clocks, log.as_slice())
    }

    // Begins the broker of the acts with these clocks, or says why it can't go on.
    fn begin(&mut self, alloc: Global, clocks: &[&str]) -> Result<String, CaseFault> {
        match self.resumed(alloc, clocks)? {
            Ok(broker) => {
                self.broker = Some(broker);
                Ok(String::new(alloc))
            }
            Err(fault) => {
                *self = Brokers::new(alloc, false);
                resume_text(alloc, fault)
            }
        }
    }

    // What comes of a line before the broker is begun.
    fn before(&mut self, alloc: Global, words: &[&str]) -> Result<String, CaseFault> {
        match words {
            ["log", words @ ..] => {
                self.log = joined(alloc, words)?;
                Ok(String::new(alloc))
            }
            ["broker", clocks @ ..] => self.begin(alloc, clocks),
            _ => Err(CaseFault::Subject),
        }
    }

    // What comes of a line that is none of a script.
    fn come_of(&mut self, alloc: Global, words: &[&str]) -> Result<String, CaseFault> {
        if self.broker.is_none() {
            return self.before(alloc, words);
        }
        match &mut self.broker {
            Some(broker) => on_broker(alloc, broker, words),
            None => Err(CaseFault::Subject),
        }
    }
}

impl Subject for Brokers {
    fn nothing(alloc: Global) -> Brokers {
        Brokers::new(alloc, false)
    }

    fn carry_out(
        &mut self,
        alloc: Global,
        line: &str,
        words: &[&str],
    ) -> Result<String, CaseFault> {
        if line == "program" {
            *self = Brokers::new(alloc, true);
            return Ok(String::new(alloc));
        }
        if self.is_open {
            return self.script_line(alloc, line);
        }
        self.come_of(alloc, words)
    }
}
