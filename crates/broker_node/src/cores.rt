//! A broker's core with its log.
ghost use Rattle.std.specs.Prelude.{◌≡◌, ◌≤◌, false};
ghost use Rattle.pseudo_time.specs.Nodes.{broker};
ghost use Rattle.node_turn.specs.WorldCores.{IsBroker};
ghost use Rattle.node_turn.specs.Walks.{Base, Life, all_effects};
ghost use Rattle.broker_node.specs.Logs.{as_damage, has_failed, is_over, medium_in};

use crate::logs::Log;
use broker_core::{Broker, ResumeFault};
use effect_form::Effect;
use medium_port::Medium;
use message_form::{Message, Turn};
use node_turn::{Meanings, StoredCore, open_again};
use object_history::HistoryFault;
use pseudo_time::{NodeId, Stamp};
use std::alloc::Global;
use version_store::{OpenFault, StoreFault};

/// A broker with its log on a medium.
#[derive(Drop)]
pub struct BrokerCore<M: Medium> {
    pub(crate) number: u8,
    pub(crate) run: u32,
    /// In a box, since turns give the core from hand to hand.
    pub(crate) broker: Box<Broker>,
    pub(crate) log: Log<M>,
    ghost low: { 1 ≤ number },
    ghost high: { number ≤ 16 },
    ghost runs: { 1 ≤ run },
    ghost sound: { has_failed M.is_failed log ≡ false },
}

impl<M: Medium> Meanings<M> for BrokerCore<M> {
    ghost use Rattle.std.specs.Prelude.{◌≡◌};
    ghost use Rattle.pseudo_time.specs.Nodes.{broker};
    ghost use Rattle.broker_core.specs.Tasks.{Scripted};
    ghost use Rattle.node_turn.specs.WorldNodes.{acts_of};
    ghost use Rattle.node_turn.specs.Walks.{all_effects};
    ghost use Rattle.node_turn.specs.WorldCores.{IsBroker};
    ghost use Rattle.broker_node.specs.Logs.{is_open, medium_in, HasEffects};

    ghost parts = { λ c. record { node = broker c.number; able = is_open c.log; medium = medium_in c.log } };

    ghost fits = { λ b c. (b.run ≡ c.run) × (c.broker.value.acts ≡ acts_of c.number b.acts) ×
        Scripted b.script c.broker.value.acts };

    ghost lives = { λ b c l. IsBroker b (broker c.number) (all_effects l) l.mind c.broker.value ×
        HasEffects M.reads c.log l.gated };

    ghost owes = { λ c effects. Unit {0} };
}

impl<M: Medium> StoredCore<M> for BrokerCore<M> {
    fn node(&self) -> NodeId {
        NodeId::broker(self.number)
    }

    fn go(&mut self) -> Result<Turn, HistoryFault> {
        let broker = self.broker.as_mut();
        let turn = broker.go()?;
        Ok(turn)
    }

    fn take(&mut self, from: NodeId, message: &Message) -> Result<Turn, HistoryFault> {
        let broker = self.broker.as_mut();
        let turn = broker.take(from, message)?;
        Ok(turn)
    }

    // A broker has nothing to learn: nobody calls this.
    fn learn(&mut self, _stamp: Stamp, _committed: bool) -> Result<Turn, HistoryFault> {
        Err(HistoryFault::NoMemory)
    }

    fn hear(&mut self, moment: u64) -> Result<Turn, HistoryFault> {
        let broker = self.broker.as_mut();
        let turn = broker.hear(moment)?;
        Ok(turn)
    }

    // Nor this.
    fn knows(&self, _stamp: Stamp) -> bool {
        false
    }

    fn append(self, effects: &[Effect]) -> (BrokerCore<M>, Result<(), StoreFault>) {
        let BrokerCore {
            number,
            run,
            broker,
            log,
        } = self;
        match log {
            Log::Shut(medium) => {
                let core = BrokerCore {
                    number,
                    run,
                    broker,
                    log: Log::Shut(medium),
                };
                (core, Err(StoreFault::NoMemory))
            }
            Log::Open(store) => match store.append(effects) {
                Ok(store) => {
                    let core = BrokerCore {
                        number,
                        run,
                        broker,
                        log: Log::Open(store),
                    };
                    (core, Ok(()))
                }
                Err((medium, fault)) => {
                    let core = BrokerCore {
                        number,
                        run,
                        broker,
                        log: Log::Shut(medium),
                    };
                    (core, Err(fault))
                }
            },
        }
    }

    fn reopen(self, alloc: Global) -> (BrokerCore<M>, Result<usize, OpenFault>) {
        let BrokerCore {
            number,
            run,
            broker,
            log,
        } = self;
        match open_again(alloc, medium_from(log)) {
            Err((medium, fault)) => {
                let core = BrokerCore {
                    number,
                    run,
                    broker,
                    log: Log::Shut(medium),
                };
                (core, Err(fault))
            }
            Ok((store, effects)) => {
                match Broker::open(
                    alloc,
                    number,
                    run,
                    broker.as_ref().acts(),
                    effects.as_slice(),
                ) {
                    Ok(opened) => {
                        let mut broker = broker;
                        let _old = Box::replace(&mut broker, opened);
                        let core = BrokerCore {
                            number,
                            run,
                            broker,
                            log: Log::Open(store),
                        };
                        (core, Ok(effects.len()))
                    }
                    Err(fault) => {
                        let core = BrokerCore {
                            number,
                            run,
                            broker,
                            log: Log::Shut(store.release()),
                        };
                        (core, Err(damage_of(fault)))
                    }
                }
            }
        }
    }

    fn release(self) -> M {
        let BrokerCore {
            number: _,
            run: _,
            broker: _,
            log,
        } = self;
        medium_from(log)
    }
}

impl<M: Medium> BrokerCore<M> {
    /// Whether each act has its outcome and no request is outstanding. Takes no memory.
    pub fn is_done(&self) -> bool
        ensures { (b : Base) (l : Life) → IsBroker b (broker self.now.number) (all_effects l) l.mind self.now.broker.value →
            result ≡ is_over b self.now.number l }
    {
        self.broker.as_ref().done()
    }
}

// The medium.
fn medium_from<M: Medium>(log: Log<M>) -> M
    ensures { result ≡ medium_in log }
{
    match log {
        Log::Open(store) => store.release(),
        Log::Shut(medium) => medium,
    }
}

// A log that shows a later run or another plan counts as damage of the first page.
fn damage_of(fault: ResumeFault) -> OpenFault
    ensures { result ≡ as_damage fault }
{
    match fault {
        ResumeFault::NoMemory => OpenFault::NoMemory,
        ResumeFault::OldRun { latest: _ } => OpenFault::Damaged { page: 0 },
        ResumeFault::OtherPlan { index: _ } => OpenFault::Damaged { page: 0 },
    }
}
