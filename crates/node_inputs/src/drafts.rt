//! A turn while it is in hand.
ghost use Rattle.std.specs.Prelude.{◌≡◌, ◌++◌, OnOk};
ghost use Rattle.node_inputs.specs.Lives.{no_draft};

use effect_form::Effect;
use message_form::{Out, Turn};
use std::alloc::{AllocError, Global};
use std::marker::Model;

/// What a turn has given so far, and how many effects of its node are durable.
#[derive(Drop)]
pub struct TurnDraft {
    durable: usize,
    effects: Vec<Effect>,
    outs: Vec<Out>,
}

impl Model for TurnDraft {
    ghost use Rattle.node_inputs.specs.Lives.{DraftParts};

    ghost Value = { DraftParts };

    ghost view = { λ d. record { durable = d.durable; effects = d.effects.items; outs = d.outs.items } };
}

impl TurnDraft {
    /// That of a turn that hasn't begun.
    pub fn new(alloc: Global, durable: usize) -> TurnDraft
        ensures { result ≡ no_draft durable }
    {
        TurnDraft {
            durable,
            effects: Vec::new(alloc),
            outs: Vec::new(alloc),
        }
    }

    /// Adds what a core gave. After memory ran out it is of no use.
    pub fn add(&mut self, turn: Turn) -> Result<(), AllocError>
        ensures durable { self.new.durable ≡ self.old.durable }
        ensures ok { OnOk result (self.new ≡
            record {
              durable = self.old.durable;
              effects = self.old.effects ++ turn.effects;
              outs = self.old.outs ++ turn.outs;
            }) }
    {
        let Turn { effects, outs } = turn;
        let mut effects = effects.into_vec();
        let mut outs = outs.into_vec();
        self.effects.append(&mut effects)?;
        self.outs.append(&mut outs)?;
        Ok(())
    }

    /// How many effects are durable.
    pub fn durable(&self) -> usize
        ensures { result ≡ self.now.durable }
    {
        self.durable
    }

    /// The effects that aren't durable yet.
    pub fn effects(&self) -> &[Effect]
        ensures { result.now ≡ self.now.effects }
    {
        self.effects.as_slice()
    }

    /// The messages that wait for the gate.
    pub fn outs(&self) -> &[Out]
        ensures { result.now ≡ self.now.outs }
    {
        self.outs.as_slice()
    }

    /// The effects that aren't durable yet, and the messages that wait for the gate.
    pub fn into_parts(self) -> (Vec<Effect>, Vec<Out>)
        ensures effects { result.0.items ≡ self.effects }
        ensures outs { result.1.items ≡ self.outs }
    {
        let TurnDraft {
            durable: _,
            effects,
            outs,
        } = self;
        (effects, outs)
    }
}
