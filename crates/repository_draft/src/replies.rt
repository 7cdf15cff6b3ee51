//! How a repository answers reads and writes.
ghost use Rattle.std.specs.Prelude.{◌≡◌, Bool, List, OnOk, true, false};
ghost use Rattle.std.specs.BTreeSet.{insert_key};
ghost use Rattle.pseudo_time.specs.TimeParts.{TimeParts};
ghost use Rattle.value_form.specs.ObjectBytes.{IsObject};
ghost use Rattle.value_form.specs.ValueBytes.{IsValue};
ghost use Rattle.effect_form.specs.declared.effects.Effect.TheVariants as effect;
ghost use Rattle.message_form.specs.declared.messages.Message.TheVariants as message;
ghost use Rattle.value_form.specs.declared.objects.ObjectId.{ObjectId};
ghost use Rattle.value_form.specs.declared.values.Value.{Value};
ghost use Rattle.object_history.specs.declared.steps.ReadStep.TheVariants as read_step;
ghost use Rattle.object_history.specs.declared.steps.WriteStep.{WriteStep};
ghost use Rattle.object_history.specs.Ranges.{IsReadStep};
ghost use Rattle.repository_draft.specs.declared.waits.HeldRead.{HeldRead};
ghost use Rattle.pseudo_time.specs.Nodes.{repository};
ghost use Rattle.repository_draft.specs.Hands as hands;
ghost use Rattle.repository_draft.specs.Replies as replies;

use crate::drafts::Draft;
use crate::waits::HeldRead;
use effect_form::Effect;
use message_form::Message;
use object_history::{ReadStep, WriteStep};
use pseudo_time::{Decision, NodeId, PseudoTime, Stamp};
use std::alloc::AllocError;
use value_form::{ObjectId, Value};

// What a repository adds and answers, by what it has looked up.
impl Draft {
    /// A read of an attempt that is known aborted has ended.
    pub fn end_read(&mut self, from: NodeId, at: PseudoTime) -> Result<(), AllocError>
        ensures { OnOk result (self.new ≡ hands.send from (message.Ended at) (replies.unhold at self.old)) }
    {
        let _in_range = at.stamp();
        self.unhold(at);
        self.send(from, Message::Ended { at })
    }

    /// A read is answered, held, or refused.
    pub fn read_as(
        &mut self,
        from: NodeId,
        at: PseudoTime,
        object: ObjectId,
        step: ReadStep,
    ) -> Result<(), AllocError>
        requires object { IsObject object }
        requires step { IsReadStep step }
        ensures { OnOk result (self.new ≡ replies.read_as self.old.held (replies.unhold at self.old) from at object step) }
    {
        match step {
            ReadStep::Answer { value, stretch } => self.answer(from, at, object, value, stretch),
            ReadStep::Wait { stamp } => self.hold(from, at, object, stamp),
            ReadStep::LaterRead { end } => self.refuse(from, at, end),
        }
    }

    // A read below the floor is refused.
    fn refuse(&mut self, from: NodeId, at: PseudoTime, end: PseudoTime) -> Result<(), AllocError>
        ensures { OnOk result (self.new ≡ hands.send from (message.LaterRead at end) (replies.unhold at self.old)) }
    {
        let _at_in_range = at.stamp();
        let _end_in_range = end.stamp();
        self.unhold(at);
        self.send(from, Message::LaterRead { at, end })
    }

    // A read is answered. Where `stretch` holds, that is an effect.
    fn answer(
        &mut self,
        from: NodeId,
        at: PseudoTime,
        object: ObjectId,
        value: Value,
        stretch: bool,
    ) -> Result<(), AllocError>
        requires object { IsObject object }
        requires value { IsValue value }
        ensures { (before : List (TimeParts × HeldRead)) →
            OnOk result (self.new ≡ replies.read_as before (replies.unhold at self.old) from at object
            (read_step.Answer value stretch)) }
    {
        let _in_range = at.stamp();
        self.unhold(at);
        if stretch {
            self.note(Effect::Stretch { object, at })?;
        }
        self.send(from, Message::Value { at, value })
    }

    // A read is held, and the home of the attempt is asked, unless that is here or was asked for a
    // read that was held just before.
    fn hold(
        &mut self,
        from: NodeId,
        at: PseudoTime,
        object: ObjectId,
        waits: Stamp,
    ) -> Result<(), AllocError>
        requires { IsObject object }
        ensures { OnOk result (self.new ≡ replies.read_as self.old.held (replies.unhold at self.old) from at object
            (read_step.Wait waits)) }
    {
        let _in_range = waits.clock();
        let home = waits.home();
        let is_asked = home == self.number() || self.waits_for(waits);
        self.unhold(at);
        self.keep(
            at,
            HeldRead {
                from,
                object,
                waits,
            },
        )?;
        if is_asked {
            return Ok(());
        }
        self.send(NodeId::repository(home), Message::Ask { stamp: waits })
    }

    /// A write of an attempt that is known: it stands, or it has ended.
    pub fn write_known(
        &mut self,
        from: NodeId,
        at: PseudoTime,
        stands: bool,
    ) -> Result<(), AllocError>
        ensures { (o : ObjectId) (v : Value) (w : WriteStep) →
            OnOk result (self.new ≡ replies.write_as self.old from at o v stands true w) }
    {
        let _in_range = at.stamp();
        if stands {
            self.send(from, Message::Stored { at })
        } else {
            self.send(from, Message::Ended { at })
        }
    }

    /// A write is stored, or refused.
    pub fn write_as(
        &mut self,
        from: NodeId,
        at: PseudoTime,
        object: ObjectId,
        value: Value,
        step: WriteStep,
    ) -> Result<(), AllocError>
        requires object { IsObject object }
        requires value { IsValue value }
        ensures { OnOk result (self.new ≡ replies.write_as self.old from at object value false false step) }
    {
        let _in_range = at.stamp();
        match step {
            WriteStep::Put => {
                self.note(Effect::Put {
                    object,
                    start: at,
                    value,
                })?;
                self.send(from, Message::Stored { at })
            }
            WriteStep::Again => self.send(from, Message::Stored { at }),
            WriteStep::LaterVersion { start } => {
                let _in_range = start.stamp();
                self.send(from, Message::LaterVersion { at, start })
            }
            WriteStep::LaterRead { end } => {
                let _in_range = end.stamp();
                self.send(from, Message::LaterRead { at, end })
            }
        }
    }

    /// A record begins.
    pub fn begin(&mut self, from: NodeId, stamp: Stamp, deadline: u64) -> Result<(), AllocError>
        ensures { OnOk result (self.new ≡ hands.send from (message.Begun stamp)
            (hands.note (effect.Begin stamp deadline) self.old)) }
    {
        let _in_range = stamp.clock();
        self.note(Effect::Begin { stamp, deadline })?;
        self.send(from, Message::Begun { stamp })
    }

    /// A record began before.
    pub fn begun(&mut self, from: NodeId, stamp: Stamp) -> Result<(), AllocError>
        ensures { OnOk result (self.new ≡ hands.send from (message.Begun stamp) self.old) }
    {
        let _in_range = stamp.clock();
        self.send(from, Message::Begun { stamp })
    }

    /// A record is decided.
    pub fn decide(&mut self, stamp: Stamp, decision: Decision) -> Result<(), AllocError>
        ensures { OnOk result (self.new ≡ hands.note (effect.Decide stamp decision) self.old) }
    {
        let _in_range = stamp.clock();
        self.note(Effect::Decide { stamp, decision })
    }

    /// A record expires: it is decided, and each asker is informed that the attempt was aborted. Its broker
    /// isn't answered.
    pub fn expire(&mut self, stamp: Stamp, decision: Decision) -> Result<(), AllocError>
        ensures { OnOk result (self.new ≡ replies.tell_askers stamp false
            (hands.note (effect.Decide stamp decision) self.old)) }
    {
        self.decide(stamp, decision)?;
        self.tell_askers(stamp, false)
    }

    /// The decision of a record is sent to its broker.
    pub fn decided(
        &mut self,
        from: NodeId,
        stamp: Stamp,
        decision: Decision,
    ) -> Result<(), AllocError>
        ensures { OnOk result (self.new ≡ hands.send from (message.Decided stamp decision) self.old) }
    {
        let _in_range = stamp.clock();
        self.send(from, Message::Decided { stamp, decision })
    }

    /// A decision is learned.
    pub fn learn(&mut self, stamp: Stamp, committed: bool) -> Result<(), AllocError>
        ensures { OnOk result (self.new ≡ hands.note (effect.Learn stamp committed) self.old) }
    {
        let _in_range = stamp.clock();
        self.note(Effect::Learn { stamp, committed })
    }

    /// A repository is informed of a decision.
    pub fn tell(&mut self, to: NodeId, stamp: Stamp, committed: bool) -> Result<(), AllocError>
        ensures { OnOk result (self.new ≡ hands.send to (message.Tell stamp committed) self.old) }
    {
        let _in_range = stamp.clock();
        self.send(to, Message::Tell { stamp, committed })
    }

    /// Tells each asker of the attempt how it was decided.
    #[tactic(auto, unfolding(crate::specs::Replies::tell_askers))]
    pub fn tell_askers(&mut self, stamp: Stamp, committed: bool) -> Result<(), AllocError>
        ensures { OnOk result (self.new ≡ replies.tell_askers stamp committed self.old) }
    {
        let askers = self.asking(stamp)?;
        self.forget_asking(stamp);
        for asker in &askers {
            self.tell(NodeId::repository(asker.repository), stamp, committed)?;
        }
        Ok(())
    }

    // The home of the attempt is asked how it was decided.
    fn ask(&mut self, stamp: Stamp) -> Result<(), AllocError>
        ensures { OnOk result (self.new ≡ hands.send (repository stamp.home) (message.Ask stamp) self.old) }
    {
        let _in_range = stamp.clock();
        self.send(NodeId::repository(stamp.home()), Message::Ask { stamp })
    }

    /// Asks the home of each attempt for which a read is held again.
    #[tactic(auto, unfolding(crate::specs::Replies::ask_again))]
    pub fn ask_again(&mut self) -> Result<(), AllocError>
        ensures { OnOk result (self.new ≡ replies.ask_again self.old) }
    {
        let waited = self.waited()?;
        for stamp in &waited {
            self.ask(*stamp)?;
        }
        Ok(())
    }
}
