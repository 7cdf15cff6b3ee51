//! Which objects, versions and attempts a page is to show.
ghost use Rattle.std.specs.Prelude.{◌≡◌, option_copied};
ghost use Rattle.folder_look.specs.Choices as spec;

use crate::touches::{Touch, Touches};
use effect_form::{Effect, Outcome};
use pseudo_time::{PseudoTime, Stamp};
use value_form::ObjectId;

/// Which objects, versions and attempts a page is to show.
#[derive(Clone, Copy)]
pub struct Choice {
    /// This object alone, and the attempts that concern it, if one is given.
    pub object: Option<ObjectId>,
    /// The objects of this repository alone, and the attempts that concern them, if one is given.
    pub repository: Option<u8>,
    /// Versions and attempts whose clock is at least this.
    pub from: u64,
    /// Versions and attempts whose clock is at most this.
    pub to: u64,
}

// Whether it is this one, where one is given.
fn is_object(given: Option<ObjectId>, object: ObjectId) -> bool
    ensures { result ≡ spec.is_object given object }
{
    match given {
        None => true,
        Some(one) => one.repository == object.repository && one.number == object.number,
    }
}

// Whether it is this one, where one is given.
fn is_repository(given: Option<u8>, repository: u8) -> bool
    ensures { result ≡ spec.is_repository given repository }
{
    match given {
        None => true,
        Some(one) => one == repository,
    }
}

// Whether neither is given.
fn none_given(object: Option<ObjectId>, repository: Option<u8>) -> bool
    ensures { result ≡ spec.none_given object repository }
{
    match (object, repository) {
        (None, None) => true,
        (None, Some(_)) => false,
        (Some(_), _) => false,
    }
}

impl Choice {
    /// Whether an object is shown.
    pub fn has_object(&self, object: ObjectId) -> bool
        ensures { result ≡ spec.has_object self.now object }
    {
        is_object(self.object, object) && is_repository(self.repository, object.repository)
    }

    /// Whether a stamp's clock is in range.
    pub fn has_stamp(&self, stamp: Stamp) -> bool
        ensures { result ≡ spec.has_stamp self.now stamp }
    {
        let clock = stamp.clock();
        self.from <= clock && clock <= self.to
    }

    /// Whether a version with this start is shown.
    pub fn has_start(&self, start: PseudoTime) -> bool
        ensures { result ≡ spec.has_start self.now start }
    {
        self.has_stamp(start.stamp())
    }

    /// Whether all objects are chosen.
    pub fn has_all(&self) -> bool
        ensures { result ≡ spec.has_all self.now }
    {
        none_given(self.object, self.repository)
    }

    // Whether a step touched an object that is chosen.
    fn has_touch(&self, touch: Option<&Touch>) -> bool
        ensures { result ≡ spec.has_touch self.now (option_copied touch.entry) }
    {
        match touch {
            None => false,
            Some(touch) => self.has_object(touch.object),
        }
    }

    // Whether an outcome names an object that is chosen.
    fn has_outcome(&self, outcome: &Outcome) -> bool
        ensures { result ≡ spec.has_outcome self.now outcome.now }
    {
        match outcome {
            Outcome::LaterRead { object, .. } => self.has_object(*object),
            Outcome::LaterVersion { object, .. } => self.has_object(*object),
            _ => false,
        }
    }

    // Whether an attempt whose log goes on so touched an object that is chosen, or was refused for it.
    fn concerns(&self, touches: &Touches, stamp: Stamp, rest: &[Effect]) -> bool
        ensures { result ≡ spec.concerns self.now touches.now stamp rest.now }
    {
        for effect in rest {
            match effect {
                Effect::Got { step, .. } => {
                    if self.has_touch(touches.at(stamp, *step)) {
                        return true;
                    }
                }
                Effect::Acked { step } => {
                    if self.has_touch(touches.at(stamp, *step)) {
                        return true;
                    }
                }
                Effect::End { outcome, .. } => return self.has_outcome(outcome),
                Effect::Run { .. } => return false,
                Effect::Act { .. } => return false,
                Effect::Try { .. } => return false,
                _ => {}
            }
        }
        false
    }

    /// Whether an attempt is shown whose broker's log goes on so behind its Try.
    pub fn has_try(&self, touches: &Touches, stamp: Stamp, rest: &[Effect]) -> bool
        ensures { result ≡ spec.has_try self.now touches.now stamp rest.now }
    {
        self.has_stamp(stamp) && (self.has_all() || self.concerns(touches, stamp, rest))
    }
}
