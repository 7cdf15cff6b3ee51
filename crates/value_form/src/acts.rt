//! An act of a plan.
ghost use Rattle.std.specs.Prelude.{◌≡◌, IfOk};

use crate::scripts::Script;
use std::alloc::{AllocError, Global};

/// An act of a plan: a script, and who carries it out.
#[derive(Debug, Drop)]
pub struct ActSpec {
    /// Its number in the plan, from 1 to 10,000.
    pub index: u32,
    /// The broker that carries it out.
    pub broker: u8,
    /// The repository that keeps the commit records of its attempts.
    pub home: u8,
    /// How long a commit record may be unknown, from 1 to 1,000,000 moments.
    pub timeout: u32,
    /// How many attempts it has at most, from 1 to 100.
    pub tries: u8,
    /// The least clock of its attempts.
    pub clock: u64,
    pub script: Script,
}

impl ActSpec {
    /// An equal act.
    pub fn copy(&self, alloc: Global) -> Result<ActSpec, AllocError>
        ensures { IfOk result (λ a. a ≡ self.now) }
    {
        let script = self.script.copy(alloc)?;
        Ok(ActSpec {
            index: self.index,
            broker: self.broker,
            home: self.home,
            timeout: self.timeout,
            tries: self.tries,
            clock: self.clock,
            script,
        })
    }
}
