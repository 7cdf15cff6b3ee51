//! How often a medium failed.
ghost use Rattle.std.specs.Prelude.{◌≡◌, ◌≤◌, true};
ghost use Rattle.stream_port.specs.Causes.{Rose, next_count};

use crate::media::MediumFault;

// Whether a medium has failed since it was last reopened, and how many of its calls failed.
#[derive(Clone, Copy, Debug, PartialEq, Eq)]
pub struct Health {
    pub failed: bool,
    pub faults: u64,
}

impl Health {
    // Counts a fault, which is the answer of the call that meets it.
    pub fn fail(&mut self) -> MediumFault
        ensures failed { self.new.failed ≡ true }
        ensures counted { self.new.faults ≡ next_count self.old.faults }
        ensures later { self.old.faults ≤ self.new.faults }
        ensures rose { Rose self.old.faults self.new.faults }
    {
        self.failed = true;
        self.faults = self.faults.saturating_add(1);
        MediumFault
    }
}
