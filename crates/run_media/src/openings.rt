//! The media of a plan's nodes, opened: what may come of it.
ghost use Rattle.std.specs.Prelude.{◌≡◌};

use broker_core::ResumeFault;
use effect_form::Effect;
use medium_port::Medium;
use pseudo_time::DownCause;
use version_store::Store;

/// What came of opening a node's medium.
#[derive(Drop)]
pub enum Opening<M: Medium> {
    /// The store, and the effects of its log.
    Open(Store<M>, Vec<Effect>),
    /// It can't be opened, for this cause. None where it is missing.
    Shut(Option<M>, DownCause),
    /// Memory ran out.
    Wanting(M),
}

/// Why no run of these media begins.
#[derive(Clone, Copy, Debug, PartialEq, Eq)]
pub enum Refusal {
    /// A broker's log shows a later run or another plan.
    Resume(ResumeFault),
    NoMemory,
}

impl<M: Medium> Opening<M> {
    ghost use Rattle.run_media.specs.Openings.{medium_in};

    /// The medium, unless it is missing.
    pub fn release(self) -> Option<M>
        ensures { result ≡ medium_in self }
    {
        match self {
            Opening::Open(store, _) => Some(store.release()),
            Opening::Shut(medium, _) => medium,
            Opening::Wanting(medium) => Some(medium),
        }
    }
}
