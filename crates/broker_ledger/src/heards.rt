//! What a broker heard since it was opened.
ghost use Rattle.std.specs.Prelude.{◌≡◌};
ghost use Rattle.broker_ledger.specs.Heards.{nothing_heard};

use pseudo_time::{PseudoTime, Stamp};

/// What a broker heard since it was opened.
#[derive(Clone, Copy, Debug, PartialEq, Eq)]
pub struct Heard {
    /// Whether it has gone.
    pub gone: bool,
    /// The stamp of the last Begun that it heard.
    pub begun: Option<Stamp>,
    /// The pseudotime of the last Ended that it heard.
    pub ended: Option<PseudoTime>,
    /// The stamp of the last Decided that it heard after an End.
    pub closed: Option<Stamp>,
}

impl Heard {
    /// Nothing was heard yet.
    pub fn nothing() -> Heard
        ensures { result ≡ nothing_heard }
    {
        Heard {
            gone: false,
            begun: None,
            ended: None,
            closed: None,
        }
    }
}
