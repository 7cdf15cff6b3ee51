//! Whether a node's volumes are open, and why not.
ghost use Rattle.run_volumes.specs.Standings.{StandsAs};

use medium_port::Medium;
use pseudo_time::DownCause;
use run_media::Opening;

/// How a node's volumes stand.
#[derive(Clone, Copy, Debug)]
pub enum Standing {
    /// Each was opened.
    Open,
    /// One can't be opened, for this cause.
    Shut(DownCause),
    /// Memory ran out for one.
    Wanting,
}

/// How a node's volumes stand: the first that wasn't opened says it.
pub fn stand_of<M: Medium>(openings: &[Opening<M>]) -> Standing
    ensures { StandsAs openings.now result }
{
    for opening in openings {
        match opening {
            Opening::Open(_, _) => {}
            Opening::Shut(_, cause) => return Standing::Shut(*cause),
            Opening::Wanting(_) => return Standing::Wanting,
        }
    }
    Standing::Open
}
