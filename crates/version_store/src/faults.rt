//! Why a store wasn't opened, or didn't take effects.
ghost use Rattle.std.specs.Prelude.{◌≡◌};

use pseudo_time::DownCause;

/// Why a medium wasn't opened.
#[derive(Clone, Copy, Debug, PartialEq, Eq)]
pub enum OpenFault {
    /// A call of the medium failed.
    Medium,
    /// This is the first page that no log has there.
    Damaged { page: u32 },
    /// Memory ran out.
    NoMemory,
}

/// Why effects weren't added.
#[derive(Clone, Copy, Debug, PartialEq, Eq)]
pub enum StoreFault {
    /// A call of the medium failed.
    Medium,
    /// The effects need more pages than are blank. The medium has this many in all.
    Full { pages: u32 },
    /// Memory ran out.
    NoMemory,
}

impl StoreFault {
    ghost use Rattle.version_store.specs.Causes.{down_of};

    /// Why the store's node is down. None where memory runs out: it isn't.
    pub fn down_cause(self) -> Option<DownCause>
        ensures { result ≡ down_of self }
    {
        match self {
            StoreFault::Medium => Some(DownCause::Medium),
            StoreFault::Full { pages } => Some(DownCause::Full { pages }),
            StoreFault::NoMemory => None,
        }
    }
}

impl OpenFault {
    ghost use Rattle.version_store.specs.Causes.{down_of_opening};

    /// Why the store's node is down. None where memory runs out: it isn't.
    pub fn down_cause(self) -> Option<DownCause>
        ensures { result ≡ down_of_opening self }
    {
        match self {
            OpenFault::Medium => Some(DownCause::Medium),
            OpenFault::Damaged { page } => Some(DownCause::Damaged { page }),
            OpenFault::NoMemory => None,
        }
    }
}

/// Why an effect wasn't fetched.
#[derive(Clone, Copy, Debug, PartialEq, Eq)]
pub enum FetchFault {
    /// A call of the medium failed.
    Medium,
    /// This page, which was read last, doesn't have the effect, or the piece of it that is due.
    Damaged { page: u32 },
    /// Memory ran out.
    NoMemory,
}
