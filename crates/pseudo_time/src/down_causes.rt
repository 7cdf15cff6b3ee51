//! Why a node is down.
/// Why a node is down.
#[derive(Clone, Copy, Debug, PartialEq, Eq)]
pub enum DownCause {
    /// Its medium, or the shelf that should have given it, failed.
    Medium,
    /// Its medium has a page, this one, that version storage doesn't leave.
    Damaged { page: u32 },
    /// Its effects want more pages than are blank. The number is that of its medium's pages.
    Full { pages: u32 },
}
