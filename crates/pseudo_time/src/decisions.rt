//! How a commit record was decided.
/// How a commit record was decided, once and for good (Reed 1978).
///
/// Every decision but `Committed` is an abort.
#[derive(Clone, Copy, Debug, PartialEq, Eq)]
pub enum Decision {
    /// The writes of the attempt stand.
    Committed,
    /// The broker gave the attempt up.
    Withdrawn,
    /// The record was still unknown at `moment`, which isn't below its `deadline`.
    Expired { deadline: u64, moment: u64 },
}
