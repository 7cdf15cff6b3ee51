//! The report of a settle: how many versions of each repository it settled, which are open, and why.
#![tactic(auto)]

mod ledgers;
mod reports;
mod tallies;
mod texts;
mod versions;

pub use reports::{SettleReport, settle_report};
pub use tallies::Tally;
pub use versions::HeldVersion;
