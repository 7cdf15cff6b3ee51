//! Watches: totals over the stable versions of each object, kept by a stored callback.
#![tactic(auto)]

mod callbacks;
mod faults;
mod folds;
mod laws;
mod lists;
mod moved;
mod puts;
mod rules;
mod scans;
mod standings;
mod times;
mod versions;
mod watches;

pub use callbacks::{Callback, WatchRule};
pub use faults::WatchFault;
pub use laws::{advance_keeps_totals, marks_keep_totals};
pub use moved::Moved;
pub use rules::{Count, Last, Latest, Sum, count_next, last_next, sum_next};
pub use scans::{floor_among, settles_of};
pub use times::is_under;
pub use versions::Version;
pub use watches::Watches;
