//! What a run did, and the text of its report.
#![tactic(auto)]

mod floors;
mod histories;
mod history_writing;
mod lines;
mod pieces;
mod records;
mod tellings;
mod totals;
mod versions;
mod writing;

pub use floors::{floor_of, latest, reach};
pub use histories::history;
pub use lines::{down_line, undecided_line};
pub use pieces::{push_named, push_object, push_stamp, push_time};
pub use records::{ActOutcome, ActReport, Down, Final, Report, TryOutcome, TryReport, Wire};
pub use tellings::{Telling, telling_of};
pub use totals::count_of;
pub use versions::Version;
pub use writing::{push_downs, push_wire_line, write_report};
