//! The laws of a repository's archive: what its complete volumes say together, whatever runs, retirements and
//! watches came before.
#![tactic(auto)]

mod laws;

pub use laws::{law_of_asof, law_of_audit, law_of_snapshot, law_of_totals};
