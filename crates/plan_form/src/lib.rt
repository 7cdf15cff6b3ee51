//! Plans: their grammar with its faults, their text, and the plans of the generated load.
#![tactic(auto)]

mod act_lines;
mod act_scripts;
mod acts;
mod digits;
mod heads;
mod laws;
mod making;
mod numbered;
mod parsing;
mod plan_faults;
mod plans;
mod printing;
mod transfers;

pub use act_lines::Terms;
pub use digits::number_behind;
pub use laws::{law_of_made_plans, law_of_plans};
pub use making::{make, step};
pub use parsing::parse;
pub use plan_faults::{PlanFault, PlanKind};
pub use plans::Plan;
pub use printing::print;
