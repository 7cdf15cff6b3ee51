//! What a script does alone, over a map of objects, and the laws of its questions.
#![tactic(auto)]

mod laws;
mod object_maps;
mod performances;
mod range_laws;
mod works;

pub use laws::{
    law_of_agreement, law_of_answers, law_of_asking, law_of_questions, law_of_requests,
    law_of_worlds,
};
pub use object_maps::ObjectMap;
pub use performances::perform;
pub use range_laws::law_of_script_ranges;
pub use value_form::Ending;
pub use works::Performed;
