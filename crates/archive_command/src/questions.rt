//! The questions that an archive answers: `asof` and `audit`.
ghost use Rattle.std.specs.Prelude.{◌≡◌};
ghost use Rattle.archive_command.specs.Answers as spec;

use pseudo_time::{NodeId, PseudoTime};
use value_form::ObjectId;

/// What a repository's archive is asked.
#[derive(Clone, Copy, Debug)]
pub enum Question {
    /// The map of its objects as of a mark.
    AsOf { repository: u8, mark: PseudoTime },
    /// All versions of an object, and which volume has each.
    Audit { object: ObjectId },
}

/// The repository whose archive is asked.
pub fn asked_of(question: &Question) -> NodeId
    ensures { result ≡ spec.asked_of question.now }
{
    match question {
        Question::AsOf { repository, .. } => NodeId::repository(*repository),
        Question::Audit { object } => NodeId::repository(object.repository),
    }
}
