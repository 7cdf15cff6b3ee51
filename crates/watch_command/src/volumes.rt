//! What the volumes of a repository say together, and which volume has its totals.
ghost use Rattle.std.specs.Prelude.{◌≡◌, ◌<◌, ◌≤◌, IfOk, IfErr, OnOk, length, reverse};
ghost use Rattle.pseudo_time.specs.Lists.{Every};
ghost use Rattle.effect_form.specs.Effects.{AreEffects};
ghost use Rattle.object_history.specs.Ranges.{AreMarks};
ghost use Rattle.archive_command.specs.Archives.{joined_marks};
ghost use Rattle.run_volumes.specs.Volumes.{AreOpen, logs_of};
ghost use Rattle.watch_command.specs.Totals as totals;
ghost use Rattle.watch_command.specs.Watches as spec;

use archive_command::{Outcome, archived_of, fallen};
use command_words::Rule;
use medium_port::Medium;
use object_history::Mark;
use pseudo_time::NodeId;
use report_writer::down_line;
use run_volumes::{Opening, Standing, stand_of};
use std::alloc::{AllocError, Global};

/// The volume of a repository with its totals by the rule.
pub fn totals_volume(rule: Rule) -> u32
    ensures { result ≡ totals.totals_volume rule }
{
    match rule {
        Rule::Count => 1_001,
        Rule::Sum => 1_002,
        Rule::Last => 1_003,
    }
}

// The marks of all complete volumes together, oldest first.
fn joined_in<M: Medium>(alloc: Global, openings: &[Opening<M>]) -> Result<Vec<Mark>, AllocError>
    requires some { 0 < length openings.now }
    requires few { length openings.now ≤ 1000 }
    ensures { IfOk result (λ marks. marks.items ≡ joined_marks (logs_of openings.now)) }
{
    let archived = archived_of(alloc, openings)?;
    archived.archive.joined()
}

/// The marks of all complete volumes of the repository together, oldest first; or why there are none: a
/// volume couldn't be opened.
pub fn marks_in<M: Medium>(
    alloc: Global,
    repository: u8,
    openings: &[Opening<M>],
) -> Result<Vec<Mark>, Outcome>
    requires some { 0 < length openings.now }
    requires few { length openings.now ≤ 1000 }
    ensures opened { OnOk result (AreOpen openings.now) }
    ensures marks { IfOk result (λ marks. marks.items ≡ joined_marks (logs_of openings.now)) }
    ensures keeps { IfErr result (spec.Keeps repository openings.now) }
{
    match stand_of(openings) {
        Standing::Shut(cause) => {
            let node = NodeId::repository(repository);
            Err(fallen(down_line(alloc, node, cause)))
        }
        Standing::Wanting => Err(Outcome::NoMemory),
        Standing::Open => match joined_in(alloc, openings) {
            Ok(marks) => Ok(marks),
            Err(_) => Err(Outcome::NoMemory),
        },
    }
}
