//! Whatever past runs and retirements left, its attempts replay.
ghost use Rattle.std.specs.Prelude.{ℕ, List};
ghost use Rattle.serial_model.specs.Questions.{Tree};
ghost use Rattle.serial_law.specs.Earlier.{Earlier};
ghost use Rattle.archive_law.specs.Archives.{IsPast};
ghost use Rattle.replay_law.specs.Folders.{ReadsAll, folder_after, whole_after};
ghost use Rattle.replay_law.specs.Replays.{HaveBytes, Replays};

/// Over every past of runs of plans that can run and retirements: by one reading of the scripts of all these
/// plans the logs replay. Of every run, also of those that ended long ago, each attempt, whether it was committed,
/// withdrew, failed, was refused, expired, or stands open for good, got the answers that its script has over the
/// map that the committed attempts of all runs with lesser stamps leave, also of those that came later.
pub fn law_of_replays()
    ensures { (cs : List Earlier) → IsPast cs → (script : List ℕ → Tree) × ReadsAll script cs ×
        (HaveBytes (whole_after script cs) → Replays (whole_after script cs) (folder_after script cs)) }
{}
