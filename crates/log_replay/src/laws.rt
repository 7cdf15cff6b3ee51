//! The law that ties what is told of a run's stamps to the run.
ghost use Rattle.std.specs.Prelude.{List};
ghost use Rattle.std.specs.FinMap as finite;
ghost use Rattle.pseudo_time.specs.Lists.{Has};
ghost use Rattle.serial_model.specs.Questions.{AnswersOf};
ghost use Rattle.world_core.specs.Deeds.{RunLogs, Try, before};
ghost use Rattle.serial_law.specs.Serial.{Serial};
ghost use Rattle.script_replay.specs.declared.attempts.Told.{Told};
ghost use Rattle.script_replay.specs.Replays.{AllReplay};
ghost use Rattle.log_replay.specs.Tells.{TellsAll};

/// Where all attempts of a run are told, each does in its turn what is told of it just where the run is serial: each
/// attempt reads, writes and ends as its script does alone over the map that the committed deeds before its stamp
/// leave, and each answer of it is what that map gives.
pub fn law_of_told()
    ensures serial { (k : RunLogs) (told : List Told) → TellsAll k told → AllReplay told finite.empty → Serial k }
    ensures answers { (k : RunLogs) (told : List Told) → TellsAll k told → AllReplay told finite.empty →
        (t : Try) → Has t k.tries → AnswersOf t.script t.answers (before k t.stamp) }
    ensures replays { (k : RunLogs) (told : List Told) → TellsAll k told → Serial k →
        ((t : Try) → Has t k.tries → AnswersOf t.script t.answers (before k t.stamp)) → AllReplay told finite.empty }
{}
