//! The words of a session.
ghost use Rattle.std.specs.Prelude.{◌≡◌, ◌↔◌, IfOk, Some};
ghost use Rattle.command_words.specs.Words.{said};
ghost use Rattle.command_words.specs.declared.commands.Options.{Options};
ghost use Rattle.session_command.specs.Words.{GivesMore, GivesOptions};

use command_words::{Command, Options, read_words};
use std::alloc::{AllocError, Global};

// The options of a run.
fn as_run(command: Option<Command>) -> Option<Options>
    ensures { (o : Options) → (result ≡ Some o) ↔ (command ≡ Some (Command.Run o)) }
{
    match command {
        Some(Command::Run(options)) => Some(options),
        _ => None,
    }
}

// The options that these words give. They are read as those of a run.
fn more_options(alloc: Global, more: &[&str]) -> Result<Option<Options>, AllocError>
    ensures { IfOk result (GivesMore (said more.now)) }
{
    let mut run = Vec::new(alloc);
    run.push("run")?;
    run.extend_from_slice(more)?;
    Ok(as_run(read_words(run.as_slice())))
}

/// The options of a session. The words after `session` are those of a run.
pub fn options_of(alloc: Global, words: &[&str]) -> Result<Option<Options>, AllocError>
    ensures { IfOk result (GivesOptions (said words.now)) }
{
    let [first, more @ ..] = words else {
        return Ok(None);
    };
    match *first {
        "session" => more_options(alloc, more),
        _ => Ok(None),
    }
}
