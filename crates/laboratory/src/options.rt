//! The laboratory's words.
ghost use Rattle.std.specs.Prelude.{◌≡◌, ◌≢◌, ℕ, ◌<◌, ◌^◌, IfOk, OnErr, IsErrOf, codes};
ghost use Rattle.clap.specs.Words.{App, app_of, found_of, kind_of, rows_of};
ghost use Rattle.clap.specs.declared.error.kind.ErrorKind.TheVariants.{OutOfMemory};
ghost use Rattle.command_words.specs.Words.{said};
ghost use Rattle.laboratory.specs.Options as spec;
ghost use Rattle.laboratory.specs.Given.{IsGiven, HasText, IsOption};

use clap::builder::ValueParser;
use clap::error::{Error, ErrorKind};
use clap::{Arg, ArgAction, ArgMatches, Command, value_parser};
use std::alloc::{AllocError, AllocFailed, Global};

/// What the laboratory is to do.
#[derive(Debug, PartialEq, Eq, Drop)]
pub struct Lab {
    /// How many pages each medium has, 1 to 1,048,576.
    pub pages: u32,
    /// 0 where no message is lost, and else by what a message's draw is divided, at most 1,000,000: the
    /// message is lost where nothing is left over.
    pub lose: u32,
    /// 0 where no medium stops, and else the page at whose gate those of repository 1 do, its volume 0 and
    /// that on which it votes, at most 1,048,575.
    pub stop: u32,
    /// The words of the top call, with a space between each two.
    pub text: String,
}

/// Why words say nothing to do.
#[derive(Clone, Copy, Debug, PartialEq, Eq)]
pub enum LabFault {
    /// They are none of the laboratory's.
    Words,
    /// Memory ran out.
    NoMemory,
}

impl From<AllocError> for LabFault {
    ghost use Rattle.laboratory.specs.declared.options.LabFault.{LabFault};
    ghost use Rattle.laboratory.specs.declared.options.LabFault.TheVariants.{NoMemory};

    ghost from_gives = { λ _ fault. fault ≡ NoMemory };

    fn from(_error: AllocError) -> LabFault {
        LabFault::NoMemory
    }
}

// An option that has to be given, with one value.
fn option<'a>(alloc: Global, name: &'a str, parser: ValueParser<'a>) -> Arg<'a>
    ensures { IsOption name.now parser.entry result }
{
    Arg::new(alloc, name)
        .long(name)
        .required(true)
        .action(ArgAction::Set)
        .value_parser(parser)
}

// The command that reads the words.
fn command<'a>(alloc: Global) -> Result<Command<'a>, AllocError>
    ensures { IfOk result (λ c. app_of c ≡ spec.command) }
{
    let pages = option(alloc, "pages", value_parser!(u32).range(1..=1_048_576));
    let lose = option(alloc, "lose", value_parser!(u32).range(0..=1_000_000));
    let stop = option(alloc, "stop", value_parser!(u32).range(0..=1_048_575));
    let words = option(alloc, "words", ValueParser::string());
    Command::new(alloc, "swallow_lab")
        .no_binary_name(true)
        .arg(pages)?
        .arg(lose)?
        .arg(stop)?
        .arg(words)
}

// Why the command gave no matches.
fn fault_of(error: &Error) -> LabFault
    ensures words { result ≡ LabFault.Words → kind_of error.now ≢ OutOfMemory }
    ensures memory { result ≡ LabFault.NoMemory → kind_of error.now ≡ OutOfMemory }
{
    match error.kind() {
        ErrorKind::OutOfMemory => LabFault::NoMemory,
        _ => LabFault::Words,
    }
}

// The number of an option that is given.
fn number(matches: &ArgMatches<'_>, name: &str) -> u32
    requires given { (least most : ℕ) × (most < 2 ^ 32) × HasText (found_of matches.now) name.now least most }
    ensures { (least most : ℕ) → most < 2 ^ 32 → HasText (found_of matches.now) name.now least most →
        spec.HasNumber (rows_of (found_of matches.now)) name.now least most result }
{
    match matches.get_one::<u32>(name) {
        Some(number) => number,
        None => unreachable!(),
    }
}

// What the matches say.
fn lab_of(alloc: Global, matches: &ArgMatches<'_>) -> Result<Lab, AllocError>
    requires given { IsGiven (found_of matches.now) }
    ensures { IfOk result (spec.Says (rows_of (found_of matches.now))) }
{
    let Some(text) = matches.get_str("words") else {
        unreachable!()
    };
    Ok(Lab {
        pages: number(matches, "pages"),
        lose: number(matches, "lose"),
        stop: number(matches, "stop"),
        text: String::from_str(alloc, text)?,
    })
}

/// What the words tell the laboratory to do: `--pages P --lose L --stop K --words TEXT`, each once and in
/// any order, also as `--pages=P`. P is 1 to 1,048,576, L is 0 to 1,000,000, and K is 0 to 1,048,575. They
/// are read by a command of `clap`; a call for help is refused as any other word is.
pub fn lab_words(alloc: Global, words: &[&str]) -> Result<Lab, LabFault>
    ensures { spec.AreRead (said words.now) result }
{
    let command = command(alloc)?;
    let matches = match command.try_get_matches_from(words) {
        Ok(matches) => matches,
        Err(error) => return Err(fault_of(&error)),
    };
    Ok(lab_of(alloc, &matches)?)
}
