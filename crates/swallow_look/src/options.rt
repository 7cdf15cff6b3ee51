//! The program's words.
use clap::builder::ValueParser;
use clap::{Arg, ArgAction, ArgMatches, Command, value_parser};
use folder_look::Choice;
use pseudo_time::LAST_CLOCK;
use std::alloc::{AllocError, Global};
use value_form::ObjectId;

// An option with one value.
fn option<'a>(alloc: Global, name: &'a str, parser: ValueParser<'a>) -> Arg<'a> {
    Arg::new(alloc, name)
        .long(name)
        .action(ArgAction::Set)
        .value_parser(parser)
}

/// The command that reads the words.
pub fn command<'a>(alloc: Global) -> Result<Command<'a>, AllocError> {
    let folder = Arg::new(alloc, "DIR").required(true).action(ArgAction::Set);
    let object = option(alloc, "object", ValueParser::string());
    let repository = option(alloc, "repository", value_parser!(u8).range(1..=16));
    let from = option(
        alloc,
        "from",
        value_parser!(u64).range(0..=1_099_511_627_775),
    );
    let to = option(alloc, "to", value_parser!(u64).range(0..=1_099_511_627_775));
    Command::new(alloc, "swallow_look")
        .no_binary_name(true)
        .version("1")
        .arg(folder)?
        .arg(object)?
        .arg(repository)?
        .arg(from)?
        .arg(to)
}

// The object that a text `REPOSITORY.NUMBER` names.
fn object_of(text: &str) -> Option<ObjectId> {
    let (repository, number) = text.split_once('.')?;
    let repository = repository.parse::<u8>().ok()?;
    let number = number.parse::<u32>().ok()?;
    Some(ObjectId { repository, number })
}

/// The folder and the choice that the words give. None where the object's text names none.
pub fn look_of<'a>(matches: &ArgMatches<'a>) -> Option<(&'a str, Choice)> {
    let folder = matches.get_str("DIR")?;
    let object = match matches.get_str("object") {
        None => None,
        Some(text) => Some(object_of(text)?),
    };
    Some((
        folder,
        Choice {
            object,
            repository: matches.get_one::<u8>("repository"),
            from: matches.get_one::<u64>("from").unwrap_or(0),
            to: matches.get_one::<u64>("to").unwrap_or(LAST_CLOCK),
        },
    ))
}
