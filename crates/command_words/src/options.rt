//! The options of a run, as words.
ghost use Rattle.std.specs.Prelude.{◌≡◌, MatchOption};
ghost use Rattle.command_words.specs.declared.commands.Options.{Options};
ghost use Rattle.command_words.specs.declared.options.Given.{Given};
ghost use Rattle.command_words.specs.Words.{AreGiven, AreOptions, AreVoteOptions, IsWith, options_of, said};

use crate::commands::Options;
use crate::numbers::number;

/// The options that are given.
#[derive(Clone, Copy, Debug, PartialEq, Eq)]
pub struct Given {
    pub workers: Option<u64>,
    pub ticks: Option<u64>,
    pub messages: Option<u32>,
}

// The most words that options have: each stands once, with its number.
const MOST_WORDS: usize = 6;

// These options and one more. None where it is given already, or is no option.
fn with(given: Given, name: &str, word: &str) -> Option<Given>
    ensures { MatchOption result ((g : Given) → IsWith given name.now word.now g → ⊥)
        (λ g. IsWith given name.now word.now g) }
{
    match name {
        "--workers" if given.workers.is_none() => Some(Given {
            workers: Some(number(word, 1, 16)?),
            ..given
        }),
        "--ticks" if given.ticks.is_none() => Some(Given {
            ticks: Some(number(word, 0, 1_000_000)?),
            ..given
        }),
        "--messages" if given.messages.is_none() => Some(Given {
            messages: Some(number(word, 1, 1_000_000)? as u32),
            ..given
        }),
        _ => None,
    }
}

// The options that the words give, each name with its number.
fn read_given(words: &[&str]) -> Option<Given>
    ensures { MatchOption result ((g : Given) → AreGiven g (said words.now) → ⊥) (λ g. AreGiven g (said words.now)) }
{
    match words {
        [] => Some(Given {
            workers: None,
            ticks: None,
            messages: None,
        }),
        [_] => None,
        [name, word, more @ ..] => with(read_given(more)?, name, word),
    }
}

// The options that the words give, if they aren't too many.
fn few_given(words: &[&str]) -> Option<Given>
    ensures { MatchOption result ((g : Given) → AreGiven g (said words.now) → ⊥) (λ g. AreGiven g (said words.now)) }
{
    if words.len() > MOST_WORDS {
        return None;
    }
    read_given(words)
}

// These options, and what isn't given.
fn filled(given: Given) -> Options
    ensures { result ≡ options_of given }
{
    Options {
        workers: given.workers.unwrap_or(1) as usize,
        ticks: given.ticks.unwrap_or(10_000),
        messages: given.messages.unwrap_or(200_000),
    }
}

/// The options that the words are.
pub fn options(words: &[&str]) -> Option<Options>
    ensures { MatchOption result ((o : Options) → AreOptions o (said words.now) → ⊥)
        (λ o. AreOptions o (said words.now)) }
{
    Some(filled(few_given(words)?))
}

/// The options of votes that the words are.
pub fn vote_options(words: &[&str]) -> Option<Options>
    ensures { MatchOption result ((o : Options) → AreVoteOptions o (said words.now) → ⊥)
        (λ o. AreVoteOptions o (said words.now)) }
{
    let given = few_given(words)?;
    if given.workers.is_some() {
        return None;
    }
    Some(filled(given))
}
