//! The commands.
ghost use Rattle.std.specs.Prelude.{◌≡◌, ◌∷◌, ℕ, Bool, codes, Option, None, IfSome, MatchOption};
ghost use Rattle.value_form.specs.declared.objects.ObjectId.{ObjectId};
ghost use Rattle.command_words.specs.declared.rules.Rule.{Rule};
ghost use Rattle.command_words.specs.Words.{AreWords, AreNone, IsLoad, IsHistory, IsRetire, IsWatch, IsAsOf, IsAudit, IsSnapshot, IsSettle, IsReplay, said};

use crate::numbers::{number, object};
use crate::options::{options, vote_options};
use crate::rules::{Rule, rule_of};
use value_form::ObjectId;

/// How far a run may go, and on how many threads.
#[derive(Clone, Copy, Debug, PartialEq, Eq)]
pub struct Options {
    /// How many threads give nodes their turns, 1 to 16.
    pub workers: usize,
    /// The most Ticks, 0 to 1,000,000.
    pub ticks: u64,
    /// The run ends where so many messages were sent, 1 to 1,000,000.
    pub messages: u32,
}

/// What a call is to do.
#[derive(Clone, Copy, Debug, PartialEq, Eq)]
pub enum Command {
    /// Run the plan that the source has.
    Run(Options),
    /// Run the plan that is made of a seed, with so many acts and one more.
    Load {
        seed: u64,
        count: u32,
        options: Options,
    },
    /// Tell the history of an object.
    History(ObjectId),
    /// Retire a repository at the first pseudotime of this clock.
    Retire {
        /// 1 to 16.
        repository: u8,
        /// 1 to 1,099,511,627,775.
        clock: u64,
    },
    /// Let three members vote on the polls that the source has, on one thread.
    Votes(Options),
    /// Bring the totals of a repository's objects by a rule up to date.
    Watch {
        /// 1 to 16.
        repository: u8,
        rule: Rule,
    },
    /// Tell the map of a repository's objects as of the first pseudotime of this clock.
    AsOf {
        /// 1 to 16.
        repository: u8,
        /// 1 to 1,099,511,627,775.
        clock: u64,
    },
    /// Tell all versions of an object, and which volume has each.
    Audit(ObjectId),
    /// Tell the map of all repositories as of the first pseudotime of this clock.
    Snapshot {
        /// 1 to 1,099,511,627,775; or else the one above all clocks of the repositories.
        clock: Option<u64>,
    },
    /// Settle what is in doubt in repositories 1 to this number.
    Settle {
        /// 1 to 16.
        repositories: u8,
    },
    /// Carry all attempts of the folder out again, and tell whether the logs say the same.
    Replay {
        /// Whether the values that they leave are told.
        values: bool,
    },
}

// A load: its seed, its count and its options.
fn load(words: &[&str]) -> Option<Command>
    ensures { MatchOption result ((seed count : ℕ) (o : Options) →
        IsLoad seed count o (codes "load" ∷ said words.now) → ⊥)
        (λ c. AreWords c (codes "load" ∷ said words.now)) }
{
    let [seed, count, more @ ..] = words else {
        return None;
    };
    Some(Command::Load {
        seed: number(seed, 0, u64::MAX)?,
        count: number(count, 1, 9_999)? as u32,
        options: options(more)?,
    })
}

// A history: its object.
fn history(words: &[&str]) -> Option<Command>
    ensures { MatchOption result ((o : ObjectId) → IsHistory o (codes "history" ∷ said words.now) → ⊥)
        (λ c. AreWords c (codes "history" ∷ said words.now)) }
{
    let [word] = words else {
        return None;
    };
    Some(Command::History(object(word)?))
}

// A retirement: its repository and its clock.
fn retire(words: &[&str]) -> Option<Command>
    ensures { MatchOption result ((repository clock : ℕ) →
        IsRetire repository clock (codes "retire" ∷ said words.now) → ⊥)
        (λ c. AreWords c (codes "retire" ∷ said words.now)) }
{
    let [repository, clock] = words else {
        return None;
    };
    Some(Command::Retire {
        repository: number(repository, 1, 16)? as u8,
        clock: number(clock, 1, 1_099_511_627_775)?,
    })
}

// A watch: its repository and its rule.
fn watch(words: &[&str]) -> Option<Command>
    ensures { MatchOption result ((repository : ℕ) (rule : Rule) →
        IsWatch repository rule (codes "watch" ∷ said words.now) → ⊥)
        (λ c. AreWords c (codes "watch" ∷ said words.now)) }
{
    let [repository, word] = words else {
        return None;
    };
    Some(Command::Watch {
        repository: number(repository, 1, 16)? as u8,
        rule: rule_of(word)?,
    })
}

// A map: its repository and its clock.
fn asof(words: &[&str]) -> Option<Command>
    ensures { MatchOption result ((repository clock : ℕ) → IsAsOf repository clock (codes "asof" ∷ said words.now) → ⊥)
        (λ c. AreWords c (codes "asof" ∷ said words.now)) }
{
    let [repository, clock] = words else {
        return None;
    };
    Some(Command::AsOf {
        repository: number(repository, 1, 16)? as u8,
        clock: number(clock, 1, 1_099_511_627_775)?,
    })
}

// An audit: its object.
fn audit(words: &[&str]) -> Option<Command>
    ensures { MatchOption result ((o : ObjectId) → IsAudit o (codes "audit" ∷ said words.now) → ⊥)
        (λ c. AreWords c (codes "audit" ∷ said words.now)) }
{
    let [word] = words else {
        return None;
    };
    Some(Command::Audit(object(word)?))
}

// A snapshot: its clock, if one is asked for.
fn snapshot(words: &[&str]) -> Option<Command>
    ensures { MatchOption result ((clock : Option ℕ) → IsSnapshot clock (codes "snapshot" ∷ said words.now) → ⊥)
        (λ c. AreWords c (codes "snapshot" ∷ said words.now)) }
{
    match words {
        [] => Some(Command::Snapshot { clock: None }),
        [word] => Some(Command::Snapshot {
            clock: Some(number(word, 1, 1_099_511_627_775)?),
        }),
        _ => None,
    }
}

// A settle: its number of repositories.
fn settle(words: &[&str]) -> Option<Command>
    ensures { MatchOption result ((repositories : ℕ) →
        IsSettle repositories (codes "settle" ∷ said words.now) → ⊥)
        (λ c. AreWords c (codes "settle" ∷ said words.now)) }
{
    let [word] = words else {
        return None;
    };
    Some(Command::Settle {
        repositories: number(word, 1, 16)? as u8,
    })
}

// A replay: whether its values are asked for.
fn replay(words: &[&str]) -> Option<Command>
    ensures { MatchOption result ((values : Bool) → IsReplay values (codes "replay" ∷ said words.now) → ⊥)
        (λ c. AreWords c (codes "replay" ∷ said words.now)) }
{
    match words {
        [] => Some(Command::Replay { values: false }),
        [word] => match *word {
            "--values" => Some(Command::Replay { values: true }),
            _ => None,
        },
        _ => None,
    }
}

/// The command that the words are: `run OPTIONS`, `load SEED COUNT OPTIONS`, `history R.N`,
/// `retire R CLOCK`, `votes OPTIONS`, `watch R RULE`, `asof R CLOCK`, `audit R.N`, `snapshot CLOCK`,
/// `snapshot`, `settle N`, `replay` or `replay --values`. OPTIONS are any of `--workers W` (1 unless given; not of votes), `--ticks T` (10,000) and
/// `--messages N` (200,000), in any order, each at most once, name and number as two words. RULE is `count`,
/// `sum` or `last`. Numbers are decimal digits without a sign or a zero in front. None where they are no
/// command.
pub fn read_words(words: &[&str]) -> Option<Command>
    ensures words { IfSome result (λ c. AreWords c (said words.now)) }
    ensures none { result ≡ None → AreNone (said words.now) }
{
    let [first, more @ ..] = words else {
        return None;
    };
    match *first {
        "run" => Some(Command::Run(options(more)?)),
        "load" => load(more),
        "history" => history(more),
        "retire" => retire(more),
        "votes" => Some(Command::Votes(vote_options(more)?)),
        "watch" => watch(more),
        "asof" => asof(more),
        "audit" => audit(more),
        "snapshot" => snapshot(more),
        "settle" => settle(more),
        "replay" => replay(more),
        _ => None,
    }
}
