//! Rules as words.
ghost use Rattle.std.specs.Prelude.{◌≡◌, MatchOption};
ghost use Rattle.command_words.specs.declared.rules.Rule.{Rule};
ghost use Rattle.command_words.specs.Words.{rule_word};

/// What a watch keeps of each object.
#[derive(Clone, Copy, Debug, PartialEq, Eq)]
pub enum Rule {
    /// How many versions it has.
    Count,
    /// The sum of the numbers that it held.
    Sum,
    /// The last number that it held.
    Last,
}

/// The rule that the word is.
pub fn rule_of(word: &str) -> Option<Rule>
    ensures { MatchOption result ((r : Rule) → rule_word r ≡ word.now → ⊥) (λ r. rule_word r ≡ word.now) }
{
    match word {
        "count" => Some(Rule::Count),
        "sum" => Some(Rule::Sum),
        "last" => Some(Rule::Last),
        _ => None,
    }
}

impl Rule {
    /// Its word.
    pub fn word(self) -> &'static [u8]
        ensures { result.now ≡ rule_word self }
    {
        match self {
            Rule::Count => b"count",
            Rule::Sum => b"sum",
            Rule::Last => b"last",
        }
    }
}
