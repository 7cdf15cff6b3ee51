//! The reserved words of the language.
ghost use Rattle.std.specs.Prelude.{◌≡◌};
ghost use Rattle.token_form.specs.Tokens.{word_spelling};
ghost use Rattle.token_form.specs.Reading.{words, word_in};

use crate::tokens::Word;

const WORDS: [Word; 18] = [
    Word::Let,
    Word::Read,
    Word::Write,
    Word::Print,
    Word::If,
    Word::Else,
    Word::End,
    Word::Repeat,
    Word::Withdraw,
    Word::Done,
    Word::Nothing,
    Word::And,
    Word::Or,
    Word::Not,
    Word::Mod,
    Word::Len,
    Word::Text,
    Word::Given,
];

impl Word {
    /// Its letters.
    pub fn spelling(self) -> &'static [u8]
        ensures { result.now ≡ word_spelling self }
    {
        match self {
            Word::Let => b"let".as_slice(),
            Word::Read => b"read".as_slice(),
            Word::Write => b"write".as_slice(),
            Word::Print => b"print".as_slice(),
            Word::If => b"if".as_slice(),
            Word::Else => b"else".as_slice(),
            Word::End => b"end".as_slice(),
            Word::Repeat => b"repeat".as_slice(),
            Word::Withdraw => b"withdraw".as_slice(),
            Word::Done => b"done".as_slice(),
            Word::Nothing => b"nothing".as_slice(),
            Word::And => b"and".as_slice(),
            Word::Or => b"or".as_slice(),
            Word::Not => b"not".as_slice(),
            Word::Mod => b"mod".as_slice(),
            Word::Len => b"len".as_slice(),
            Word::Text => b"text".as_slice(),
            Word::Given => b"given".as_slice(),
        }
    }
}

// The first of these words that has these letters.
fn word_among(table: &[Word], name: &[u8]) -> Option<Word>
    ensures { result ≡ word_in table.now name.now }
{
    for word in table {
        if name == word.spelling() {
            return Some(*word);
        }
    }
    None
}

// The reserved name with these letters.
pub fn word_of(name: &[u8]) -> Option<Word>
    ensures { result ≡ word_in words name.now }
{
    word_among(&WORDS, name)
}
