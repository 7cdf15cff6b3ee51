//! The tokens of the language.
ghost use Rattle.std.specs.Prelude.{◌≡◌, ◌++◌, OnErr, OnOk, IfOk};

use std::alloc::{AllocError, Global};
use value_form::{Bytes, Value};

/// A reserved name of scripts.
#[derive(Clone, Copy, Debug, PartialEq, Eq)]
pub enum Word {
    Let,
    Read,
    Write,
    Print,
    If,
    Else,
    End,
    Repeat,
    Withdraw,
    Done,
    Nothing,
    And,
    Or,
    Not,
    Mod,
    Len,
    Text,
    Given,
}

/// A sign of scripts.
#[derive(Clone, Copy, Debug, PartialEq, Eq)]
pub enum Sign {
    /// `=`
    Equal,
    /// `<>`
    NotEqual,
    /// `<`
    Less,
    /// `<=`
    LessEqual,
    /// `>`
    Greater,
    /// `>=`
    GreaterEqual,
    /// `+`
    Plus,
    /// `-`
    Minus,
    /// `*`
    Star,
    /// `/`
    Slash,
    /// `&`
    Ampersand,
    /// `(`
    Open,
    /// `)`
    Close,
    /// `[`
    OpenBracket,
    /// `]`
    CloseBracket,
    /// `.`
    Dot,
    /// `,`
    Comma,
}

/// A token of a script line.
#[derive(Debug, Drop, PartialEq, Eq)]
pub enum Token {
    /// A name of 1 to 16 bytes that isn't reserved.
    Name(Bytes),
    /// A number, at most 2^63 - 1.
    Number(u64),
    /// The content of a text, at most 1,000 bytes.
    Text(Bytes),
    Word(Word),
    Sign(Sign),
}

impl Token {
    ghost use Rattle.token_form.specs.Tokens.{spelling};

    /// Appends the token as scripts print it, a text with no escape that it doesn't need. Where
    /// memory runs out, `out` is as before.
    pub fn print(&self, alloc: Global, out: &mut Vec<u8>) -> Result<(), AllocError>
        ensures ok { OnOk result (out.new.items ≡ out.old.items ++ spelling self.now) }
        ensures err { OnErr result (out.new.items ≡ out.old.items) }
    {
        match self {
            Token::Name(name) => out.extend_from_slice(name.as_slice()),
            Token::Number(number) => {
                let digits = number.to_string(alloc)?;
                out.extend_from_slice(digits.as_bytes())
            }
            Token::Text(content) => Value::Text(content.copy(alloc)?).print(alloc, out),
            Token::Word(word) => out.extend_from_slice(word.spelling()),
            Token::Sign(sign) => out.extend_from_slice(sign.spelling()),
        }
    }

    /// An equal token.
    pub fn copy(&self, alloc: Global) -> Result<Token, AllocError>
        ensures { IfOk result (λ token. token ≡ self.now) }
    {
        match self {
            Token::Name(name) => Ok(Token::Name(name.copy(alloc)?)),
            Token::Number(number) => Ok(Token::Number(*number)),
            Token::Text(content) => Ok(Token::Text(content.copy(alloc)?)),
            Token::Word(word) => Ok(Token::Word(*word)),
            Token::Sign(sign) => Ok(Token::Sign(*sign)),
        }
    }
}
