//! The tokens of a line.
ghost use Rattle.std.specs.Prelude.{◌≡◌, IfOk, IsErrOf, List, ℕ, true, false};
ghost use Rattle.token_form.specs.Tokens.{IsToken, IsTokens, Spells, in_range, spelling};

use crate::byte_runs::{Run, split_run};
use crate::fronts::read_token;
use crate::line_faults::LineFault;
use crate::objects::objects_fit;
use crate::tokens::Token;
use std::alloc::Global;

/// The tokens of one line, without the line's end. Objects have the repositories from 1 to
/// `greatest`.
pub fn tokens_of(alloc: Global, line: &[u8], greatest: u8) -> Result<Vec<Token>, LineFault>
    ensures ok { IfOk result (λ tokens. IsTokens line.now tokens.items × (in_range greatest tokens.items ≡ true)) }
    ensures token { IsErrOf result LineFault.Token → (tokens : List Token) → IsTokens line.now tokens → ⊥ }
    ensures range { IsErrOf result LineFault.Range → (tokens : List Token) × IsTokens line.now tokens ×
        (in_range greatest tokens ≡ false) }
{
    let mut tokens = Vec::new(alloc);
    let mut in_limits = true;
    let (_, mut rest) = split_run(Run::Spaces, line);
    while !rest.is_empty() {
        let Some((token, after)) = read_token(alloc, rest)? else {
            return Err(LineFault::Token);
        };
        match token {
            Some(token) => tokens.push(token)?,
            None => in_limits = false,
        }
        rest = split_run(Run::Spaces, after).1;
    }
    if in_limits && objects_fit(greatest, &tokens) {
        Ok(tokens)
    } else {
        Err(LineFault::Range)
    }
}

/// A line is one list of tokens at most, so the tokens that `tokens_of` gives are the only ones.
pub fn one_list()
    ensures { (line : List ℕ) (ts us : List Token) → IsTokens line ts → IsTokens line us → ts ≡ us }
{}

/// What `Token::print` appends for a token of scripts is read as that token, so long as no longer
/// one could be taken.
pub fn printed_is_spelled()
    ensures { (token : Token) → IsToken token → Spells token (spelling token) }
{}
