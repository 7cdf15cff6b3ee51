//! Reads a row from tokens.
ghost use Rattle.std.specs.Prelude.{◌≡◌, [], IfOk, OnErr, IsErrOf};
ghost use Rattle.token_form.specs.declared.tokens.Word.TheVariants as w;
ghost use Rattle.value_form.specs.Mirror.{spot};
ghost use Rattle.expression_form.specs.Reads.{Reads};
ghost use Rattle.script_form.specs.Flats.{row_of};
ghost use Rattle.script_form.specs.RowTokens.{Follows, SpellsRow, SpellsSpot};
ghost use Rattle.script_form.specs.Pairs.{ReadsBoth, both, first_of};
ghost use Rattle.script_form.specs.Rows.{row_depth, spot_depth};

use crate::flats::Flat;
use crate::targets::{behind_equal, fixed_of, indexed_of, name_of};
use expression_form::{ReadFault, read_expression};
use std::alloc::Global;
use token_form::{Token, Word};
use value_form::{Expr, Target};

// The object that all the tokens are.
fn read_place(alloc: Global, tokens: &[Token]) -> Result<Target, ReadFault>
    ensures { Reads spot SpellsSpot spot_depth tokens.now result }
{
    match fixed_of(tokens) {
        Some((object, rest)) => {
            if rest.is_empty() {
                Ok(Target::Fixed(object))
            } else {
                Err(ReadFault::Syntax)
            }
        }
        None => match indexed_of(tokens) {
            Some((repository, part, rest)) => {
                if rest.is_empty() {
                    let number = read_expression(alloc, part)?;
                    Ok(Target::At(repository, number))
                } else {
                    Err(ReadFault::Syntax)
                }
            }
            None => Err(ReadFault::Syntax),
        },
    }
}

// Of two faults, the one that comes first on a line.
fn first_fault(left: ReadFault, right: ReadFault) -> ReadFault
    ensures { result ≡ first_of left right }
{
    match left {
        ReadFault::Depth => right,
        _ => left,
    }
}

// Both, or the fault that comes first.
fn both_of(
    left: Result<Expr, ReadFault>,
    right: Result<Expr, ReadFault>,
) -> Result<(Expr, Expr), ReadFault>
    ensures { result ≡ both left right }
{
    match left {
        Ok(left) => match right {
            Ok(right) => Ok((left, right)),
            Err(fault) => Err(fault),
        },
        Err(fault) => match right {
            Ok(_) => Err(fault),
            Err(other) => Err(first_fault(fault, other)),
        },
    }
}

// Two expressions.
#[tactic(auto, using(crate::proofs::ReadLemmas::both_reads))]
fn read_both(alloc: Global, first: &[Token], second: &[Token]) -> Result<(Expr, Expr), ReadFault>
    ensures { ReadsBoth first.now second.now result }
{
    both_of(
        read_expression(alloc, first),
        read_expression(alloc, second),
    )
}

// After `let`.
fn read_let(alloc: Global, tokens: &[Token]) -> Result<Flat, ReadFault>
    ensures { Reads row_of (Follows w.Let) row_depth tokens.now result }
{
    let Some((name, rest)) = name_of(tokens) else {
        return Err(ReadFault::Syntax);
    };
    let Some(rest) = behind_equal(rest) else {
        return Err(ReadFault::Syntax);
    };
    let value = read_expression(alloc, rest)?;
    Ok(Flat::Let(name.copy(alloc)?, value))
}

// After `read`.
fn read_read(alloc: Global, tokens: &[Token]) -> Result<Flat, ReadFault>
    ensures { Reads row_of (Follows w.Read) row_depth tokens.now result }
{
    let Some((name, rest)) = name_of(tokens) else {
        return Err(ReadFault::Syntax);
    };
    let place = read_place(alloc, rest)?;
    Ok(Flat::Read(name.copy(alloc)?, place))
}

// After `write`.
fn read_write(alloc: Global, tokens: &[Token]) -> Result<Flat, ReadFault>
    ensures { Reads row_of (Follows w.Write) row_depth tokens.now result }
{
    match fixed_of(tokens) {
        Some((object, rest)) => {
            let value = read_expression(alloc, rest)?;
            Ok(Flat::Write(Target::Fixed(object), value))
        }
        None => match indexed_of(tokens) {
            Some((repository, part, rest)) => {
                let (number, value) = read_both(alloc, part, rest)?;
                Ok(Flat::Write(Target::At(repository, number), value))
            }
            None => Err(ReadFault::Syntax),
        },
    }
}

// After `print`.
fn read_print(alloc: Global, tokens: &[Token]) -> Result<Flat, ReadFault>
    ensures { Reads row_of (Follows w.Print) row_depth tokens.now result }
{
    let value = read_expression(alloc, tokens)?;
    Ok(Flat::Print(value))
}

// After `if`.
fn read_if(alloc: Global, tokens: &[Token]) -> Result<Flat, ReadFault>
    ensures { Reads row_of (Follows w.If) row_depth tokens.now result }
{
    let condition = read_expression(alloc, tokens)?;
    Ok(Flat::If(condition))
}

// After `repeat`.
fn read_repeat(alloc: Global, tokens: &[Token]) -> Result<Flat, ReadFault>
    ensures { Reads row_of (Follows w.Repeat) row_depth tokens.now result }
{
    let count = read_expression(alloc, tokens)?;
    Ok(Flat::Repeat(count))
}

// A word that stands alone.
fn read_alone(tokens: &[Token], flat: Flat) -> Result<Flat, ReadFault>
    ensures ok { IfOk result (λ f. (f ≡ flat) × (tokens.now ≡ [])) }
    ensures err { OnErr result (IsErrOf result ReadFault.Syntax × (tokens.now ≡ [] → ⊥)) }
{
    if tokens.is_empty() {
        Ok(flat)
    } else {
        Err(ReadFault::Syntax)
    }
}

// After a word.
fn read_after(alloc: Global, word: Word, tokens: &[Token]) -> Result<Flat, ReadFault>
    ensures { Reads row_of (Follows word) row_depth tokens.now result }
{
    match word {
        Word::Let => read_let(alloc, tokens),
        Word::Read => read_read(alloc, tokens),
        Word::Write => read_write(alloc, tokens),
        Word::Print => read_print(alloc, tokens),
        Word::If => read_if(alloc, tokens),
        Word::Else => read_alone(tokens, Flat::Else),
        Word::End => read_alone(tokens, Flat::End),
        Word::Repeat => read_repeat(alloc, tokens),
        Word::Withdraw => read_alone(tokens, Flat::Withdraw),
        _ => Err(ReadFault::Syntax),
    }
}

/// What the tokens of a line spell. Syntax comes where they are no statement and no part of one;
/// Depth where they are, with an expression that is deeper than 16.
pub fn read_row(alloc: Global, tokens: &[Token]) -> Result<Flat, ReadFault>
    ensures { Reads row_of SpellsRow row_depth tokens.now result }
{
    match tokens.split_first() {
        Some((Token::Word(word), rest)) => read_after(alloc, *word, rest),
        _ => Err(ReadFault::Syntax),
    }
}
