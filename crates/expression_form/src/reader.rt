//! Reads an expression from tokens.
ghost use Rattle.std.specs.Prelude.{◌≡◌, Some, Ok, IfOk};
ghost use Rattle.value_form.specs.Mirror.{term};
ghost use Rattle.expression_form.specs.Depth.{depth};
ghost use Rattle.expression_form.specs.Grammar.{Spells};
ghost use Rattle.expression_form.specs.Machine as spec;
ghost use Rattle.expression_form.specs.Operands.{single};
ghost use Rattle.expression_form.specs.Reads.{Reads};
ghost use Rattle.expression_form.specs.Stacks.{first};
ghost use Rattle.expression_form.specs.Steps.{Steps};

use crate::frames::{Frame, Head, Mode};
use crate::operands::Operand;
use crate::operators::{infix_of, left_of, level_before, level_of};
use crate::read_faults::ReadFault;
use crate::stacks::Stack;
use std::alloc::{AllocError, Global};
use token_form::{Sign, Token, Word};
use value_form::{Call, Expr, Infix, Prefix};

// The level that an operand on top of the stack needs.
fn hole(stack: &Stack<Frame>) -> u8
    ensures { result ≡ spec.hole stack.now }
{
    match stack.top() {
        Some(Frame::Prefix(operator)) => level_before(*operator),
        Some(Frame::Infix(operator, _)) => level_of(*operator) + 1,
        _ => 0,
    }
}

fn is_tighter(stack: &Stack<Frame>, least: u8) -> bool
    ensures { result ≡ spec.is_tighter least (first stack.now) }
{
    match stack.top() {
        Some(Frame::Prefix(operator)) => least <= level_before(*operator),
        Some(Frame::Infix(operator, _)) => least <= level_of(*operator),
        _ => false,
    }
}

// Takes the operand into what binds at least at this level, and gives the new one with its level.
fn close(
    alloc: Global,
    stack: &mut Stack<Frame>,
    least: u8,
    mut operand: Operand,
    mut level: u8,
) -> Result<(Operand, u8), AllocError>
    ensures { IfOk result (λ r. spec.close least stack.old operand level ≡ spec.held stack.new r.0 r.1) }
{
    'closing: while is_tighter(stack, least) {
        match stack.pop() {
            Some(Frame::Prefix(operator)) => {
                operand = operand.before(alloc, operator)?;
                level = level_before(operator);
            }
            Some(Frame::Infix(operator, left)) => {
                operand = left.between(alloc, operator, operand)?;
                level = level_of(operator);
            }
            _ => unreachable!(),
        }
    }
    Ok((operand, level))
}

fn prefix(stack: &mut Stack<Frame>, operator: Prefix) -> Result<Option<Mode>, AllocError>
    ensures { Steps (spec.prefixed operator stack.old) result stack.new }
{
    if hole(stack) <= level_before(operator) {
        stack.push(Frame::Prefix(operator))?;
        Ok(Some(Mode::Want))
    } else {
        Ok(None)
    }
}

// An expression without operands, which is the tightest.
fn leaf(expression: Expr) -> Result<Option<Mode>, AllocError>
    ensures { result ≡ Ok (Some (Mode.Have (single expression) 7)) }
{
    Ok(Some(Mode::Have(Operand::single(expression), 7)))
}

// A token where an operand is wanted.
fn want(alloc: Global, stack: &mut Stack<Frame>, token: &Token) -> Result<Option<Mode>, AllocError>
    ensures { Steps (spec.wanting stack.old token.now) result stack.new }
{
    match token {
        Token::Number(number) => leaf(Expr::Number(*number)),
        Token::Text(text) => leaf(Expr::Text(text.copy(alloc)?)),
        Token::Name(name) => leaf(Expr::Name(name.copy(alloc)?)),
        Token::Word(Word::Nothing) => leaf(Expr::Nothing),
        Token::Word(Word::Not) => prefix(stack, Prefix::Not),
        Token::Sign(Sign::Minus) => prefix(stack, Prefix::Minus),
        Token::Sign(Sign::Open) => {
            stack.push(Frame::Group)?;
            Ok(Some(Mode::Want))
        }
        Token::Word(Word::Len) => Ok(Some(Mode::Opens(Head::Applied(Call::Len)))),
        Token::Word(Word::Text) => Ok(Some(Mode::Opens(Head::Applied(Call::Text)))),
        Token::Word(Word::Given) => Ok(Some(Mode::Opens(Head::Given))),
        _ => Ok(None),
    }
}

// A token where the parenthesis of a function is wanted.
fn open(stack: &mut Stack<Frame>, head: Head, token: &Token) -> Result<Option<Mode>, AllocError>
    ensures { Steps (spec.opening stack.old head token.now) result stack.new }
{
    match token {
        Token::Sign(Sign::Open) => {
            stack.push(match head {
                Head::Applied(function) => Frame::Applied(function),
                Head::Given => Frame::GivenFirst,
            })?;
            Ok(Some(Mode::Want))
        }
        _ => Ok(None),
    }
}

// An operator between operands, after its left one.
fn infix(
    alloc: Global,
    stack: &mut Stack<Frame>,
    operand: Operand,
    level: u8,
    operator: Infix,
) -> Result<Option<Mode>, AllocError>
    ensures { Steps (spec.joined operator stack.old operand level) result stack.new }
{
    let (operand, level) = close(alloc, stack, level_of(operator), operand, level)?;
    if left_of(operator) <= level {
        stack.push(Frame::Infix(operator, operand))?;
        Ok(Some(Mode::Want))
    } else {
        Ok(None)
    }
}

// A closing parenthesis.
fn shut(
    alloc: Global,
    stack: &mut Stack<Frame>,
    operand: Operand,
    level: u8,
) -> Result<Option<Mode>, AllocError>
    ensures { Steps (spec.shut (spec.close 0 stack.old operand level)) result stack.new }
{
    let (operand, _) = close(alloc, stack, 0, operand, level)?;
    match stack.pop() {
        Some(Frame::Group) => Ok(Some(Mode::Have(operand, 7))),
        Some(Frame::Applied(function)) => {
            Ok(Some(Mode::Have(operand.applied(alloc, function)?, 7)))
        }
        Some(Frame::GivenSecond(first)) => Ok(Some(Mode::Have(first.given(alloc, operand)?, 7))),
        _ => Ok(None),
    }
}

// A comma.
fn comma(
    alloc: Global,
    stack: &mut Stack<Frame>,
    operand: Operand,
    level: u8,
) -> Result<Option<Mode>, AllocError>
    ensures { Steps (spec.parted (spec.close 0 stack.old operand level)) result stack.new }
{
    let (operand, _) = close(alloc, stack, 0, operand, level)?;
    match stack.pop() {
        Some(Frame::GivenFirst) => {
            stack.push(Frame::GivenSecond(operand))?;
            Ok(Some(Mode::Want))
        }
        _ => Ok(None),
    }
}

// A token after an operand.
fn have(
    alloc: Global,
    stack: &mut Stack<Frame>,
    operand: Operand,
    level: u8,
    token: &Token,
) -> Result<Option<Mode>, AllocError>
    ensures { Steps (spec.having stack.old operand level token.now) result stack.new }
{
    match infix_of(token) {
        Some(operator) => infix(alloc, stack, operand, level, operator),
        None => match token {
            Token::Sign(Sign::Close) => shut(alloc, stack, operand, level),
            Token::Sign(Sign::Comma) => comma(alloc, stack, operand, level),
            _ => Ok(None),
        },
    }
}

fn step(
    alloc: Global,
    stack: &mut Stack<Frame>,
    mode: Mode,
    token: &Token,
) -> Result<Option<Mode>, AllocError>
    ensures { Steps (spec.step_at stack.old mode token.now) result stack.new }
{
    match mode {
        Mode::Want => want(alloc, stack, token),
        Mode::Opens(head) => open(stack, head, token),
        Mode::Have(operand, level) => have(alloc, stack, operand, level, token),
    }
}

fn finish(alloc: Global, mut stack: Stack<Frame>, mode: Mode) -> Result<Option<Operand>, AllocError>
    ensures { IfOk result (λ found. found ≡ spec.finish (spec.state stack mode)) }
{
    match mode {
        Mode::Have(operand, level) => {
            let (operand, _) = close(alloc, &mut stack, 0, operand, level)?;
            match stack.pop() {
                None => Ok(Some(operand)),
                Some(_) => Ok(None),
            }
        }
        _ => Ok(None),
    }
}

// The operand that all the tokens are.
fn operand_read(alloc: Global, tokens: &[Token]) -> Result<Option<Operand>, AllocError>
    ensures { IfOk result (λ found. found ≡ spec.operand_read tokens.now) }
{
    let mut stack = Stack::new(alloc);
    let mut mode = Mode::Want;
    for token in tokens {
        match step(alloc, &mut stack, mode, token)? {
            Some(next) => mode = next,
            None => return Ok(None),
        }
    }
    finish(alloc, stack, mode)
}

/// The expression that the tokens spell. Takes time and memory in proportion to the tokens, however
/// many parentheses are among them.
pub fn read_expression(alloc: Global, tokens: &[Token]) -> Result<Expr, ReadFault>
    ensures { Reads term Spells depth tokens.now result }
{
    match operand_read(alloc, tokens)? {
        None => Err(ReadFault::Syntax),
        Some(operand) => match operand {
            Operand::Built(expression, _) => Ok(expression),
            Operand::Deep => Err(ReadFault::Depth),
        },
    }
}
