//! Scripts of made plans: transfers between accounts.
ghost use Rattle.std.specs.Prelude.{◌≡◌, ◌++◌, IfOk};
ghost use Rattle.value_form.specs.declared.expressions.Expr.TheVariants as e;
ghost use Rattle.value_form.specs.declared.expressions.Infix.TheVariants as o;
ghost use Rattle.value_form.specs.declared.scripts.Stmt.TheVariants as stmt;
ghost use Rattle.value_form.specs.MirrorLaws.{made, made_all, made_step};
ghost use Rattle.plan_form.specs.Making as spec;

use std::alloc::{AllocError, Global};
use value_form::{Boxed, Bytes, Expr, Infix, Items, ObjectId, Script, Stmt, Target};

fn name(alloc: Global, bytes: &[u8]) -> Result<Bytes, AllocError>
    ensures { IfOk result (λ n. n ≡ bytes.now) }
{
    Ok(Bytes::of(bytes.to_vec(alloc)?))
}

fn variable(alloc: Global, bytes: &[u8]) -> Result<Expr, AllocError>
    ensures { IfOk result (λ x. x ≡ e.Name bytes.now) }
{
    Ok(Expr::Name(name(alloc, bytes)?))
}

fn infix(alloc: Global, left: Expr, operator: Infix, right: Expr) -> Result<Expr, AllocError>
    ensures { IfOk result (λ x. x ≡ e.Infix operator left right) }
{
    let left = Boxed::new(alloc, left)?;
    let right = Boxed::new(alloc, right)?;
    Ok(Expr::Infix(operator, left, right))
}

// What an account holds whose value has this name: 1,000 where it was never written.
fn balance(alloc: Global, bytes: &[u8]) -> Result<Expr, AllocError>
    ensures { IfOk result (λ x. x ≡ made (spec.balance bytes.now)) }
{
    let value = Boxed::new(alloc, variable(alloc, bytes)?)?;
    let first = Boxed::new(alloc, Expr::Number(1_000))?;
    Ok(Expr::Given(value, first))
}

// The statements that move the amount.
fn moves(
    alloc: Global,
    source: ObjectId,
    target: ObjectId,
    amount: u64,
) -> Result<Items<Stmt>, AllocError>
    ensures { IfOk result (λ part. part ≡ made_all (spec.moves source target amount)) }
{
    let less = infix(
        alloc,
        balance(alloc, b"a")?,
        Infix::Subtract,
        Expr::Number(amount),
    )?;
    let more = infix(
        alloc,
        balance(alloc, b"b")?,
        Infix::Add,
        Expr::Number(amount),
    )?;
    let mut part = Vec::new(alloc);
    part.push(Stmt::Write(4, Target::Fixed(source), less))?;
    part.push(Stmt::Write(5, Target::Fixed(target), more))?;
    Ok(Items::of(part))
}

/// The script that moves the amount from one account to another, where the first holds as much.
pub fn transfer(
    alloc: Global,
    source: ObjectId,
    target: ObjectId,
    amount: u64,
) -> Result<Script, AllocError>
    ensures { IfOk result (λ s. s.lines ≡ made_all (spec.transfer source target amount)) }
{
    let a = name(alloc, b"a")?;
    let b = name(alloc, b"b")?;
    let enough = infix(
        alloc,
        balance(alloc, b"a")?,
        Infix::GreaterEqual,
        Expr::Number(amount),
    )?;
    let part = moves(alloc, source, target, amount)?;
    let mut lines = Vec::new(alloc);
    lines.push(Stmt::Read(1, a, Target::Fixed(source)))?;
    lines.push(Stmt::Read(2, b, Target::Fixed(target)))?;
    lines.push(Stmt::If(3, enough, part, 6))?;
    Ok(Script {
        lines: Items::of(lines),
    })
}

// The name gets the value more.
fn grows(alloc: Global, line: u16, bytes: &[u8], by: Expr) -> Result<Stmt, AllocError>
    ensures { IfOk result (λ s. s ≡ stmt.Let line bytes.now (e.Infix o.Add (e.Name bytes.now) by)) }
{
    let sum = infix(alloc, variable(alloc, bytes)?, Infix::Add, by)?;
    Ok(Stmt::Let(line, name(alloc, bytes)?, sum))
}

fn account_read(alloc: Global, repository: u8, line: u16) -> Result<Stmt, AllocError>
    ensures { IfOk result (λ s. s ≡ made_step (spec.account_read repository line)) }
{
    let number = variable(alloc, b"k")?;
    let value = name(alloc, b"v")?;
    Ok(Stmt::Read(line, value, Target::At(repository, number)))
}

fn account_sum(alloc: Global, line: u16) -> Result<Stmt, AllocError>
    ensures { IfOk result (λ s. s ≡ made_step (spec.account_sum line)) }
{
    grows(alloc, line, b"s", balance(alloc, b"v")?)
}

// The statements that take the sum over the repositories.
fn sums(alloc: Global) -> Result<Items<Stmt>, AllocError>
    ensures { IfOk result (λ part. part ≡ made_all spec.round) }
{
    let mut part = Vec::new(alloc);
    for repository in 1..9u8 {
        let line = 2 * repository as u16 + 2;
        part.push(account_read(alloc, repository, line)?)?;
        part.push(account_sum(alloc, line + 1)?)?;
    }
    part.push(grows(alloc, 20, b"k", Expr::Number(1))?)?;
    Ok(Items::of(part))
}

/// The script that prints the sum of all accounts.
pub fn audit(alloc: Global) -> Result<Script, AllocError>
    ensures { IfOk result (λ s. s.lines ≡ made_all spec.audit) }
{
    let k = name(alloc, b"k")?;
    let s = name(alloc, b"s")?;
    let part = sums(alloc)?;
    let sum = variable(alloc, b"s")?;
    let mut lines = Vec::new(alloc);
    lines.push(Stmt::Let(1, k, Expr::Number(1)))?;
    lines.push(Stmt::Let(2, s, Expr::Number(0)))?;
    lines.push(Stmt::Repeat(3, Expr::Number(8), part, 21))?;
    lines.push(Stmt::Print(22, sum))?;
    Ok(Script {
        lines: Items::of(lines),
    })
}
