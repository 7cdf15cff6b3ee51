//! The members and the polls, each with the log with which it is opened.
ghost use Rattle.std.specs.Prelude.{◌≡◌, ◌++◌, ◌∷◌, [], ◌≤◌, IfOk, OnOk};
ghost use Rattle.pseudo_time.specs.Nodes.{repository};
ghost use Rattle.vote_run.specs.Openings.{log_in};
ghost use Rattle.vote_run.specs.Flagged.{names_of};
ghost use Rattle.vote_run.specs.Voters.{opened_voters};

use crate::openings::Openings;
use effect_form::Effect;
use medium_port::Medium;
use pseudo_time::NodeId;
use std::alloc::{AllocError, Global};
use value_form::Items;
use vote_run::Opening;
use world_core::Opened;

fn copies(alloc: Global, effects: &[Effect]) -> Result<Vec<Effect>, AllocError>
    ensures { IfOk result (λ copied. copied.items ≡ effects.now) }
{
    let mut copied = Vec::new(alloc);
    for effect in effects {
        copied.push(effect.copy(alloc)?)?;
    }
    Ok(copied)
}

// The log with which a member is opened: one that can't be opened has none.
fn log_of<M: Medium>(alloc: Global, opening: &Opening<M>) -> Result<Vec<Effect>, AllocError>
    ensures { IfOk result (λ log. log.items ≡ log_in opening.now) }
{
    match opening {
        Opening::Open(_, effects) => copies(alloc, effects.as_slice()),
        _ => Ok(Vec::new(alloc)),
    }
}

// Appends a member.
fn push_member<M: Medium>(
    alloc: Global,
    opened: &mut Vec<Opened>,
    number: u8,
    opening: &Opening<M>,
) -> Result<(), AllocError>
    ensures { OnOk result (opened.new.items ≡ opened.old.items ++ record {
      node = repository number;
      effects = log_in opening.now;
    } ∷ []) }
{
    let log = log_of(alloc, opening)?;
    opened.push(Opened {
        node: NodeId::repository(number),
        effects: Items::of(log),
    })?;
    Ok(())
}

/// The members, and so many polls, with the logs of what was opened.
pub fn voters<M: Medium>(
    alloc: Global,
    openings: &Openings<M>,
    polls: usize,
) -> Result<Vec<Opened>, AllocError>
    requires { polls ≤ 255 }
    ensures { IfOk result (λ opened. opened.items ≡ opened_voters (log_in openings.now.first)
        (log_in openings.now.second) (log_in openings.now.third) polls) }
{
    let mut opened = Vec::new(alloc);
    push_member(alloc, &mut opened, 1, &openings.first)?;
    push_member(alloc, &mut opened, 2, &openings.second)?;
    push_member(alloc, &mut opened, 3, &openings.third)?;
    for place in 0..polls {
        let node = NodeId::broker((place + 1) as u8);
        let effects = Items::of(Vec::new(alloc));
        opened.push(Opened { node, effects })?;
    }
    Ok(opened)
}

/// The names of nodes.
pub fn names(alloc: Global, opened: &[Opened]) -> Result<Vec<NodeId>, AllocError>
    ensures { IfOk result (λ names. names.items ≡ names_of opened.now) }
{
    let mut names = Vec::new(alloc);
    for one in opened {
        names.push(one.node)?;
    }
    Ok(names)
}
