//! Prints a plan.
ghost use Rattle.std.specs.Prelude.{◌≡◌, ◌++◌, ◌∷◌, [], IfOk, OnOk};
ghost use Rattle.std.specs.Fmt.{decimal};
ghost use Rattle.plan_form.specs.Plans.{terms};
ghost use Rattle.plan_form.specs.Plans as spec;
ghost use Rattle.plan_form.specs.PlanTexts as texts;

use crate::plans::Plan;
use script_form::print_script;
use std::alloc::{AllocError, Global};
use value_form::{ActSpec, Bytes};

// Appends a word and a number.
fn print_number(
    alloc: Global,
    out: &mut Vec<u8>,
    word: &[u8],
    number: u64,
) -> Result<(), AllocError>
    ensures { OnOk result (out.new.items ≡ out.old.items ++ (word.now ++ decimal number)) }
{
    let digits = number.to_string(alloc)?;
    out.extend_from_slice(word)?;
    out.extend_from_slice(digits.as_bytes())
}

fn print_head(alloc: Global, out: &mut Vec<u8>, plan: &Plan) -> Result<(), AllocError>
    ensures { OnOk result (out.new.items ≡ out.old.items ++
        texts.head_text plan.now.run plan.now.repositories plan.now.brokers) }
{
    out.extend_from_slice(b"swallow plan 1")?;
    print_number(alloc, out, b"\nrun ", plan.run as u64)?;
    print_number(alloc, out, b"\nrepositories ", plan.repositories as u64)?;
    print_number(alloc, out, b"\nbrokers ", plan.brokers as u64)?;
    out.extend_from_slice(b"\n")
}

// Appends an act line up to its number of tries.
fn print_act_front(alloc: Global, out: &mut Vec<u8>, act: &ActSpec) -> Result<(), AllocError>
    ensures { OnOk result (out.new.items ≡ out.old.items ++ spec.act_front (terms act.now)) }
{
    print_number(alloc, out, b"act broker ", act.broker as u64)?;
    print_number(alloc, out, b" home ", act.home as u64)?;
    print_number(alloc, out, b" timeout ", act.timeout as u64)?;
    print_number(alloc, out, b" tries ", act.tries as u64)
}

fn print_act_line(alloc: Global, out: &mut Vec<u8>, act: &ActSpec) -> Result<(), AllocError>
    ensures { OnOk result (out.new.items ≡ out.old.items ++ texts.act_line (terms act.now)) }
{
    print_act_front(alloc, out, act)?;
    if act.clock == 1 {
        return Ok(());
    }
    print_number(alloc, out, b" clock ", act.clock)
}

fn print_act(alloc: Global, out: &mut Vec<u8>, act: &ActSpec) -> Result<(), AllocError>
    ensures { OnOk result (out.new.items ≡ out.old.items ++ texts.act_text act.now) }
{
    print_act_line(alloc, out, act)?;
    out.extend_from_slice(b"\n")?;
    print_script(alloc, out, &act.script)?;
    out.extend_from_slice(b"done\n")
}

fn print_acts(alloc: Global, out: &mut Vec<u8>, acts: &[ActSpec]) -> Result<(), AllocError>
    ensures { OnOk result (out.new.items ≡ out.old.items ++ texts.acts_text acts.now) }
{
    for act in acts {
        print_act(alloc, out, act)?;
    }
    Ok(())
}

/// The canonical text: the four lines of the head, and for each act its line, with its clock only
/// where that isn't 1, its script's canonical text and `done`.
pub fn print(alloc: Global, plan: &Plan) -> Result<Bytes, AllocError>
    ensures { IfOk result (λ text. text ≡ texts.plan_text plan.now) }
{
    let mut text = Vec::new(alloc);
    print_head(alloc, &mut text, plan)?;
    print_acts(alloc, &mut text, plan.acts.as_slice())?;
    Ok(Bytes::of(text))
}
