//! The core of a repository.
ghost use Rattle.std.specs.Prelude.{◌≡◌, false, OnOk};

use crate::turns::turn_text;
use case_words::{CaseFault, Subject, arrival, number, stamp};
use message_form::Turn;
use object_history::PlainHistories;
use repository_core::Repository;
use std::alloc::Global;
use std::mem;

/// A repository of which no call has failed.
#[derive(Drop)]
pub struct Core {
    core: Repository<PlainHistories>,
    ghost able: { core.is_failed ≡ false },
}

// The repository with this number, whose log is empty, from moment 0 on.
fn repository(alloc: Global, number: u8) -> Result<Core, CaseFault> {
    match Repository::open(alloc, number, 0, &[], PlainHistories::new(alloc)) {
        Ok(core) => Ok(Core { core }),
        Err(_) => Err(CaseFault::NoMemory),
    }
}

fn take(
    core: &mut Repository<PlainHistories>,
    alloc: Global,
    words: &[&str],
) -> Result<Turn, CaseFault>
    requires { core.old.is_failed ≡ false }
    ensures { OnOk result (core.new.is_failed ≡ false) }
{
    let (from, message) = arrival(alloc, words)?;
    Ok(core.take(from, &message)?)
}

fn learn(
    core: &mut Repository<PlainHistories>,
    name: &str,
    committed: bool,
) -> Result<Turn, CaseFault>
    requires { core.old.is_failed ≡ false }
    ensures { OnOk result (core.new.is_failed ≡ false) }
{
    Ok(core.learn(stamp(name)?, committed)?)
}

fn hear(core: &mut Repository<PlainHistories>, moment: &str) -> Result<Turn, CaseFault>
    requires { core.old.is_failed ≡ false }
    ensures { OnOk result (core.new.is_failed ≡ false) }
{
    Ok(core.hear(number::<u64>(moment)?.min(1_000_000))?)
}

// The call that a line says.
fn call(
    core: &mut Repository<PlainHistories>,
    alloc: Global,
    words: &[&str],
) -> Result<Turn, CaseFault>
    requires { core.old.is_failed ≡ false }
    ensures { OnOk result (core.new.is_failed ≡ false) }
{
    match words {
        ["take", rest @ ..] => take(core, alloc, rest),
        ["learn", name, "yes"] => learn(core, name, true),
        ["learn", name, "no"] => learn(core, name, false),
        ["hear", moment] => hear(core, moment),
        _ => Err(CaseFault::Line),
    }
}

// What comes of a line on the repository.
fn carry_out(alloc: Global, core: Core, words: &[&str]) -> Result<(Core, String), CaseFault> {
    let Core { mut core } = core;
    let turn = call(&mut core, alloc, words)?;
    Ok((Core { core }, turn_text(alloc, &turn)?))
}

/// Cases of a repository.
#[derive(Drop)]
pub struct RepositoryCases {
    core: Option<Core>,
}

impl Subject for RepositoryCases {
    fn nothing(_alloc: Global) -> RepositoryCases {
        RepositoryCases { core: None }
    }

    fn carry_out(
        &mut self,
        alloc: Global,
        _line: &str,
        words: &[&str],
    ) -> Result<String, CaseFault> {
        if let ["repository", place] = words {
            self.core = Some(repository(alloc, number(place)?)?);
            return Ok(String::new(alloc));
        }
        let Some(core) = mem::replace(&mut self.core, None) else {
            return Err(CaseFault::Subject);
        };
        let (core, said) = carry_out(alloc, core, words)?;
        self.core = Some(core);
        Ok(said)
    }
}
