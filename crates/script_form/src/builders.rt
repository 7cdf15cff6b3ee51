//! Builds a script from its rows.
ghost use Rattle.std.specs.Prelude.{◌≡◌, ◌≤◌, [], IfSome, IfNone};
ghost use Rattle.value_form.specs.Mirror.{Block, block};
ghost use Rattle.script_form.specs.Building.{rows_so_far};
ghost use Rattle.script_form.specs.Fed.{Fed};
ghost use Rattle.script_form.specs.Flats.{row_of};
ghost use Rattle.script_form.specs.Rows.{on, rows, block_depth};

use crate::block_faults::BlockFault;
use crate::buildings::Building;
use crate::flats::Flat;
use std::alloc::Global;
use std::marker::Model;
use value_form::Script;

/// A script so far: the rows that were fed, and the blocks that they left open. Contracts see its
/// parts; `rows_so_far` is what was fed, and is always the beginning of a script whose blocks are no
/// deeper than 16.
#[derive(Drop)]
pub struct Builder {
    building: Building,
}

impl Model for Builder {
    ghost use Rattle.script_form.specs.declared.buildings.Building.{Building};
    ghost use Rattle.script_form.specs.contracts.buildings.Building as parts;
    ghost use Rattle.script_form.specs.Sound.{IsSound};

    ghost Value = { Building };

    ghost coded = { parts.the_row.coded };

    ghost view = { λ b. b.building };

    ghost invariant = { λ b. IsSound b.building };
}

impl Builder {
    /// Nothing so far, which takes no memory.
    pub fn new(alloc: Global) -> Builder
        ensures { rows_so_far result ≡ [] }
    {
        Builder {
            building: Building::new(alloc),
        }
    }

    /// Takes what stands on a line, which comes next. Where it doesn't go on the script, or memory
    /// runs out, the builder is let go.
    pub fn feed(self, alloc: Global, line: u16, flat: Flat) -> Result<Builder, BlockFault>
        ensures { Fed self (on line (row_of flat)) result }
    {
        let Builder { building } = self;
        let building = building.fed(alloc, line, flat)?;
        Ok(Builder { building })
    }

    /// The script whose rows were fed, and None exactly where a block was left open.
    pub fn end(self) -> Option<Script>
        ensures rows { IfSome result (λ s. rows (block s.lines) ≡ rows_so_far self) }
        ensures shallow { IfSome result (λ s. block_depth (block s.lines) ≤ 16) }
        ensures open { IfNone result ((script : Block) → rows script ≡ rows_so_far self → ⊥) }
    {
        let Builder { building } = self;
        if building.stack.len() == 0 {
            Some(Script {
                lines: building.here,
            })
        } else {
            None
        }
    }
}
