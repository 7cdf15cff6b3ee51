//! What is carried forward is written into the fresh volume.
ghost use Rattle.std.specs.Prelude.{◌≡◌, ◌≤◌, [], IsTrue, false, vec_len, vec_capacity};
ghost use Rattle.pseudo_time.specs.Lists.{Every};
ghost use Rattle.pseudo_time.specs.declared.nodes.NodeKind.TheVariants.{Repository};
ghost use Rattle.effect_form.specs.Effects.{AreEffects};
ghost use Rattle.version_store.specs.Causes.{down_of};
ghost use Rattle.version_store.specs.StoreWords.{effects_in, medium_of};
ghost use Rattle.forward_copy.specs.Sifted.{between};
ghost use Rattle.forward_copy.specs.Wholes.{has_whole};
ghost use Rattle.run_volumes.specs.Standings.{Stands};
ghost use Rattle.run_volumes.specs.Volumes.{EndRightly};
ghost use Rattle.retire_command.specs.Retires as spec;

use crate::outcomes::Retired;
use crate::preparing::{Prepared, fallen};
use forward_copy::{Forward, carry};
use medium_port::Medium;
use pseudo_time::{NodeId, PseudoTime};
use report_writer::down_line;
use run_volumes::{Opening, give_back};
use std::alloc::Global;
use value_form::Bytes;
use version_store::{Store, StoreFault};

// A fault of the fresh volume stops it.
fn cut_off(alloc: Global, node: NodeId, fault: StoreFault) -> Retired
    ensures { spec.CutsOff node (down_of fault) result }
{
    match fault.down_cause() {
        Some(cause) => fallen(down_line(alloc, node, cause)),
        None => Retired::NoMemory,
    }
}

// Carries what is kept forward into the fresh volume.
fn carry_into<M: Medium>(
    alloc: Global,
    node: NodeId,
    mark: PseudoTime,
    fresh: Store<M>,
    forward: &Forward,
    line: Bytes,
) -> (Retired, M)
    requires open { M.is_failed (medium_of fresh) ≡ false }
    requires empty { IsTrue M.tells → effects_in M.reads fresh ≡ [] }
    requires ranges { AreEffects forward.now.kept.items }
    requires no_whole { has_whole forward.now.kept.items ≡ false }
    ensures { spec.Carries M.Medium node (between mark forward.now.kept.items) fresh line result.0 result.1 }
{
    match carry(alloc, fresh, mark, forward) {
        Ok(store) => (Retired::Done(line), store.release()),
        Err((medium, fault)) => (cut_off(alloc, node, fault), medium),
    }
}

/// Writes what was prepared into the last of the volumes, which is the fresh one. The empty list has room
/// for what is left of them.
pub fn carry_out<M: Medium>(
    alloc: Global,
    node: NodeId,
    mark: PseudoTime,
    openings: Vec<Opening<M>>,
    prepared: Prepared,
    room: Vec<Option<M>>,
) -> (Retired, Vec<Option<M>>)
    requires ready { spec.IsReady node mark openings.items prepared.forward prepared.line }
    requires stands { Every (Stands M.Medium) openings.items }
    requires ends { EndRightly Repository openings.items }
    requires empty { room.items ≡ [] }
    requires room { vec_len openings ≤ vec_capacity room }
    ensures came { spec.ComesTo M.Medium node mark openings.items result.1.items result.0 }
    ensures count { vec_len result.1 ≡ vec_len openings }
    ensures room { vec_capacity result.1 ≡ vec_capacity room }
{
    let Prepared { forward, line } = prepared;
    let mut openings = openings;
    match openings.pop() {
        Some(Opening::Open(store, _)) => {
            let mut media = give_back(room, openings);
            let (retired, medium) = carry_into(alloc, node, mark, store, &forward, line);
            media.push_reserved(Some(medium));
            (retired, media)
        }
        Some(Opening::Shut(_, _)) => unreachable!(),
        Some(Opening::Wanting(_)) => unreachable!(),
        None => unreachable!(),
    }
}
