//! Which effects are carried forward, and which are given up.
ghost use Rattle.std.specs.Prelude.{◌≡◌, length, not, IfOk, reverse};
ghost use Rattle.forward_copy.specs.Firms as spec;
ghost use Rattle.forward_copy.specs.Sifted.{sifted};

use crate::copies::Forward;
use crate::firms::Firms;
use effect_form::Effect;
use pseudo_time::PseudoTime;
use std::alloc::{AllocError, Global};

/// The effects of the log that are carried forward, and the others.
pub fn sift(
    alloc: Global,
    firms: &Firms,
    log: &[Effect],
    mark: PseudoTime,
) -> Result<Forward, AllocError>
    ensures kept { IfOk result (λ f. f.kept.items ≡ reverse
        (sifted (λ l f. spec.stays_above firms.now mark (length l) f) (reverse log.now))) }
    ensures dropped { IfOk result (λ f. f.dropped.items ≡ reverse
        (sifted (λ l f. not (spec.stays_above firms.now mark (length l) f)) (reverse log.now))) }
{
    let mut kept = Vec::new(alloc);
    let mut dropped = Vec::new(alloc);
    for (index, effect) in log.iter().enumerate() {
        let copy = effect.copy(alloc)?;
        if firms.keeps(mark, index, effect) {
            kept.push(copy)?;
        } else {
            dropped.push(copy)?;
        }
    }
    Ok(Forward { kept, dropped })
}
