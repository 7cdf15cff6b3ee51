//! The wire as a value that stands for its entries.
use crate::wires::Wire;
use medium_port::Medium;
use seat_lock::Storied;
use stream_port::{Clock, Fates};
use world_core::Entry;

impl<F: Fates, C: Clock, M: Medium> Storied for Wire<F, C, M> {
    ghost use Rattle.std.specs.Prelude.{◌≡◌};
    ghost use Rattle.std.proofs.Common.{inl, refl};
    ghost use Rattle.wire_core.specs.Boards.{owner_of, MayHold, held-stays};

    type Entry = Entry;

    ghost story = { λ w. w.entries };

    ghost stands = { λ base w. w.origin ≡ base.origin };

    ghost owner = { λ e. owner_of e };

    ghost may_hold = { λ base l word number. MayHold M.tells base.origin l word number };

    ghost none_held = { λ base l word told. inl refl };

    ghost stays_held = { λ base l e word number held. held-stays M.tells base.origin l e word number held };
}
