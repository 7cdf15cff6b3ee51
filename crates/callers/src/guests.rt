//! A book that guests sign, under the lock.
ghost use Rattle.std.specs.Prelude.{◌≡◌, [], ◌∷◌, ◌++◌, replicate, MatchBool, IfOk, IfErr};
ghost use Rattle.seat_lock.specs.Words.{IsPassOf, knows};

use seat_lock::{Pass, SeatLock, Storied};
use std::alloc::Global;
use std::marker::Model;
use std::sync::Wait;

/// The numbers of those who signed, in order.
#[derive(Drop)]
pub struct Guests {
    names: Vec<u32>,
}

/// A guest's right to sign.
pub type Guest = Pass<Guests>;

impl Model for Guests {
    ghost use Rattle.std.specs.Prelude.{ℕ, List};

    ghost Value = { List ℕ };

    ghost view = { λ g. g.names.items };
}

// A book is its own story, begun with an empty one; an entry is its signer's; no word is posted.
impl Storied for Guests {
    ghost use Rattle.std.specs.Prelude.{◌≡◌, [], refl};

    type Entry = u32;

    ghost story = { λ l. l };

    ghost stands = { λ base l. base ≡ [] };

    ghost owner = { λ e. e };

    ghost may_hold = { λ base l word number. number ≡ 0 };

    ghost none_held = { λ base l word. refl };

    ghost stays_held = { λ base l e word number held. held };
}

impl Guests {
    /// A book that nobody has signed.
    pub fn new(alloc: Global) -> Guests
        ensures { result ≡ [] }
    {
        let names = Vec::new(alloc);
        Guests { names }
    }
}

// One visit: the guest signs. False where memory ran out, and then nothing was noted.
fn sign(rt: &impl Wait, lock: &SeatLock<Guests>, pass: Guest, who: u32) -> (Guest, bool)
    requires pass { IsPassOf lock.now pass }
    requires mine { (knows pass).owner ≡ who }
    ensures pass { IsPassOf lock.now result.0 }
    ensures mine { (knows result.0).owner ≡ who }
    ensures own { MatchBool result.1 ((knows result.0).own ≡ (knows pass).own ++ who ∷ [])
        ((knows result.0).own ≡ (knows pass).own) }
{
    let mut visit = lock.enter(rt, pass);
    if visit.value().names.push(who).is_err() {
        return (visit.leave(), false);
    }
    visit.note(&who);
    (visit.leave(), true)
}

/// So many visits leave so many entries of the guest, behind those that it had. Where memory ran
/// out in one of them the pass comes back as it is then.
pub fn sign_often(
    rt: &impl Wait,
    lock: &SeatLock<Guests>,
    mut pass: Guest,
    who: u32,
    visits: u32,
) -> Result<Guest, Guest>
    requires pass { IsPassOf lock.now pass }
    requires mine { (knows pass).owner ≡ who }
    ensures signed { IfOk result (λ p. (knows p).own ≡ (knows pass).own ++ replicate visits who) }
    ensures pass { IfOk result (λ p. IsPassOf lock.now p) }
    ensures back { IfErr result (λ p. IsPassOf lock.now p) }
{
    for _ in 0..visits {
        match sign(rt, lock, pass, who) {
            (next, true) => pass = next,
            (next, false) => return Err(next),
        }
    }
    Ok(pass)
}
