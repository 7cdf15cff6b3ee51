//! Finds the effect at a place.
ghost use Rattle.std.specs.Prelude.{◌≡◌, ◌≢◌, ◌<◌, ◌≤◌, ℕ, List, length, IsTrue, IfOk, IfErr, IfSome, false};
ghost use Rattle.stream_port.specs.Causes.{Rose};
ghost use Rattle.page_form.specs.Forms.{IsBytes};
ghost use Rattle.medium_port.specs.Image.{NoMore};
ghost use Rattle.page_form.specs.States.{state_with};
ghost use Rattle.page_form.specs.Effects.{IsWritten, effect_at};
ghost use Rattle.page_form.specs.Entries.{number_of};
ghost use Rattle.version_store.specs.Faults.{fails_fetching};
ghost use Rattle.version_store.specs.Fetch.{LastTells, first_sight, is_back_before, next_sight, sheet_on, shown, shown_alone, shown_in};
ghost use Rattle.page_form.specs.Kept.{Stand};
ghost use Rattle.version_store.specs.Sights.{Sees, TellsRange, found_of, told_of};

use crate::faults::FetchFault;
use medium_port::Medium;
use page_form::{
    Effect, EffectFault, Gate, Piece, Place, add_piece, keep, look_into, read, sheet_in,
};
use std::alloc::{AllocError, Global};

/// What a page shows at a place.
#[derive(Drop)]
pub enum Sight {
    /// The effect with its back place, or that there is none.
    Told(Option<(Effect, Option<Place>)>),
    /// Pieces of the effect. Another is due on the next page.
    Due(Vec<u8>),
}

// Whether a back place is before a place, or there is none.
fn is_before(back: Option<Place>, place: Place) -> bool
    ensures { result ≡ is_back_before back place }
{
    match back {
        None => true,
        Some(back) => number(back) < number(place),
    }
}

// Places in order as numbers.
fn number(place: Place) -> u64
    ensures { result ≡ number_of place }
{
    place.page as u64 * 65_536 + place.offset as u64
}

// The effect at the front of the bytes, which stands at this place.
fn effect_here(
    alloc: Global,
    bytes: &[u8],
    place: Place,
) -> Result<Option<(Effect, Option<Place>)>, AllocError>
    ensures shown { IfOk result (λ o. o ≡ shown place (effect_at bytes.now)) }
    ensures in_range { IfOk result (λ o. IfSome o (λ w. IsWritten w)) }
{
    match read(alloc, bytes) {
        Err(EffectFault::Form { .. }) => Ok(None),
        Err(EffectFault::NoMemory) => Err(AllocError),
        Ok((effect, back, _)) => {
            if is_before(back, place) {
                Ok(Some((effect, back)))
            } else {
                Ok(None)
            }
        }
    }
}

// The effect that these bytes are, which stands at this place.
fn effect_alone(
    alloc: Global,
    bytes: &[u8],
    place: Place,
) -> Result<Option<(Effect, Option<Place>)>, AllocError>
    ensures shown { IfOk result (λ o. o ≡ shown_alone place (effect_at bytes.now)) }
    ensures small { IsBytes bytes.now }
    ensures in_range { IfOk result (λ o. IfSome o (λ w. IsWritten w)) }
{
    match read(alloc, bytes) {
        Err(EffectFault::Form { .. }) => Ok(None),
        Err(EffectFault::NoMemory) => Err(AllocError),
        Ok((effect, back, count)) => {
            if count < bytes.len() {
                return Ok(None);
            }
            if is_before(back, place) {
                Ok(Some((effect, back)))
            } else {
                Ok(None)
            }
        }
    }
}

// What the place's page shows.
fn look_first(alloc: Global, gate: Gate, body: &[u8], place: Place) -> Result<Sight, AllocError>
    ensures sees { IfOk result (λ s. Sees s (first_sight place (sheet_on (state_with gate body.now)))) }
    ensures in_range { IfOk result TellsRange }
{
    let Gate::Open = gate else {
        return Ok(Sight::Told(None));
    };
    let Some((piece, from, bytes)) = sheet_in(body) else {
        return Ok(Sight::Told(None));
    };
    match piece {
        Piece::Whole => {
            if place.offset < from {
                return Ok(Sight::Told(None));
            }
            let start = ((place.offset - from) as usize).min(bytes.len());
            let found = effect_here(alloc, &bytes[start..], place)?;
            Ok(Sight::Told(found))
        }
        Piece::First => {
            if place.offset != 5 {
                return Ok(Sight::Told(None));
            }
            let pieces = keep(alloc, bytes)?;
            Ok(Sight::Due(pieces))
        }
        Piece::Middle | Piece::Last => Ok(Sight::Told(None)),
    }
}

// What a page shows behind pieces.
fn look_next(
    alloc: Global,
    pieces: Vec<u8>,
    gate: Gate,
    body: &[u8],
    place: Place,
) -> Result<Sight, AllocError>
    ensures sees { (front : List ℕ) → Stand pieces.items front → IsBytes front →
        IfOk result (λ s. Sees s (next_sight front place (sheet_on (state_with gate body.now)))) }
    ensures in_range { IfOk result TellsRange }
{
    let mut pieces = pieces;
    let Gate::Open = gate else {
        return Ok(Sight::Told(None));
    };
    let Some((piece, _, bytes)) = sheet_in(body) else {
        return Ok(Sight::Told(None));
    };
    match piece {
        Piece::Whole | Piece::First => Ok(Sight::Told(None)),
        Piece::Middle => {
            add_piece(&mut pieces, bytes)?;
            Ok(Sight::Due(pieces))
        }
        Piece::Last => {
            add_piece(&mut pieces, bytes)?;
            let found = effect_alone(alloc, &pieces, place)?;
            Ok(Sight::Told(found))
        }
    }
}

// What was found, or the page that told that there is none.
fn answer(told: Option<(Effect, Option<Place>)>, page: u32) -> Result<(Effect, Option<Place>), u32>
    ensures found { found_of result ≡ told }
    ensures page { told_of result page }
    ensures in_range { IfSome told (λ w. IsWritten w) → IfOk result (λ w. IsWritten w) }
{
    match told {
        None => Err(page),
        Some(found) => Ok(found),
    }
}

/// Looks for the effect at a place, on its page and those behind it. Err has the page that was read
/// last: the effect isn't there, or a piece of it that is due.
pub fn find<M: Medium>(
    alloc: Global,
    medium: &mut M,
    pages: u32,
    place: Place,
) -> Result<Result<(Effect, Option<Place>), u32>, FetchFault>
    requires pages { pages ≡ M.page_count medium.old }
    requires page { place.page < pages }
    requires open { M.is_failed medium.old ≡ false }
    ensures found { IsTrue M.tells → length (M.reads medium.old) ≡ pages →
        IfOk result (λ r. found_of r ≡ shown_in (M.reads medium.old) place) }
    ensures tells { IfOk result (λ r. (page : ℕ) × told_of r page ×
        LastTells (M.last_page medium.new) pages page place (found_of r)) }
    ensures in_range { IfOk result (λ r. IfOk r (λ w. IsWritten w)) }
    ensures reads { IsTrue M.tells → M.reads medium.new ≡ M.reads medium.old }
    ensures crash { IsTrue M.tells → NoMore (M.may_leave medium.old) (M.may_leave medium.new) }
    // Nothing that crashes see is changed.
    ensures stages { IsTrue M.tells → M.stages medium.new ≡ M.stages medium.old }
    ensures size { M.page_count medium.new ≡ M.page_count medium.old }
    ensures state { M.is_failed medium.new ≡ fails_fetching result }
    ensures no_damage { IfErr result (λ f. (page : ℕ) → f ≢ FetchFault.Damaged page) }
    ensures later { M.faults medium.old ≤ M.faults medium.new }
    ensures failed { IfErr result (λ f. f ≡ FetchFault.Medium → Rose (M.faults medium.old) (M.faults medium.new)) }
{
    let mut bytes = [0; 4096];
    let sight = match look_into(medium, place.page, &mut bytes) {
        Err(_) => return Err(FetchFault::Medium),
        Ok(gate) => match look_first(alloc, gate, &bytes[1..], place) {
            Err(_) => return Err(FetchFault::NoMemory),
            Ok(sight) => sight,
        },
    };
    let mut pieces = match sight {
        Sight::Told(told) => return Ok(answer(told, place.page)),
        Sight::Due(pieces) => pieces,
    };
    for page in place.page + 1..pages {
        match look_into(medium, page, &mut bytes) {
            Err(_) => return Err(FetchFault::Medium),
            Ok(gate) => match look_next(alloc, pieces, gate, &bytes[1..], place) {
                Err(_) => return Err(FetchFault::NoMemory),
                Ok(Sight::Told(told)) => return Ok(answer(told, page)),
                Ok(Sight::Due(more)) => pieces = more,
            },
        }
    }
    Ok(Err(pages - 1))
}
