//! Reads the effects of a page.
ghost use Rattle.std.specs.Prelude.{◌≡◌, ◌+◌, ◌<◌, ◌≤◌, ◌++◌, List, ℕ, length, Some, None, IfOk, IfSome, OnOk, MatchOption, MatchBool};
ghost use Rattle.std.specs.Option.{option_map};
ghost use Rattle.field_form.specs.Forms.{IsBytes};
ghost use Rattle.effect_form.specs.Effects.{IsPlace, effect_at, AreEffects};
ghost use Rattle.page_form.specs.Entries.{Log};
ghost use Rattle.page_form.specs.Heads.{AreBelow, ArePlaces, IsFound};
ghost use Rattle.page_form.specs.Kept.{HeldBelow, HeldFit, Stand};
ghost use Rattle.page_form.specs.Sheets as spec;
ghost use Rattle.page_form.specs.Sheets.{Content, Damaged, Going, admitted, alone, held_ends, held_more, log_at, next, place_alone, place_before};
ghost use Rattle.page_gate.specs.declared.pages.PageState.TheVariants.{Gated};

use crate::last_puts::{is_same, note};
use crate::pieces::Piece;
use crate::sizes::MOST_EFFECT_BYTES;
use effect_form::{Effect, EffectFault, Place, read};
use field_form::{byte_of, front_of, u16_in};
use page_gate::all_zero;
use std::alloc::{AllocError, Global};
use std::collections::BTreeMap;
use value_form::ObjectId;

// The piece that a byte stands for, on a page with so many bytes.
fn piece_of(size: u16, mark: u8) -> Option<Piece>
    ensures { result ≡ spec.piece_of size mark }
{
    if mark == 0 {
        return Some(Piece::Whole);
    }
    if mark == 3 {
        return Some(Piece::Last);
    }
    if size != 4_091 {
        return None;
    }
    if mark == 1 {
        return Some(Piece::First);
    }
    if mark == 2 {
        return Some(Piece::Middle);
    }
    None
}

// So many bytes, where all behind them are 0.
#[tactic(auto, unfolding(crate::specs::Sheets::padded_at))]
fn padded_of(size: usize, bytes: &[u8]) -> Option<&[u8]>
    ensures texts { option_map (λ t. t.now) result ≡ spec.padded_at size bytes.now }
    ensures size { IfSome result (λ t. length t.now ≡ size) }
{
    let Some((texts, rest)) = front_of(size, bytes) else {
        return None;
    };
    if all_zero(rest) { Some(texts) } else { None }
}

// What a page of format 01 has behind its format byte.
#[tactic(auto, unfolding(crate::specs::Sheets::old_sheet_at))]
fn old_sheet(bytes: &[u8]) -> Option<(Piece, u16, &[u8])>
    ensures sheet { option_map (λ s. (s.0, s.1, s.2.now)) result ≡ spec.old_sheet_at bytes.now }
    ensures most { IfSome result (λ s. (4 ≤ s.1) × (s.1 + length s.2.now ≤ 4096)) }
{
    let Some((size, rest)) = u16_in(1, 4_092, bytes) else {
        return None;
    };
    let Some(texts) = padded_of(size as usize, rest) else {
        return None;
    };
    Some((Piece::Whole, 4, texts))
}

// What a page of format 02 has behind its format byte.
#[tactic(auto, unfolding(crate::specs::Sheets::new_sheet_at))]
fn new_sheet(bytes: &[u8]) -> Option<(Piece, u16, &[u8])>
    ensures sheet { option_map (λ s. (s.0, s.1, s.2.now)) result ≡ spec.new_sheet_at bytes.now }
    ensures most { IfSome result (λ s. (4 ≤ s.1) × (s.1 + length s.2.now ≤ 4096)) }
{
    let Some((size, rest)) = u16_in(1, 4_091, bytes) else {
        return None;
    };
    let Some((mark, rest)) = byte_of(rest) else {
        return None;
    };
    let Some(piece) = piece_of(size, mark) else {
        return None;
    };
    let Some(texts) = padded_of(size as usize, rest) else {
        return None;
    };
    Some((piece, 5, texts))
}

/// What a page's body has: effects or a piece of one, the offset of the first byte, and the bytes.
/// None where it isn't in the form of a page.
#[tactic(auto, unfolding(crate::specs::Sheets::sheet_of))]
pub fn sheet_in(body: &[u8]) -> Option<(Piece, u16, &[u8])>
    ensures sheet { option_map (λ s. (s.0, s.1, s.2.now)) result ≡ spec.sheet_of body.now }
    ensures most { IfSome result (λ s. (4 ≤ s.1) × (s.1 + length s.2.now ≤ 4096)) }
{
    let Some((format, rest)) = byte_of(body) else {
        return None;
    };
    if format == 1 {
        return old_sheet(rest);
    }
    if format == 2 {
        return new_sheet(rest);
    }
    None
}

/// The pieces of an effect that was begun, and the page with the first.
#[derive(Drop)]
pub struct Held {
    /// The page with the first piece.
    pub first: u32,
    /// The bytes of the pieces so far.
    pub bytes: Vec<u8>,
}

/// Keeps a piece.
pub fn keep(alloc: Global, piece: &[u8]) -> Result<Vec<u8>, AllocError>
    ensures kept { IfOk result (λ v. v.items ≡ piece.now) }
    ensures small { IsBytes piece.now }
{
    let bytes = piece.to_vec(alloc)?;
    Ok(bytes)
}

/// Adds a piece. Behind more bytes than an effect has it adds none.
pub fn add_piece(bytes: &mut Vec<u8>, piece: &[u8]) -> Result<(), AllocError>
    ensures small { IsBytes piece.now }
    ensures stands { (pieces : List ℕ) → Stand bytes.old.items pieces →
        OnOk result (Stand bytes.new.items (pieces ++ piece.now)) }
{
    if bytes.len() > MOST_EFFECT_BYTES {
        return Ok(());
    }
    bytes.extend_from_slice(piece)?;
    Ok(())
}

// Adds the effect at the front of the bytes, which stands at this place, and gives what follows it.
// None where there is no effect, or where its back place isn't that of its object's last Put.
fn add_effect<'a>(
    alloc: Global,
    heads: &mut BTreeMap<ObjectId, Place>,
    effects: &mut Vec<Effect>,
    place: Place,
    bytes: &'a [u8],
) -> Result<Option<&'a [u8]>, AllocError>
    requires place { IsPlace place }
    requires places { ArePlaces heads.old }
    ensures found { (log : Log) → IsFound heads.old effects.old.items log →
        IfOk result (λ o. MatchOption o (admitted log place (effect_at bytes.now) ≡ None)
        (λ rest. (more : Log) × (admitted log place (effect_at bytes.now) ≡ Some (more, rest.now)) ×
        IsFound heads.new effects.new.items more)) }
    ensures less { IfOk result (λ o. MatchOption o (Unit {0}) (λ rest. length rest.now ≤ length bytes.now)) }
    ensures small { IsBytes bytes.now }
    ensures places { OnOk result (ArePlaces heads.new) }
    ensures below { (limit : ℕ) → place.page < limit → AreBelow limit heads.old →
        OnOk result (AreBelow limit heads.new) }
    ensures ranges { AreEffects effects.old.items → OnOk result (AreEffects effects.new.items) }
{
    match read(alloc, bytes) {
        Err(EffectFault::Form { .. }) => Ok(None),
        Err(EffectFault::NoMemory) => Err(AllocError),
        Ok((effect, back, count)) => {
            let last = note(heads, &effect, place)?;
            if !is_same(back, last) {
                return Ok(None);
            }
            effects.push(effect)?;
            Ok(Some(&bytes[count..]))
        }
    }
}

// Adds the effects in these bytes, the first of which stands at this offset of the page.
fn add_effects(
    alloc: Global,
    heads: &mut BTreeMap<ObjectId, Place>,
    effects: &mut Vec<Effect>,
    page: u32,
    from: u16,
    texts: &[u8],
) -> Result<bool, AllocError>
    requires page { page < 1048576 }
    requires least { 4 ≤ from }
    requires most { from + length texts.now ≤ 4096 }
    requires places { ArePlaces heads.old }
    ensures found { (log : Log) → IsFound heads.old effects.old.items log →
        IfOk result (λ b. MatchBool b ((more : Log) ×
        (log_at (length texts.now) log page (from + length texts.now) texts.now ≡ Some more) ×
        IsFound heads.new effects.new.items more) (log_at (length texts.now) log page
        (from + length texts.now) texts.now ≡ None)) }
    ensures places { OnOk result (ArePlaces heads.new) }
    ensures below { (limit : ℕ) → page < limit → AreBelow limit heads.old → OnOk result (AreBelow limit heads.new) }
    ensures ranges { AreEffects effects.old.items → OnOk result (AreEffects effects.new.items) }
{
    let end = from as usize + texts.len();
    let mut rest = texts;
    for _ in 0..texts.len() {
        if rest.is_empty() {
            return Ok(true);
        }
        let place = Place {
            page,
            offset: (end - rest.len()) as u16,
        };
        match add_effect(alloc, heads, effects, place, rest)? {
            None => return Ok(false),
            Some(after) => rest = after,
        }
    }
    Ok(rest.is_empty())
}

// Adds the one effect that pieces are. False where they aren't one, or where its back place isn't that
// of its object's last Put.
fn add_held(
    alloc: Global,
    heads: &mut BTreeMap<ObjectId, Place>,
    effects: &mut Vec<Effect>,
    held: &Held,
) -> Result<bool, AllocError>
    requires page { held.now.first < 1048576 }
    requires places { ArePlaces heads.old }
    ensures found { (log : Log) (pieces : List ℕ) → IsFound heads.old effects.old.items log →
        Stand held.now.bytes.items pieces → IsBytes pieces →
        IfOk result (λ b. MatchBool b
        ((more : Log) × (alone (admitted log (place_alone held.now.first) (effect_at pieces)) ≡ Some more) ×
        IsFound heads.new effects.new.items more)
        (alone (admitted log (place_alone held.now.first) (effect_at pieces)) ≡ None)) }
    ensures places { OnOk result (ArePlaces heads.new) }
    ensures below { (limit : ℕ) → held.now.first < limit → AreBelow limit heads.old →
        OnOk result (AreBelow limit heads.new) }
    ensures ranges { AreEffects effects.old.items → OnOk result (AreEffects effects.new.items) }
{
    let place = Place {
        page: held.first,
        offset: 5,
    };
    match add_effect(alloc, heads, effects, place, &held.bytes)? {
        None => Ok(false),
        Some(rest) => Ok(rest.is_empty()),
    }
}

// A last piece: adds the effect.
fn add_last(
    alloc: Global,
    heads: &mut BTreeMap<ObjectId, Place>,
    effects: &mut Vec<Effect>,
    held: Option<Held>,
    piece: &[u8],
) -> Result<bool, AllocError>
    requires page { HeldBelow 1048576 held }
    requires places { ArePlaces heads.old }
    ensures found { (c : Content) → IsFound heads.old effects.old.items c.log → HeldFit held c.held →
        IfOk result (λ b. MatchBool b ((more : Content) × (held_ends c.log c.held piece.now ≡ Some more) ×
        IsFound heads.new effects.new.items more.log × HeldFit None more.held)
        (held_ends c.log c.held piece.now ≡ None)) }
    ensures places { OnOk result (ArePlaces heads.new) }
    ensures below { (limit : ℕ) → HeldBelow limit held → AreBelow limit heads.old →
        OnOk result (AreBelow limit heads.new) }
    ensures ranges { AreEffects effects.old.items → OnOk result (AreEffects effects.new.items) }
{
    match held {
        None => Ok(false),
        Some(mut held) => {
            add_piece(&mut held.bytes, piece)?;
            let good = add_held(alloc, heads, effects, &held)?;
            Ok(good)
        }
    }
}

// A middle piece: keeps it.
fn add_middle(held: Option<Held>, piece: &[u8]) -> Result<Option<Held>, AllocError>
    ensures found { (c : Content) → HeldFit held c.held →
        IfOk result (λ h. MatchOption h (held_more c.log c.held piece.now ≡ None)
        (λ kept. (more : Content) × (held_more c.log c.held piece.now ≡ Some more) × (more.log ≡ c.log) ×
        HeldFit (Some kept) more.held)) }
    ensures below { (limit : ℕ) → HeldBelow limit held → IfOk result (HeldBelow limit) }
{
    match held {
        None => Ok(None),
        Some(mut held) => {
            add_piece(&mut held.bytes, piece)?;
            Ok(Some(held))
        }
    }
}

// A first piece: keeps it.
fn add_first(alloc: Global, page: u32, piece: &[u8]) -> Result<Held, AllocError>
    ensures held { IfOk result (λ h. (h.first ≡ page) × (h.bytes.items ≡ piece.now)) }
    ensures small { IsBytes piece.now }
{
    let bytes = keep(alloc, piece)?;
    Ok(Held { first: page, bytes })
}

/// Adds a gated page behind the log and these pieces, and gives the pieces that are kept then. None
/// where no log has such a page here.
pub fn add_page(
    alloc: Global,
    heads: &mut BTreeMap<ObjectId, Place>,
    effects: &mut Vec<Effect>,
    held: Option<Held>,
    page: u32,
    body: &[u8],
) -> Result<Option<Option<Held>>, AllocError>
    requires page { page < 1048576 }
    requires held { HeldBelow page held }
    requires places { ArePlaces heads.old }
    ensures found { (c : Content) → IsFound heads.old effects.old.items c.log → HeldFit held c.held →
        IfOk result (λ o. MatchOption o (next (Going c) page (Gated body.now) ≡ Damaged page)
        (λ h. (more : Content) × (next (Going c) page (Gated body.now) ≡ Going more) ×
        IsFound heads.new effects.new.items more.log × HeldFit h more.held)) }
    ensures held { IfOk result (λ o. IfSome o (HeldBelow (page + 1))) }
    ensures places { OnOk result (ArePlaces heads.new) }
    ensures below { (limit : ℕ) → page < limit → AreBelow limit heads.old → OnOk result (AreBelow limit heads.new) }
    ensures ranges { AreEffects effects.old.items → OnOk result (AreEffects effects.new.items) }
{
    let Some((piece, from, bytes)) = sheet_in(body) else {
        return Ok(None);
    };
    match piece {
        Piece::Whole => {
            let good = add_effects(alloc, heads, effects, page, from, bytes)?;
            if good { Ok(Some(None)) } else { Ok(None) }
        }
        Piece::First => {
            let held = add_first(alloc, page, bytes)?;
            Ok(Some(Some(held)))
        }
        Piece::Middle => match add_middle(held, bytes)? {
            None => Ok(None),
            Some(held) => Ok(Some(Some(held))),
        },
        Piece::Last => {
            let good = add_last(alloc, heads, effects, held, bytes)?;
            if good { Ok(Some(None)) } else { Ok(None) }
        }
    }
}
