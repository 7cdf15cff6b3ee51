//! Lays effects out on pages.
ghost use Rattle.std.specs.Prelude.{◌≡◌, ◌++◌, ◌+◌, ◌-◌, ◌/◌, ◌<◌, ◌≤◌, ℕ, List, get_or, [], ◌∷◌, length, map, All, OnOk, IfOk, None};
ghost use Rattle.effect_form.specs.Effects.{effect_bytes, IsEffect, size_of, AreEffects};
ghost use Rattle.page_form.specs.Entries.{Log, back_in};
ghost use Rattle.page_form.specs.Filling.{Filled, filling, full_pages, reach};
ghost use Rattle.page_form.specs.Heads.{AreBelow, ArePlaces, HeadsFit};
ghost use Rattle.effect_form.specs.declared.effects.Effect.{Effect};
ghost use Rattle.page_form.specs.Laying.{IsBody, LaidOut, all_of, body_of, body_with, bytes_of, closed_body, entry_at, entry_on, laid, piece_bodies, place_after};

use crate::last_puts::note;
use crate::sizes::PAGE_TEXTS;
use effect_form::{Effect, Place, effect_size, write};
use std::alloc::{AllocError, Global};
use std::collections::BTreeMap;
use value_form::ObjectId;

// The body of a page with this piece byte and these bytes.
fn body(alloc: Global, mark: u8, texts: &[u8]) -> Result<Vec<u8>, AllocError>
    requires some { 1 ≤ length texts.now }
    requires most { length texts.now ≤ 4091 }
    ensures bytes { IfOk result (λ b. b.items ≡ body_with mark texts.now) }
    ensures is { IfOk result IsBody }
{
    let mut bytes = Vec::with_capacity(alloc, 4 + texts.len())?;
    let [high, low] = (texts.len() as u16).to_be_bytes();
    bytes.extend_from_slice(&[2, high, low, mark])?;
    bytes.extend_from_slice(texts)?;
    Ok(bytes)
}

// Closes the page that is being filled, where one was begun, and begins one. It gives how many it closed.
fn close(alloc: Global, bodies: &mut Vec<Vec<u8>>, texts: &mut Vec<u8>) -> Result<u32, AllocError>
    requires most { length texts.old.items ≤ 4091 }
    requires bodies { All IsBody bodies.old.items }
    ensures bytes { IfOk result (λ n. bytes_of bodies.new.items ≡ bytes_of bodies.old.items ++
        closed_body texts.old.items) }
    ensures count { IfOk result (λ n. n ≡ length (closed_body texts.old.items)) }
    ensures bodies { OnOk result (All IsBody bodies.new.items) }
    ensures texts { OnOk result (texts.new.items ≡ []) }
{
    if texts.is_empty() {
        return Ok(0);
    }
    let closed = body(alloc, 0, texts)?;
    bodies.push(closed)?;
    texts.clear();
    Ok(1)
}

// Adds an effect to those of the page.
fn add(
    alloc: Global,
    heads: &mut BTreeMap<ObjectId, Place>,
    page: u32,
    texts: &mut Vec<u8>,
    effect: &Effect,
) -> Result<(), AllocError>
    requires page { page < 1048576 }
    requires bytes { IsEffect effect.now }
    requires room { length texts.old.items + size_of effect.now ≤ 4091 }
    requires places { ArePlaces heads.old }
    ensures texts { (log : Log) → HeadsFit heads.old log →
        OnOk result (texts.new.items ≡ texts.old.items ++ effect_bytes (effect.now, back_in log effect.now)) }
    ensures size { OnOk result (length texts.new.items ≡ length texts.old.items + size_of effect.now) }
    ensures heads { (log : Log) → HeadsFit heads.old log →
        OnOk result (HeadsFit heads.new
        (log ++ entry_at log (place_after page (length texts.old.items)) effect.now ∷ [])) }
    ensures places { OnOk result (ArePlaces heads.new) }
    ensures below { (limit : ℕ) → page < limit → AreBelow limit heads.old → OnOk result (AreBelow limit heads.new) }
{
    let place = Place {
        page,
        offset: (5 + texts.len()) as u16,
    };
    let back = note(heads, effect, place)?;
    write(alloc, effect, back, texts)?;
    Ok(())
}

// Adds the pages of a text that is longer than a page.
fn push_pieces(alloc: Global, bodies: &mut Vec<Vec<u8>>, text: &[u8]) -> Result<(), AllocError>
    requires long { 4091 < length text.now }
    requires bodies { All IsBody bodies.old.items }
    ensures bytes { OnOk result (bytes_of bodies.new.items ≡ bytes_of bodies.old.items ++ piece_bodies 1
        ((length text.now - 1) / 4091) text.now) }
    ensures count { OnOk result (length bodies.new.items ≡ length bodies.old.items + (length text.now - 1) / 4091 + 1) }
    ensures bodies { OnOk result (All IsBody bodies.new.items) }
{
    let mut mark = 1;
    let mut rest = text;
    for _ in 0..(text.len() - 1) / PAGE_TEXTS {
        let (piece, after) = rest.split_at(PAGE_TEXTS);
        let full = body(alloc, mark, piece)?;
        bodies.push(full)?;
        mark = 2;
        rest = after;
    }
    let last = body(alloc, 3, rest)?;
    bodies.push(last)?;
    Ok(())
}

// Gives an effect that is longer than a page pages of its own, the first of which is this page.
fn add_alone(
    alloc: Global,
    heads: &mut BTreeMap<ObjectId, Place>,
    page: u32,
    bodies: &mut Vec<Vec<u8>>,
    effect: &Effect,
) -> Result<(), AllocError>
    requires page { page < 1048576 }
    requires bytes { IsEffect effect.now }
    requires long { 4091 < size_of effect.now }
    requires places { ArePlaces heads.old }
    requires bodies { All IsBody bodies.old.items }
    ensures bytes { (log : Log) → HeadsFit heads.old log →
        OnOk result (bytes_of bodies.new.items ≡ bytes_of bodies.old.items ++
        piece_bodies 1 (full_pages effect.now) (effect_bytes (effect.now, back_in log effect.now))) }
    ensures count { OnOk result (length bodies.new.items ≡ length bodies.old.items + full_pages effect.now + 1) }
    ensures bodies { OnOk result (All IsBody bodies.new.items) }
    ensures heads { (log : Log) → HeadsFit heads.old log →
        OnOk result (HeadsFit heads.new (log ++ entry_on log page 0 effect.now ∷ [])) }
    ensures places { OnOk result (ArePlaces heads.new) }
    ensures below { (limit : ℕ) → page < limit → AreBelow limit heads.old → OnOk result (AreBelow limit heads.new) }
{
    let place = Place { page, offset: 5 };
    let back = note(heads, effect, place)?;
    let mut text = Vec::new(alloc);
    write(alloc, effect, back, &mut text)?;
    push_pieces(alloc, bodies, &text)?;
    Ok(())
}

// Lays out the next effect, and gives the page that is being filled then.
fn lay_next(
    alloc: Global,
    heads: &mut BTreeMap<ObjectId, Place>,
    page: u32,
    bodies: &mut Vec<Vec<u8>>,
    texts: &mut Vec<u8>,
    effect: &Effect,
) -> Result<u32, AllocError>
    requires room { page + reach (length texts.old.items) effect.now ≤ 1048576 }
    requires bytes { IsEffect effect.now }
    requires most { length texts.old.items ≤ 4091 }
    requires places { ArePlaces heads.old }
    requires bodies { All IsBody bodies.old.items }
    ensures content { (log : Log) (first : ℕ) (effects rest : List Effect) →
        LaidOut log first effects (bytes_of bodies.old.items) texts.old.items heads.old page (effect.now ∷ rest) →
        IfOk result (λ p. LaidOut log first effects (bytes_of bodies.new.items) texts.new.items heads.new p rest) }
    ensures filled { (effects : List Effect) (i : ℕ) →
        Filled effects i (length bodies.old.items) (length texts.old.items) → i < length effects →
        get_or effects i effect.now ≡ effect.now →
        OnOk result (Filled effects (i + 1) (length bodies.new.items) (length texts.new.items)) }
    ensures at { IfOk result (λ p. p + length bodies.old.items ≡ page + length bodies.new.items) }
    ensures most { OnOk result (length texts.new.items ≤ 4091) }
    ensures bodies { OnOk result (All IsBody bodies.new.items) }
    ensures places { OnOk result (ArePlaces heads.new) }
    ensures below { (limit : ℕ) → page + reach (length texts.old.items) effect.now ≤ limit → AreBelow limit heads.old →
        OnOk result (AreBelow limit heads.new) }
{
    let size = effect_size(effect);
    if texts.len() + size <= PAGE_TEXTS {
        add(alloc, heads, page, texts, effect)?;
        return Ok(page);
    }
    let page = page + close(alloc, bodies, texts)?;
    if size <= PAGE_TEXTS {
        add(alloc, heads, page, texts, effect)?;
        return Ok(page);
    }
    add_alone(alloc, heads, page, bodies, effect)?;
    Ok(page + ((size - 1) / PAGE_TEXTS) as u32 + 1)
}

/// The bodies of the pages for these effects, from the first blank page on. It notes the effects.
pub fn lay_out(
    alloc: Global,
    heads: &mut BTreeMap<ObjectId, Place>,
    first: u32,
    effects: &[Effect],
) -> Result<Vec<Vec<u8>>, AllocError>
    requires room { first + length (filling effects.now) ≤ 1048576 }
    requires ranges { AreEffects effects.now }
    requires places { ArePlaces heads.old }
    ensures count { IfOk result (λ bodies. length bodies.items ≡ length (filling effects.now)) }
    ensures bodies { IfOk result (λ bodies. All IsBody bodies.items) }
    ensures pages { (log : Log) → HeadsFit heads.old log →
        IfOk result (λ bodies. bytes_of bodies.items ≡ map body_of (laid log first effects.now)) }
    ensures heads { (log : Log) → HeadsFit heads.old log →
        OnOk result (HeadsFit heads.new (log ++ all_of (laid log first effects.now))) }
    ensures places { OnOk result (ArePlaces heads.new) }
    ensures below { (limit : ℕ) → first + length (filling effects.now) ≤ limit → AreBelow limit heads.old →
        OnOk result (AreBelow limit heads.new) }
{
    let mut bodies = Vec::new(alloc);
    let mut texts = Vec::new(alloc);
    let mut page = first;
    for effect in effects {
        page = lay_next(alloc, heads, page, &mut bodies, &mut texts, effect)?;
    }
    close(alloc, &mut bodies, &mut texts)?;
    Ok(bodies)
}
