//! How much a page holds, and how many pages effects fill.
ghost use Rattle.std.specs.Prelude.{◌≡◌, ◌≤◌, ◌<◌, ◌+◌, ◌^◌, ℕ, List, length, get_or};
ghost use Rattle.effect_form.specs.Effects.{AreEffects, IsEffect};
ghost use Rattle.effect_form.specs.declared.effects.Effect.{Effect};
ghost use Rattle.page_form.specs.Filling.{Filled, begun_pages, filling};

use effect_form::{Effect, effect_size};

/// The most bytes of effects on a page.
pub const PAGE_TEXTS: usize = 4_091;

/// The most bytes of an effect.
pub const MOST_EFFECT_BYTES: usize = 65_567;

// How many pages are begun, where the effects of the last have so many bytes.
fn begun(size: usize) -> u128
    ensures { result ≡ begun_pages size }
{
    if size == 0 { 0 } else { 1 }
}

// Fills pages with the next effect: so many are full, and the next has so many bytes.
fn fill(full: u128, size: usize, effect: &Effect) -> (u128, usize)
    requires bytes { IsEffect effect.now }
    requires most { size ≤ 4091 }
    requires few { full ≤ 2 ^ 80 }
    ensures filled { (effects : List Effect) (i : ℕ) → Filled effects i full size → i < length effects →
        get_or effects i effect.now ≡ effect.now →
        Filled effects (i + 1) result.0 result.1 }
    ensures most { result.1 ≤ 4091 }
    ensures few { result.0 ≤ full + 18 }
{
    let more = effect_size(effect);
    if size + more <= PAGE_TEXTS {
        return (full, size + more);
    }
    if more <= PAGE_TEXTS {
        return (full + begun(size), more);
    }
    (
        full + begun(size) + ((more - 1) / PAGE_TEXTS + 1) as u128,
        0,
    )
}

/// How many pages the effects fill.
pub fn pages_filled(effects: &[Effect]) -> u128
    requires { AreEffects effects.now }
    ensures { result ≡ length (filling effects.now) }
{
    let mut full: u128 = 0;
    let mut size = 0;
    for effect in effects {
        let (more, left) = fill(full, size, effect);
        full = more;
        size = left;
    }
    full + begun(size)
}
