//! A list is dealt to shares, and collected from them.
ghost use Rattle.std.specs.Prelude.{◌≡◌, ◌≤◌, ◌<◌, ◌^◌, [], ℕ, length, List, vec_len, vec_capacity, All, IfOk};
ghost use Rattle.run_starts.specs.Deals.{IsDealt, HaveRoom};

use std::alloc::{AllocError, Global};

/// Lets empty shares go.
pub fn let_go<T>(shares: Vec<Vec<T>>)
    requires empty { All (λ s. s.items ≡ []) shares.items }
{
    let mut shares = shares;
    let Some(last) = shares.pop() else {
        shares.destroy_empty();
        return;
    };
    last.destroy_empty();
    let_go(shares);
}

/// An empty list with room for so many, and empty shares with room to deal them to.
pub fn empty_shares<T>(
    alloc: Global,
    workers: usize,
    count: usize,
) -> Result<(Vec<T>, Vec<Vec<T>>), AllocError>
    requires some { 1 ≤ workers }
    requires few { count < 2 ^ 32 }
    ensures list { IfOk result (λ r. (r.0.items ≡ []) × (count ≤ vec_capacity r.0)) }
    ensures count { IfOk result (λ r. length r.1.items ≡ workers) }
    ensures empty { IfOk result (λ r. All (λ s. s.items ≡ []) r.1.items) }
    ensures dealt { IfOk result (λ r. IsDealt workers [] r.1.items) }
    ensures room { IfOk result (λ r. HaveRoom workers count r.1.items) }
{
    let mut shares = Vec::with_capacity(alloc, workers)?;
    for _ in 0..workers {
        let Ok(share) = Vec::with_capacity(alloc, count / workers + 1) else {
            let_go(shares);
            return Err(AllocError);
        };
        shares.push_reserved(share);
    }
    let Ok(items) = Vec::with_capacity(alloc, count) else {
        let_go(shares);
        return Err(AllocError);
    };
    Ok((items, shares))
}

/// Deals a list to empty shares that have room for it. Hands the emptied list back, which keeps its
/// room.
pub fn deal<T>(items: Vec<T>, shares: Vec<Vec<T>>) -> (Vec<T>, Vec<Vec<T>>)
    requires some { 1 ≤ length shares.items }
    requires empty { IsDealt (length shares.items) [] shares.items }
    requires room { (count : _) × (vec_len items ≤ count) × HaveRoom (length shares.items) count shares.items }
    ensures dealt { IsDealt (length shares.items) items.items result.1.items }
    ensures count { length result.1.items ≡ length shares.items }
    ensures room { (count : ℕ) → HaveRoom (length shares.items) count shares.items →
        HaveRoom (length shares.items) count result.1.items }
    ensures emptied { (result.0.items ≡ []) × (vec_capacity result.0 ≡ vec_capacity items) }
{
    let mut items = items;
    let Some(last) = items.pop() else {
        return (items, shares);
    };
    let place = items.len();
    let (items, mut shares) = deal(items, shares);
    let workers = shares.len();
    shares[place % workers].push_reserved(last);
    (items, shares)
}

/// Collects so many elements that were dealt to shares, in their order, in an emptied list that has
/// room for them.
pub fn collect<T>(shares: Vec<Vec<T>>, count: usize, items: Vec<T>) -> Vec<T>
    requires some { 1 ≤ length shares.items }
    requires dealt { (xs : List T) × IsDealt (length shares.items) xs shares.items × (length xs ≡ count) }
    requires empty { items.items ≡ [] }
    requires room { count ≤ vec_capacity items }
    ensures room { (vec_len result ≡ count) × (vec_capacity result ≡ vec_capacity items) }
    ensures whole { (xs : List T) → IsDealt (length shares.items) xs shares.items → length xs ≡ count →
        result.items ≡ xs }
{
    if count == 0 {
        let_go(shares);
        return items;
    }
    let mut shares = shares;
    let place = count - 1;
    let workers = shares.len();
    let Some(last) = shares[place % workers].pop() else {
        unreachable!()
    };
    let mut items = collect(shares, place, items);
    items.push_reserved(last);
    items
}
