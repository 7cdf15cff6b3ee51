//! A part of a tree that has the tree's own type.
ghost use Rattle.std.specs.Prelude.{◌≡◌, IfOk};

use std::alloc::{AllocError, Global};
use std::marker::Model;

/// A part of a tree that has the tree's own type. Contracts see it as what it holds, so two trees
/// are equal where they say the same.
#[derive(Debug, Drop)]
pub struct Boxed<T> {
    place: Box<T>,
}

impl<T> Model for Boxed<T> {
    ghost Value = { T };

    ghost coded = { T.code };

    ghost view = { λ b. b.place.value };
}

impl<T> Boxed<T> {
    /// What it holds.
    pub fn get(&self) -> &T
        ensures { result.now ≡ self.now }
    {
        &self.place
    }

    /// Gives back what it holds.
    pub fn into_inner(self) -> T
        ensures { result ≡ self }
    {
        let Boxed { place } = self;
        Box::into_inner(place)
    }
}

impl<T: Drop> Boxed<T> {
    /// Holds this part. Where memory runs out, the part is let go.
    pub fn new(alloc: Global, part: T) -> Result<Boxed<T>, AllocError>
        ensures { IfOk result (λ b. b ≡ part) }
    {
        let place = Box::new(alloc, part)?;
        Ok(Boxed { place })
    }
}
