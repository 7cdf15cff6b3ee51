//! A list in a field of another type.
ghost use Rattle.std.specs.Prelude.{◌≡◌};

use std::marker::Model;

/// A list in a field of another type. Contracts see it as its list, so two values of that type are
/// equal where their lists are.
#[derive(Debug, Drop)]
pub struct Items<T> {
    items: Vec<T>,
}

impl<T> Model for Items<T> {
    ghost use Rattle.std.specs.Prelude.{List};
    ghost use Rattle.std.specs.Coded.{coded_list};

    ghost Value = { List T };

    ghost coded = { coded_list T.code };

    ghost view = { λ l. l.items.items };
}

impl<T> Items<T> {
    /// The list of a `Vec`, which it keeps.
    pub fn of(items: Vec<T>) -> Items<T>
        ensures { result ≡ items.items }
    {
        Items { items }
    }

    /// Its elements, in order.
    pub fn as_slice(&self) -> &[T]
        ensures { result.now ≡ self.now }
    {
        self.items.as_slice()
    }

    /// Gives the `Vec` back.
    pub fn into_vec(self) -> Vec<T>
        ensures { result.items ≡ self }
    {
        let Items { items } = self;
        items
    }
}
