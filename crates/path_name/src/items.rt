//! A `Vec` that contracts see as the list of its items.

ghost use Rattle.std.specs.Prelude.{◌≡◌, ◌↔◌, [], IsTrue};
ghost use Rattle.std.specs.Cmp.Lexicographic.{pointwise, lists_per, lists_equiv};

use std::alloc::Global;
use std::marker::Model;

/// A list of items, in order. A contract sees the list and not the memory that holds it, so a copy
/// equals what it copies.
#[derive(Debug, Drop)]
pub struct Items<X> {
    items: Vec<X>,
}

impl<X> Model for Items<X> {
    ghost use Rattle.std.specs.Prelude.{List};
    ghost use Rattle.std.specs.Coded.{coded_list};

    ghost Value = { List X };

    ghost coded = { coded_list X.code };

    ghost view = { λ list. list.items.items };
}

impl<X> Items<X> {
    /// The list without items. Takes no memory.
    pub fn empty(alloc: Global) -> Items<X>
        ensures { result ≡ [] }
    {
        Items {
            items: Vec::new(alloc),
        }
    }

    /// The list of what `items` holds. Takes no memory.
    pub fn of(items: Vec<X>) -> Items<X>
        ensures { result ≡ items.items }
    {
        Items { items }
    }

    /// The items as a slice.
    pub fn as_slice(&self) -> &[X]
        ensures { result.now ≡ self.now }
    {
        self.items.as_slice()
    }

    /// Whether there are no items.
    pub fn is_empty(&self) -> bool
        ensures { IsTrue result ↔ (self.now ≡ []) }
    {
        self.items.is_empty()
    }

    /// The items as a `Vec`. Takes no memory.
    pub fn into_vec(self) -> Vec<X>
        ensures { result.items ≡ self }
    {
        let Items { items } = self;
        items
    }
}

impl<X: PartialEq> PartialEq for Items<X> {
    ghost eq = { pointwise X.eq };

    ghost laws = { lists_per X.laws };

    fn eq(&self, other: &Items<X>) -> bool {
        self.items.as_slice() == other.items.as_slice()
    }
}

impl<X: Eq> Eq for Items<X> {
    ghost laws = { lists_equiv X.Eq.laws };
}
