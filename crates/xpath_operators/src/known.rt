//! Items that were seen, for asking whether one is equal to one of them.
ghost use Rattle.std.specs.Prelude.{◌≡◌, ◌||◌, not, [], IfOk, OnOk};
ghost use Rattle.std.specs.Ordering.{is_eq};
ghost use Rattle.xpath_items.specs.declared.item.Item.{Item};
ghost use Rattle.xpath_operators.specs.Ranks.{item_cmp, has_alike};

use crate::ranking::Ranked;
use std::alloc::{AllocError, Global};
use std::collections::BTreeSet;
use std::marker::Model;
use xpath_items::Item;

/// Items that were seen, of equal ones the first. Contracts see the list of them, in the order of `item_cmp`. To ask
/// and to add takes time by the logarithm of their number.
pub struct KnownItems<'s, 'a> {
    set: BTreeSet<Ranked<'s, 'a>>,
}

impl Drop for KnownItems<'_, '_> {
    fn drop(self) {
        let KnownItems { set } = self;
        drop(set);
    }
}

impl<'s, 'a> Model for KnownItems<'s, 'a> {
    ghost use Rattle.std.specs.Prelude.{List, map};
    ghost use Rattle.xpath_items.specs.declared.item.Item.{Item};

    ghost Value = { List Item };

    ghost view = { λ known. map (λ key. key.item.now) known.set.keys };
}

impl<'s, 'a> KnownItems<'s, 'a> {
    /// No items.
    pub fn new(alloc: Global) -> KnownItems<'s, 'a>
        ensures { result ≡ [] }
    {
        KnownItems {
            set: BTreeSet::new(alloc),
        }
    }

    /// Adds an item, and tells whether none that was known is equal to it: numbers to numbers, texts to texts, of a
    /// type or not, and so on.
    pub fn add(&mut self, item: &'s Item<'a>) -> Result<bool, AllocError>
        ensures new { IfOk result (λ is_new. is_new ≡ not (has_alike self.old item.now)) }
        ensures grown { OnOk result ((x : Item) → has_alike self.new x ≡ (has_alike self.old x || is_eq (item_cmp x item.now))) }
    {
        let is_new = self.set.insert(Ranked::of(item))?;
        Ok(is_new)
    }
}
