ghost use Rattle.std.specs.Prelude.{◌≡◌, [], ◌∷◌, ◌++◌, length, IfOk, OnOk, OnErr};
ghost use Rattle.std.specs.Slice.{IsItemAt};

use crate::item::Item;
use std::alloc::{AllocError, Global};
use std::marker::Model;

/// A value: items in their order. Contracts see the list of them.
#[derive(Drop)]
pub struct Seq<'a> {
    items: Vec<Item<'a>>,
}

impl<'a> Model for Seq<'a> {
    ghost use Rattle.std.specs.Prelude.{List};
    ghost use Rattle.xpath_items.specs.declared.item.Item.{Item};

    ghost Value = { List Item };

    ghost view = { λ s. s.items.items };
}

impl<'a> Seq<'a> {
    /// The empty sequence.
    pub fn new(alloc: Global) -> Seq<'a>
        ensures { result ≡ [] }
    {
        Seq {
            items: Vec::new(alloc),
        }
    }

    /// One item alone.
    pub fn one(alloc: Global, item: Item<'a>) -> Result<Seq<'a>, AllocError>
        ensures { IfOk result (λ s. s ≡ item.entry ∷ []) }
    {
        let mut items = Vec::new(alloc);
        items.push(item)?;
        Ok(Seq { items })
    }

    /// These items.
    pub fn of_items(items: Vec<Item<'a>>) -> Seq<'a>
        ensures { result ≡ items.entry.items }
    {
        Seq { items }
    }

    /// Puts the item behind the others. Without memory for it nothing changes.
    pub fn push(&mut self, item: Item<'a>) -> Result<(), AllocError>
        ensures ok { OnOk result (self.new ≡ self.old ++ item.entry ∷ []) }
        ensures err { OnErr result (self.new ≡ self.old) }
    {
        self.items.push(item)?;
        Ok(())
    }

    /// Puts the other's items behind these. Without memory for them nothing changes.
    pub fn append(&mut self, other: Seq<'a>) -> Result<(), AllocError>
        ensures ok { OnOk result (self.new ≡ self.old ++ other.entry) }
        ensures err { OnErr result (self.new ≡ self.old) }
    {
        let mut items = other.items;
        self.items.append(&mut items)
    }

    /// Its items, in their order.
    pub fn as_slice(&self) -> &[Item<'a>]
        ensures { result.now ≡ self.now }
    {
        self.items.as_slice()
    }

    /// The items themselves.
    pub fn into_items(self) -> Vec<Item<'a>>
        ensures { result.items ≡ self.entry }
    {
        self.items
    }

    /// How many items there are.
    pub fn len(&self) -> usize
        ensures { result ≡ length self.now }
    {
        self.items.len()
    }

    /// The item of that index, from 0 on.
    pub fn item(&self, k: usize) -> Option<&Item<'a>>
        ensures { IsItemAt self.now k result }
    {
        self.items.get(k)
    }
}
