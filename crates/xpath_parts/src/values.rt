//! The values of arguments.
ghost use Rattle.std.specs.Prelude.{◌≡◌, [], ◌∷◌, ◌++◌, length, OnOk};
ghost use Rattle.xpath_parts.specs.Finishing.{first_value};

use std::alloc::{AllocError, Global};
use std::marker::Model;
use xpath_items::Seq;

/// Values in their order. Contracts see the list of them.
#[derive(Drop)]
pub struct Values<'a> {
    values: Vec<Seq<'a>>,
}

impl<'a> Model for Values<'a> {
    ghost use Rattle.std.specs.Prelude.{List};
    ghost use Rattle.xpath_items.specs.declared.item.Item.{Item};

    ghost Value = { List (List Item) };

    ghost view = { λ v. v.values.items };
}

impl<'a> Values<'a> {
    pub fn new(alloc: Global) -> Values<'a>
        ensures { result ≡ [] }
    {
        Values {
            values: Vec::new(alloc),
        }
    }

    /// Puts the value behind the others.
    pub fn push(&mut self, value: Seq<'a>) -> Result<(), AllocError>
        ensures { OnOk result (self.new ≡ self.old ++ value.entry ∷ []) }
    {
        self.values.push(value)?;
        Ok(())
    }

    pub fn as_slice(&self) -> &[Seq<'a>]
        ensures { result.now ≡ self.now }
    {
        self.values.as_slice()
    }

    pub fn len(&self) -> usize
        ensures { result ≡ length self.now }
    {
        self.values.len()
    }

    /// The first value, empty where there is none.
    pub fn into_first(self, alloc: Global) -> Seq<'a>
        ensures { result ≡ first_value self.entry }
    {
        first_of(alloc, self.values)
    }
}

fn first_of<'a>(alloc: Global, values: Vec<Seq<'a>>) -> Seq<'a>
    ensures { result ≡ first_value values.entry.items }
{
    let mut values = values;
    values.truncate(1);
    match values.pop() {
        Some(value) => value,
        None => Seq::new(alloc),
    }
}
