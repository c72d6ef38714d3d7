//! Values that are kept: of parts that have one value at all nodes.
ghost use Rattle.std.specs.Prelude.{◌≡◌, None, Some, option_map, replicate, get_or, IfOk, OnOk, OnErr};
ghost use Rattle.xpath_meaning.specs.Values as values;
ghost use Rattle.xpath_parts.specs.Held.{held_in};
ghost use Rattle.xpath_parts.specs.Slots as spec;
ghost use Rattle.xpath_steps.specs.Lending.{lent_value};

use std::alloc::{AllocError, Global};
use std::marker::Model;
use xpath_items::Outcome;
use xpath_operators::outcome;
use xpath_steps::{Lent, copy_of, lend};

/// A slot for each part that is kept: it is empty, or holds the part's value or error. Contracts see the list of them.
#[derive(Drop)]
pub struct Slots<'a> {
    kept: Vec<Option<Outcome<'a>>>,
}

impl<'a> Model for Slots<'a> {
    ghost use Rattle.std.specs.Prelude.{List, Option};
    ghost use Rattle.xpath_meaning.specs.Values.{Value as Answer};
    ghost use Rattle.xpath_parts.specs.Held.{held_in};

    ghost Value = { List (Option Answer) };

    ghost view = { λ slots. held_in slots.kept.items };
}

impl<'a> Slots<'a> {
    /// So many slots, all empty.
    pub fn new(alloc: Global, count: usize) -> Result<Slots<'a>, AllocError>
        ensures { IfOk result (λ slots. slots ≡ replicate count None) }
    {
        let mut kept = Vec::new(alloc);
        'slots: for _k in 0..count {
            kept.push(None)?;
        }
        Ok(Slots { kept })
    }

    /// What the slot holds, lent where it lies.
    pub fn lent(&self, slot: usize) -> Option<Lent<'_, 'a>>
        ensures { option_map lent_value result ≡ get_or self.now slot None }
    {
        lent_from(&self.kept, slot)
    }

    /// Keeps what was found in the slot, where there is one, and gives a copy. Without memory nothing changes.
    pub fn fill(
        &mut self,
        alloc: Global,
        slot: usize,
        found: Outcome<'a>,
    ) -> Result<Outcome<'a>, AllocError>
        ensures value { IfOk result (λ copy. values.value copy ≡ values.value found.entry) }
        ensures filled { OnOk result (self.new ≡ spec.filled self.old slot (values.value found.entry)) }
        ensures err { OnErr result (self.new ≡ self.old) }
    {
        let copy = outcome(copy_of(alloc, lend(&found)))?;
        self.keep(slot, found);
        Ok(copy)
    }

    /// Keeps what was found in the slot, where there is one.
    pub fn keep(&mut self, slot: usize, found: Outcome<'a>)
        ensures { self.new ≡ spec.filled self.old slot (values.value found.entry) }
    {
        put_at(self.kept.as_mut_slice(), slot, found);
    }
}

fn put_at<'a>(kept: &mut [Option<Outcome<'a>>], slot: usize, outcome: Outcome<'a>)
    ensures { held_in kept.new ≡ spec.filled (held_in kept.old) slot (values.value outcome.entry) }
{
    if slot < kept.len() {
        kept[slot] = Some(outcome);
    }
}

fn lent_from<'r, 'a>(kept: &'r [Option<Outcome<'a>>], slot: usize) -> Option<Lent<'r, 'a>>
    ensures { option_map lent_value result ≡ get_or (held_in kept.now) slot None }
{
    match kept.get(slot) {
        Some(Some(outcome)) => Some(lend(outcome)),
        _ => None,
    }
}
