//! Functions on numbers (Functions and Operators, sections 6.4 and 15.4.5), at the values of their arguments.
ghost use Rattle.std.specs.Prelude.{◌≡◌, length};
ghost use Rattle.node_arena.specs.Moves.{tree_nodes};
ghost use Rattle.inv_decimal.specs.Arithmetic as d;
ghost use Rattle.xpath_items.specs.declared.item.Item.TheVariants as i;
ghost use Rattle.xpath_items.specs.Faults.{Gives};
ghost use Rattle.xpath_meaning.specs.Functions as meaning;
ghost use Rattle.xpath_meaning.specs.Numbers as spec;
ghost use Rattle.xpath_meaning.specs.Values as values;
ghost use Rattle.xpath_operators.specs.Nodes.{AreWithin};

use crate::arguments::number_at;
use node_arena::Doc;
use std::alloc::Global;
use xpath_items::{DynError, Fault, Item, Seq};
use xpath_operators::{in_range, number, one};

/// `abs`
pub(crate) fn abs<'a>(alloc: Global, doc: &Doc<'a>, x: &[Item<'a>]) -> Result<Seq<'a>, Fault>
    requires { AreWithin (length doc.now.nodes) x.now }
    ensures { Gives result (meaning.of_number (tree_nodes doc.now) (λ z. values.one (i.Number (meaning.absolute z))) x.now) }
{
    match x {
        [] => Ok(Seq::new(alloc)),
        [item] => {
            let z = number_at(alloc, doc, item)?;
            one(alloc, Item::Number(z.abs()))
        }
        _ => Err(Fault::Error(DynError::XPTY0004)),
    }
}

/// `floor`
pub(crate) fn floor<'a>(alloc: Global, doc: &Doc<'a>, x: &[Item<'a>]) -> Result<Seq<'a>, Fault>
    requires { AreWithin (length doc.now.nodes) x.now }
    ensures { Gives result (meaning.of_number (tree_nodes doc.now) (λ z. spec.number (spec.in_range (d.rounded_down z))) x.now) }
{
    match x {
        [] => Ok(Seq::new(alloc)),
        [item] => {
            let z = number_at(alloc, doc, item)?;
            number(alloc, in_range(z.floor()))
        }
        _ => Err(Fault::Error(DynError::XPTY0004)),
    }
}

/// `ceiling`
pub(crate) fn ceiling<'a>(alloc: Global, doc: &Doc<'a>, x: &[Item<'a>]) -> Result<Seq<'a>, Fault>
    requires { AreWithin (length doc.now.nodes) x.now }
    ensures { Gives result (meaning.of_number (tree_nodes doc.now) (λ z. spec.number (spec.in_range (d.rounded_up z))) x.now) }
{
    match x {
        [] => Ok(Seq::new(alloc)),
        [item] => {
            let z = number_at(alloc, doc, item)?;
            number(alloc, in_range(z.ceiling()))
        }
        _ => Err(Fault::Error(DynError::XPTY0004)),
    }
}

/// `round`: a half goes up.
pub(crate) fn round<'a>(alloc: Global, doc: &Doc<'a>, x: &[Item<'a>]) -> Result<Seq<'a>, Fault>
    requires { AreWithin (length doc.now.nodes) x.now }
    ensures { Gives result (meaning.of_number (tree_nodes doc.now) (λ z. spec.number (spec.in_range (d.rounded z))) x.now) }
{
    match x {
        [] => Ok(Seq::new(alloc)),
        [item] => {
            let z = number_at(alloc, doc, item)?;
            number(alloc, in_range(z.round()))
        }
        _ => Err(Fault::Error(DynError::XPTY0004)),
    }
}
