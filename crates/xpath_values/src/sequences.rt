//! Functions on sequences (Functions and Operators, sections 15.1 and 15.2), at the values of their arguments.
ghost use Rattle.std.specs.Prelude.{◌≡◌, not, length, reverse, IfOk, Ok};
ghost use Rattle.node_arena.specs.Moves.{tree_nodes};
ghost use Rattle.xpath_items.specs.Faults.{Gives};
ghost use Rattle.xpath_meaning.specs.Comparing as comparing;
ghost use Rattle.xpath_meaning.specs.Functions as meaning;
ghost use Rattle.xpath_meaning.specs.Items as items;
ghost use Rattle.xpath_meaning.specs.Numbers as numbers;
ghost use Rattle.xpath_meaning.specs.Values.{then_};
ghost use Rattle.xpath_operators.specs.Nodes.{AreWithin};

use node_arena::Doc;
use std::alloc::{AllocError, Global};
use xpath_items::{DynError, Fault, Item, Seq};
use xpath_operators::{atoms, boolean, counted, one, truth};

/// Whether there are no items.
fn is_empty(x: &[Item<'_>]) -> bool
    ensures { result ≡ items.is_empty x.now }
{
    match x {
        [] => true,
        _ => false,
    }
}

/// The other truth.
fn turned(found: Result<bool, DynError>) -> Result<bool, DynError>
    ensures { result ≡ then_ found (λ b. Ok (not b)) }
{
    match found {
        Ok(b) => Ok(!b),
        Err(error) => Err(error),
    }
}

/// `not`
pub(crate) fn negated<'a>(alloc: Global, x: &Seq<'a>) -> Result<Seq<'a>, Fault>
    ensures { Gives result (comparing.boolean (then_ (items.truth x.now) (λ b. Ok (not b)))) }
{
    boolean(alloc, turned(truth(x)))
}

/// `boolean`
pub(crate) fn boolean_of<'a>(alloc: Global, x: &Seq<'a>) -> Result<Seq<'a>, Fault>
    ensures { Gives result (comparing.boolean (items.truth x.now)) }
{
    boolean(alloc, truth(x))
}

/// `exists`
pub fn exists<'a>(alloc: Global, x: &[Item<'a>]) -> Result<Seq<'a>, Fault>
    ensures { Gives result (meaning.yes_or_no (not (items.is_empty x.now))) }
{
    one(alloc, Item::Boolean(!is_empty(x)))
}

/// `empty`
pub fn empty<'a>(alloc: Global, x: &[Item<'a>]) -> Result<Seq<'a>, Fault>
    ensures { Gives result (meaning.yes_or_no (items.is_empty x.now)) }
{
    one(alloc, Item::Boolean(is_empty(x)))
}

/// `count`
pub fn count<'a>(alloc: Global, x: &[Item<'a>]) -> Result<Seq<'a>, Fault>
    ensures { Gives result (numbers.counted (length x.now)) }
{
    counted(alloc, x.len() as u64)
}

/// The items from the last to the first.
fn turned_round<'a>(alloc: Global, x: &[Item<'a>]) -> Result<Vec<Item<'a>>, AllocError>
    ensures { IfOk result (λ items. items.items ≡ reverse x.now) }
{
    let mut turned = Vec::with_capacity(alloc, x.len())?;
    let mut left = x.len();
    'items: while left > 0 {
        left -= 1;
        turned.push(x[left].copied(alloc)?)?;
    }
    Ok(turned)
}

/// `reverse`
pub(crate) fn reversed<'a>(alloc: Global, x: &[Item<'a>]) -> Result<Seq<'a>, Fault>
    ensures { Gives result (Ok (reverse x.now)) }
{
    Ok(Seq::of_items(turned_round(alloc, x)?))
}

/// `data`
pub(crate) fn data<'a>(alloc: Global, doc: &Doc<'a>, x: &[Item<'a>]) -> Result<Seq<'a>, Fault>
    requires { AreWithin (length doc.now.nodes) x.now }
    ensures { Gives result (Ok (items.atomised (tree_nodes doc.now) x.now)) }
{
    Ok(Seq::of_items(atoms(alloc, doc, x)?))
}
