//! Arguments as texts and numbers (XPath 2.0, section 3.1.5).
ghost use Rattle.std.specs.Prelude.{◌≡◌, ◌∷◌, [], length};
ghost use Rattle.node_arena.specs.Moves.{tree_nodes};
ghost use Rattle.xpath_items.specs.Faults.{Gives};
ghost use Rattle.xpath_meaning.specs.Functions as meaning;
ghost use Rattle.xpath_meaning.specs.Items.{atom};
ghost use Rattle.xpath_meaning.specs.Numbers.{number_of};
ghost use Rattle.xpath_operators.specs.Nodes.{IsWithin, AreWithin};

use inv_decimal::Dec;
use node_arena::Doc;
use std::alloc::Global;
use xpath_items::{DynError, Fault, Item, Str};
use xpath_operators::{atom, number_of};

/// The empty text.
pub(crate) fn empty_text<'a>() -> Str<'a>
    ensures { result ≡ [] }
{
    Str::lent("")
}

/// A text among atomised items, taken from them: none is the empty one.
fn text_among<'a>(item: Item<'a>) -> Result<Str<'a>, Fault>
    ensures { Gives result (meaning.text_among (item.entry ∷ [])) }
{
    match item {
        Item::String(text) => Ok(text),
        Item::Untyped(text) => Ok(text),
        _ => Err(Fault::Error(DynError::XPTY0004)),
    }
}

/// A text argument.
pub(crate) fn text_argument<'a>(
    alloc: Global,
    doc: &Doc<'a>,
    items: &[Item<'a>],
) -> Result<Str<'a>, Fault>
    requires { AreWithin (length doc.now.nodes) items.now }
    ensures { Gives result (meaning.text_argument (tree_nodes doc.now) items.now) }
{
    match items {
        [] => Ok(empty_text()),
        [item] => text_among(atom(alloc, doc, item)?),
        _ => Err(Fault::Error(DynError::XPTY0004)),
    }
}

/// The number that an item is, once it is atomised.
pub(crate) fn number_at<'a>(alloc: Global, doc: &Doc<'a>, item: &Item<'a>) -> Result<Dec, Fault>
    requires { IsWithin (length doc.now.nodes) item.now }
    ensures { Gives result (number_of (atom (tree_nodes doc.now) item.now)) }
{
    let atom = atom(alloc, doc, item)?;
    Ok(number_of(&atom)?)
}

/// A number argument of which there is exactly one.
pub(crate) fn number_argument<'a>(
    alloc: Global,
    doc: &Doc<'a>,
    items: &[Item<'a>],
) -> Result<Dec, Fault>
    requires { AreWithin (length doc.now.nodes) items.now }
    ensures { Gives result (meaning.number_argument (tree_nodes doc.now) items.now) }
{
    match items {
        [item] => number_at(alloc, doc, item),
        _ => Err(Fault::Error(DynError::XPTY0004)),
    }
}
