//! `distinct-values` (Functions and Operators, section 15.1.6), at an atomised argument.
ghost use Rattle.std.specs.Prelude.{◌≡◌, true, length, IfOk, OnOk, Ok};
ghost use Rattle.std.specs.List.{list_all};
ghost use Rattle.node_arena.specs.Moves.{tree_nodes};
ghost use Rattle.xpath_items.specs.Faults.{Gives};
ghost use Rattle.xpath_meaning.specs.Collections as meaning;
ghost use Rattle.xpath_meaning.specs.Items.{atomised};
ghost use Rattle.xpath_operators.specs.Nodes.{AreWithin};
ghost use Rattle.xpath_values.specs.Distinct as spec;

use inv_decimal::laws::days_are_ordered;
use node_arena::Doc;
use std::alloc::{AllocError, Global};
use xpath_items::{Fault, Item, Seq};
use xpath_operators::{KnownItems, atoms};

/// Puts an item behind those that were kept, unless one that is known is equal to it.
fn keep<'s, 'a>(
    alloc: Global,
    known: &mut KnownItems<'s, 'a>,
    kept: &mut Vec<Item<'a>>,
    item: &'s Item<'a>,
) -> Result<(), AllocError>
    requires known { spec.AreKnown known.old kept.old.items }
    requires atomic { spec.is_atomic item.now ≡ true }
    ensures kept { OnOk result (kept.new.items ≡ spec.with_item kept.old.items item.now) }
    ensures known { OnOk result (spec.AreKnown known.new kept.new.items) }
{
    days_are_ordered();
    if known.add(item)? {
        kept.push(item.copied(alloc)?)?;
    }
    Ok(())
}

/// The first of equal items, in their order.
fn distinct<'a>(alloc: Global, items: &[Item<'a>]) -> Result<Vec<Item<'a>>, AllocError>
    requires { list_all spec.is_atomic items.now ≡ true }
    ensures { IfOk result (λ kept. kept.items ≡ meaning.distinct items.now) }
{
    days_are_ordered();
    let mut known = KnownItems::new(alloc);
    let mut kept = Vec::new(alloc);
    'items: for item in items {
        keep(alloc, &mut known, &mut kept, item)?;
    }
    Ok(kept)
}

/// `distinct-values`
pub(crate) fn distinct_values<'a>(
    alloc: Global,
    doc: &Doc<'a>,
    x: &[Item<'a>],
) -> Result<Seq<'a>, Fault>
    requires { AreWithin (length doc.now.nodes) x.now }
    ensures { Gives result (Ok (meaning.distinct (atomised (tree_nodes doc.now) x.now))) }
{
    let items = atoms(alloc, doc, x)?;
    Ok(Seq::of_items(distinct(alloc, &items)?))
}
