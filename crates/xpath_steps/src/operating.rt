//! Operators that take the values of both operands first (XPath 2.0, sections 3.3 to 3.5).
ghost use Rattle.std.specs.Prelude.{◌≡◌, length, IfOk, None};
ghost use Rattle.node_arena.specs.Moves.{tree_nodes};
ghost use Rattle.xpath_items.specs.Faults.{Gives};
ghost use Rattle.xpath_meaning.specs.Items.{atomised};
ghost use Rattle.xpath_meaning.specs.Comparing as comparing;
ghost use Rattle.xpath_meaning.specs.Meaning as meaning;
ghost use Rattle.xpath_meaning.specs.Numbers as numbers;
ghost use Rattle.xpath_operators.specs.Nodes.{AreWithin};

use crate::nodes::any_node;
use crate::sets::set_of;
use node_arena::Doc;
use std::alloc::Global;
use xpath_grammar::operators::{Op, comparison};
use xpath_items::{Fault, Item, Seq};
use xpath_operators::{arithmetic, atoms, compared, range};
use xpath_tokens::token::Operator;

fn is_set_operator(operator: Operator) -> bool
    ensures { result ≡ meaning.is_set_operator operator }
{
    match operator {
        Operator::Bar | Operator::Union | Operator::Intersect | Operator::Except => true,
        _ => false,
    }
}

fn is_range_operator(operator: Operator) -> bool
    ensures { result ≡ meaning.is_range_operator operator }
{
    match operator {
        Operator::To => true,
        _ => false,
    }
}

/// A comparison of two values. One without nodes is looked at where it lies, since its items are their own atoms.
fn comparing<'a>(
    alloc: Global,
    doc: &Doc<'a>,
    op: Op,
    xs: &[Item<'a>],
    ys: &[Item<'a>],
) -> Result<Seq<'a>, Fault>
    requires xs { AreWithin (length doc.now.nodes) xs.now }
    requires ys { AreWithin (length doc.now.nodes) ys.now }
    ensures value { Gives result (comparing.compared op (atomised (tree_nodes doc.now) xs.now) (atomised (tree_nodes doc.now) ys.now)) }
    ensures within { IfOk result (λ found. AreWithin (length doc.now.nodes) found) }
{
    if any_node(xs) {
        let atoms = atoms(alloc, doc, xs)?;
        let found = comparing_with(alloc, doc, op, &atoms, ys);
        drop(atoms);
        found
    } else {
        comparing_with(alloc, doc, op, xs, ys)
    }
}

/// The same, where the left value is atomised.
fn comparing_with<'a>(
    alloc: Global,
    doc: &Doc<'a>,
    op: Op,
    xs: &[Item<'a>],
    ys: &[Item<'a>],
) -> Result<Seq<'a>, Fault>
    requires ys { AreWithin (length doc.now.nodes) ys.now }
    ensures { Gives result (comparing.compared op xs.now (atomised (tree_nodes doc.now) ys.now)) }
{
    if any_node(ys) {
        let atoms = atoms(alloc, doc, ys)?;
        let found = compared(alloc, op, xs, &atoms);
        drop(atoms);
        found
    } else {
        compared(alloc, op, xs, ys)
    }
}

/// The range from one value to another.
fn ranging<'a>(
    alloc: Global,
    doc: &Doc<'a>,
    xs: &[Item<'a>],
    ys: &[Item<'a>],
) -> Result<Seq<'a>, Fault>
    requires xs { AreWithin (length doc.now.nodes) xs.now }
    requires ys { AreWithin (length doc.now.nodes) ys.now }
    ensures value { Gives result (numbers.range_of (atomised (tree_nodes doc.now) xs.now) (atomised (tree_nodes doc.now) ys.now)) }
    ensures within { IfOk result (λ found. AreWithin (length doc.now.nodes) found) }
{
    let xs = atoms(alloc, doc, xs)?;
    let ys = atoms(alloc, doc, ys)?;
    range(alloc, &xs, &ys)
}

/// Arithmetic of two values.
fn calculating<'a>(
    alloc: Global,
    doc: &Doc<'a>,
    operator: Operator,
    xs: &[Item<'a>],
    ys: &[Item<'a>],
) -> Result<Seq<'a>, Fault>
    requires xs { AreWithin (length doc.now.nodes) xs.now }
    requires ys { AreWithin (length doc.now.nodes) ys.now }
    ensures value { Gives result (numbers.arithmetic operator (atomised (tree_nodes doc.now) xs.now) (atomised (tree_nodes doc.now) ys.now)) }
    ensures within { IfOk result (λ found. AreWithin (length doc.now.nodes) found) }
{
    let xs = atoms(alloc, doc, xs)?;
    let ys = atoms(alloc, doc, ys)?;
    arithmetic(alloc, operator, &xs, &ys)
}

/// An operator other than `and`, `or`, `,` and those of paths, at the values of its operands: a comparison, a set of nodes, a range
/// or arithmetic. The operands are atomised first, but for sets.
pub fn operated<'a>(
    alloc: Global,
    doc: &Doc<'a>,
    operator: Operator,
    xs: &[Item<'a>],
    ys: &[Item<'a>],
) -> Result<Seq<'a>, Fault>
    requires xs { AreWithin (length doc.now.nodes) xs.now }
    requires ys { AreWithin (length doc.now.nodes) ys.now }
    ensures value { Gives result (meaning.operated (tree_nodes doc.now) operator xs.now ys.now) }
    ensures within { IfOk result (λ found. AreWithin (length doc.now.nodes) found) }
{
    match comparison(operator) {
        Some(op) => comparing(alloc, doc, op, xs, ys),
        None => combining(alloc, doc, operator, xs, ys),
    }
}

/// An operator that is no comparison.
fn combining<'a>(
    alloc: Global,
    doc: &Doc<'a>,
    operator: Operator,
    xs: &[Item<'a>],
    ys: &[Item<'a>],
) -> Result<Seq<'a>, Fault>
    requires xs { AreWithin (length doc.now.nodes) xs.now }
    requires ys { AreWithin (length doc.now.nodes) ys.now }
    ensures value { Gives result (meaning.of_values (tree_nodes doc.now) None operator xs.now ys.now) }
    ensures within { IfOk result (λ found. AreWithin (length doc.now.nodes) found) }
{
    if is_set_operator(operator) {
        return set_of(alloc, doc, operator, xs, ys);
    }
    if is_range_operator(operator) {
        ranging(alloc, doc, xs, ys)
    } else {
        calculating(alloc, doc, operator, xs, ys)
    }
}
