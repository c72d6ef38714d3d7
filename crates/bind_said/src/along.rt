//! The path of a row, followed through a document by itself.

ghost use Rattle.std.specs.Prelude.{◌≡◌, ◌<◌, length, map, chars, IfOk, OnOk};
ghost use Rattle.bind_said.specs.Marks.{mark_all};
ghost use Rattle.bind_said.specs.Saying as spec;

use crate::attributes::{mark_saying, mark_saying_attributes};
use crate::paths::{FoundStep, are_named, find_steps};
use bind_rows::Step;
use bind_walk::{FoundLeaf, WalkInput, are_met, chains_lead_on, has_name};
use inv_base::Steps;
use node_arena::NodeId;
use std::alloc::AllocError;
use std::sync::ledger::Ledger;

/// Marks the nodes at the end of a path, from the document on, whose strings are words of a constant. Names and guards are looked up
/// once; where the document lacks one of the names nothing is followed.
pub(crate) fn mark_along<L: Ledger>(
    input: &WalkInput<'_, '_>,
    path: &[Step],
    leaf: FoundLeaf,
    text: &str,
    marks: &mut Vec<bool>,
    steps: &mut Steps<L>,
) -> Result<(), AllocError>
    ensures { OnOk result (marks.new.items
        ≡ mark_all marks.old.items (spec.saying_below input.now.doc.now (chars text.now) leaf (map (spec.found_step input.now.doc.now) path.now) 0)) }
{
    let found = find_steps(input.alloc, input.doc, path)?;
    let marked = mark_named_path(input, &found, leaf, text, marks, steps);
    drop(found);
    marked
}

/// The same where the names were looked up.
fn mark_named_path<L: Ledger>(
    input: &WalkInput<'_, '_>,
    path: &[FoundStep],
    leaf: FoundLeaf,
    text: &str,
    marks: &mut Vec<bool>,
    steps: &mut Steps<L>,
) -> Result<(), AllocError>
    ensures { OnOk result (marks.new.items ≡ mark_all marks.old.items (spec.saying_below input.now.doc.now (chars text.now) leaf path.now 0)) }
{
    if !are_named(path) {
        return Ok(());
    }
    let document = input.doc.document();
    mark_below(input, path, leaf, text, document, marks, steps)
}

/// Marks the nodes at the end of a path below an element.
#[cycle(following)]
fn mark_below<L: Ledger>(
    input: &WalkInput<'_, '_>,
    path: &[FoundStep],
    leaf: FoundLeaf,
    text: &str,
    n: NodeId,
    marks: &mut Vec<bool>,
    steps: &mut Steps<L>,
) -> Result<(), AllocError>
    requires { n < length input.now.doc.now.nodes }
    ensures { OnOk result (marks.new.items ≡ mark_all marks.old.items (spec.saying_below input.now.doc.now (chars text.now) leaf path.now n)) }
{
    let Some((step, deeper)) = path.split_first() else {
        return mark_end(input, leaf, text, n, marks, steps);
    };
    chains_lead_on(input.doc);
    let mut at = input.doc.first_child(n, steps);
    'children: while let Some(m) = at {
        mark_in(input, step, deeper, leaf, text, m, marks, steps)?;
        at = input.doc.next_sibling(m, steps);
    }
    Ok(())
}

/// The same in one child, where it is an element of the step.
#[cycle(following)]
fn mark_in<L: Ledger>(
    input: &WalkInput<'_, '_>,
    step: &FoundStep,
    path: &[FoundStep],
    leaf: FoundLeaf,
    text: &str,
    n: NodeId,
    marks: &mut Vec<bool>,
    steps: &mut Steps<L>,
) -> Result<(), AllocError>
    requires { n < length input.now.doc.now.nodes }
    ensures { OnOk result (marks.new.items ≡ mark_all marks.old.items (spec.saying_in input.now.doc.now (chars text.now) leaf step.now path.now n)) }
{
    if !passes(input, step, n, steps)? {
        return Ok(());
    }
    mark_below(input, path, leaf, text, n, marks, steps)
}

/// Whether a node is an element of the step, its guards met.
fn passes<L: Ledger>(
    input: &WalkInput<'_, '_>,
    step: &FoundStep,
    n: NodeId,
    steps: &mut Steps<L>,
) -> Result<bool, AllocError>
    requires { n < length input.now.doc.now.nodes }
    ensures { IfOk result (λ passes. passes ≡ spec.is_of input.now.doc.now step.now n) }
{
    if !has_name(input.doc, n, step.name) {
        return Ok(false);
    }
    are_met(input, n, step.guards.as_slice(), steps)
}

/// Marks the element at the end of the path, or its attributes of the leaf's name.
fn mark_end<L: Ledger>(
    input: &WalkInput<'_, '_>,
    leaf: FoundLeaf,
    text: &str,
    n: NodeId,
    marks: &mut Vec<bool>,
    steps: &mut Steps<L>,
) -> Result<(), AllocError>
    requires { n < length input.now.doc.now.nodes }
    ensures { OnOk result (marks.new.items ≡ mark_all marks.old.items (spec.saying_at input.now.doc.now (chars text.now) leaf n)) }
{
    match leaf {
        FoundLeaf::Element => mark_saying(input, text, n, marks, steps),
        FoundLeaf::Attribute(name) => mark_saying_attributes(input, name, text, n, marks, steps),
    }
}
