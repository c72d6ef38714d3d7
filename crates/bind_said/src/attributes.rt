//! Attributes of an element, and strings of nodes.

ghost use Rattle.std.specs.Prelude.{◌≡◌, ◌<◌, [], length, chars, IfOk, OnOk};
ghost use Rattle.xml_events.specs.Names.{find_name};
ghost use Rattle.bind_said.specs.Marks.{mark_all};
ghost use Rattle.bind_said.specs.Saying as spec;

use crate::marks::mark;
use crate::words::is_word;
use bind_rows::Leaf;
use bind_walk::{FoundLeaf, WalkInput, chains_lead_on, has_name, leaf_number};
use inv_base::{Steps, Txt};
use node_arena::{Doc, NodeId};
use std::alloc::{AllocError, Global};
use std::sync::ledger::Ledger;

/// The number that the name of an attribute, in no namespace, has in the document, if the document has the name.
pub(crate) fn attribute_number(
    alloc: Global,
    doc: &Doc<'_>,
    local: &str,
) -> Result<Option<u32>, AllocError>
    ensures { IfOk result (λ number. number ≡ find_name (record { uri = []; local = chars local.now }) doc.now.names) }
{
    let leaf = Leaf::Attribute(Txt::of(alloc, local)?);
    let found = leaf_number(alloc, doc, &leaf);
    drop(leaf);
    Ok(number_in(found?))
}

fn number_in(leaf: FoundLeaf) -> Option<u32>
    ensures { result ≡ spec.number_in leaf }
{
    match leaf {
        FoundLeaf::Element => None,
        FoundLeaf::Attribute(number) => number,
    }
}

/// Marks the attributes of an element that have the name.
pub(crate) fn mark_attributes<L: Ledger>(
    input: &WalkInput<'_, '_>,
    name: Option<u32>,
    n: NodeId,
    marks: &mut Vec<bool>,
    steps: &mut Steps<L>,
)
    requires { n < length input.now.doc.now.nodes }
    ensures { marks.new.items ≡ mark_all marks.old.items (spec.named_attributes input.now.doc.now name n) }
{
    chains_lead_on(input.doc);
    let mut at = input.doc.first_attribute(n, steps);
    'attributes: while let Some(m) = at {
        mark_named(input.doc, name, m, marks);
        at = input.doc.next_attribute(m, steps);
    }
}

fn mark_named(doc: &Doc<'_>, name: Option<u32>, n: NodeId, marks: &mut Vec<bool>)
    requires { n < length doc.now.nodes }
    ensures { marks.new.items ≡ mark_all marks.old.items (spec.named doc.now name n) }
{
    if has_name(doc, n, name) {
        mark(marks, n);
    }
}

/// Marks the attributes of an element that have the name, and whose string is one of the constant's words.
pub(crate) fn mark_saying_attributes<L: Ledger>(
    input: &WalkInput<'_, '_>,
    name: Option<u32>,
    text: &str,
    n: NodeId,
    marks: &mut Vec<bool>,
    steps: &mut Steps<L>,
) -> Result<(), AllocError>
    requires { n < length input.now.doc.now.nodes }
    ensures { OnOk result (marks.new.items ≡ mark_all marks.old.items (spec.saying_attributes input.now.doc.now (chars text.now) name n)) }
{
    chains_lead_on(input.doc);
    let mut at = input.doc.first_attribute(n, steps);
    'attributes: while let Some(m) = at {
        mark_saying_named(input, name, text, m, marks, steps)?;
        at = input.doc.next_attribute(m, steps);
    }
    Ok(())
}

fn mark_saying_named<L: Ledger>(
    input: &WalkInput<'_, '_>,
    name: Option<u32>,
    text: &str,
    n: NodeId,
    marks: &mut Vec<bool>,
    steps: &mut Steps<L>,
) -> Result<(), AllocError>
    requires { n < length input.now.doc.now.nodes }
    ensures { OnOk result (marks.new.items ≡ mark_all marks.old.items (spec.saying_named input.now.doc.now (chars text.now) name n)) }
{
    if !has_name(input.doc, n, name) {
        return Ok(());
    }
    mark_saying(input, text, n, marks, steps)
}

/// Marks a node whose string is one of the constant's words.
pub(crate) fn mark_saying<L: Ledger>(
    input: &WalkInput<'_, '_>,
    text: &str,
    n: NodeId,
    marks: &mut Vec<bool>,
    steps: &mut Steps<L>,
) -> Result<(), AllocError>
    requires { n < length input.now.doc.now.nodes }
    ensures { OnOk result (marks.new.items ≡ mark_all marks.old.items (spec.saying input.now.doc.now (chars text.now) n)) }
{
    if says(input, text, n, steps)? {
        mark(marks, n);
    }
    Ok(())
}

fn says<L: Ledger>(
    input: &WalkInput<'_, '_>,
    text: &str,
    n: NodeId,
    steps: &mut Steps<L>,
) -> Result<bool, AllocError>
    requires { n < length input.now.doc.now.nodes }
    ensures { IfOk result (λ says. says ≡ spec.says input.now.doc.now (chars text.now) n) }
{
    let string = input.doc.string(input.alloc, n, steps)?;
    Ok(is_word(string.as_str(), text))
}
