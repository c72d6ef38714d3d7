//! Each move from each node of some documents. The rows were made by plain searches over the lists of
//! their nodes, outside of this program.
ghost use Rattle.std.specs.Prelude.{◌≡◌, ◌<◌, length};

use crate::asking::{Asked, expect_documents};
use inv_base::Steps;
use node_arena::{Doc, NodeId};
use std::alloc::{AllocError, Global};
use std::marker::Brand;
use std::sync::ledger::{Blank, Ledger};
use std::test::Fail;

/// A document, and for each of its nodes, in the order of a walk: its number, its parent, first
/// child, next sibling, last inside, first attribute, next attribute and next of its name.
const MOVES: &str = "\
<r></r> | 0: - 1 - 1 - - -; 1: 0 - - 1 - - -
<r>x</r> | 0: - 1 - 2 - - -; 1: 0 2 - 2 - - -; 2: 1 - - 2 - - -
<r><l></l></r> | 0: - 1 - 2 - - -; 1: 0 2 - 2 - - -; 2: 1 - - 2 - - -
<r><l><l><l>x</l></l></l>y</r> | 0: - 1 - 6 - - -; 1: 0 2 - 6 - - -; 2: 1 3 6 5 - - 3; \
    3: 2 4 - 5 - - 4; 4: 3 5 - 5 - - -; 5: 4 - - 5 - - -; 6: 1 - - 6 - - -
<r>a<l></l>b<m></m>c</r> | 0: - 1 - 6 - - -; 1: 0 2 - 6 - - -; 2: 1 - 3 2 - - -; \
    3: 1 - 4 3 - - -; 4: 1 - 5 4 - - -; 5: 1 - 6 5 - - -; 6: 1 - - 6 - - -
<r><k></k><k></k><k></k><k></k></r> | 0: - 1 - 5 - - -; 1: 0 2 - 5 - - -; 2: 1 - 3 2 - - 3; \
    3: 1 - 4 3 - - 4; 4: 1 - 5 4 - - 5; 5: 1 - - 5 - - -
<r>ab<l>cd</l>ef</r> | 0: - 1 - 5 - - -; 1: 0 2 - 5 - - -; 2: 1 - 3 2 - - -; 3: 1 4 5 4 - - -; \
    4: 3 - - 4 - - -; 5: 1 - - 5 - - -
<r><l>x</l><k><l></l></k>y<l><m><l></l></m></l></r> | 0: - 1 - 9 - - -; 1: 0 2 - 9 - - -; \
    2: 1 3 4 3 - - 5; 3: 2 - - 3 - - -; 4: 1 5 6 5 - - -; 5: 4 - - 5 - - 7; 6: 1 - 7 6 - - -; \
    7: 1 8 - 9 - - 9; 8: 7 9 - 9 - - -; 9: 8 - - 9 - - -
<r><m><k><l>a<l></l>b</l></k></m><k></k></r> | 0: - 1 - 8 - - -; 1: 0 2 - 8 - - -; \
    2: 1 3 8 7 - - -; 3: 2 4 - 7 - - 8; 4: 3 5 - 7 - - 6; 5: 4 - 6 5 - - -; 6: 4 - 7 6 - - -; \
    7: 4 - - 7 - - -; 8: 1 - - 8 - - -
<r><l></l>t<l><l></l><l>u</l></l>v<l></l></r> | 0: - 1 - 9 - - -; 1: 0 2 - 9 - - -; \
    2: 1 - 3 2 - - 4; 3: 1 - 4 3 - - -; 4: 1 5 8 7 - - 5; 5: 4 - 6 5 - - 6; 6: 4 7 - 7 - - 9; \
    7: 6 - - 7 - - -; 8: 1 - 9 8 - - -; 9: 1 - - 9 - - -
<r k=\"1\"></r> | 0: - 1 - 2 - - -; 1: 0 - - 2 2 - -; 2: 1 - - 2 - - -
<r k=\"1\" m=\"2\">t</r> | 0: - 1 - 4 - - -; 1: 0 4 - 4 2 - -; 2: 1 - - 2 - 3 -; \
    3: 1 - - 3 - - -; 4: 1 - - 4 - - -
<r><l k=\"1\"></l><m><l></l></m><l></l></r> | 0: - 1 - 6 - - -; 1: 0 2 - 6 - - -; \
    2: 1 - 4 3 3 - 5; 3: 2 - - 3 - - -; 4: 1 5 6 5 - - -; 5: 4 - - 5 - - 6; 6: 1 - - 6 - - -
<r><l k=\"1\" l=\"2\" m=\"3\">x<k></k>y</l><l></l></r> | 0: - 1 - 9 - - -; 1: 0 2 - 9 - - -; \
    2: 1 6 9 8 3 - 4; 3: 2 - - 3 - 4 7; 4: 2 - - 4 - 5 9; 5: 2 - - 5 - - -; 6: 2 - 7 6 - - -; \
    7: 2 - 8 7 - - -; 8: 2 - - 8 - - -; 9: 1 - - 9 - - -
<r><m><m m=\"1\"><m>m</m></m><m></m></m></r> | 0: - 1 - 7 - - -; 1: 0 2 - 7 - - -; \
    2: 1 3 - 7 - - 3; 3: 2 5 7 6 4 - 4; 4: 3 - - 4 - - 5; 5: 3 6 - 6 - - 7; 6: 5 - - 6 - - -; \
    7: 2 - - 7 - - -
<r><l k=\"a\"></l><l k=\"b\">x</l><m><l k=\"c\"></l><k k=\"d\"></k></m></r> | 0: - 1 - 11 - - -; \
    1: 0 2 - 11 - - -; 2: 1 - 4 3 3 - 4; 3: 2 - - 3 - - 5; 4: 1 6 7 6 5 - 8; 5: 4 - - 5 - - 9; \
    6: 4 - - 6 - - -; 7: 1 8 - 11 - - -; 8: 7 - 10 9 9 - -; 9: 8 - - 9 - - 10; \
    10: 7 - - 11 11 - 11; 11: 10 - - 11 - - -";

fn push_answer(
    shown: &mut String,
    alloc: Global,
    answer: Option<NodeId>,
) -> Result<(), AllocError> {
    match answer {
        Some(node) => shown.push_str(format!(in alloc; " {}", node.number())?.as_str()),
        None => shown.push_str(" -"),
    }
}

fn push_moves<L: Ledger>(
    shown: &mut String,
    alloc: Global,
    doc: &Doc<'_>,
    n: NodeId,
    steps: &mut Steps<L>,
) -> Result<(), AllocError>
    requires { n < length doc.now.nodes }
{
    shown.push_str(format!(in alloc; "{}:", n.number())?.as_str())?;
    push_answer(shown, alloc, doc.parent(n, steps))?;
    push_answer(shown, alloc, doc.first_child(n, steps))?;
    push_answer(shown, alloc, doc.next_sibling(n, steps))?;
    push_answer(shown, alloc, Some(doc.last_inside(n, steps)))?;
    push_answer(shown, alloc, doc.first_attribute(n, steps))?;
    push_answer(shown, alloc, doc.next_attribute(n, steps))?;
    push_answer(shown, alloc, doc.next_named(n, steps))
}

/// All moves from all nodes that a walk meets.
fn moves_of<L: Ledger>(alloc: Global, doc: &Doc<'_>, ledger: Blank) -> Result<String, AllocError>
    requires name { ledger.name ≡ L.name }
    requires parts { ledger.parts ≡ L.parts }
    requires some { 0 < ledger.parts }
{
    let mut steps = Steps::<L>::new(ledger);
    let mut shown = String::new(alloc);
    let _ = doc.root();
    let mut n = doc.document();
    'nodes: loop {
        push_moves(&mut shown, alloc, doc, n, &mut steps)?;
        match doc.next_node(n, &mut steps) {
            Some(next) => n = next,
            None => return Ok(shown),
        }
        shown.push_str("; ")?;
    }
}

/// The steps of two moves.
fn two_steps<L: Ledger>(doc: &Doc<'_>, ledger: Blank) -> u64
    requires name { ledger.name ≡ L.name }
    requires parts { ledger.parts ≡ L.parts }
    requires some { 0 < ledger.parts }
    ensures { result ≡ 2 }
{
    let mut steps = Steps::<L>::new(ledger);
    let root = doc.root();
    let _ = doc.first_child(root, &mut steps);
    let _ = doc.last_inside(root, &mut steps);
    steps.count()
}

struct Moves;

impl Asked for Moves {
    fn answer(&self, alloc: Global, doc: &Doc<'_>, _given: &'static str) -> Result<String, Fail> {
        Ok(moves_of::<Brand>(alloc, doc, Blank::new(1))?)
    }
}

#[test]
fn moves_are_as_plain_searches_have_them(rt: HostRuntime) -> Result<(), Fail> {
    expect_documents(rt.alloc(), &Moves, MOVES)
}

struct MovesCounted;

impl Asked for MovesCounted {
    fn answer(&self, alloc: Global, doc: &Doc<'_>, _given: &'static str) -> Result<String, Fail> {
        let steps = two_steps::<Brand>(doc, Blank::new(1));
        Ok(format!(in alloc; "{steps}")?)
    }
}

#[test]
fn steps_are_counted(rt: HostRuntime) -> Result<(), Fail> {
    expect_documents(rt.alloc(), &MovesCounted, "<a></a> | 2")
}
