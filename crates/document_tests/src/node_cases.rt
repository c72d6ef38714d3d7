//! What is read of each node of a document.
ghost use Rattle.std.specs.Prelude.{◌≡◌, ◌<◌, length, IfSome};

use crate::asking::{Asked, answer_of};
use crate::documents::document;
use bumpalo::Bump;
use inv_base::Steps;
use node_arena::{Doc, NodeId};
use std::alloc::{AllocError, Global};
use std::marker::Brand;
use std::sync::ledger::{Blank, Ledger};
use std::test::Fail;
use test_rows::expect;
use xml_document::LoadFault;

/// A text around a comment is one, and stands where its first part does.
const DOCUMENT: &str = "<a k=\"v\"><b>x</b>y<!--c-->z<c/></a>";

/// Number, kind, place, local name and text of each node, and how many names there are.
const NODES: &str = "\
0 Document 0  .
1 Element 0 a .
2 Attribute 0 k .v
3 Element 9 b .
4 Text 12  .x
5 Text 17  .yz
6 Element 27 c .
4 names";

fn push_node(shown: &mut String, alloc: Global, doc: &Doc<'_>, n: NodeId) -> Result<(), AllocError>
    requires { n < length doc.now.nodes }
{
    let name = match doc.name(n) {
        Some(name) => doc.names().local(name),
        None => "",
    };
    let line = format!(in alloc;
        "{} {:?} {} {name} .{}\n",
        n.number(),
        doc.kind(n),
        doc.place(n).byte,
        doc.text(n)
    )?;
    shown.push_str(line.as_str())
}

/// A line for each node that a walk meets.
fn nodes_of<L: Ledger>(alloc: Global, doc: &Doc<'_>, ledger: Blank) -> Result<String, AllocError>
    requires name { ledger.name ≡ L.name }
    requires parts { ledger.parts ≡ L.parts }
    requires some { 0 < ledger.parts }
{
    let mut steps = Steps::<L>::new(ledger);
    let mut shown = String::new(alloc);
    let _ = doc.root();
    let mut n = doc.document();
    'nodes: loop {
        push_node(&mut shown, alloc, doc, n)?;
        match doc.next_node(n, &mut steps) {
            Some(next) => n = next,
            None => return Ok(shown),
        }
    }
}

/// The first child of the root element.
fn child_of_root<L: Ledger>(doc: &Doc<'_>, ledger: Blank) -> Option<NodeId>
    requires name { ledger.name ≡ L.name }
    requires parts { ledger.parts ≡ L.parts }
    requires some { 0 < ledger.parts }
    ensures { IfSome result (λ n. n < length doc.now.nodes) }
{
    let mut steps = Steps::<L>::new(ledger);
    doc.first_child(doc.root(), &mut steps)
}

/// The text of the first child of the root element, of a document that is let go.
fn text_of<'a>(doc: Doc<'a>) -> &'a str {
    let text = match child_of_root::<Brand>(&doc, Blank::new(1)) {
        Some(child) => doc.text(child),
        None => "",
    };
    drop(doc);
    text
}

/// The nodes of a document, and how many names it has.
struct Nodes;

impl Asked for Nodes {
    fn answer(&self, alloc: Global, doc: &Doc<'_>, _given: &'static str) -> Result<String, Fail> {
        let mut shown = nodes_of::<Brand>(alloc, doc, Blank::new(1))?;
        write!(shown, "{} names", doc.names().len())?;
        Ok(shown)
    }
}

#[test]
fn a_document_has_its_nodes(rt: HostRuntime) -> Result<(), Fail> {
    let shown = answer_of(rt.alloc(), &Nodes, DOCUMENT, "")?;
    expect(shown.as_str() == NODES, "nodes")
}

fn is_kept(alloc: Global, bump: &Bump) -> Result<bool, LoadFault> {
    let doc = document(alloc, bump, "<a>x&amp;y</a>")?;
    Ok(text_of(doc) == "x&y")
}

/// The arena holds the texts, so they stay when the document goes.
#[test]
fn a_text_outlives_its_document(rt: HostRuntime) -> Result<(), Fail> {
    let bump = Bump::new(rt.alloc());
    let holds = is_kept(rt.alloc(), &bump);
    drop(bump);
    expect(holds?, "text")
}
