//! The chain of each name in some documents: the elements and attributes that have it. The rows were
//! made by plain searches, outside of this program.
ghost use Rattle.std.specs.Prelude.{◌≡◌, ◌<◌, length};

use crate::asking::{Asked, expect_documents};
use inv_base::Steps;
use node_arena::{Doc, NodeId};
use std::alloc::{AllocError, Global};
use std::marker::Brand;
use std::sync::ledger::{Blank, Ledger};
use std::test::Fail;

/// A document, and the chain of each name, by its local part.
const CHAINS: &str = "\
<r></r> | r 1
<r>x</r> | r 1
<r><l></l></r> | r 1; l 2
<r><l><l><l>x</l></l></l>y</r> | r 1; l 2 3 4
<r>a<l></l>b<m></m>c</r> | r 1; l 3; m 5
<r><k></k><k></k><k></k><k></k></r> | r 1; k 2 3 4 5
<r>ab<l>cd</l>ef</r> | r 1; l 3
<r><l>x</l><k><l></l></k>y<l><m><l></l></m></l></r> | r 1; l 2 5 7 9; k 4; m 8
<r><m><k><l>a<l></l>b</l></k></m><k></k></r> | r 1; m 2; k 3 8; l 4 6
<r><l></l>t<l><l></l><l>u</l></l>v<l></l></r> | r 1; l 2 4 5 6 9
<r k=\"1\"></r> | r 1; k 2
<r k=\"1\" m=\"2\">t</r> | r 1; k 2; m 3
<r><l k=\"1\"></l><m><l></l></m><l></l></r> | r 1; l 2 5 6; k 3; m 4
<r><l k=\"1\" l=\"2\" m=\"3\">x<k></k>y</l><l></l></r> | r 1; l 2 4 9; k 3 7; m 5
<r><m><m m=\"1\"><m>m</m></m><m></m></m></r> | r 1; m 2 3 4 5 7
<r><l k=\"a\"></l><l k=\"b\">x</l><m><l k=\"c\"></l><k k=\"d\"></k></m></r> | \
    r 1; l 2 4 8; k 3 5 9 10 11; m 7
<r xmlns:a=\"u\" xmlns:b=\"u\"><a:l/><b:l l=\"x\"/><l/></r> | r 1; l 2 3; l 4 5";

/// The chain from a node on.
fn push_chain<L: Ledger>(
    shown: &mut String,
    alloc: Global,
    doc: &Doc<'_>,
    first: NodeId,
    steps: &mut Steps<L>,
) -> Result<(), AllocError>
    requires { first < length doc.now.nodes }
{
    let mut n = first;
    'chain: loop {
        shown.push_str(format!(in alloc; " {}", n.number())?.as_str())?;
        match doc.next_named(n, steps) {
            Some(next) => n = next,
            None => return Ok(()),
        }
    }
}

/// The chain of a node's name, if the node is its first.
fn push_chain_at<L: Ledger>(
    shown: &mut String,
    alloc: Global,
    doc: &Doc<'_>,
    n: NodeId,
    steps: &mut Steps<L>,
) -> Result<(), AllocError>
    requires { n < length doc.now.nodes }
{
    match doc.name(n) {
        Some(name) => {
            if doc.first_named(name, steps) == Some(n) {
                if !shown.is_empty() {
                    shown.push_str("; ")?;
                }
                shown.push_str(doc.names().local(name))?;
                push_chain(shown, alloc, doc, n, steps)?;
            }
            Ok(())
        }
        None => Ok(()),
    }
}

/// The chains of all names, by a walk over the nodes.
fn chains_of<L: Ledger>(alloc: Global, doc: &Doc<'_>, ledger: Blank) -> Result<String, AllocError>
    requires name { ledger.name ≡ L.name }
    requires parts { ledger.parts ≡ L.parts }
    requires some { 0 < ledger.parts }
{
    let mut steps = Steps::<L>::new(ledger);
    let mut shown = String::new(alloc);
    let mut n = doc.root();
    'nodes: loop {
        push_chain_at(&mut shown, alloc, doc, n, &mut steps)?;
        match doc.next_node(n, &mut steps) {
            Some(next) => n = next,
            None => return Ok(shown),
        }
    }
}

struct Chained;

impl Asked for Chained {
    fn answer(&self, alloc: Global, doc: &Doc<'_>, _given: &'static str) -> Result<String, Fail> {
        Ok(chains_of::<Brand>(alloc, doc, Blank::new(1))?)
    }
}

#[test]
fn chains_are_as_plain_searches_have_them(rt: HostRuntime) -> Result<(), Fail> {
    expect_documents(rt.alloc(), &Chained, CHAINS)
}
