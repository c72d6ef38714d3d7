//! A walk over all nodes of some documents, with the level of each.
ghost use Rattle.std.specs.Prelude.{◌≡◌, ◌<◌};

use crate::asking::{Asked, expect_documents};
use inv_base::Steps;
use node_arena::Doc;
use std::alloc::{AllocError, Global};
use std::marker::Brand;
use std::sync::ledger::{Blank, Ledger};
use std::test::Fail;
use xml_document::Walk;

/// A document, and the level of each node in document order, the document's own first.
const LEVELS: &str = "\
<r/> | 0 1
<r k=\"v\"/> | 0 1 2
<r>x</r> | 0 1 2
<r><l><l><l>x</l></l></l>y</r> | 0 1 2 3 4 5 2
<r>a<l k=\"1\" m=\"2\">b<k/></l>c<m><m><m/></m></m></r> | 0 1 2 2 3 3 3 3 2 2 3 4
<r><l><l><l/></l></l><l/></r> | 0 1 2 3 4 2";

fn levels_of<L: Ledger>(alloc: Global, doc: &Doc<'_>, ledger: Blank) -> Result<String, AllocError>
    requires name { ledger.name ≡ L.name }
    requires parts { ledger.parts ≡ L.parts }
    requires some { 0 < ledger.parts }
{
    let mut steps = Steps::<L>::new(ledger);
    let mut shown = String::new(alloc);
    let mut at = Walk::begin(doc);
    'nodes: loop {
        shown.push_str(format!(in alloc; "{}", at.level)?.as_str())?;
        match at.next(doc, &mut steps) {
            Some(next) => at = next,
            None => return Ok(shown),
        }
        shown.push_str(" ")?;
    }
}

struct Levels;

impl Asked for Levels {
    fn answer(&self, alloc: Global, doc: &Doc<'_>, _given: &'static str) -> Result<String, Fail> {
        Ok(levels_of::<Brand>(alloc, doc, Blank::new(1))?)
    }
}

#[test]
fn a_walk_meets_each_node_at_its_level(rt: HostRuntime) -> Result<(), Fail> {
    expect_documents(rt.alloc(), &Levels, LEVELS)
}
