//! The string of each node of some documents. The rows were written by hand from the text of the documents.
ghost use Rattle.std.specs.Prelude.{◌≡◌, ◌<◌, length};

use crate::asking::{Asked, expect_documents};
use inv_base::Steps;
use node_arena::{Doc, NodeId, Str};
use std::alloc::{AllocError, Global};
use std::marker::Brand;
use std::sync::ledger::{Blank, Ledger};
use std::test::Fail;
use test_rows::expect;

/// A document, and the string of each node in document order, the document's own first.
const STRINGS: &str = "\
<r/> | .;.
<r>x</r> | x;x;x
<r k=\"v\"><l>a</l>b<m n=\"w\">c<o/>d</m></r> | abcd;abcd;v;a;a;b;cd;w;c;.;d
<r><l><m>one</m></l></r> | one;one;one;one;one
<r>&lt;<!--no-->&amp;<![CDATA[<x>]]></r> | <&<x>;<&<x>;<&<x>
<r><l/><l></l></r> | .;.;.;.
<r>\u{e4}<l>\u{20ac}</l>\u{1f600}</r> | \u{e4}\u{20ac}\u{1f600};\u{e4}\u{20ac}\u{1f600};\u{e4};\u{20ac};\u{20ac};\u{1f600}";

fn push_string<L: Ledger>(
    shown: &mut String,
    alloc: Global,
    doc: &Doc<'_>,
    n: NodeId,
    steps: &mut Steps<L>,
) -> Result<(), AllocError>
    requires { n < length doc.now.nodes }
{
    let string = doc.string(alloc, n, steps)?;
    let pushed = if string.as_str().is_empty() {
        shown.push_str(".")
    } else {
        shown.push_str(string.as_str())
    };
    drop(string);
    pushed
}

/// The strings of all nodes.
fn strings_of<L: Ledger>(alloc: Global, doc: &Doc<'_>, ledger: Blank) -> Result<String, AllocError>
    requires name { ledger.name ≡ L.name }
    requires parts { ledger.parts ≡ L.parts }
    requires some { 0 < ledger.parts }
{
    let mut steps = Steps::<L>::new(ledger);
    let mut shown = String::new(alloc);
    let mut n = doc.document();
    'nodes: loop {
        push_string(&mut shown, alloc, doc, n, &mut steps)?;
        match doc.next_node(n, &mut steps) {
            Some(next) => n = next,
            None => return Ok(shown),
        }
        shown.push_str(";")?;
    }
}

struct Strings;

impl Asked for Strings {
    fn answer(&self, alloc: Global, doc: &Doc<'_>, _given: &'static str) -> Result<String, Fail> {
        Ok(strings_of::<Brand>(alloc, doc, Blank::new(1))?)
    }
}

#[test]
fn strings_are_those_of_the_text(rt: HostRuntime) -> Result<(), Fail> {
    expect_documents(rt.alloc(), &Strings, STRINGS)
}

/// How many steps the string of the root takes: one for each node inside, and one to find the last.
fn steps_of_string<L: Ledger>(
    alloc: Global,
    doc: &Doc<'_>,
    ledger: Blank,
) -> Result<u64, AllocError>
    requires name { ledger.name ≡ L.name }
    requires parts { ledger.parts ≡ L.parts }
    requires some { 0 < ledger.parts }
{
    let mut steps = Steps::<L>::new(ledger);
    let string = doc.string(alloc, doc.root(), &mut steps)?;
    drop(string);
    Ok(steps.count())
}

struct StringCounted;

impl Asked for StringCounted {
    fn answer(&self, alloc: Global, doc: &Doc<'_>, _given: &'static str) -> Result<String, Fail> {
        let steps = steps_of_string::<Brand>(alloc, doc, Blank::new(1))?;
        Ok(format!(in alloc; "{steps}")?)
    }
}

#[test]
fn steps_of_a_string_are_counted(rt: HostRuntime) -> Result<(), Fail> {
    expect_documents(rt.alloc(), &StringCounted, r#"<a k="v"><b>x</b>y</a> | 5"#)
}

#[test]
fn a_text_is_lent(_rt: HostRuntime) -> Result<(), Fail> {
    let lent = Str::lent("x");
    let holds = lent.as_str() == "x";
    drop(lent);
    expect(holds, "x")
}
