//! The text of a node alone, and what is shown of it.
ghost use Rattle.std.specs.Prelude.{◌≡◌, ◌++◌, ◌<◌, length, take, chars, codes, string_bytes, IfOk};
ghost use Rattle.node_arena.specs.Document.{node_at};
ghost use Rattle.node_arena.specs.Moves.{tree_nodes, tree_node};
ghost use Rattle.node_arena.specs.Strings.{if_text};
ghost use Rattle.bind_meaning.specs.Losses.{own_text};
ghost use Rattle.validation_report.specs.OwnTexts.{inner_texts};
ghost use Rattle.validation_report.specs.Validating.{shown, shown_characters, value_at};

use inv_base::{Kind, Steps, Str, Txt};
use inv_terms::trimmed;
use node_arena::{Doc, NodeId};
use std::alloc::{AllocError, Global};
use std::marker::Brand;
use std::sync::ledger::{Blank, Ledger};

/// How many characters of a text are shown.
const SHOWN_CHARACTERS: usize = 60;

/// What is shown of a node's own text. The text itself is let go.
pub(crate) fn value_of(alloc: Global, doc: &Doc<'_>, n: NodeId) -> Result<Txt, AllocError>
    requires { n < length doc.now.nodes }
    ensures { IfOk result (λ value. value ≡ value_at doc.now n) }
{
    let text = own_text(alloc, doc, n)?;
    let value = shown(alloc, trimmed(text.as_str()));
    drop(text);
    value
}

/// The value of an attribute, the texts right inside an element joined. It is lent where one text alone has it.
fn own_text<'a>(alloc: Global, doc: &Doc<'a>, n: NodeId) -> Result<Str<'a>, AllocError>
    requires { n < length doc.now.nodes }
    ensures { IfOk result (λ text. text ≡ own_text (tree_nodes doc.now) (tree_node (tree_nodes doc.now) n)) }
{
    doc.is_of_a_tree();
    match doc.kind(n) {
        Kind::Document => Ok(Str::lent("")),
        Kind::Element => inner_texts_by::<Brand>(alloc, doc, n, Blank::new(1)),
        Kind::Attribute => Ok(Str::lent(doc.text(n))),
        Kind::Text => Ok(Str::lent(doc.text(n))),
    }
}

/// The texts right inside a node, by moves that nobody counts.
fn inner_texts_by<'a, L: Ledger>(
    alloc: Global,
    doc: &Doc<'a>,
    n: NodeId,
    ledger: Blank,
) -> Result<Str<'a>, AllocError>
    requires name { ledger.name ≡ L.name }
    requires parts { ledger.parts ≡ L.parts }
    requires some { 0 < ledger.parts }
    requires within { n < length doc.now.nodes }
    ensures { IfOk result (λ text. text ≡ inner_texts n (tree_nodes doc.now)) }
{
    let mut steps = Steps::<L>::new(ledger);
    inner_texts(alloc, doc, n, &mut steps)
}

/// The texts right inside a node, joined.
fn inner_texts<'a, L: Ledger>(
    alloc: Global,
    doc: &Doc<'a>,
    n: NodeId,
    steps: &mut Steps<L>,
) -> Result<Str<'a>, AllocError>
    requires { n < length doc.now.nodes }
    ensures { IfOk result (λ text. text ≡ inner_texts n (tree_nodes doc.now)) }
{
    doc.is_of_a_tree();
    let mut text = Str::lent("");
    let mut next = doc.first_child(n, steps);
    'children: while let Some(m) = next {
        text = with_text(alloc, doc, m, text)?;
        next = doc.next_sibling(m, steps);
    }
    Ok(text)
}

/// A text, with that of a node behind it where the node is one.
fn with_text<'a>(
    alloc: Global,
    doc: &Doc<'a>,
    n: NodeId,
    text: Str<'a>,
) -> Result<Str<'a>, AllocError>
    requires { n < length doc.now.nodes }
    ensures { IfOk result (λ all. all ≡ text.entry ++ if_text (node_at doc.now.nodes n).kind (node_at doc.now.nodes n).text) }
{
    match doc.kind(n) {
        Kind::Text => text.followed_by(alloc, doc.text(n)),
        Kind::Document | Kind::Element | Kind::Attribute => Ok(text),
    }
}

/// A text as it is shown.
fn shown(alloc: Global, text: &str) -> Result<Txt, AllocError>
    ensures { IfOk result (λ value. value ≡ shown (chars text.now)) }
{
    if character_count(text) > SHOWN_CHARACTERS {
        shortened(alloc, text)
    } else {
        Txt::of(alloc, text)
    }
}

/// How many characters a text has.
fn character_count(text: &str) -> usize
    ensures { result ≡ length (chars text.now) }
{
    text.chars().count()
}

/// The first characters of a text, and two dots.
fn shortened(alloc: Global, text: &str) -> Result<Txt, AllocError>
    ensures { IfOk result (λ value. value ≡ take shown_characters (chars text.now) ++ codes "..") }
{
    let mut front = front_of(alloc, text)?;
    front.push_str("..")?;
    Txt::of(alloc, front.as_str())
}

/// As many characters of a text as are shown.
fn front_of(alloc: Global, text: &str) -> Result<String, AllocError>
    ensures { IfOk result (λ front. chars (string_bytes front) ≡ take shown_characters (chars text.now)) }
{
    text.chars().take(SHOWN_CHARACTERS).collect(alloc)
}
