//! What names a fault of reading or an element, and where it stands, as texts.
ghost use Rattle.std.specs.Prelude.{◌≡◌, ℕ, List, ◌++◌, ◌<◌, [], length, chars, string_bytes, unwrap_or, Some, IfOk, OnOk};
ghost use Rattle.std.specs.Str.{IsAscii};
ghost use Rattle.term_table.specs.Names as terms;
ghost use Rattle.inv_listing.specs.Listing.{term_text, part_text};
ghost use Rattle.node_arena.specs.Moves.{tree_nodes, tree_node};
ghost use Rattle.node_locations.specs.Locations.{AreOrdinals, location};
ghost use Rattle.bind_meaning.specs.KindTexts.{kind_text};
ghost use Rattle.validation_report.specs.Told.{label, local_name, title};

use bind_meaning::BindKind;
use inv_base::{Str, Txt};
use inv_terms::Name;
use itoa::Buffer;
use node_arena::{Doc, NodeId};
use node_locations::{Ordinals, push_location};
use schematron_findings::Lent;
use std::alloc::{AllocError, Global};
use term_table::{Term, term_name};

/// A text of the program of ASCII, whose bytes are its characters.
pub(crate) fn plain_text(text: &str) -> Lent<'_>
    requires { IsAscii text.now }
    ensures { result ≡ text.now }
{
    Lent::of(text)
}

/// The name of a kind as a text.
pub(crate) fn kind_of<'r>(kind: BindKind) -> Lent<'r>
    ensures { result ≡ kind_text kind }
{
    plain_text(kind.name())
}

/// The number of a term or a group, where there is one. That of a group is a text of the program.
pub(crate) fn label_of<'r>(alloc: Global, name: Name) -> Result<Option<Str<'r>>, AllocError>
    ensures { IfOk result (λ text. text ≡ label name) }
{
    match name {
        Name::Term(term) => given(term_label(alloc, term)),
        Name::Group(group) => Ok(Some(Str::lent(group.label()))),
        Name::Nothing => Ok(None),
    }
}

/// A text that is there.
fn given<'r>(text: Result<Txt, AllocError>) -> Result<Option<Str<'r>>, AllocError>
    ensures { (characters : List ℕ) → IfOk text (λ text. text ≡ characters) → IfOk result (λ given. given ≡ Some characters) }
{
    match text {
        Ok(text) => Ok(Some(Str::own(text))),
        Err(fault) => Err(fault),
    }
}

/// The number of a term.
fn term_label(alloc: Global, term: Term) -> Result<Txt, AllocError>
    ensures { IfOk result (λ text. text ≡ chars (term_text term)) }
{
    let mut text = String::new(alloc);
    push_term(term, &mut text)?;
    Txt::of(alloc, text.as_str())
}

/// Puts the number of a term behind a text.
fn push_term(term: Term, out: &mut String) -> Result<(), AllocError>
    ensures { OnOk result (string_bytes out.new ≡ string_bytes out.old ++ term_text term) }
{
    let mut digits = Buffer::new();
    if term.is_extension() {
        out.push_str("EXT-")?;
        return out.push_str(digits.format(term.number - 1000));
    }
    out.push_str("BT-")?;
    out.push_str(digits.format(term.number))?;
    push_part(term.part, out)
}

/// Puts the part of a term behind a text, where it is one.
fn push_part(part: u8, out: &mut String) -> Result<(), AllocError>
    ensures { OnOk result (string_bytes out.new ≡ string_bytes out.old ++ part_text part) }
{
    if part == 0 {
        return Ok(());
    }
    let mut digits = Buffer::new();
    out.push_str("-")?;
    out.push_str(digits.format(part))
}

/// The name of a term or a group in the semantic model; without a character where there is none.
pub(crate) fn title_of(alloc: Global, name: Name) -> Result<Txt, AllocError>
    ensures { IfOk result (λ text. text ≡ title name) }
{
    match name {
        Name::Term(term) => Txt::of(alloc, name_of(term)),
        Name::Group(group) => Txt::of(alloc, group.name()),
        Name::Nothing => Txt::of(alloc, ""),
    }
}

/// The name of a term; without a character of a term that a user adds.
fn name_of(term: Term) -> &'static str
    ensures { result.now ≡ unwrap_or (terms.name_of term) [] }
{
    match term_name(term) {
        Some(name) => name,
        None => "",
    }
}

/// The local name of an element or an attribute.
pub(crate) fn local_name_of(alloc: Global, doc: &Doc<'_>, n: NodeId) -> Result<Txt, AllocError>
    requires { n < length doc.now.nodes }
    ensures { IfOk result (λ text. text ≡ local_name (tree_node (tree_nodes doc.now) n).name) }
{
    match doc.name(n) {
        Some(name) => Txt::of(alloc, doc.names().local(name)),
        None => Txt::of(alloc, ""),
    }
}

/// Where a node stands, as a path that XPath reads.
pub(crate) fn location_of(
    alloc: Global,
    doc: &Doc<'_>,
    ordinals: &Ordinals,
    n: NodeId,
) -> Result<Txt, AllocError>
    requires within { n < length doc.now.nodes }
    requires ordinals { AreOrdinals doc.now ordinals.now }
    ensures { IfOk result (λ text. text ≡ location (tree_nodes doc.now) n) }
{
    let mut text = String::new(alloc);
    push_location(doc, ordinals, n, &mut text)?;
    Txt::of(alloc, text.as_str())
}
