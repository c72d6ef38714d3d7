//! What an element asks for.
ghost use Rattle.std.specs.Prelude.{◌≡◌, ℕ, ◌+◌, ◌<◌, ◌∷◌, [], length, drop, chars, option_map, encode_utf8_all, MatchOption};
ghost use Rattle.std.specs.Option.{ForSome, option_copied};
ghost use Rattle.xml_events.specs.Events.{name_at};
ghost use Rattle.node_arena.specs.Document.{node_at};
ghost use Rattle.rule_library.specs.Asked as spec;
ghost use Rattle.rule_library.specs.Requests.{asked_by, IsGiven};
ghost use Rattle.rule_library.specs.Turns.{from};
ghost use Rattle.rule_library.specs.Walk.{parent_name, own_name};

use crate::moves::{next_of, parent_name};
use inv_base::{Kind, is_same_text};
use node_arena::{Doc, NodeId};
use xml_events::{NameId, NameTable};

const SCHEMATRON: &str = "http://purl.oclc.org/dsdl/schematron";

/// The name of a file has at most so many bytes.
const LONGEST: usize = 200;

/// What an element asks for.
#[derive(Clone, Copy)]
pub(crate) enum Request<'a> {
    /// Nothing: it stays.
    Stays,
    /// Its href is no name of a file.
    Bad,
    /// The root of the file of that name.
    RootOf(&'a str),
    /// What is in the root of the file of that name.
    InsideOf(&'a str),
}

/// An attribute: its node and its name.
#[derive(Clone, Copy)]
pub(crate) struct Given {
    pub(crate) node: NodeId,
    pub(crate) name: NameId,
}

/// The attribute at a node, where one stands there.
pub(crate) fn given_at(doc: &Doc<'_>, at: Option<NodeId>) -> Option<Given>
    requires { ForSome at (λ n. n < length doc.now.nodes) }
    ensures { MatchOption result (spec.given_at doc.now.names (from at doc.now.nodes) ≡ []) (IsGiven doc.now at) }
{
    let Some(node) = at else {
        return None;
    };
    match doc.kind(node) {
        Kind::Attribute => match doc.name(node) {
            Some(name) => Some(Given { node, name }),
            None => None,
        },
        Kind::Document | Kind::Element | Kind::Text => None,
    }
}

/// Whether a name is that of a Schematron element.
fn is_schematron(names: &NameTable, id: NameId, local: &str) -> bool
    requires { id < length names.now }
    ensures { result ≡ spec.is_schematron (chars local.now) (name_at names.now id) }
{
    is_same_text(names.uri(id), SCHEMATRON) && is_same_text(names.local(id), local)
}

/// Whether an attribute has that local name, in no namespace.
fn is_plain(names: &NameTable, id: NameId, local: &str) -> bool
    requires { id < length names.now }
    ensures { (value : _) → result ≡ spec.is_plain (chars local.now) (record { name = name_at names.now id; value = value }) }
{
    is_same_text(names.uri(id), "") && is_same_text(names.local(id), local)
}

/// The value of an attribute of an element.
fn value_of<'a>(doc: &Doc<'a>, n: NodeId, local: &str) -> Option<&'a str>
    requires { n < length doc.now.nodes }
    ensures { option_map chars (option_copied result)
        ≡ spec.value_of (chars local.now) (spec.given_at doc.now.names (drop (n + 1) doc.now.nodes)) }
{
    let mut at = next_of(doc, n);
    'attributes: while let Some(given) = given_at(doc, at) {
        if is_plain(doc.names(), given.name, local) {
            return Some(doc.text(given.node));
        }
        at = next_of(doc, given.node);
    }
    None
}

/// Whether a text is the name of a file.
fn is_good(href: &str) -> bool
    ensures good { result ≡ spec.is_good href.now }
    ensures text { encode_utf8_all (chars href.now) ≡ href.now }
{
    1 <= href.len() && href.len() <= LONGEST && has_no_hash(href.as_bytes())
}

fn has_no_hash(bytes: &[u8]) -> bool
    ensures { result ≡ spec.has_no_hash bytes.now }
{
    for byte in bytes {
        if *byte == b'#' {
            return false;
        }
    }
    true
}

/// Whether an include is replaced in a parent of that name.
fn takes_roots(names: &NameTable, parent: Option<NameId>) -> bool
    requires { ForSome parent (λ id. id < length names.now) }
    ensures { result ≡ spec.takes_roots (option_map (name_at names.now) parent) }
{
    match parent {
        None => false,
        Some(id) => {
            is_schematron(names, id, "schema")
                | is_schematron(names, id, "phase")
                | is_schematron(names, id, "pattern")
                | is_schematron(names, id, "rule")
        }
    }
}

/// Whether an extends with href is replaced in a parent of that name.
fn takes_insides(names: &NameTable, parent: Option<NameId>) -> bool
    requires { ForSome parent (λ id. id < length names.now) }
    ensures { result ≡ spec.takes_insides (option_map (name_at names.now) parent) }
{
    match parent {
        None => false,
        Some(id) => {
            is_schematron(names, id, "schema")
                | is_schematron(names, id, "pattern")
                | is_schematron(names, id, "rule")
        }
    }
}

/// What an include with that href asks for.
fn included(href: Option<&str>) -> Request<'_>
    ensures { asked_by result ≡ spec.included (option_map chars (option_copied href.entry)) }
{
    match href {
        None => Request::Bad,
        Some(name) => {
            if is_good(name) {
                Request::RootOf(name)
            } else {
                Request::Bad
            }
        }
    }
}

/// What an extends with that href, and with a rule or without, asks for.
fn extended<'a>(rule: Option<&str>, href: Option<&'a str>) -> Request<'a>
    ensures { asked_by result ≡ spec.extended (option_map chars (option_copied rule.entry)) (option_map chars (option_copied href.entry)) }
{
    match href {
        None => Request::Stays,
        Some(name) => match rule {
            Some(_) => Request::Bad,
            None => {
                if is_good(name) {
                    Request::InsideOf(name)
                } else {
                    Request::Bad
                }
            }
        },
    }
}

/// What an element asks for.
pub(crate) fn request_of<'a>(doc: &Doc<'a>, n: NodeId) -> Request<'a>
    requires { n < length doc.now.nodes }
    ensures { asked_by result ≡ spec.asked (parent_name doc.now (node_at doc.now.nodes n)) (own_name doc.now (node_at doc.now.nodes n))
        (spec.given_at doc.now.names (drop (n + 1) doc.now.nodes)) }
{
    match doc.name(n) {
        Some(id) => request_by(doc, n, id),
        None => Request::Stays,
    }
}

/// What an element of that name asks for.
fn request_by<'a>(doc: &Doc<'a>, n: NodeId, id: NameId) -> Request<'a>
    requires node { n < length doc.now.nodes }
    requires name { id < length doc.now.names }
    ensures { asked_by result ≡ spec.asked (parent_name doc.now (node_at doc.now.nodes n)) (name_at doc.now.names id)
        (spec.given_at doc.now.names (drop (n + 1) doc.now.nodes)) }
{
    let names = doc.names();
    let is_replaced = is_schematron(names, id, "include") & takes_roots(names, parent_name(doc, n));
    if is_replaced {
        return included(value_of(doc, n, "href"));
    }
    let is_filled = is_schematron(names, id, "extends") & takes_insides(names, parent_name(doc, n));
    if is_filled {
        return extended(value_of(doc, n, "rule"), value_of(doc, n, "href"));
    }
    Request::Stays
}
