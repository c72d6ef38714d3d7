//! `concat` and `string-join` (Functions and Operators, sections 7.4.1 and 7.4.2).
ghost use Rattle.std.specs.Prelude.{◌≡◌, length, map, chars, string_bytes, ◌++◌, IfOk, OnOk};
ghost use Rattle.std.specs.List.{list_all};
ghost use Rattle.node_arena.specs.Moves.{tree_nodes};
ghost use Rattle.xpath_items.specs.Faults.{Gives};
ghost use Rattle.xpath_meaning.specs.Functions as meaning;
ghost use Rattle.xpath_meaning.specs.Texts.{behind_separator, with_separator};
ghost use Rattle.xpath_meaning.specs.Values.{then_};
ghost use Rattle.xpath_operators.specs.Nodes.{AreWithin, AllWithin};
ghost use Rattle.xpath_values.specs.Alike as spec;

use crate::arguments::{empty_text, text_argument};
use crate::pushing::{empty_string, no_characters};
use node_arena::Doc;
use std::alloc::{AllocError, Global};
use xpath_items::{DynError, Fault, Item, Seq, Str};
use xpath_operators::{atoms, one, push, text_of};

/// The text of an argument of `concat`, which has none or one item.
fn one_text<'a>(alloc: Global, doc: &Doc<'a>, items: &[Item<'a>]) -> Result<Str<'a>, Fault>
    requires { AreWithin (length doc.now.nodes) items.now }
    ensures { Gives result (spec.one_text (tree_nodes doc.now) items.now) }
{
    match items {
        [] => Ok(empty_text()),
        [item] => Ok(text_of(alloc, doc, item)?),
        _ => Err(Fault::Error(DynError::XPTY0004)),
    }
}

/// The texts of the arguments, one behind the other.
fn concatenated<'a>(alloc: Global, doc: &Doc<'a>, arguments: &[Seq<'a>]) -> Result<Str<'a>, Fault>
    requires { AllWithin (length doc.now.nodes) arguments.now }
    ensures { Gives result (meaning.concatenated (tree_nodes doc.now) arguments.now) }
{
    let mut out = empty_string(alloc);
    'arguments: for argument in arguments {
        match one_text(alloc, doc, argument.as_slice()) {
            Ok(piece) => push(&mut out, piece.as_str())?,
            Err(fault) => return Err(fault),
        }
    }
    Ok(Str::made(out))
}

/// `concat`
pub(crate) fn concat<'a>(
    alloc: Global,
    doc: &Doc<'a>,
    arguments: &[Seq<'a>],
) -> Result<Seq<'a>, Fault>
    requires { AllWithin (length doc.now.nodes) arguments.now }
    ensures { Gives result (then_ (meaning.concatenated (tree_nodes doc.now) arguments.now) meaning.text) }
{
    let s = concatenated(alloc, doc, arguments)?;
    one(alloc, Item::String(s))
}

fn is_text(item: &Item<'_>) -> bool
    ensures { result ≡ spec.is_text item.now }
{
    match item {
        Item::String(_) | Item::Untyped(_) => true,
        _ => false,
    }
}

/// Whether all items are strings and untyped texts.
fn are_texts(items: &[Item<'_>]) -> bool
    ensures { result ≡ list_all spec.is_text items.now }
{
    items.iter().all(|item| is_text(item))
}

/// The characters of a string or an untyped text.
fn text_in<'s>(item: &'s Item<'_>) -> &'s str
    ensures { chars result.now ≡ spec.text_in item.now }
{
    match item {
        Item::String(text) => text.as_str(),
        Item::Untyped(text) => text.as_str(),
        _ => no_characters(),
    }
}

/// Puts the texts behind another, the separator before each.
fn push_separated(out: &mut String, items: &[Item<'_>], separator: &str) -> Result<(), AllocError>
    ensures { OnOk result (chars (string_bytes out.new) ≡ chars (string_bytes out.old) ++ behind_separator (chars separator.now) (map spec.text_in items.now)) }
{
    'items: for item in items {
        push(out, separator)?;
        push(out, text_in(item))?;
    }
    Ok(())
}

/// The texts with the separator between them.
fn joined(alloc: Global, items: &[Item<'_>], separator: &str) -> Result<String, AllocError>
    ensures { IfOk result (λ s. chars (string_bytes s) ≡ with_separator (chars separator.now) (map spec.text_in items.now)) }
{
    match items {
        [] => Ok(empty_string(alloc)),
        [first, rest @ ..] => {
            let mut out = String::from_str(alloc, text_in(first))?;
            push_separated(&mut out, rest, separator)?;
            Ok(out)
        }
    }
}

/// `string-join`
pub(crate) fn string_join<'a>(
    alloc: Global,
    doc: &Doc<'a>,
    x: &[Item<'a>],
    y: &[Item<'a>],
) -> Result<Seq<'a>, Fault>
    requires x { AreWithin (length doc.now.nodes) x.now }
    requires y { AreWithin (length doc.now.nodes) y.now }
    ensures { Gives result (meaning.string_join (tree_nodes doc.now) x.now y.now) }
{
    let texts = atoms(alloc, doc, x)?;
    if !are_texts(&texts) {
        return Err(Fault::Error(DynError::XPTY0004));
    }
    joined_by(alloc, doc, &texts, y)
}

/// The texts with the text argument between them.
fn joined_by<'a>(
    alloc: Global,
    doc: &Doc<'a>,
    texts: &[Item<'a>],
    y: &[Item<'a>],
) -> Result<Seq<'a>, Fault>
    requires { AreWithin (length doc.now.nodes) y.now }
    ensures { Gives result (spec.joined_by (tree_nodes doc.now) texts.now y.now) }
{
    let separator = text_argument(alloc, doc, y)?;
    let made = joined(alloc, texts, separator.as_str())?;
    one(alloc, Item::String(Str::made(made)))
}
