//! Functions on texts (Functions and Operators, sections 7.4 and 7.5), at the values of their arguments.
ghost use Rattle.std.specs.Prelude.{◌≡◌, length, map, chars, string_bytes, IfOk};
ghost use Rattle.node_arena.specs.Moves.{tree_nodes};
ghost use Rattle.xpath_items.specs.Faults.{Gives};
ghost use Rattle.xpath_meaning.specs.Functions as meaning;
ghost use Rattle.xpath_meaning.specs.Items as items;
ghost use Rattle.xpath_meaning.specs.Numbers as numbers;
ghost use Rattle.xpath_meaning.specs.Texts as spec;
ghost use Rattle.xpath_operators.specs.Nodes.{IsWithin, AreWithin};

use crate::arguments::{empty_text, number_argument, text_argument};
use crate::places::{between_places, from_place};
use crate::{casing, finding, spacing, translating};
use inv_decimal::Dec;
use node_arena::Doc;
use std::alloc::{AllocError, Global};
use xpath_items::{DynError, Fault, Item, Seq, Str};
use xpath_operators::{counted, one, text_of};

/// A text that was made, as a value.
fn text<'a>(alloc: Global, made: String) -> Result<Seq<'a>, Fault>
    ensures { Gives result (meaning.text (chars (string_bytes made))) }
{
    one(alloc, Item::String(Str::made(made)))
}

/// A copy of a text, as a value.
fn copied<'a>(alloc: Global, piece: &str) -> Result<Seq<'a>, Fault>
    ensures { Gives result (meaning.text (chars piece.now)) }
{
    text(alloc, String::from_str(alloc, piece)?)
}

/// How many characters a text has.
fn character_count(text: &str) -> usize
    ensures { result ≡ length (chars text.now) }
{
    text.chars().count()
}

/// `upper-case`
pub(crate) fn upper_case<'a>(alloc: Global, doc: &Doc<'a>, x: &[Item<'a>]) -> Result<Seq<'a>, Fault>
    requires { AreWithin (length doc.now.nodes) x.now }
    ensures { Gives result (meaning.of_text (tree_nodes doc.now) (λ s. meaning.text (map spec.upper s)) x.now) }
{
    let s = text_argument(alloc, doc, x)?;
    text(alloc, casing::upper_case(alloc, s.as_str())?)
}

/// `lower-case`
pub(crate) fn lower_case<'a>(alloc: Global, doc: &Doc<'a>, x: &[Item<'a>]) -> Result<Seq<'a>, Fault>
    requires { AreWithin (length doc.now.nodes) x.now }
    ensures { Gives result (meaning.of_text (tree_nodes doc.now) (λ s. meaning.text (map spec.lower s)) x.now) }
{
    let s = text_argument(alloc, doc, x)?;
    text(alloc, casing::lower_case(alloc, s.as_str())?)
}

/// `normalize-space`
pub(crate) fn normalize_space<'a>(
    alloc: Global,
    doc: &Doc<'a>,
    x: &[Item<'a>],
) -> Result<Seq<'a>, Fault>
    requires { AreWithin (length doc.now.nodes) x.now }
    ensures { Gives result (meaning.of_text (tree_nodes doc.now) (λ s. meaning.text (spec.normalised s)) x.now) }
{
    let s = text_argument(alloc, doc, x)?;
    one(alloc, Item::String(spacing::normal(alloc, s)?))
}

/// `normalize-space` of the item of the focus.
pub(crate) fn normalize_space_of<'a>(
    alloc: Global,
    doc: &Doc<'a>,
    item: &Item<'a>,
) -> Result<Seq<'a>, Fault>
    requires { IsWithin (length doc.now.nodes) item.now }
    ensures { Gives result (meaning.of_string (tree_nodes doc.now) (λ s. meaning.text (spec.normalised s)) item.now) }
{
    let s = text_of(alloc, doc, item)?;
    one(alloc, Item::String(spacing::normal(alloc, s)?))
}

/// `string-length`
pub(crate) fn string_length<'a>(
    alloc: Global,
    doc: &Doc<'a>,
    x: &[Item<'a>],
) -> Result<Seq<'a>, Fault>
    requires { AreWithin (length doc.now.nodes) x.now }
    ensures { Gives result (meaning.of_text (tree_nodes doc.now) (λ s. numbers.counted (length s)) x.now) }
{
    let s = text_argument(alloc, doc, x)?;
    counted(alloc, character_count(s.as_str()) as u64)
}

/// `string-length` of the item of the focus.
pub(crate) fn string_length_of<'a>(
    alloc: Global,
    doc: &Doc<'a>,
    item: &Item<'a>,
) -> Result<Seq<'a>, Fault>
    requires { IsWithin (length doc.now.nodes) item.now }
    ensures { Gives result (meaning.of_string (tree_nodes doc.now) (λ s. numbers.counted (length s)) item.now) }
{
    let s = text_of(alloc, doc, item)?;
    counted(alloc, character_count(s.as_str()) as u64)
}

/// `string`
pub(crate) fn string<'a>(alloc: Global, doc: &Doc<'a>, x: &[Item<'a>]) -> Result<Seq<'a>, Fault>
    requires { AreWithin (length doc.now.nodes) x.now }
    ensures { Gives result (meaning.string (tree_nodes doc.now) x.now) }
{
    match x {
        [] => one(alloc, Item::String(empty_text())),
        [item] => string_of(alloc, doc, item),
        _ => Err(Fault::Error(DynError::XPTY0004)),
    }
}

/// `string` of an item.
pub(crate) fn string_of<'a>(alloc: Global, doc: &Doc<'a>, item: &Item<'a>) -> Result<Seq<'a>, Fault>
    requires { IsWithin (length doc.now.nodes) item.now }
    ensures { Gives result (meaning.text (items.text_of (tree_nodes doc.now) item.now)) }
{
    one(alloc, Item::String(text_of(alloc, doc, item)?))
}

/// `contains`
pub(crate) fn contains<'a>(
    alloc: Global,
    doc: &Doc<'a>,
    x: &[Item<'a>],
    y: &[Item<'a>],
) -> Result<Seq<'a>, Fault>
    requires x { AreWithin (length doc.now.nodes) x.now }
    requires y { AreWithin (length doc.now.nodes) y.now }
    ensures { Gives result (meaning.of_texts (tree_nodes doc.now) (λ s t. meaning.yes_or_no (spec.contains s t)) x.now y.now) }
{
    let s = text_argument(alloc, doc, x)?;
    let t = text_argument(alloc, doc, y)?;
    one(
        alloc,
        Item::Boolean(finding::contains(s.as_str(), t.as_str())),
    )
}

/// `starts-with`
pub(crate) fn starts_with<'a>(
    alloc: Global,
    doc: &Doc<'a>,
    x: &[Item<'a>],
    y: &[Item<'a>],
) -> Result<Seq<'a>, Fault>
    requires x { AreWithin (length doc.now.nodes) x.now }
    requires y { AreWithin (length doc.now.nodes) y.now }
    ensures { Gives result (meaning.of_texts (tree_nodes doc.now) (λ s t. meaning.yes_or_no (spec.begins t s)) x.now y.now) }
{
    let s = text_argument(alloc, doc, x)?;
    let t = text_argument(alloc, doc, y)?;
    one(
        alloc,
        Item::Boolean(finding::begins(t.as_str(), s.as_str())),
    )
}

/// `ends-with`
pub(crate) fn ends_with<'a>(
    alloc: Global,
    doc: &Doc<'a>,
    x: &[Item<'a>],
    y: &[Item<'a>],
) -> Result<Seq<'a>, Fault>
    requires x { AreWithin (length doc.now.nodes) x.now }
    requires y { AreWithin (length doc.now.nodes) y.now }
    ensures { Gives result (meaning.of_texts (tree_nodes doc.now) (λ s t. meaning.yes_or_no (spec.ends t s)) x.now y.now) }
{
    let s = text_argument(alloc, doc, x)?;
    let t = text_argument(alloc, doc, y)?;
    one(alloc, Item::Boolean(finding::ends(t.as_str(), s.as_str())))
}

/// `substring-before`
pub(crate) fn substring_before<'a>(
    alloc: Global,
    doc: &Doc<'a>,
    x: &[Item<'a>],
    y: &[Item<'a>],
) -> Result<Seq<'a>, Fault>
    requires x { AreWithin (length doc.now.nodes) x.now }
    requires y { AreWithin (length doc.now.nodes) y.now }
    ensures { Gives result (meaning.of_texts (tree_nodes doc.now) (λ s t. meaning.text (spec.before s t)) x.now y.now) }
{
    let s = text_argument(alloc, doc, x)?;
    let t = text_argument(alloc, doc, y)?;
    copied(alloc, finding::before(s.as_str(), t.as_str()))
}

/// `substring-after`
pub(crate) fn substring_after<'a>(
    alloc: Global,
    doc: &Doc<'a>,
    x: &[Item<'a>],
    y: &[Item<'a>],
) -> Result<Seq<'a>, Fault>
    requires x { AreWithin (length doc.now.nodes) x.now }
    requires y { AreWithin (length doc.now.nodes) y.now }
    ensures { Gives result (meaning.of_texts (tree_nodes doc.now) (λ s t. meaning.text (spec.behind s t)) x.now y.now) }
{
    let s = text_argument(alloc, doc, x)?;
    let t = text_argument(alloc, doc, y)?;
    copied(alloc, finding::behind(s.as_str(), t.as_str()))
}

/// `translate`
pub(crate) fn translate<'a>(
    alloc: Global,
    doc: &Doc<'a>,
    x: &[Item<'a>],
    y: &[Item<'a>],
    z: &[Item<'a>],
) -> Result<Seq<'a>, Fault>
    requires x { AreWithin (length doc.now.nodes) x.now }
    requires y { AreWithin (length doc.now.nodes) y.now }
    requires z { AreWithin (length doc.now.nodes) z.now }
    ensures { Gives result (meaning.translate (tree_nodes doc.now) x.now y.now z.now) }
{
    let s = text_argument(alloc, doc, x)?;
    let from = text_argument(alloc, doc, y)?;
    let to = text_argument(alloc, doc, z)?;
    text(
        alloc,
        translating::translated(alloc, s.as_str(), from.as_str(), to.as_str())?,
    )
}

/// `substring` from a place on.
pub(crate) fn substring_from<'a>(
    alloc: Global,
    doc: &Doc<'a>,
    x: &[Item<'a>],
    y: &[Item<'a>],
) -> Result<Seq<'a>, Fault>
    requires x { AreWithin (length doc.now.nodes) x.now }
    requires y { AreWithin (length doc.now.nodes) y.now }
    ensures { Gives result (meaning.substring_from (tree_nodes doc.now) x.now y.now) }
{
    let s = text_argument(alloc, doc, x)?;
    let start = number_argument(alloc, doc, y)?;
    text(alloc, rest(alloc, s.as_str(), &start)?)
}

/// `substring` of so many places from one on.
pub(crate) fn substring_between<'a>(
    alloc: Global,
    doc: &Doc<'a>,
    x: &[Item<'a>],
    y: &[Item<'a>],
    z: &[Item<'a>],
) -> Result<Seq<'a>, Fault>
    requires x { AreWithin (length doc.now.nodes) x.now }
    requires y { AreWithin (length doc.now.nodes) y.now }
    requires z { AreWithin (length doc.now.nodes) z.now }
    ensures { Gives result (meaning.substring_between (tree_nodes doc.now) x.now y.now z.now) }
{
    let s = text_argument(alloc, doc, x)?;
    let start = number_argument(alloc, doc, y)?;
    let count = number_argument(alloc, doc, z)?;
    text(alloc, part(alloc, s.as_str(), &start, &count)?)
}

/// The characters from a place on, by a number that is rounded first.
fn rest(alloc: Global, text: &str, start: &Dec) -> Result<String, AllocError>
    ensures { IfOk result (λ s. chars (string_bytes s) ≡ spec.from_place (chars text.now) start.now) }
{
    from_place(alloc, text, start.nearest_whole())
}

/// The characters of so many places from one on, by numbers that are rounded first.
fn part(alloc: Global, text: &str, start: &Dec, count: &Dec) -> Result<String, AllocError>
    ensures { IfOk result (λ s. chars (string_bytes s) ≡ spec.between_places (chars text.now) start.now count.now) }
{
    let first = start.nearest_whole();
    between_places(alloc, text, first, first + count.nearest_whole())
}
