//! Patterns in texts: `matches`.
ghost use Rattle.std.specs.Prelude.{◌≡◌, length, chars, IfOk};
ghost use Rattle.node_arena.specs.Moves.{tree_nodes};
ghost use Rattle.xpath_items.specs.Faults.{Gives};
ghost use Rattle.xpath_meaning.specs.Functions as meaning;
ghost use Rattle.xpath_meaning.specs.Texts.{finds};
ghost use Rattle.xpath_operators.specs.Nodes.{AreWithin};

use crate::arguments::text_argument;
use node_arena::Doc;
use std::alloc::{AllocError, Global};
use xpath_items::{Fault, Item, Seq};
use xpath_operators::one;
use xsd_pattern::{PatternFault, Regex, holds, parse};

/// Whether the pattern is found in the text. A text that is no pattern is found nowhere.
fn is_found(alloc: Global, pattern: &str, text: &str) -> Result<bool, AllocError>
    ensures { IfOk result (λ found. found ≡ finds (chars pattern.now) (chars text.now)) }
{
    match parse(alloc, pattern) {
        Ok(regex) => {
            let found = holds(alloc, &regex, text);
            drop(regex);
            found
        }
        Err(PatternFault::Bad) => Ok(false),
        Err(PatternFault::TooLarge) => Ok(false),
        Err(PatternFault::Memory) => Err(AllocError),
    }
}

/// `matches`
pub(crate) fn matches<'a>(
    alloc: Global,
    doc: &Doc<'a>,
    x: &[Item<'a>],
    y: &[Item<'a>],
) -> Result<Seq<'a>, Fault>
    requires x { AreWithin (length doc.now.nodes) x.now }
    requires y { AreWithin (length doc.now.nodes) y.now }
    ensures { Gives result (meaning.of_texts (tree_nodes doc.now) (λ s t. meaning.yes_or_no (finds t s)) x.now y.now) }
{
    let s = text_argument(alloc, doc, x)?;
    let t = text_argument(alloc, doc, y)?;
    let found = is_found(alloc, t.as_str(), s.as_str())?;
    one(alloc, Item::Boolean(found))
}

/// `matches` with a pattern that was read before, so that it needn't be read at each node.
pub fn found<'a>(
    alloc: Global,
    doc: &Doc<'a>,
    pattern: &Regex,
    x: &[Item<'a>],
) -> Result<Seq<'a>, Fault>
    requires { AreWithin (length doc.now.nodes) x.now }
    ensures { Gives result (meaning.of_text (tree_nodes doc.now) (λ s. meaning.yes_or_no (finds pattern.now s)) x.now) }
{
    let s = text_argument(alloc, doc, x)?;
    let found = holds(alloc, pattern, s.as_str())?;
    one(alloc, Item::Boolean(found))
}
