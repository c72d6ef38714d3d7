//! The text of an item (Functions and Operators, sections 2.3 and 17.1.2).
ghost use Rattle.std.specs.Prelude.{◌≡◌, length, chars, string_bytes, IfOk};
ghost use Rattle.inv_decimal.specs.WrittenNumber.{decimal_text};
ghost use Rattle.inv_decimal.specs.WrittenDay.{dashed_day_text};
ghost use Rattle.node_arena.specs.Moves.{tree_nodes};
ghost use Rattle.xpath_meaning.specs.Items as spec;
ghost use Rattle.xpath_operators.specs.Nodes.{IsWithin};
ghost use Rattle.xpath_operators.specs.Texts.{Puts};

use crate::strings::string_at;
use inv_base::ascii_text;
use inv_decimal::laws::printed_texts_are_ascii;
use inv_decimal::{Day, Dec};
use node_arena::Doc;
use std::alloc::{AllocError, Global};
use xpath_items::{Item, Str};

#[tactic(auto, using(crate::proofs::TextLemmas::words))]
fn boolean_text(b: bool) -> &'static str
    ensures { chars result.now ≡ spec.boolean_text b }
{
    if b { "true" } else { "false" }
}

fn number_text(alloc: Global, number: &Dec) -> Result<String, AllocError>
    ensures { IfOk result (λ text. chars (string_bytes text) ≡ decimal_text number.now) }
{
    printed_texts_are_ascii();
    let mut buffer = [0u8; 40];
    let length = number.print(&mut buffer);
    String::from_str(alloc, ascii_text(&buffer[..length]))
}

fn day_text(alloc: Global, day: &Day) -> Result<String, AllocError>
    ensures { IfOk result (λ text. chars (string_bytes text) ≡ dashed_day_text day.now) }
{
    printed_texts_are_ascii();
    let mut buffer = [0u8; 10];
    day.print_dashed(&mut buffer);
    String::from_str(alloc, ascii_text(&buffer))
}

/// The text of an item: a node's string, a text itself, `true` or `false`, a number at its shortest, a day as
/// `YYYY-MM-DD`. It is lent where the document or the item lends it.
pub fn text_of<'a>(alloc: Global, doc: &Doc<'a>, item: &Item<'a>) -> Result<Str<'a>, AllocError>
    requires { IsWithin (length doc.now.nodes) item.now }
    ensures { IfOk result (λ text. text ≡ spec.text_of (tree_nodes doc.now) item.now) }
{
    match item {
        Item::Node(node) => string_at(alloc, doc, *node),
        Item::Boolean(b) => Ok(Str::lent(boolean_text(*b))),
        Item::Number(number) => Ok(Str::made(number_text(alloc, number)?)),
        Item::String(text) => text.copied(alloc),
        Item::Untyped(text) => text.copied(alloc),
        Item::Date(day) => Ok(Str::made(day_text(alloc, day)?)),
    }
}

/// Puts a text behind another. Without memory nothing is put.
pub fn push(out: &mut String, text: &str) -> Result<(), AllocError>
    ensures { Puts result (chars text.now) (string_bytes out.old) (string_bytes out.new) }
{
    out.push_str(text)
}
