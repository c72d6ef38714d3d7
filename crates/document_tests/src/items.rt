//! Items as they are written in rows: `'text` a string, `~text` untyped, `#1.5` a number, `^2024-02-29` a date, `true` and
//! `false`, `@` the root element, `/` the document.
ghost use Rattle.std.specs.Prelude.{length, IfOk, OnOk};
ghost use Rattle.xpath_operators.specs.Nodes.{IsWithin, AreWithin, AllWithin};

use inv_base::Txt;
use inv_decimal::{Day, Dec};
use node_arena::Doc;
use std::alloc::{AllocError, Global};
use std::str;
use std::test::Fail;
use xpath_items::{Item, Outcome, Seq, Str};

/// The item that is written so.
fn item<'a>(alloc: Global, doc: &Doc<'a>, text: &str) -> Result<Item<'a>, Fail>
    ensures { IfOk result (λ item. IsWithin (length doc.now.nodes) item) }
{
    if text == "@" {
        return Ok(Item::Node(doc.root()));
    }
    if text == "/" {
        return Ok(Item::Node(doc.document()));
    }
    if let Some(rest) = text.strip_prefix('\'') {
        return Ok(Item::String(Str::own(Txt::of(alloc, rest)?)));
    }
    if let Some(rest) = text.strip_prefix('~') {
        return Ok(Item::Untyped(Str::own(Txt::of(alloc, rest)?)));
    }
    if let Some(rest) = text.strip_prefix('#') {
        return Ok(Item::Number(Dec::read(rest).ok_or("number")?));
    }
    if let Some(rest) = text.strip_prefix('^') {
        return Ok(Item::Date(Day::read_dashed(rest).ok_or("date")?));
    }
    Ok(Item::Boolean(text == "true"))
}

/// Puts the item that is written so behind the others.
fn push_written<'a>(
    alloc: Global,
    doc: &Doc<'a>,
    items: &mut Seq<'a>,
    text: &str,
) -> Result<(), Fail>
    requires { AreWithin (length doc.now.nodes) items.old }
    ensures { OnOk result (AreWithin (length doc.now.nodes) items.new) }
{
    let item = item(alloc, doc, text)?;
    items.push(item)?;
    Ok(())
}

/// The items that are written so, with commas between them.
pub(crate) fn sequence<'a>(alloc: Global, doc: &Doc<'a>, text: &str) -> Result<Seq<'a>, Fail>
    ensures { IfOk result (λ items. AreWithin (length doc.now.nodes) items) }
{
    let mut items = Seq::new(alloc);
    if text.is_empty() {
        return Ok(items);
    }
    'items: for piece in text.split(',') {
        push_written(alloc, doc, &mut items, piece)?;
    }
    Ok(items)
}

/// The values that are written so, with bars between them; none where nothing is written.
pub(crate) fn arguments<'a>(
    alloc: Global,
    doc: &Doc<'a>,
    text: Option<&str>,
) -> Result<Vec<Seq<'a>>, Fail>
    ensures { IfOk result (λ values. AllWithin (length doc.now.nodes) values.items) }
{
    let mut values = Vec::new(alloc);
    let Some(text) = text else {
        return Ok(values);
    };
    'values: for piece in text.split('|') {
        values.push(sequence(alloc, doc, piece)?)?;
    }
    Ok(values)
}

fn push_number(out: &mut String, number: &Dec) -> Result<(), AllocError> {
    let mut buffer = [0u8; 40];
    let length = number.print(&mut buffer);
    match str::from_utf8(&buffer[..length]) {
        Ok(text) => out.push_str(text),
        Err(_) => out.push_str("?"),
    }
}

fn push_day(out: &mut String, day: &Day) -> Result<(), AllocError> {
    let mut buffer = [0u8; 10];
    day.print_dashed(&mut buffer);
    match str::from_utf8(&buffer) {
        Ok(text) => out.push_str(text),
        Err(_) => out.push_str("?"),
    }
}

fn push_item(out: &mut String, item: &Item<'_>) -> Result<(), AllocError> {
    match item {
        Item::Node(node) => out.push_str(if node.number() == 1 { "@" } else { "/" }),
        Item::Boolean(b) => out.push_str(if *b { "true" } else { "false" }),
        Item::Number(number) => {
            out.push_str("#")?;
            push_number(out, number)
        }
        Item::String(text) => {
            out.push_str("'")?;
            out.push_str(text.as_str())
        }
        Item::Untyped(text) => {
            out.push_str("~")?;
            out.push_str(text.as_str())
        }
        Item::Date(day) => {
            out.push_str("^")?;
            push_day(out, day)
        }
    }
}

/// A value as rows write it, or the code of its error.
pub(crate) fn shown(alloc: Global, outcome: &Outcome<'_>) -> Result<String, AllocError> {
    match outcome {
        Outcome::Value(items) => shown_items(alloc, items.as_slice()),
        Outcome::Error(error) => format!(in alloc; "{error:?}"),
    }
}

/// The items of a value, as rows write them.
pub(crate) fn shown_items(alloc: Global, items: &[Item<'_>]) -> Result<String, AllocError> {
    let mut out = String::new(alloc);
    for (k, item) in items.iter().enumerate() {
        if k > 0 {
            out.push_str(",")?;
        }
        push_item(&mut out, item)?;
    }
    Ok(out)
}
