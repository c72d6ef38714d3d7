//! Casts (Functions and Operators, section 17.1; XPath 2.0, sections 3.10.2 and 3.10.3), at atomised operands.
ghost use Rattle.std.specs.Prelude.{◌≡◌, length};
ghost use Rattle.node_arena.specs.Moves.{tree_nodes};
ghost use Rattle.xpath_items.specs.Faults.{Gives};
ghost use Rattle.xpath_grammar.specs.declared.functions.Function.TheVariants.{XsString};
ghost use Rattle.xpath_meaning.specs.Reading as meaning;
ghost use Rattle.xpath_meaning.specs.Values as values;
ghost use Rattle.xpath_meaning.specs.Values.{then_};
ghost use Rattle.xpath_operators.specs.Nodes.{IsWithin, AreWithin};

use crate::readings::{read_boolean, read_day, read_number, read_whole_number};
use crate::texts::text_of;
use crate::values::one;
use inv_decimal::{Day, Dec};
use node_arena::Doc;
use std::alloc::Global;
use xpath_grammar::functions::Function;
use xpath_grammar::operators::CastWord;
use xpath_items::{DynError, Fault, Item, Seq};

fn number_item<'a>(read: Result<Dec, DynError>) -> Result<Item<'a>, DynError>
    ensures { result ≡ meaning.number_item read }
{
    match read {
        Ok(number) => Ok(Item::Number(number)),
        Err(error) => Err(error),
    }
}

fn boolean_item<'a>(read: Result<bool, DynError>) -> Result<Item<'a>, DynError>
    ensures { result ≡ meaning.boolean_item read }
{
    match read {
        Ok(b) => Ok(Item::Boolean(b)),
        Err(error) => Err(error),
    }
}

fn day_item<'a>(read: Result<Day, DynError>) -> Result<Item<'a>, DynError>
    ensures { result ≡ meaning.day_item read }
{
    match read {
        Ok(day) => Ok(Item::Date(day)),
        Err(error) => Err(error),
    }
}

/// A boolean as a number: one or zero.
fn boolean_number(b: bool) -> Dec
    ensures { result ≡ meaning.boolean_number b }
{
    if b {
        Dec::of_parts(1, 0)
    } else {
        Dec::of_parts(0, 0)
    }
}

/// A number cut towards zero to a whole one.
fn cut(number: &Dec) -> Dec
    ensures { result ≡ meaning.cut number.now }
{
    Dec::of_whole(number.whole())
}

fn as_decimal<'a>(item: &Item<'_>) -> Result<Item<'a>, DynError>
    ensures { result ≡ meaning.as_decimal item.now }
{
    match item {
        Item::String(text) => number_item(read_number(text.as_str())),
        Item::Untyped(text) => number_item(read_number(text.as_str())),
        Item::Number(number) => Ok(Item::Number(*number)),
        Item::Boolean(b) => Ok(Item::Number(boolean_number(*b))),
        _ => Err(DynError::XPTY0004),
    }
}

fn as_integer<'a>(item: &Item<'_>) -> Result<Item<'a>, DynError>
    ensures { result ≡ meaning.as_integer item.now }
{
    match item {
        Item::String(text) => number_item(read_whole_number(text.as_str())),
        Item::Untyped(text) => number_item(read_whole_number(text.as_str())),
        Item::Number(number) => Ok(Item::Number(cut(number))),
        Item::Boolean(b) => Ok(Item::Number(boolean_number(*b))),
        _ => Err(DynError::XPTY0004),
    }
}

fn as_date<'a>(item: &Item<'_>) -> Result<Item<'a>, DynError>
    ensures { result ≡ meaning.as_date item.now }
{
    match item {
        Item::String(text) => day_item(read_day(text.as_str())),
        Item::Untyped(text) => day_item(read_day(text.as_str())),
        Item::Date(day) => Ok(Item::Date(*day)),
        _ => Err(DynError::XPTY0004),
    }
}

fn as_boolean<'a>(item: &Item<'_>) -> Result<Item<'a>, DynError>
    ensures { result ≡ meaning.as_boolean item.now }
{
    match item {
        Item::String(text) => boolean_item(read_boolean(text.as_str())),
        Item::Untyped(text) => boolean_item(read_boolean(text.as_str())),
        Item::Number(number) => Ok(Item::Boolean(!number.is_zero())),
        Item::Boolean(b) => Ok(Item::Boolean(*b)),
        _ => Err(DynError::XPTY0004),
    }
}

/// What was found without memory.
fn found<'a>(item: Result<Item<'a>, DynError>) -> Result<Item<'a>, Fault>
    ensures { Gives result item.entry }
{
    match item {
        Ok(item) => Ok(item),
        Err(error) => Err(Fault::Error(error)),
    }
}

/// The text of an item as a string.
fn as_string<'a>(alloc: Global, doc: &Doc<'a>, item: &Item<'a>) -> Result<Item<'a>, Fault>
    requires { IsWithin (length doc.now.nodes) item.now }
    ensures { Gives result (meaning.converted (tree_nodes doc.now) XsString item.now) }
{
    match text_of(alloc, doc, item) {
        Ok(text) => Ok(Item::String(text)),
        Err(_) => Err(Fault::Memory),
    }
}

/// An item as one of the type of the function.
fn converted<'a>(
    alloc: Global,
    doc: &Doc<'a>,
    to: Function,
    item: &Item<'a>,
) -> Result<Item<'a>, Fault>
    requires { IsWithin (length doc.now.nodes) item.now }
    ensures { Gives result (meaning.converted (tree_nodes doc.now) to item.now) }
{
    match to {
        Function::XsString => as_string(alloc, doc, item),
        Function::XsDecimal => found(as_decimal(item)),
        Function::XsInteger => found(as_integer(item)),
        Function::XsDate => found(as_date(item)),
        Function::XsBoolean => found(as_boolean(item)),
        _ => Err(Fault::Error(DynError::XPTY0004)),
    }
}

/// One item as a value of the type.
fn converted_one<'a>(
    alloc: Global,
    doc: &Doc<'a>,
    to: Function,
    item: &Item<'a>,
) -> Result<Seq<'a>, Fault>
    requires { IsWithin (length doc.now.nodes) item.now }
    ensures { Gives result (then_ (meaning.converted (tree_nodes doc.now) to item.now) values.one) }
{
    match converted(alloc, doc, to, item) {
        Ok(item) => one(alloc, item),
        Err(fault) => Err(fault),
    }
}

/// The function of a type at an atomised argument: none gives none, and more than one item is XPTY0004.
pub fn type_called<'a>(
    alloc: Global,
    doc: &Doc<'a>,
    to: Function,
    items: &[Item<'a>],
) -> Result<Seq<'a>, Fault>
    requires { AreWithin (length doc.now.nodes) items.now }
    ensures { Gives result (meaning.type_called (tree_nodes doc.now) to items.now) }
{
    match items {
        [] => Ok(Seq::new(alloc)),
        [item] => converted_one(alloc, doc, to, item),
        _ => Err(Fault::Error(DynError::XPTY0004)),
    }
}

/// `cast as`: exactly one item, or with `?` perhaps none.
fn cast_to<'a>(
    alloc: Global,
    doc: &Doc<'a>,
    to: Function,
    optional: bool,
    items: &[Item<'a>],
) -> Result<Seq<'a>, Fault>
    requires { AreWithin (length doc.now.nodes) items.now }
    ensures { Gives result (meaning.cast_to (tree_nodes doc.now) to optional items.now) }
{
    match items {
        [] => {
            if optional {
                Ok(Seq::new(alloc))
            } else {
                Err(Fault::Error(DynError::XPTY0004))
            }
        }
        _ => type_called(alloc, doc, to, items),
    }
}

/// `cast as` and `castable as` at an atomised operand. `castable` tells whether the cast has no error.
pub fn cast<'a>(
    alloc: Global,
    doc: &Doc<'a>,
    word: CastWord,
    to: Function,
    optional: bool,
    items: &[Item<'a>],
) -> Result<Seq<'a>, Fault>
    requires { AreWithin (length doc.now.nodes) items.now }
    ensures { Gives result (meaning.cast_by (tree_nodes doc.now) word to optional items.now) }
{
    match word {
        CastWord::Cast => cast_to(alloc, doc, to, optional, items),
        CastWord::Castable => match cast_to(alloc, doc, to, optional, items) {
            Ok(_) => one(alloc, Item::Boolean(true)),
            Err(Fault::Error(_)) => one(alloc, Item::Boolean(false)),
            Err(Fault::Memory) => Err(Fault::Memory),
        },
    }
}
