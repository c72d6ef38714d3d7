//! Calls by the number of their arguments.
ghost use Rattle.std.specs.Prelude.{◌≡◌, true, length, IfOk};
ghost use Rattle.node_arena.specs.Moves.{tree_nodes};
ghost use Rattle.xpath_grammar.specs.Functions.{takes};
ghost use Rattle.xpath_items.specs.Faults.{Gives};
ghost use Rattle.xpath_meaning.specs.Functions as meaning;
ghost use Rattle.xpath_meaning.specs.Items.{atomised};
ghost use Rattle.xpath_meaning.specs.Reading.{type_called};
ghost use Rattle.xpath_meaning.specs.Values.{value};
ghost use Rattle.xpath_operators.specs.Nodes.{IsWithin, AreWithin, AllWithin};
ghost use Rattle.xpath_values.specs.Domains as spec;

use crate::distinguishing::distinct_values;
use crate::domains::Domain;
use crate::joining::{concat, string_join};
use crate::names::{local_name, local_name_at, namespace_uri, namespace_uri_at};
use crate::{numbers, patterns, sequences, texts, totals};
use node_arena::Doc;
use std::alloc::{AllocError, Global};
use xpath_grammar::functions::Function;
use xpath_items::{DynError, Fault, Focus, Item, Outcome, Seq};
use xpath_operators::{atoms, counted, one, outcome, type_called};

/// A call without arguments.
fn called_alone<'a>(
    alloc: Global,
    doc: &Doc<'a>,
    function: Function,
    focus: &Focus<'a>,
) -> Result<Seq<'a>, Fault>
    requires { IsWithin (length doc.now.nodes) focus.now.item }
    ensures { Gives result (meaning.called_alone (tree_nodes doc.now) function focus.now) }
{
    match function {
        Function::True => one(alloc, Item::Boolean(true)),
        Function::False => one(alloc, Item::Boolean(false)),
        Function::Position => counted(alloc, focus.position),
        Function::Last => counted(alloc, focus.last),
        Function::String => texts::string_of(alloc, doc, &focus.item),
        Function::StringLength => texts::string_length_of(alloc, doc, &focus.item),
        Function::NormalizeSpace => texts::normalize_space_of(alloc, doc, &focus.item),
        Function::LocalName => local_name_at(alloc, doc, &focus.item),
        Function::NamespaceUri => namespace_uri_at(alloc, doc, &focus.item),
        _ => Err(Fault::Error(DynError::XPTY0004)),
    }
}

/// The function of a type at an argument.
fn typed<'a>(alloc: Global, doc: &Doc<'a>, to: Function, x: &[Item<'a>]) -> Result<Seq<'a>, Fault>
    requires { AreWithin (length doc.now.nodes) x.now }
    ensures { Gives result (type_called (tree_nodes doc.now) to (atomised (tree_nodes doc.now) x.now)) }
{
    let items = atoms(alloc, doc, x)?;
    type_called(alloc, doc, to, &items)
}

/// A call of a function on sequences, with one argument.
fn called_on_items<'a>(
    alloc: Global,
    doc: &Doc<'a>,
    function: Function,
    x: &Seq<'a>,
) -> Result<Seq<'a>, Fault>
    requires { AreWithin (length doc.now.nodes) x.now }
    ensures { Gives result (spec.called_on_items (tree_nodes doc.now) function x.now) }
{
    match function {
        Function::Not => sequences::negated(alloc, x),
        Function::Boolean => sequences::boolean_of(alloc, x),
        Function::Exists => sequences::exists(alloc, x.as_slice()),
        Function::Empty => sequences::empty(alloc, x.as_slice()),
        Function::Count => sequences::count(alloc, x.as_slice()),
        Function::Reverse => sequences::reversed(alloc, x.as_slice()),
        Function::Data => sequences::data(alloc, doc, x.as_slice()),
        Function::DistinctValues => distinct_values(alloc, doc, x.as_slice()),
        Function::LocalName => local_name(alloc, doc, x.as_slice()),
        Function::NamespaceUri => namespace_uri(alloc, doc, x.as_slice()),
        _ => Err(Fault::Error(DynError::XPTY0004)),
    }
}

/// A call of a function on texts, with one argument.
fn called_on_text<'a>(
    alloc: Global,
    doc: &Doc<'a>,
    function: Function,
    x: &[Item<'a>],
) -> Result<Seq<'a>, Fault>
    requires { AreWithin (length doc.now.nodes) x.now }
    ensures { Gives result (spec.called_on_text (tree_nodes doc.now) function x.now) }
{
    match function {
        Function::String => texts::string(alloc, doc, x),
        Function::StringLength => texts::string_length(alloc, doc, x),
        Function::NormalizeSpace => texts::normalize_space(alloc, doc, x),
        Function::UpperCase => texts::upper_case(alloc, doc, x),
        Function::LowerCase => texts::lower_case(alloc, doc, x),
        Function::XsString => typed(alloc, doc, function, x),
        Function::XsDecimal => typed(alloc, doc, function, x),
        Function::XsInteger => typed(alloc, doc, function, x),
        Function::XsDate => typed(alloc, doc, function, x),
        Function::XsBoolean => typed(alloc, doc, function, x),
        _ => Err(Fault::Error(DynError::XPTY0004)),
    }
}

/// A call of a function on numbers, with one argument.
fn called_on_numbers<'a>(
    alloc: Global,
    doc: &Doc<'a>,
    function: Function,
    x: &[Item<'a>],
) -> Result<Seq<'a>, Fault>
    requires { AreWithin (length doc.now.nodes) x.now }
    ensures { Gives result (spec.called_on_numbers (tree_nodes doc.now) function x.now) }
{
    match function {
        Function::Abs => numbers::abs(alloc, doc, x),
        Function::Floor => numbers::floor(alloc, doc, x),
        Function::Ceiling => numbers::ceiling(alloc, doc, x),
        Function::Round => numbers::round(alloc, doc, x),
        Function::Sum => totals::sum(alloc, doc, x),
        Function::Min => totals::min(alloc, doc, x),
        Function::Max => totals::max(alloc, doc, x),
        _ => Err(Fault::Error(DynError::XPTY0004)),
    }
}

/// Of what a function is that has one argument.
fn domain(function: Function) -> Domain
    ensures { result ≡ spec.domain function }
{
    match function {
        Function::Not
        | Function::Boolean
        | Function::Exists
        | Function::Empty
        | Function::Count
        | Function::Reverse
        | Function::Data
        | Function::DistinctValues
        | Function::LocalName
        | Function::NamespaceUri => Domain::Items,
        Function::Abs
        | Function::Floor
        | Function::Ceiling
        | Function::Round
        | Function::Sum
        | Function::Min
        | Function::Max => Domain::Numbers,
        _ => Domain::Texts,
    }
}

/// A call with one argument.
fn called_with_one<'a>(
    alloc: Global,
    doc: &Doc<'a>,
    function: Function,
    x: &Seq<'a>,
) -> Result<Seq<'a>, Fault>
    requires { AreWithin (length doc.now.nodes) x.now }
    ensures { Gives result (meaning.called_with_one (tree_nodes doc.now) function x.now) }
{
    match domain(function) {
        Domain::Items => called_on_items(alloc, doc, function, x),
        Domain::Numbers => called_on_numbers(alloc, doc, function, x.as_slice()),
        Domain::Texts => called_on_text(alloc, doc, function, x.as_slice()),
    }
}

/// A call with two arguments.
fn called_with_two<'a>(
    alloc: Global,
    doc: &Doc<'a>,
    function: Function,
    x: &[Item<'a>],
    y: &[Item<'a>],
) -> Result<Seq<'a>, Fault>
    requires x { AreWithin (length doc.now.nodes) x.now }
    requires y { AreWithin (length doc.now.nodes) y.now }
    ensures { Gives result (meaning.called_with_two (tree_nodes doc.now) function x.now y.now) }
{
    match function {
        Function::StringJoin => string_join(alloc, doc, x, y),
        Function::Substring => texts::substring_from(alloc, doc, x, y),
        Function::Contains => texts::contains(alloc, doc, x, y),
        Function::StartsWith => texts::starts_with(alloc, doc, x, y),
        Function::EndsWith => texts::ends_with(alloc, doc, x, y),
        Function::Matches => patterns::matches(alloc, doc, x, y),
        Function::SubstringBefore => texts::substring_before(alloc, doc, x, y),
        Function::SubstringAfter => texts::substring_after(alloc, doc, x, y),
        _ => Err(Fault::Error(DynError::XPTY0004)),
    }
}

/// A call with three arguments.
fn called_with_three<'a>(
    alloc: Global,
    doc: &Doc<'a>,
    function: Function,
    x: &[Item<'a>],
    y: &[Item<'a>],
    z: &[Item<'a>],
) -> Result<Seq<'a>, Fault>
    requires x { AreWithin (length doc.now.nodes) x.now }
    requires y { AreWithin (length doc.now.nodes) y.now }
    requires z { AreWithin (length doc.now.nodes) z.now }
    ensures { Gives result (meaning.called_with_three (tree_nodes doc.now) function x.now y.now z.now) }
{
    match function {
        Function::Substring => texts::substring_between(alloc, doc, x, y, z),
        Function::Translate => texts::translate(alloc, doc, x, y, z),
        _ => Err(Fault::Error(DynError::XPTY0004)),
    }
}

/// A call by the number of its arguments.
fn called_with<'a>(
    alloc: Global,
    doc: &Doc<'a>,
    function: Function,
    focus: &Focus<'a>,
    arguments: &[Seq<'a>],
) -> Result<Seq<'a>, Fault>
    requires focus { IsWithin (length doc.now.nodes) focus.now.item }
    requires arguments { AllWithin (length doc.now.nodes) arguments.now }
    ensures { Gives result (meaning.called_with (tree_nodes doc.now) function focus.now arguments.now) }
{
    match arguments {
        [] => called_alone(alloc, doc, function, focus),
        [x] => called_with_one(alloc, doc, function, x),
        [x, y] => called_with_two(alloc, doc, function, x.as_slice(), y.as_slice()),
        [x, y, z] => called_with_three(
            alloc,
            doc,
            function,
            x.as_slice(),
            y.as_slice(),
            z.as_slice(),
        ),
        _ => Err(Fault::Error(DynError::XPTY0004)),
    }
}

/// Whether the function takes any number of arguments from two on.
pub fn is_concat(function: Function) -> bool
    ensures { result ≡ meaning.is_concat function }
{
    match function {
        Function::Concat => true,
        _ => false,
    }
}

/// The value of a call, or its error, with want of memory apart.
fn called<'a>(
    alloc: Global,
    doc: &Doc<'a>,
    function: Function,
    focus: &Focus<'a>,
    arguments: &[Seq<'a>],
) -> Result<Seq<'a>, Fault>
    requires focus { IsWithin (length doc.now.nodes) focus.now.item }
    requires arguments { AllWithin (length doc.now.nodes) arguments.now }
    ensures { Gives result (meaning.call (tree_nodes doc.now) function focus.now arguments.now) }
{
    if is_concat(function) {
        concat(alloc, doc, arguments)
    } else {
        called_with(alloc, doc, function, focus, arguments)
    }
}

/// Calls a function at the values of its arguments, which are judged and converted from left to right. Without its optional
/// argument a function takes the item of the focus.
pub fn call<'a>(
    alloc: Global,
    doc: &Doc<'a>,
    f: Function,
    focus: &Focus<'a>,
    args: &[Seq<'a>],
) -> Result<Outcome<'a>, AllocError>
    requires arguments { takes f (length args.now) ≡ true }
    requires focus { IsWithin (length doc.now.nodes) focus.now.item }
    requires within { AllWithin (length doc.now.nodes) args.now }
    ensures { IfOk result (λ outcome. value outcome ≡ meaning.call (tree_nodes doc.now) f focus.now args.now) }
{
    outcome(called(alloc, doc, f, focus, args))
}
