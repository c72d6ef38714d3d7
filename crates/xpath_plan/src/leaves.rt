//! Expressions without parts.
ghost use Rattle.std.specs.Prelude.{◌≡◌, ◌++◌, List, Option, Some, None, option_map, chars, IfOk, OnOk, length, take};
ghost use Rattle.inv_base.specs.Tree.{Name};
ghost use Rattle.xpath_types.specs.Scopes.{written_name};
ghost use Rattle.xpath_meaning.specs.Expressions.{no_more, named};
ghost use Rattle.xpath_meaning.specs.Resolving as meaning;
ghost use Rattle.xpath_plan.specs.Plans as spec;

use crate::compiling::State;
use crate::names::NameTable;
use crate::plan_node::{Simple, StepTest};
use inv_base::Txt;
use std::alloc::{AllocError, Global};
use xpath_grammar::expr::Leaf;
use xpath_grammar::step::{Axis, AxisForm, KindTest, Test};
use xpath_tokens::token;
use xpath_types::heights::Heights;
use xpath_types::{Resolved, Scope, function_called, written};

/// The axis of a step.
fn axis_of(form: AxisForm, test: &Test) -> Axis
    ensures { result ≡ meaning.axis_of form test.now }
{
    match form {
        AxisForm::Unwritten => match test {
            Test::Kind(KindTest::Attribute) => Axis::Attribute,
            _ => Axis::Child,
        },
        AxisForm::At => Axis::Attribute,
        AxisForm::Written(axis) => axis,
    }
}

/// The test of the local name in the namespace.
fn named_in(
    alloc: Global,
    names: &mut NameTable,
    uri: &str,
    local: &Txt,
) -> Result<Option<StepTest>, AllocError>
    ensures test { IfOk result (λ test. (later : List Name) →
        spec.test_in (names.new ++ later) test ≡ Some (named (record { uri = chars uri.now; local = local.now }))) }
    ensures grown { OnOk result (take (length names.old) names.new ≡ names.old) }
{
    let number = names.number(alloc, uri, local.as_str())?;
    Ok(Some(StepTest::Named(number)))
}

/// The test of a name, none where its prefix isn't bound.
fn name_test(
    alloc: Global,
    scope: &Scope,
    names: &mut NameTable,
    name: &token::Name,
) -> Result<Option<StepTest>, AllocError>
    ensures test { IfOk result (λ test. (later : List Name) → spec.test_in (names.new ++ later) test ≡ meaning.name_test scope.now name.now) }
    ensures grown { OnOk result (take (length names.old) names.new ≡ names.old) }
{
    match name {
        token::Name::Plain(local) => named_in(alloc, names, "", local),
        token::Name::Prefixed(prefix, local) => match scope.uri(prefix.as_str()) {
            Some(uri) => named_in(alloc, names, uri, local),
            None => Ok(None),
        },
        token::Name::AnyLocal(prefix) => match scope.uri(prefix.as_str()) {
            Some(uri) => Ok(Some(StepTest::InNamespace(Txt::of(alloc, uri)?))),
            None => Ok(None),
        },
        token::Name::AnyPrefix(local) => Ok(Some(StepTest::WithLocal(local.try_clone()?))),
    }
}

/// What a step wants, none where the prefix of its name isn't bound.
fn test_of(
    alloc: Global,
    scope: &Scope,
    names: &mut NameTable,
    test: &Test,
) -> Result<Option<StepTest>, AllocError>
    ensures test { IfOk result (λ found. (later : List Name) → spec.test_in (names.new ++ later) found ≡ meaning.test_of scope.now test.now) }
    ensures grown { OnOk result (take (length names.old) names.new ≡ names.old) }
{
    match test {
        Test::Name(name) => name_test(alloc, scope, names, name),
        Test::Star => Ok(Some(StepTest::AnyName)),
        Test::Kind(kind) => Ok(Some(StepTest::Kind(*kind))),
    }
}

fn step_of(
    alloc: Global,
    scope: &Scope,
    names: &mut NameTable,
    form: AxisForm,
    test: &Test,
) -> Result<Simple, AllocError>
    ensures step { IfOk result (λ step. (later : List Name) → spec.simple_seen (names.new ++ later) step ≡ meaning.step_of (meaning.axis_of form test.now)
        (meaning.test_of scope.now test.now)) }
    ensures grown { OnOk result (take (length names.old) names.new ≡ names.old) }
{
    let axis = axis_of(form, test);
    match test_of(alloc, scope, names, test)? {
        Some(found) => Ok(Simple::Step(axis, found)),
        None => Ok(Simple::Nothing),
    }
}

fn variable_of(alloc: Global, bound: &Heights, name: &token::Name) -> Result<Simple, AllocError>
    ensures { IfOk result (λ variable. (later : List Name) → spec.simple_seen later variable ≡ meaning.variable_in (written_name name.now) bound.now) }
{
    let name = written(alloc, name)?;
    match bound.height(name.as_str()) {
        Some(height) => Ok(Simple::Variable(height)),
        None => Ok(Simple::Outer(Txt::of(alloc, name.as_str())?)),
    }
}

fn call_of(called: Resolved) -> Simple
    ensures { (later : List Name) → spec.simple_seen later result ≡ meaning.call_of called no_more }
{
    match called {
        Resolved::Known(function) => Simple::Called(function),
        Resolved::Unbound | Resolved::Unknown => Simple::Nothing,
    }
}

/// The work of an expression without parts.
pub(crate) fn simple_of(
    alloc: Global,
    scope: &Scope,
    state: &mut State,
    leaf: &Leaf,
) -> Result<Simple, AllocError>
    ensures work { IfOk result (λ simple. (later : List Name) →
        spec.simple_seen (state.new.names ++ later) simple ≡ meaning.leaf_of scope.now state.old.bound leaf.now) }
    ensures grown { OnOk result (take (length state.old.names) state.new.names ≡ state.old.names) }
    ensures kept { OnOk result (state.new.bound ≡ state.old.bound) }
{
    match leaf {
        Leaf::Literal(text) => Ok(Simple::Text(text.try_clone()?)),
        Leaf::Number(number) => Ok(Simple::Number(*number)),
        Leaf::Variable(name) => variable_of(alloc, &state.bound, name),
        Leaf::Context => Ok(Simple::Item),
        Leaf::Parent => Ok(Simple::Step(Axis::Parent, StepTest::Kind(KindTest::Node))),
        Leaf::Empty => Ok(Simple::Nothing),
        Leaf::Root => Ok(Simple::Root),
        Leaf::Called(name) => Ok(call_of(function_called(scope, name))),
        Leaf::Step(form, test) => step_of(alloc, scope, &mut state.names, *form, test),
    }
}
