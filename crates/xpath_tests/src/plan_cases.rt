//! Expressions and their plans. Names are those of the plan's table, `{uri}local`; what stands before a part is its
//! operator.
ghost use Rattle.xpath_grammar.specs.Grammar.{Grammatical};
ghost use Rattle.xpath_grammar.specs.View.{view};

use crate::made::{Made, expect_made};
use crate::nestings::{Nesting, push_nesting};
use crate::shown::{push_number, push_texts};
use std::alloc::{AllocError, Global};
use std::test::Fail;
use test_rows::expect;
use xpath_grammar::expr::Expr;
use xpath_grammar::functions::Function;
use xpath_grammar::operators::CastWord;
use xpath_plan::laws::typed_expressions_are_grammatical;
use xpath_plan::plan_node::{Operation, PlanNode, Separator, Simple, StepTest};
use xpath_plan::{NameTable, Plan, compile};
use xpath_syntax::laws::answers_are_grammatical;
use xpath_syntax::parse;
use xpath_tokens::token::Operator;
use xpath_types::{Scope, check};

const LEAVES: &str = "\
'it''s' → it's
1.50 → 1.500000000000000000
() → [Once(0, 0): ()]
. → .
/ → [Once(0, 0): /]
.. → Parent::Node
a → Child::{}a
@a → Attribute::{}a
p:a → Child::{urn:p}a
ancestor::p:* → Ancestor::{urn:p}*
@*:b → Attribute::*:b
* → Child::*
text() → Child::Text
attribute() → Attribute::Attribute
$v → $v
$p:v → $p:v
true() → [Once(0, 0): True]
f:position() → Position";

const FORMS: &str = "\
1, 2, . → [Chain: 1; Comma 2; Comma .]
1 + 2 - 3 → [Once(0, 0): [Chain: 1; Plus 2; Minus 3]]
1 to 3 → [Once(0, 0): [Chain: 1; To 3]]
a = 'b' → [Chain: Child::{}a; Equal b]
true() and false() or true() → [Once(4, 0): [Chain: [Once(2, 0): [Chain: [Once(0, 0): True]; And [Once(1, 0): False]]]; Or [Once(3, 0): True]]]
a | b → [Chain: Child::{}a; Bar Child::{}b]
a//b/@c → [Chain: Child::{}a; DoubleSlash Child::{}b; Slash Attribute::{}c]
/a → [Once(0, 0): [Chain: Slash Child::{}a]]
//a → [Once(0, 0): [Chain: DoubleSlash Child::{}a]]
- + 1 → [Once(0, 0): [Signs Minus Plus: 1]]
(1) → [Once(0, 0): [Only: 1]]
a[1][@b] → [FilteredStep: Child::{}a; 1; Attribute::{}b]
..[1] → [FilteredStep: Parent::Node; 1]
a[@b] → [FreeStep: Child::{}a; Attribute::{}b]
(1, 2)[. = 1] → [Once(2, 0): [Filtered: [Once(1, 0): [Only: [Once(0, 0): [Chain: 1; Comma 2]]]]; [Chain: .; Equal 1]]]
if (a) then 1 else 2 → [Conditional: Child::{}a; 1; Else 2]
1 cast as xs:string → [Once(0, 0): [Cast(Cast, XsString, false): 1]]
a castable as t:date? → [Cast(Castable, XsDate, true): Child::{}a]
concat('a', 1, a) → [Call(Concat): a; Comma 1; Comma Child::{}a]
xs:decimal('1') → [Once(0, 0): [Call(XsDecimal): 1]]
matches(a, '^x$') → [Matches: Child::{}a; Comma ^x$]
some $x in a satisfies $x → [Bound(Some): Child::{}a; Satisfies $0]
every $x in a satisfies 1 → [Bound(Every): Child::{}a; Satisfies 1]
for $x in 1, $y in $x return $y + $x + $v → [Bound(For): 1; $0; Return [Chain: $1; Plus $0; Plus $v]]
for $x in a return true() → [Bound(For): Child::{}a; Return [Once(0, 1): True]]
for $x in 1 return for $x in $x return $x → [Once(0, 0): [Bound(For): 1; Return [Bound(For): $0; Return $1]]]
(for $x in 1 return $x) + (for $y in 2 return $y) → [Once(4, 0): [Chain: [Once(1, 0): [Only: [Once(0, 0): [Bound(For): 1; Return $0]]]]; Plus [Once(3, 0): [Only: [Once(2, 0): [Bound(For): 2; Return $0]]]]]]";

/// Declares three prefixes and two variables.
fn declare(alloc: Global, scope: &mut Scope) -> Result<(), AllocError> {
    scope.prefix(alloc, "p", "urn:p")?;
    scope.prefix(alloc, "f", "http://www.w3.org/2005/xpath-functions")?;
    scope.prefix(alloc, "t", "http://www.w3.org/2001/XMLSchema")?;
    scope.variable(alloc, "v")?;
    scope.variable(alloc, "p:v")
}

fn push_test(line: &mut String, names: &NameTable, test: &StepTest) -> Result<(), AllocError> {
    match test {
        StepTest::Named(number) => {
            let uri = names.uri(*number).unwrap_or("none");
            let local = names.local(*number).unwrap_or("none");
            push_texts(line, &["{", uri, "}", local])
        }
        StepTest::InNamespace(uri) => push_texts(line, &["{", uri.as_str(), "}*"]),
        StepTest::WithLocal(local) => push_texts(line, &["*:", local.as_str()]),
        StepTest::AnyName => line.push_str("*"),
        StepTest::Kind(kind) => write!(line, "{kind:?}"),
    }
}

fn push_simple(line: &mut String, names: &NameTable, simple: &Simple) -> Result<(), AllocError> {
    match simple {
        Simple::Text(text) => line.push_str(text.as_str()),
        Simple::Number(number) => push_number(line, number.whole(), number.fraction()),
        Simple::Nothing => line.push_str("()"),
        Simple::Item => line.push_str("."),
        Simple::Root => line.push_str("/"),
        Simple::Variable(height) => write!(line, "${height}"),
        Simple::Outer(name) => push_texts(line, &["$", name.as_str()]),
        Simple::Step(axis, test) => {
            write!(line, "{axis:?}::")?;
            push_test(line, names, test)
        }
        Simple::Called(function) => write!(line, "{function:?}"),
    }
}

fn push_link(line: &mut String, link: &Separator) -> Result<(), AllocError> {
    match link {
        Separator::Operator(operator) => write!(line, "{operator:?} "),
        Separator::Comma => line.push_str("Comma "),
        Separator::Other => Ok(()),
    }
}

fn separator(is_first: bool) -> &'static str {
    if is_first { ": " } else { "; " }
}

fn push_signs(line: &mut String, signs: &[Operator]) -> Result<(), AllocError> {
    line.push_str("Signs")?;
    'signs: for sign in signs {
        write!(line, " {sign:?}")?;
    }
    Ok(())
}

fn push_cast(
    line: &mut String,
    word: CastWord,
    to: Function,
    optional: bool,
) -> Result<(), AllocError> {
    write!(line, "Cast({word:?}, {to:?}, {optional})")
}

fn push_kind(line: &mut String, kind: &Operation) -> Result<(), AllocError> {
    match kind {
        Operation::Chain => line.push_str("Chain"),
        Operation::Bound(binder) => write!(line, "Bound({binder:?})"),
        Operation::Conditional => line.push_str("Conditional"),
        Operation::Cast(word, to, optional) => push_cast(line, *word, *to, *optional),
        Operation::Signs(signs) => push_signs(line, signs.as_slice()),
        Operation::FilteredStep => line.push_str("FilteredStep"),
        Operation::FreeStep => line.push_str("FreeStep"),
        Operation::Filtered => line.push_str("Filtered"),
        Operation::Only => line.push_str("Only"),
        Operation::Once(slot, height) => write!(line, "Once({slot}, {height})"),
        Operation::Call(function) => write!(line, "Call({function:?})"),
        Operation::Matches(_) => line.push_str("Matches"),
        Operation::Nothing => line.push_str("Nothing"),
    }
}

fn push_work(line: &mut String, names: &NameTable, work: &PlanNode) -> Result<(), AllocError> {
    match work {
        PlanNode::Simple(simple) => push_simple(line, names, simple),
        PlanNode::Node(kind, parts) => {
            line.push_str("[")?;
            push_kind(line, kind)?;
            let mut is_first = true;
            'parts: for (link, part) in parts.as_slice() {
                line.push_str(separator(is_first))?;
                is_first = false;
                push_link(line, link)?;
                push_work(line, names, part)?;
            }
            line.push_str("]")
        }
    }
}

fn compiled(alloc: Global, scope: &Scope, expression: &Expr) -> Option<Plan>
    requires { Grammatical (view expression.now) }
{
    typed_expressions_are_grammatical();
    match check(alloc, expression, scope) {
        Ok(typed) => {
            let plan = compile(alloc, &typed);
            drop(typed);
            plan.ok()
        }
        Err(_) => None,
    }
}

fn plan_in(alloc: Global, scope: &Scope, text: &str) -> Option<Plan> {
    answers_are_grammatical();
    match parse(alloc, text) {
        Ok(expression) => {
            let plan = compiled(alloc, scope, &expression);
            drop(expression);
            plan
        }
        Err(_) => None,
    }
}

/// The plan of an expression. It outlives its text and its scope.
fn plan_of(alloc: Global, text: &str) -> Option<Plan> {
    let mut scope = Scope::new(alloc);
    let plan = match declare(alloc, &mut scope) {
        Ok(()) => plan_in(alloc, &scope, text),
        Err(_) => None,
    };
    drop(scope);
    plan
}

/// The plan of an expression, or `none`.
pub(crate) fn push_plan(alloc: Global, line: &mut String, text: &str) -> Result<(), AllocError> {
    match plan_of(alloc, text) {
        Some(plan) => {
            let pushed = push_work(line, plan.names(), plan.work());
            drop(plan);
            pushed
        }
        None => line.push_str("none"),
    }
}

#[test]
fn leaves_have_their_plans(rt: HostRuntime) -> Result<(), Fail> {
    expect_made(rt.alloc(), Made::Plan, LEAVES)
}

#[test]
fn forms_have_their_plans(rt: HostRuntime) -> Result<(), Fail> {
    expect_made(rt.alloc(), Made::Plan, FORMS)
}

/// Whether a plan has the names of no namespace and of `p`, each once.
fn has_two_names(names: &NameTable) -> bool {
    let uris = [
        names.uri(0).unwrap_or("none"),
        names.uri(1).unwrap_or("none"),
    ];
    names.len() == 2 && uris == ["", "urn:p"]
}

#[test]
fn a_plan_owns_what_it_is_made_of(rt: HostRuntime) -> Result<(), Fail> {
    match plan_of(rt.alloc(), "a/p:a[a]/@p:a/a") {
        Some(plan) => {
            let holds = has_two_names(plan.names());
            drop(plan);
            expect(holds, "names")
        }
        None => expect(false, "plan"),
    }
}

/// Whether the plan of an expression is printed with such an end.
fn ends_so(alloc: Global, text: &str, end: &str) -> Result<bool, AllocError> {
    let mut line = String::new(alloc);
    push_plan(alloc, &mut line, text)?;
    Ok(line.as_str().ends_with(end))
}

/// A chain of 30,001 operands.
const CHAIN: Nesting<'_> = Nesting {
    openings: 1,
    open: "1",
    core: "",
    close: "+1",
    closings: 30_000,
};

#[test]
fn a_long_chain_has_its_plan(rt: HostRuntime) -> Result<(), Fail> {
    let mut chain = String::new(rt.alloc());
    push_nesting(&mut chain, &CHAIN)?;
    expect(
        ends_so(rt.alloc(), chain.as_str(), "; Plus 1; Plus 1]]")?,
        "chain",
    )
}

fn push_bindings(text: &mut String) -> Result<(), AllocError> {
    text.push_str("for $v in 1")?;
    for k in 0..3_000u32 {
        write!(text, ",$v{k} in $v")?;
    }
    text.push_str(" return $v")
}

/// Many bindings have their plan, each of which reads the first one.
#[test]
fn many_bindings_have_their_plan(rt: HostRuntime) -> Result<(), Fail> {
    let mut bindings = String::new(rt.alloc());
    push_bindings(&mut bindings)?;
    let end = "; $0; $0; Return $0]]";
    expect(ends_so(rt.alloc(), bindings.as_str(), end)?, "bindings")
}
