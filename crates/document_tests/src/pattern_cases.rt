//! Each row: a pattern, and the numbers of the nodes that match it, in document order. A node matches where the pattern,
//! taken as a path, finds it from itself or from a node around it.
ghost use Rattle.std.specs.Prelude.{◌≡◌, ◌<◌, length, IfOk};
ghost use Rattle.xpath_grammar.specs.Grammar.{Grammatical};
ghost use Rattle.xpath_grammar.specs.View.{view};
ghost use Rattle.xpath_steps.specs.Variables.{ValuesWithin};

use crate::asking::{Asked, expect_answers};
use inv_base::Steps;
use inv_decimal::Dec;
use node_arena::Doc;
use std::alloc::{AllocError, Global};
use std::marker::Brand;
use std::sync::ledger::{Blank, Ledger};
use std::test::Fail;
use xpath_grammar::pattern::Pattern;
use xpath_items::{Item, Outcome, Seq};
use xpath_marks::{Marks, marks_of};
use xpath_plan::laws::typed_expressions_are_grammatical;
use xpath_plan::{Plan, compile};
use xpath_run::Env;
use xpath_syntax::laws::answers_are_grammatical;
use xpath_syntax::parse_pattern;
use xpath_types::{Scope, check_pattern};

/// Its nodes: the document 0, r 1 with @a 2, p 3, q 4, a text 5, p 6 with @b 7, q 8 with @c 9, and q 10 inside that.
const DOCUMENT: &str = r#"<r a="1"><p><q/>t</p><p b="2"><q c="3"><q/></q></p></r>"#;

const ROWS: &str = "\
q -> 4 8 10
p/q -> 4 8
p//q -> 4 8 10
/r -> 1
/ -> 0
r/@a -> 2
@* -> 2 7 9
p[1] -> 3
p[2] -> 6
q[1] -> 4 8 10
p[@b] -> 6
p[1 div 0] -> 
p[@b][1] -> 6
p[1][@b] -> 
text() -> 5
node() -> 1 3 4 5 6 8 10
q | @b -> 4 7 8 10
q|q -> 4 8 10
//q -> 4 8 10
/p -> 
/r/p[position() = last()] -> 6
* -> 1 3 4 6 8 10
p[q/q]/@b -> 7
document-node() -> 
//node() -> 1 3 4 5 6 8 10
q//q -> 10
r//@* -> 2 7 9
q[. = 't'] -> 
p[. = 't'] -> 3
p[$x = 1] -> 3 6
p[$x = 2] -> 
@b[. = 2] -> 7
n:p -> 
*:q -> 4 8 10";

pub(crate) fn declare(alloc: Global, scope: &mut Scope) -> Result<(), Fail> {
    scope.prefix(alloc, "n", "urn:n")?;
    scope.variable(alloc, "x")?;
    Ok(())
}

fn plan_by(alloc: Global, pattern: &Pattern, scope: &Scope) -> Result<Plan, Fail>
    requires { Grammatical (view pattern.now) }
{
    typed_expressions_are_grammatical();
    match check_pattern(alloc, pattern, scope) {
        Ok(typed) => {
            let plan = compile(alloc, &typed);
            drop(typed);
            Ok(plan?)
        }
        Err(_) => Err("types".into()),
    }
}

fn plan_in(alloc: Global, scope: &mut Scope, text: &str) -> Result<Plan, Fail> {
    declare(alloc, scope)?;
    answers_are_grammatical();
    match parse_pattern(alloc, text) {
        Ok(pattern) => {
            let plan = plan_by(alloc, &pattern, scope);
            drop(pattern);
            plan
        }
        Err(_) => Err("syntax".into()),
    }
}

fn plan_of(alloc: Global, text: &str) -> Result<Plan, Fail> {
    let mut scope = Scope::new(alloc);
    let plan = plan_in(alloc, &mut scope, text);
    drop(scope);
    plan
}

/// The variable `$x` is the number 1.
pub(crate) fn variables<'a>(alloc: Global, doc: &Doc<'_>) -> Result<Env<'a>, Fail>
    ensures { IfOk result (λ env. ValuesWithin (length doc.now.nodes) env) }
{
    let one = Dec::read("1").ok_or("number")?;
    let value = Seq::one(alloc, Item::Number(one))?;
    let mut env = Env::new(alloc);
    env.push("x", Outcome::Value(value))?;
    Ok(env)
}

fn shown(alloc: Global, marks: &Marks) -> Result<String, AllocError> {
    let mut out = String::new(alloc);
    for (k, n) in marks.as_slice().iter().enumerate() {
        if k > 0 {
            out.push_str(" ")?;
        }
        write!(out, "{}", n.number())?;
    }
    Ok(out)
}

fn marked<L: Ledger>(
    alloc: Global,
    doc: &Doc<'_>,
    plan: &Plan,
    ledger: Blank,
) -> Result<String, Fail>
    requires name { ledger.name ≡ L.name }
    requires parts { ledger.parts ≡ L.parts }
    requires some { 0 < ledger.parts }
{
    let mut steps = Steps::<L>::new(ledger);
    let env = variables(alloc, doc)?;
    let marks = marks_of(alloc, plan, doc, &env, &mut steps);
    drop(env);
    let marks = marks?;
    let shown = shown(alloc, &marks);
    drop(marks);
    Ok(shown?)
}

/// The numbers of the nodes that match a pattern.
struct Matching;

impl Asked for Matching {
    fn answer(&self, alloc: Global, doc: &Doc<'_>, given: &'static str) -> Result<String, Fail> {
        let plan = plan_of(alloc, given)?;
        let shown = marked::<Brand>(alloc, doc, &plan, Blank::new(1));
        drop(plan);
        shown
    }
}

#[test]
fn patterns_match_their_nodes(rt: HostRuntime) -> Result<(), Fail> {
    expect_answers(rt.alloc(), &Matching, DOCUMENT, ROWS)
}
