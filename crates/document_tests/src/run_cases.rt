//! Each row: an expression, how many steps its value takes at the document, and how many behind that at the root, by the same
//! run. A part that has one value at all nodes takes its steps once.
ghost use Rattle.std.specs.Prelude.{◌≡◌, ◌<◌, length, OnOk};
ghost use Rattle.xpath_grammar.specs.Grammar.{Grammatical};
ghost use Rattle.xpath_grammar.specs.View.{view};
ghost use Rattle.xpath_steps.specs.Variables.{ValuesWithin};

use crate::asking::{Asked, expect_answers};
use crate::pattern_cases::{declare, variables};
use inv_base::Steps;
use node_arena::{Doc, NodeId};
use std::alloc::{AllocError, Global};
use std::marker::Brand;
use std::sync::ledger::{Blank, Ledger};
use std::test::Fail;
use xpath_grammar::expr::Expr;
use xpath_items::{Focus, Item};
use xpath_plan::laws::typed_expressions_are_grammatical;
use xpath_plan::{Plan, compile};
use xpath_run::{Env, Run};
use xpath_syntax::laws::answers_are_grammatical;
use xpath_syntax::parse;
use xpath_types::{Scope, check};

/// Three elements have the name q: a first step finds the first of them, and each of them leads to the next.
const DOCUMENT: &str = r#"<r><p><q/>t</p><p><q><q/></q></p></r>"#;

const ROWS: &str = "\
//q -> 4 0
count(//q) -> 4 0
//q | //p -> 7 0
$x = count(//q) -> 4 0
count(//q) > position() -> 4 0
p -> 2 3";

fn plan_by(alloc: Global, tree: &Expr, scope: &Scope) -> Result<Plan, Fail>
    requires { Grammatical (view tree.now) }
{
    typed_expressions_are_grammatical();
    match check(alloc, tree, scope) {
        Ok(typed) => {
            let plan = compile(alloc, &typed);
            drop(typed);
            Ok(plan?)
        }
        Err(_) => Err("types".into()),
    }
}

fn plan_in(alloc: Global, scope: &mut Scope, text: &str) -> Result<Plan, Fail> {
    declare(alloc, scope)?;
    answers_are_grammatical();
    match parse(alloc, text) {
        Ok(tree) => {
            let plan = plan_by(alloc, &tree, scope);
            drop(tree);
            plan
        }
        Err(_) => Err("syntax".into()),
    }
}

fn plan_of(alloc: Global, text: &str) -> Result<Plan, Fail> {
    let mut scope = Scope::new(alloc);
    let plan = plan_in(alloc, &mut scope, text);
    drop(scope);
    plan
}

/// How many steps there are behind the value at a node.
fn steps_at<'a, L: Ledger>(
    alloc: Global,
    run: &mut Run<'_, '_, 'a>,
    n: NodeId,
    env: &Env<'a>,
    steps: &mut Steps<L>,
) -> Result<u64, AllocError>
    requires within { n < length run.old.document.nodes }
    requires env { ValuesWithin (length run.old.document.nodes) env.now }
    ensures { OnOk result (run.new.document ≡ run.old.document) }
{
    let focus = Focus {
        item: Item::Node(n),
        position: 1,
        last: 1,
    };
    let outcome = run.run_plan(alloc, &focus, env, steps);
    drop(focus);
    drop(outcome?);
    Ok(steps.count())
}

/// How many steps the value takes at the document, and how many then at the root.
fn both_counts<'a, L: Ledger>(
    alloc: Global,
    doc: &Doc<'a>,
    plan: &'a Plan,
    env: &Env<'a>,
    ledger: Blank,
) -> Result<(u64, u64), AllocError>
    requires env { ValuesWithin (length doc.now.nodes) env.now }
    requires name { ledger.name ≡ L.name }
    requires parts { ledger.parts ≡ L.parts }
    requires some { 0 < ledger.parts }
{
    let mut steps = Steps::<L>::new(ledger);
    let mut run = Run::new(alloc, plan, doc)?;
    let first = steps_at(alloc, &mut run, doc.document(), env, &mut steps)?;
    let both = steps_at(alloc, &mut run, doc.root(), env, &mut steps)?;
    drop(run);
    Ok((first, both.saturating_sub(first)))
}

/// The steps of an expression at two nodes.
struct Counted;

impl Asked for Counted {
    fn answer(&self, alloc: Global, doc: &Doc<'_>, given: &'static str) -> Result<String, Fail> {
        let plan = plan_of(alloc, given)?;
        let env = variables(alloc, doc)?;
        let counts = both_counts::<Brand>(alloc, doc, &plan, &env, Blank::new(1));
        drop(env);
        drop(plan);
        let (first, again) = counts?;
        Ok(format!(in alloc; "{first} {again}")?)
    }
}

#[test]
fn what_is_kept_takes_no_step(rt: HostRuntime) -> Result<(), Fail> {
    expect_answers(rt.alloc(), &Counted, DOCUMENT, ROWS)
}
