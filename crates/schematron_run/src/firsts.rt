//! The first rule of each node, in a table that is reset through the nodes that it keeps something of. So a pattern
//! costs as much as its marks, and not a pass over all nodes.
ghost use Rattle.std.specs.Prelude.{◌≡◌, ℕ, ◌+◌, ◌<◌, ◌==◌, ◌∷◌, [], Some, None, length, map, filter, true, IfOk, OnOk};
ghost use Rattle.std.specs.List.{All};
ghost use Rattle.inv_base.specs.Tree.{Node};
ghost use Rattle.xpath_walks.specs.Walks.{node_numbers};
ghost use Rattle.xpath_steps.specs.Variables.{ValuesWithin};
ghost use Rattle.schematron_rules.specs.Seen.{seen_rule};
ghost use Rattle.schematron_run.specs.Contexts.{HasContext};
ghost use Rattle.schematron_run.specs.Firsts.{entry, is_there, AreBelow, AreFirsts, AreTouched, IsClear, Marked, MarkedBy};
ghost use Rattle.schematron_run.specs.Inputs.{nodes_of, count};

use crate::input::JudgingInput;
use inv_base::Steps;
use node_arena::NodeId;
use schematron_rules::Rule;
use std::alloc::AllocError;
use std::sync::ledger::Ledger;
use xpath_marks::marks_of;
use xpath_run::Env;
use xpath_walks::{documents_are_walkable, in_order};

/// What the table keeps of a node.
pub(crate) fn entry_at(table: &[Option<u32>], n: NodeId) -> Option<u32>
    requires { n < length table.now }
    ensures { result ≡ entry table.now n }
{
    table[n.number() as usize]
}

/// Keeps the number of a rule for a node of which nothing is kept.
fn mark_one(
    table: &mut [Option<u32>],
    touched: &mut Vec<NodeId>,
    n: NodeId,
    rule: u32,
) -> Result<(), AllocError>
    requires within { n < length table.old }
    requires touched { AreTouched table.old touched.old.items }
    ensures kept { OnOk result (Marked (n ∷ []) rule table.old table.new) }
    ensures touched { OnOk result (AreTouched table.new touched.new.items) }
    ensures long { length table.new ≡ length table.old }
{
    match entry_at(table, n) {
        Some(_) => Ok(()),
        None => {
            touched.push(n)?;
            table[n.number() as usize] = Some(rule);
            Ok(())
        }
    }
}

/// Keeps the number of a rule for those of its marks of which nothing is kept.
fn mark(
    table: &mut [Option<u32>],
    touched: &mut Vec<NodeId>,
    marks: &[NodeId],
    rule: u32,
) -> Result<(), AllocError>
    requires within { AreBelow (length table.old) marks.now }
    requires touched { AreTouched table.old touched.old.items }
    ensures kept { OnOk result (Marked marks.now rule table.old table.new) }
    ensures touched { OnOk result (AreTouched table.new touched.new.items) }
    ensures long { length table.new ≡ length table.old }
{
    'marks: for n in marks {
        mark_one(table, touched, *n, rule)?;
    }
    Ok(())
}

/// Keeps the number of a rule for the nodes that its context matches and of which nothing is kept.
fn mark_rule<'a, L: Ledger>(
    input: &JudgingInput<'_, 'a>,
    rule: &Rule,
    number: u32,
    env: &Env<'a>,
    table: &mut [Option<u32>],
    touched: &mut Vec<NodeId>,
    steps: &mut Steps<L>,
) -> Result<(), AllocError>
    requires context { HasContext (seen_rule rule.now) }
    requires variables { ValuesWithin (count input.now) env.now }
    requires long { length table.old ≡ count input.now }
    requires touched { AreTouched table.old touched.old.items }
    ensures kept { OnOk result (MarkedBy (nodes_of input.now) env.now (seen_rule rule.now) number table.old table.new) }
    ensures touched { OnOk result (AreTouched table.new touched.new.items) }
    ensures long { length table.new ≡ length table.old }
{
    documents_are_walkable(input.doc);
    let marks = marks_of(input.alloc, &rule.context.plan, input.doc, env, steps)?;
    mark(table, touched, marks.as_slice(), number)
}

/// The number behind another. No file has as many rules as there are numbers.
fn behind(number: u32) -> Result<u32, AllocError>
    ensures { IfOk result (λ next. next ≡ number + 1) }
{
    match number.checked_add(1) {
        Some(next) => Ok(next),
        None => Err(AllocError),
    }
}

/// Fills a clear table with the first rule of each node. The nodes that have one come in document order.
pub(crate) fn first_rules<'a, L: Ledger>(
    input: &JudgingInput<'_, 'a>,
    rules: &[Rule],
    env: &Env<'a>,
    table: &mut [Option<u32>],
    steps: &mut Steps<L>,
) -> Result<Vec<NodeId>, AllocError>
    requires contexts { All HasContext (map seen_rule rules.now) }
    requires variables { ValuesWithin (count input.now) env.now }
    requires long { length table.old ≡ count input.now }
    requires clear { IsClear table.old }
    ensures firsts { OnOk result (AreFirsts (nodes_of input.now) env.now (map seen_rule rules.now) table.new) }
    ensures touched { IfOk result (λ touched. touched.items ≡ node_numbers
        (filter (λ (node : Node). is_there (entry table.new node.number)) (nodes_of input.now))) }
    ensures long { length table.new ≡ length table.old }
{
    documents_are_walkable(input.doc);
    let mut touched = Vec::new(input.alloc);
    let mut number = 0u32;
    'rules: for rule in rules {
        mark_rule(input, rule, number, env, table, &mut touched, steps)?;
        number = behind(number)?;
    }
    Ok(in_order(touched))
}

/// Clears a table that keeps something of these nodes alone.
pub(crate) fn clear(table: &mut [Option<u32>], touched: &[NodeId])
    requires within { AreBelow (length table.old) touched.now }
    requires touched { AreTouched table.old touched.now }
    ensures clear { IsClear table.new }
    ensures long { length table.new ≡ length table.old }
{
    'touched: for n in touched {
        table[n.number() as usize] = None;
    }
}
