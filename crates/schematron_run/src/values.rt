//! The value of an expression at a node.
ghost use Rattle.std.specs.Prelude.{◌≡◌, ◌<◌, IfOk};
ghost use Rattle.xpath_meaning.specs.Meaning.{mean, at_top, truth_of};
ghost use Rattle.xpath_meaning.specs.Values.{value};
ghost use Rattle.xpath_plan.specs.Plans.{expression};
ghost use Rattle.xpath_steps.specs.Variables.{ValueWithin, ValuesWithin};
ghost use Rattle.schematron_run.specs.Inputs.{nodes_of, count};

use crate::input::JudgingInput;
use inv_base::Steps;
use node_arena::NodeId;
use std::alloc::AllocError;
use std::sync::ledger::Ledger;
use xpath_items::{DynError, Focus, Item, Outcome};
use xpath_operators::truth;
use xpath_run::{Env, Run};

/// The value of the expression of a plan that is ready, at a node, or its error. What it keeps of the document stays for
/// the next node.
pub(crate) fn value_at<'a, L: Ledger>(
    input: &JudgingInput<'_, 'a>,
    run: &mut Run<'_, '_, 'a>,
    n: NodeId,
    env: &Env<'a>,
    steps: &mut Steps<L>,
) -> Result<Outcome<'a>, AllocError>
    requires ready { run.old.document ≡ input.now.doc.now }
    requires within { n < count input.now }
    requires variables { ValuesWithin (count input.now) env.now }
    ensures value { IfOk result (λ outcome. value outcome ≡ mean (nodes_of input.now) (expression run.old.plan) (at_top n env.now)) }
    ensures within { IfOk result (λ outcome. ValueWithin (count input.now) (value outcome)) }
    ensures plan { run.new.plan ≡ run.old.plan }
    ensures document { run.new.document ≡ run.old.document }
{
    let focus = Focus {
        item: Item::Node(n),
        position: 1,
        last: 1,
    };
    run.run_plan(input.alloc, &focus, env, steps)
}

/// The truth of a value.
pub(crate) fn truth_in(outcome: &Outcome<'_>) -> Result<bool, DynError>
    ensures { result ≡ truth_of (value outcome.now) }
{
    match outcome {
        Outcome::Value(items) => truth(items),
        Outcome::Error(error) => Err(*error),
    }
}
