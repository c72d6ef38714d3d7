//! Variables with their values.
ghost use Rattle.std.specs.Prelude.{◌≡◌, ◌<◌, ◌∷◌, [], map, Some, OnOk};
ghost use Rattle.std.specs.List.{All};
ghost use Rattle.xpath_steps.specs.Variables.{ValuesWithin};
ghost use Rattle.schematron_rules.specs.Seen.{seen_lets, seen_phases};
ghost use Rattle.schematron_run.specs.Judging as spec;
ghost use Rattle.schematron_run.specs.Ready.{ready_let, IsLetFor};
ghost use Rattle.schematron_run.specs.Inputs.{nodes_of, count};

use crate::input::JudgingInput;
use crate::ready::{ReadyLet, ready_lets};
use crate::values::value_at;
use inv_base::Steps;
use node_arena::NodeId;
use schematron_rules::{Let, Rules};
use std::alloc::AllocError;
use std::sync::ledger::Ledger;
use xpath_run::Env;

/// Declares variables behind the others, each evaluated at the node with those before it. Their number says where to
/// cut them off again.
pub(crate) fn fill<'a, L: Ledger>(
    input: &JudgingInput<'_, 'a>,
    lets: &mut [ReadyLet<'_, '_, 'a>],
    n: NodeId,
    env: &mut Env<'a>,
    steps: &mut Steps<L>,
) -> Result<(), AllocError>
    requires ready { All (IsLetFor input.now.doc.now) lets.old }
    requires within { n < count input.now }
    requires variables { ValuesWithin (count input.now) env.old }
    ensures filled { OnOk result (env.new ≡ spec.filled (nodes_of input.now) n (map ready_let lets.old) env.old) }
    ensures within { OnOk result (ValuesWithin (count input.now) env.new) }
    ensures same { OnOk result (map ready_let lets.new ≡ map ready_let lets.old) }
    ensures ready { OnOk result (All (IsLetFor input.now.doc.now) lets.new) }
{
    'lets: for k in 0..lets.len() {
        fill_one(input, &mut lets[k], n, env, steps)?;
    }
    Ok(())
}

/// Declares one variable.
fn fill_one<'a, L: Ledger>(
    input: &JudgingInput<'_, 'a>,
    variable: &mut ReadyLet<'_, '_, 'a>,
    n: NodeId,
    env: &mut Env<'a>,
    steps: &mut Steps<L>,
) -> Result<(), AllocError>
    requires ready { IsLetFor input.now.doc.now variable.old }
    requires within { n < count input.now }
    requires variables { ValuesWithin (count input.now) env.old }
    ensures filled { OnOk result (env.new ≡ spec.filled (nodes_of input.now) n (ready_let variable.old ∷ []) env.old) }
    ensures within { OnOk result (ValuesWithin (count input.now) env.new) }
    ensures same { OnOk result (ready_let variable.new ≡ ready_let variable.old) }
    ensures ready { OnOk result (IsLetFor input.now.doc.now variable.new) }
{
    let outcome = value_at(input, &mut variable.run, n, env, steps)?;
    env.push(variable.name.as_str(), outcome)?;
    Ok(())
}

/// Declares variables that are evaluated once, and are made ready for that alone.
pub(crate) fn fill_once<'a, L: Ledger>(
    input: &JudgingInput<'_, 'a>,
    lets: &'a [Let],
    n: NodeId,
    env: &mut Env<'a>,
    steps: &mut Steps<L>,
) -> Result<(), AllocError>
    requires within { n < count input.now }
    requires variables { ValuesWithin (count input.now) env.old }
    ensures filled { OnOk result (env.new ≡ spec.filled (nodes_of input.now) n (seen_lets lets.now) env.old) }
    ensures within { OnOk result (ValuesWithin (count input.now) env.new) }
{
    let mut ready = ready_lets(input, lets)?;
    let filled = fill(input, ready.as_mut_slice(), n, env, steps);
    drop(ready);
    filled
}

/// The variables of the phase of that number.
pub(crate) fn lets_of(rules: &Rules, phase: Option<u32>) -> &[Let]
    ensures { seen_lets result.now ≡ spec.lets_of (seen_phases rules.now.phases) phase }
{
    match phase {
        None => &[],
        Some(n) => rules.all_lets(Some(n)),
    }
}
