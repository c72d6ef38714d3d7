//! Nodes, each judged by its rule.
ghost use Rattle.std.specs.Prelude.{◌≡◌, ◌<◌, ◌++◌, length, map, OnOk};
ghost use Rattle.std.specs.List.{All, flat_map};
ghost use Rattle.xpath_steps.specs.Variables.{ValuesWithin};
ghost use Rattle.schematron_run.specs.Firsts.{entry, by_entry, AreBelow};
ghost use Rattle.schematron_run.specs.Judging as spec;
ghost use Rattle.schematron_run.specs.Ready.{ready_assertion, ready_let, ready_rule, IsRuleFor};
ghost use Rattle.schematron_run.specs.Inputs.{nodes_of, count, IsSet};

use crate::assertions::judge_assertions;
use crate::firsts::entry_at;
use crate::input::JudgingInput;
use crate::lending::lent_text;
use crate::lets::fill;
use crate::ready::ReadyRule;
use inv_base::Steps;
use node_arena::NodeId;
use schematron_findings::{Findings, Line};
use std::alloc::AllocError;
use std::sync::ledger::Ledger;
use xpath_run::Env;

/// Judges a node by a rule with its variables, which are cut off behind it.
fn judge_inside<'r, 'a, L: Ledger>(
    input: &JudgingInput<'_, 'a>,
    rule: &mut ReadyRule<'r, '_, 'a>,
    n: NodeId,
    env: &mut Env<'a>,
    findings: &mut Findings<'r>,
    steps: &mut Steps<L>,
) -> Result<(), AllocError>
    requires ready { IsRuleFor input.now.doc.now rule.old }
    requires within { n < count input.now }
    requires set { IsSet input.now }
    requires variables { ValuesWithin (count input.now) env.old }
    ensures found { OnOk result (findings.new ≡ findings.old ++
        flat_map (spec.by_assertion (nodes_of input.now) n (spec.filled (nodes_of input.now) n (map ready_let rule.old.lets.items) env.old))
        (map ready_assertion rule.old.assertions.items)) }
    ensures env { OnOk result (env.new ≡ env.old) }
    ensures same { OnOk result (ready_rule rule.new ≡ ready_rule rule.old) }
    ensures ready { OnOk result (IsRuleFor input.now.doc.now rule.new) }
{
    let before = env.len();
    fill(input, rule.lets.as_mut_slice(), n, env, steps)?;
    judge_assertions(
        input,
        rule.assertions.as_mut_slice(),
        n,
        env,
        findings,
        steps,
    )?;
    env.truncate(before);
    Ok(())
}

/// Judges a node by the rule of that number.
fn judge_by_rule<'r, 'a, L: Ledger>(
    input: &JudgingInput<'_, 'a>,
    rule: &mut ReadyRule<'r, '_, 'a>,
    k: u32,
    n: NodeId,
    env: &mut Env<'a>,
    findings: &mut Findings<'r>,
    steps: &mut Steps<L>,
) -> Result<(), AllocError>
    requires ready { IsRuleFor input.now.doc.now rule.old }
    requires within { n < count input.now }
    requires set { IsSet input.now }
    requires variables { ValuesWithin (count input.now) env.old }
    ensures found { OnOk result (findings.new ≡ findings.old ++ spec.by_rule (nodes_of input.now) env.old n k (ready_rule rule.old)) }
    ensures env { OnOk result (env.new ≡ env.old) }
    ensures same { OnOk result (ready_rule rule.new ≡ ready_rule rule.old) }
    ensures ready { OnOk result (IsRuleFor input.now.doc.now rule.new) }
{
    let source = rule.source;
    let context = lent_text(&source.context.text);
    findings.push(Line::Fired {
        node: n,
        rule: k,
        context,
    })?;
    judge_inside(input, rule, n, env, findings, steps)
}

/// Judges a node by the rule that is kept of it.
fn judge_by_entry<'r, 'a, L: Ledger>(
    input: &JudgingInput<'_, 'a>,
    rules: &mut [ReadyRule<'r, '_, 'a>],
    kept: Option<u32>,
    n: NodeId,
    env: &mut Env<'a>,
    findings: &mut Findings<'r>,
    steps: &mut Steps<L>,
) -> Result<(), AllocError>
    requires ready { All (IsRuleFor input.now.doc.now) rules.old }
    requires within { n < count input.now }
    requires set { IsSet input.now }
    requires variables { ValuesWithin (count input.now) env.old }
    ensures found { OnOk result (findings.new ≡ findings.old ++ by_entry (nodes_of input.now) env.old (map ready_rule rules.old) n kept) }
    ensures env { OnOk result (env.new ≡ env.old) }
    ensures same { OnOk result (map ready_rule rules.new ≡ map ready_rule rules.old) }
    ensures ready { OnOk result (All (IsRuleFor input.now.doc.now) rules.new) }
{
    let Some(k) = kept else {
        return Ok(());
    };
    let place = k as usize;
    if place < rules.len() {
        judge_by_rule(input, &mut rules[place], k, n, env, findings, steps)
    } else {
        Ok(())
    }
}

/// Judges each of these nodes by the rule that the table keeps of it.
pub(crate) fn judge_nodes<'r, 'a, L: Ledger>(
    input: &JudgingInput<'_, 'a>,
    rules: &mut [ReadyRule<'r, '_, 'a>],
    table: &[Option<u32>],
    nodes: &[NodeId],
    env: &mut Env<'a>,
    findings: &mut Findings<'r>,
    steps: &mut Steps<L>,
) -> Result<(), AllocError>
    requires ready { All (IsRuleFor input.now.doc.now) rules.old }
    requires long { length table.now ≡ count input.now }
    requires within { AreBelow (count input.now) nodes.now }
    requires set { IsSet input.now }
    requires variables { ValuesWithin (count input.now) env.old }
    ensures found { OnOk result (findings.new ≡ findings.old
        ++ flat_map (λ n. by_entry (nodes_of input.now) env.old (map ready_rule rules.old) n (entry table.now n)) nodes.now) }
    ensures env { OnOk result (env.new ≡ env.old) }
    ensures same { OnOk result (map ready_rule rules.new ≡ map ready_rule rules.old) }
    ensures ready { OnOk result (All (IsRuleFor input.now.doc.now) rules.new) }
{
    'nodes: for n in nodes {
        let kept = entry_at(table, *n);
        judge_by_entry(input, rules, kept, *n, env, findings, steps)?;
    }
    Ok(())
}
