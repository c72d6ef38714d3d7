//! Patterns over all nodes.
ghost use Rattle.std.specs.Prelude.{◌≡◌, ◌<◌, ◌++◌, length, map, option_copied, slice_get, OnOk};
ghost use Rattle.std.specs.List.{All, flat_map};
ghost use Rattle.inv_base.specs.Tree.{Node};
ghost use Rattle.xpath_steps.specs.Variables.{ValuesWithin};
ghost use Rattle.schematron_rules.specs.Seen.{seen_rule, seen_pattern};
ghost use Rattle.schematron_run.specs.Contexts.{HasContext, HaveContexts};
ghost use Rattle.schematron_run.specs.Firsts.{IsClear};
ghost use Rattle.schematron_run.specs.Judging as spec;
ghost use Rattle.schematron_run.specs.Inputs.{nodes_of, count, IsSet};

use crate::firsts::{clear, first_rules};
use crate::input::JudgingInput;
use crate::lending::lent_label;
use crate::lets::fill_once;
use crate::nodes::judge_nodes;
use crate::ready::ready_rules;
use inv_base::Steps;
use schematron_findings::{Findings, Line};
use schematron_rules::{Expanded, Rule};
use std::alloc::AllocError;
use std::sync::ledger::Ledger;
use xpath_run::Env;
use xpath_walks::documents_are_walkable;

/// Judges each node by the first of the rules whose context matches it. The rules are made ready for that, and let go
/// again. The table is clear before and behind.
fn judge_by_rules<'r: 'a, 'a, L: Ledger>(
    input: &JudgingInput<'_, 'a>,
    rules: &'r [Rule],
    env: &mut Env<'a>,
    table: &mut [Option<u32>],
    findings: &mut Findings<'r>,
    steps: &mut Steps<L>,
) -> Result<(), AllocError>
    requires contexts { All HasContext (map seen_rule rules.now) }
    requires set { IsSet input.now }
    requires variables { ValuesWithin (count input.now) env.old }
    requires long { length table.old ≡ count input.now }
    requires clear { IsClear table.old }
    ensures found { OnOk result (findings.new ≡ findings.old
        ++ flat_map (λ (node : Node). spec.by_first (nodes_of input.now) env.old node 0 (map seen_rule rules.now)) (nodes_of input.now)) }
    ensures env { OnOk result (env.new ≡ env.old) }
    ensures clear { OnOk result (IsClear table.new) }
    ensures long { length table.new ≡ length table.old }
{
    documents_are_walkable(input.doc);
    let touched = first_rules(input, rules, env, table, steps)?;
    let mut ready = ready_rules(input, rules)?;
    judge_nodes(
        input,
        ready.as_mut_slice(),
        table,
        touched.as_slice(),
        env,
        findings,
        steps,
    )?;
    clear(table, touched.as_slice());
    Ok(())
}

/// Judges all nodes by a pattern. Its variables are cut off behind it.
fn judge_pattern<'r: 'a, 'a, L: Ledger>(
    input: &JudgingInput<'_, 'a>,
    pattern: &'r Expanded,
    env: &mut Env<'a>,
    table: &mut [Option<u32>],
    findings: &mut Findings<'r>,
    steps: &mut Steps<L>,
) -> Result<(), AllocError>
    requires contexts { HaveContexts (seen_pattern pattern.now) }
    requires set { IsSet input.now }
    requires variables { ValuesWithin (count input.now) env.old }
    requires long { length table.old ≡ count input.now }
    requires clear { IsClear table.old }
    ensures found { OnOk result (findings.new ≡ findings.old ++ spec.by_pattern (nodes_of input.now) env.old (seen_pattern pattern.now)) }
    ensures env { OnOk result (env.new ≡ env.old) }
    ensures clear { OnOk result (IsClear table.new) }
    ensures long { length table.new ≡ length table.old }
{
    let id = lent_label(&pattern.id);
    findings.push(Line::Pattern { id })?;
    let before = env.len();
    fill_once(
        input,
        pattern.lets.as_slice(),
        input.doc.document(),
        env,
        steps,
    )?;
    judge_by_rules(input, pattern.rules.as_slice(), env, table, findings, steps)?;
    env.truncate(before);
    Ok(())
}

/// The pattern of that number, where there is one.
fn pattern_at(patterns: &[Expanded], k: usize) -> Option<&Expanded>
    ensures { option_copied result ≡ slice_get patterns.now k }
{
    patterns.get(k)
}

/// Judges all nodes by the pattern of that number, where there is one.
fn judge_by_number<'r: 'a, 'a, L: Ledger>(
    input: &JudgingInput<'_, 'a>,
    patterns: &'r [Expanded],
    k: usize,
    env: &mut Env<'a>,
    table: &mut [Option<u32>],
    findings: &mut Findings<'r>,
    steps: &mut Steps<L>,
) -> Result<(), AllocError>
    requires contexts { All HaveContexts (map seen_pattern patterns.now) }
    requires set { IsSet input.now }
    requires variables { ValuesWithin (count input.now) env.old }
    requires long { length table.old ≡ count input.now }
    requires clear { IsClear table.old }
    ensures found { OnOk result (findings.new ≡ findings.old ++ spec.by_number (nodes_of input.now) env.old (map seen_pattern patterns.now) k) }
    ensures env { OnOk result (env.new ≡ env.old) }
    ensures clear { OnOk result (IsClear table.new) }
    ensures long { length table.new ≡ length table.old }
{
    match pattern_at(patterns, k) {
        None => Ok(()),
        Some(pattern) => judge_pattern(input, pattern, env, table, findings, steps),
    }
}

/// Judges all nodes by the patterns of these numbers, one after the other.
pub(crate) fn judge_patterns<'r: 'a, 'a, L: Ledger>(
    input: &JudgingInput<'_, 'a>,
    patterns: &'r [Expanded],
    numbers: &[u32],
    env: &mut Env<'a>,
    table: &mut [Option<u32>],
    findings: &mut Findings<'r>,
    steps: &mut Steps<L>,
) -> Result<(), AllocError>
    requires contexts { All HaveContexts (map seen_pattern patterns.now) }
    requires set { IsSet input.now }
    requires variables { ValuesWithin (count input.now) env.old }
    requires long { length table.old ≡ count input.now }
    requires clear { IsClear table.old }
    ensures { OnOk result (findings.new ≡ findings.old ++ flat_map (spec.by_number (nodes_of input.now) env.old (map seen_pattern patterns.now)) numbers.now) }
{
    'numbers: for k in numbers {
        judge_by_number(input, patterns, *k as usize, env, table, findings, steps)?;
    }
    Ok(())
}
