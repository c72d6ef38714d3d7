//! What the rules of a file find in a document.
ghost use Rattle.std.specs.Prelude.{◌≡◌, IfOk};
ghost use Rattle.node_arena.specs.Moves.{tree_nodes};
ghost use Rattle.xpath_steps.specs.Variables.{ValuesWithin};
ghost use Rattle.schematron_rules.specs.Seen.{seen_rules, seen_active};
ghost use Rattle.schematron_rules.specs.Said.{CameFrom};
ghost use Rattle.schematron_run.specs.Contexts.{HasPatterns};
ghost use Rattle.schematron_run.specs.Judging as spec;
ghost use Rattle.schematron_run.specs.Inputs.{nodes_of, count, IsSet};

use crate::input::JudgingInput;
use crate::law::compiled_rules_have_patterns;
use crate::lets::{fill_once, lets_of};
use crate::patterns::judge_patterns;
use inv_base::Steps;
use node_arena::Doc;
use node_locations::Ordinals;
use schematron_findings::Findings;
use schematron_rules::{Active, Rules};
use std::alloc::{AllocError, Global};
use std::sync::ledger::Ledger;
use xpath_run::Env;

/// The variables of the whole file: the schema's, then those of the phase that is active.
fn file_variables<'a, L: Ledger>(
    input: &JudgingInput<'_, 'a>,
    rules: &'a Rules,
    active: &Active,
    steps: &mut Steps<L>,
) -> Result<Env<'a>, AllocError>
    ensures filled { IfOk result (λ env. env ≡ spec.file_variables (nodes_of input.now) (seen_rules rules.now) (seen_active active.now)) }
    ensures within { IfOk result (λ env. ValuesWithin (count input.now) env) }
{
    let mut env = Env::new(input.alloc);
    let document = input.doc.document();
    fill_once(input, rules.all_lets(None), document, &mut env, steps)?;
    let lets = lets_of(rules, active.phase());
    fill_once(input, lets, document, &mut env, steps)?;
    Ok(env)
}

/// All that the active patterns find.
fn found_in<'r: 'a, 'a, L: Ledger>(
    input: &JudgingInput<'_, 'a>,
    rules: &'r Rules,
    active: &Active,
    steps: &mut Steps<L>,
) -> Result<Findings<'r>, AllocError>
    requires set { IsSet input.now }
    requires patterns { HasPatterns (seen_rules rules.now) }
    ensures { IfOk result (λ found. found ≡ spec.findings (seen_rules rules.now) (seen_active active.now) (nodes_of input.now)) }
{
    let mut env = file_variables(input, rules, active, steps)?;
    let mut table = vec![in input.alloc; None; input.ordinals.len()]?;
    // (the lifetime is that of the rules themselves, and not of this call's loan of them)
    let mut findings: Findings<'r> = Findings::new(input.alloc);
    judge_patterns(
        input,
        rules.parts(),
        active.parts(),
        &mut env,
        &mut table,
        &mut findings,
        steps,
    )?;
    Ok(findings)
}

/// All that the patterns that are active find in a document, pattern by pattern and in each node by node (ISO/IEC
/// 19757-3, section 6): each node is judged by the first rule of the pattern whose context matches it. What is active is
/// what the rules say is active by some name. The only error is want of memory.
///
/// A pattern costs what its contexts and its tests cost, and not a pass over all nodes besides; the names of its plans
/// are looked up in the document once. Each move of contexts, variables, tests and messages takes a step; those that
/// locations are made by are no part of it.
pub fn judge<'r, L: Ledger>(
    alloc: Global,
    rules: &'r Rules,
    active: &Active,
    doc: &Doc<'_>,
    steps: &mut Steps<L>,
) -> Result<Findings<'r>, AllocError>
    requires { CameFrom (seen_rules rules.now) (seen_active active.now) }
    ensures { IfOk result (λ found. found ≡ spec.findings (seen_rules rules.now) (seen_active active.now) (tree_nodes doc.now)) }
{
    rules.are_of_a_file();
    compiled_rules_have_patterns();
    let ordinals = Ordinals::new(alloc, doc)?;
    let input = JudgingInput {
        alloc,
        doc,
        ordinals: &ordinals,
    };
    found_in(&input, rules, active, steps)
}
