//! Assertions at a node.
ghost use Rattle.std.specs.Prelude.{◌≡◌, ◌<◌, ◌++◌, map, flat_map, Ok, Some, IfOk, OnOk};
ghost use Rattle.std.specs.List.{All};
ghost use Rattle.node_locations.specs.Locations.{location};
ghost use Rattle.xpath_steps.specs.Variables.{ValuesWithin};
ghost use Rattle.schematron_run.specs.Judging as spec;
ghost use Rattle.schematron_run.specs.Ready.{ready_assertion, ready_part, IsAssertionFor};
ghost use Rattle.schematron_run.specs.Inputs.{nodes_of, count, IsSet};

use crate::input::JudgingInput;
use crate::lending::{lent_id, lent_label, lent_text};
use crate::messages::message_at;
use crate::ready::ReadyAssertion;
use crate::values::{truth_in, value_at};
use inv_base::{Steps, Txt};
use node_arena::NodeId;
use node_locations::push_location;
use schematron_findings::{Finding, FindingKind, Findings, Line};
use schematron_meaning::AssertionKind;
use std::alloc::AllocError;
use std::sync::ledger::Ledger;
use xpath_items::DynError;
use xpath_run::Env;

/// What is told of an assertion whose test comes to this.
fn told_of(kind: AssertionKind, answer: Result<bool, DynError>) -> Option<FindingKind>
    ensures { result ≡ spec.told_of kind answer }
{
    match answer {
        Err(error) => Some(FindingKind::Error(error)),
        Ok(holds) => told_where(kind, holds),
    }
}

fn told_where(kind: AssertionKind, holds: bool) -> Option<FindingKind>
    ensures { result ≡ spec.told_of kind (Ok holds) }
{
    match kind {
        AssertionKind::Assert if !holds => Some(FindingKind::Failed),
        AssertionKind::Report if holds => Some(FindingKind::Reported),
        _ => None,
    }
}

fn location_at(input: &JudgingInput<'_, '_>, n: NodeId) -> Result<Txt, AllocError>
    requires within { n < count input.now }
    requires set { IsSet input.now }
    ensures { IfOk result (λ text. text ≡ location (nodes_of input.now) n) }
{
    let mut text = String::new(input.alloc);
    push_location(input.doc, input.ordinals, n, &mut text)?;
    Txt::of(input.alloc, text.as_str())
}

/// Where a node stands, and what an assertion says there.
fn location_and_message<'a, L: Ledger>(
    input: &JudgingInput<'_, 'a>,
    assertion: &mut ReadyAssertion<'_, '_, 'a>,
    n: NodeId,
    env: &Env<'a>,
    steps: &mut Steps<L>,
) -> Result<(Txt, Txt), AllocError>
    requires ready { IsAssertionFor input.now.doc.now assertion.old }
    requires within { n < count input.now }
    requires set { IsSet input.now }
    requires variables { ValuesWithin (count input.now) env.now }
    ensures location { IfOk result (λ both. both.0 ≡ location (nodes_of input.now) n) }
    ensures message { IfOk result (λ both. both.1 ≡ spec.message_at (nodes_of input.now) n env.now (map ready_part assertion.old.message.items)) }
    ensures same { OnOk result (ready_assertion assertion.new ≡ ready_assertion assertion.old) }
    ensures ready { OnOk result (IsAssertionFor input.now.doc.now assertion.new) }
{
    let location = location_at(input, n)?;
    match message_at(input, assertion.message.as_mut_slice(), n, env, steps) {
        Ok(message) => Ok((location, message)),
        Err(error) => {
            drop(location);
            Err(error)
        }
    }
}

fn finding_of<'r, 'a, L: Ledger>(
    input: &JudgingInput<'_, 'a>,
    assertion: &mut ReadyAssertion<'r, '_, 'a>,
    n: NodeId,
    env: &Env<'a>,
    outcome: FindingKind,
    steps: &mut Steps<L>,
) -> Result<Finding<'r>, AllocError>
    requires ready { IsAssertionFor input.now.doc.now assertion.old }
    requires within { n < count input.now }
    requires set { IsSet input.now }
    requires variables { ValuesWithin (count input.now) env.now }
    ensures finding { IfOk result (λ finding. finding ≡ spec.finding_of (nodes_of input.now) n env.now (ready_assertion assertion.old) outcome) }
    ensures same { OnOk result (ready_assertion assertion.new ≡ ready_assertion assertion.old) }
    ensures ready { OnOk result (IsAssertionFor input.now.doc.now assertion.new) }
{
    let source = assertion.source;
    let (location, message) = location_and_message(input, assertion, n, env, steps)?;
    Ok(Finding {
        outcome,
        level: source.level,
        test: lent_text(&source.test.text),
        location,
        message,
        id: lent_id(&source.id),
        flag: lent_label(&source.flag),
        role: lent_label(&source.role),
    })
}

/// Adds what is told of an assertion, if anything is.
fn tell<'r, 'a, L: Ledger>(
    input: &JudgingInput<'_, 'a>,
    assertion: &mut ReadyAssertion<'r, '_, 'a>,
    n: NodeId,
    env: &Env<'a>,
    told: Option<FindingKind>,
    findings: &mut Findings<'r>,
    steps: &mut Steps<L>,
) -> Result<(), AllocError>
    requires ready { IsAssertionFor input.now.doc.now assertion.old }
    requires within { n < count input.now }
    requires set { IsSet input.now }
    requires variables { ValuesWithin (count input.now) env.now }
    ensures found { OnOk result (findings.new ≡ findings.old ++ spec.lines_told (nodes_of input.now) n env.now (ready_assertion assertion.old) told) }
    ensures same { OnOk result (ready_assertion assertion.new ≡ ready_assertion assertion.old) }
    ensures ready { OnOk result (IsAssertionFor input.now.doc.now assertion.new) }
{
    let Some(outcome) = told else {
        return Ok(());
    };
    let finding = finding_of(input, assertion, n, env, outcome, steps)?;
    findings.push(Line::Found(finding))
}

fn judge_assertion<'r, 'a, L: Ledger>(
    input: &JudgingInput<'_, 'a>,
    assertion: &mut ReadyAssertion<'r, '_, 'a>,
    n: NodeId,
    env: &Env<'a>,
    findings: &mut Findings<'r>,
    steps: &mut Steps<L>,
) -> Result<(), AllocError>
    requires ready { IsAssertionFor input.now.doc.now assertion.old }
    requires within { n < count input.now }
    requires set { IsSet input.now }
    requires variables { ValuesWithin (count input.now) env.now }
    ensures found { OnOk result (findings.new ≡ findings.old ++ spec.by_assertion (nodes_of input.now) n env.now (ready_assertion assertion.old)) }
    ensures same { OnOk result (ready_assertion assertion.new ≡ ready_assertion assertion.old) }
    ensures ready { OnOk result (IsAssertionFor input.now.doc.now assertion.new) }
{
    let outcome = value_at(input, &mut assertion.test, n, env, steps)?;
    let source = assertion.source;
    let told = told_of(source.kind, truth_in(&outcome));
    tell(input, assertion, n, env, told, findings, steps)
}

/// Judges a node by the assertions of a rule.
pub(crate) fn judge_assertions<'r, 'a, L: Ledger>(
    input: &JudgingInput<'_, 'a>,
    assertions: &mut [ReadyAssertion<'r, '_, 'a>],
    n: NodeId,
    env: &Env<'a>,
    findings: &mut Findings<'r>,
    steps: &mut Steps<L>,
) -> Result<(), AllocError>
    requires ready { All (IsAssertionFor input.now.doc.now) assertions.old }
    requires within { n < count input.now }
    requires set { IsSet input.now }
    requires variables { ValuesWithin (count input.now) env.now }
    ensures found { OnOk result (findings.new ≡ findings.old ++
        flat_map (spec.by_assertion (nodes_of input.now) n env.now) (map ready_assertion assertions.old)) }
    ensures same { OnOk result (map ready_assertion assertions.new ≡ map ready_assertion assertions.old) }
    ensures ready { OnOk result (All (IsAssertionFor input.now.doc.now) assertions.new) }
{
    'assertions: for k in 0..assertions.len() {
        judge_assertion(input, &mut assertions[k], n, env, findings, steps)?;
    }
    Ok(())
}
