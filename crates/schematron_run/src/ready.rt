//! Rules made ready for a document: the names of each plan are looked up in it once, and not again at each node.
ghost use Rattle.std.specs.Prelude.{◌≡◌, map, IfOk};
ghost use Rattle.std.specs.List.{All};
ghost use Rattle.schematron_rules.specs.Seen.{seen_let, seen_lets, seen_part, seen_assertion, seen_rule};
ghost use Rattle.schematron_run.specs.Ready.{ready_let, ready_part, ready_assertion, ready_rule, IsLetFor, IsPartFor, IsAssertionFor, IsRuleFor};

use crate::input::JudgingInput;
use inv_base::Txt;
use schematron_rules::{Assertion, Let, Part, Rule};
use std::alloc::AllocError;
use xpath_run::Run;

/// A variable, and what its value is evaluated by.
#[derive(Drop)]
pub(crate) struct ReadyLet<'p, 'd, 'a> {
    pub(crate) name: &'p Txt,
    pub(crate) run: Run<'p, 'd, 'a>,
}

/// A part of a message.
#[derive(Drop)]
pub(crate) enum ReadyPart<'p, 'd, 'a> {
    Words(&'p Txt),
    Values(Run<'p, 'd, 'a>),
    Name,
}

/// An assertion, and what its test and its message are evaluated by.
#[derive(Drop)]
pub(crate) struct ReadyAssertion<'p, 'd, 'a> {
    pub(crate) source: &'p Assertion,
    pub(crate) test: Run<'p, 'd, 'a>,
    pub(crate) message: Vec<ReadyPart<'p, 'd, 'a>>,
}

/// A rule with its variables and assertions.
#[derive(Drop)]
pub(crate) struct ReadyRule<'p, 'd, 'a> {
    pub(crate) source: &'p Rule,
    pub(crate) lets: Vec<ReadyLet<'p, 'd, 'a>>,
    pub(crate) assertions: Vec<ReadyAssertion<'p, 'd, 'a>>,
}

fn let_of<'p, 'd, 'a>(
    input: &JudgingInput<'d, 'a>,
    variable: &'p Let,
) -> Result<ReadyLet<'p, 'd, 'a>, AllocError>
    ensures seen { IfOk result (λ x. ready_let x ≡ seen_let variable.now) }
    ensures ready { IfOk result (λ x. IsLetFor input.now.doc.now x) }
{
    let run = Run::new(input.alloc, &variable.plan, input.doc)?;
    Ok(ReadyLet {
        name: &variable.name,
        run,
    })
}

/// Variables made ready, in their order.
pub(crate) fn ready_lets<'p, 'd, 'a>(
    input: &JudgingInput<'d, 'a>,
    lets: &'p [Let],
) -> Result<Vec<ReadyLet<'p, 'd, 'a>>, AllocError>
    ensures seen { IfOk result (λ made. map ready_let made.items ≡ seen_lets lets.now) }
    ensures ready { IfOk result (λ made. All (IsLetFor input.now.doc.now) made.items) }
{
    let mut made = Vec::new(input.alloc);
    'lets: for variable in lets {
        made.push(let_of(input, variable)?)?;
    }
    Ok(made)
}

fn part_of<'p, 'd, 'a>(
    input: &JudgingInput<'d, 'a>,
    part: &'p Part,
) -> Result<ReadyPart<'p, 'd, 'a>, AllocError>
    ensures seen { IfOk result (λ x. ready_part x ≡ seen_part part.now) }
    ensures ready { IfOk result (λ x. IsPartFor input.now.doc.now x) }
{
    match part {
        Part::Words(text) => Ok(ReadyPart::Words(text)),
        Part::Values(plan) => {
            let run = Run::new(input.alloc, plan, input.doc)?;
            Ok(ReadyPart::Values(run))
        }
        Part::Name => Ok(ReadyPart::Name),
    }
}

fn parts_of<'p, 'd, 'a>(
    input: &JudgingInput<'d, 'a>,
    parts: &'p [Part],
) -> Result<Vec<ReadyPart<'p, 'd, 'a>>, AllocError>
    ensures seen { IfOk result (λ made. map ready_part made.items ≡ map seen_part parts.now) }
    ensures ready { IfOk result (λ made. All (IsPartFor input.now.doc.now) made.items) }
{
    let mut made = Vec::new(input.alloc);
    'parts: for part in parts {
        made.push(part_of(input, part)?)?;
    }
    Ok(made)
}

fn assertion_of<'p, 'd, 'a>(
    input: &JudgingInput<'d, 'a>,
    source: &'p Assertion,
) -> Result<ReadyAssertion<'p, 'd, 'a>, AllocError>
    ensures seen { IfOk result (λ x. ready_assertion x ≡ seen_assertion source.now) }
    ensures ready { IfOk result (λ x. IsAssertionFor input.now.doc.now x) }
{
    let test = Run::new(input.alloc, &source.test.plan, input.doc)?;
    let message = parts_of(input, source.message.as_slice())?;
    Ok(ReadyAssertion {
        source,
        test,
        message,
    })
}

fn assertions_of<'p, 'd, 'a>(
    input: &JudgingInput<'d, 'a>,
    assertions: &'p [Assertion],
) -> Result<Vec<ReadyAssertion<'p, 'd, 'a>>, AllocError>
    ensures seen { IfOk result (λ made. map ready_assertion made.items ≡ map seen_assertion assertions.now) }
    ensures ready { IfOk result (λ made. All (IsAssertionFor input.now.doc.now) made.items) }
{
    let mut made = Vec::new(input.alloc);
    'assertions: for assertion in assertions {
        made.push(assertion_of(input, assertion)?)?;
    }
    Ok(made)
}

fn rule_of<'p, 'd, 'a>(
    input: &JudgingInput<'d, 'a>,
    source: &'p Rule,
) -> Result<ReadyRule<'p, 'd, 'a>, AllocError>
    ensures seen { IfOk result (λ x. ready_rule x ≡ seen_rule source.now) }
    ensures ready { IfOk result (λ x. IsRuleFor input.now.doc.now x) }
{
    let lets = ready_lets(input, source.lets.as_slice())?;
    let assertions = assertions_of(input, source.assertions.as_slice())?;
    Ok(ReadyRule {
        source,
        lets,
        assertions,
    })
}

/// Rules made ready, in their order. Takes time and memory in proportion to the plans of their variables, tests and
/// messages.
pub(crate) fn ready_rules<'p, 'd, 'a>(
    input: &JudgingInput<'d, 'a>,
    rules: &'p [Rule],
) -> Result<Vec<ReadyRule<'p, 'd, 'a>>, AllocError>
    ensures seen { IfOk result (λ made. map ready_rule made.items ≡ map seen_rule rules.now) }
    ensures ready { IfOk result (λ made. All (IsRuleFor input.now.doc.now) made.items) }
{
    let mut made = Vec::new(input.alloc);
    'rules: for rule in rules {
        made.push(rule_of(input, rule)?)?;
    }
    Ok(made)
}
