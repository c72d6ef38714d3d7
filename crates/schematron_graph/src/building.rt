ghost use Rattle.std.specs.Prelude.{◌≡◌, ◌<◌, ◌+◌, ◌++◌, Some, true, slice_get, set, length, IfSome, IfNone, IfOk, OnOk};
ghost use Rattle.std.specs.List.{list_all};
ghost use Rattle.schematron_graph.specs.Rules.{bodies_of, body_of};
ghost use Rattle.schematron_graph.specs.Ranked.{is_below};
ghost use Rattle.schematron_graph.specs.Built as spec;

use crate::part::Part;
use crate::ranked::Ranked;
use std::alloc::{AllocError, Global};

/// What stands at the place of a rule that ends.
#[derive(Clone, Copy, PartialEq, Eq)]
pub(crate) enum Substitute {
    Nothing,
    /// A thing, or a rank of two parts or more.
    One(Part),
}

/// Rules that are built: the ranked bodies, and by number what stands at the place of each that is.
#[derive(Drop)]
pub(crate) struct Built {
    pub ranked: Ranked,
    pub puts: Vec<Option<Substitute>>,
}

/// Whether the rule is built, or isn't there.
pub(crate) fn is_settled(puts: &[Option<Substitute>], rule: usize) -> bool
    ensures { result ≡ spec.is_settled puts.now rule }
{
    match puts.get(rule) {
        Some(put) => put.is_some(),
        None => true,
    }
}

fn is_ready_part(puts: &[Option<Substitute>], part: Part) -> bool
    ensures { result ≡ spec.is_ready_part puts.now part }
{
    match part {
        Part::Own(_) => true,
        Part::Puts(rule) => is_settled(puts, rule),
    }
}

/// Whether all rules that the body puts are built.
fn is_ready(puts: &[Option<Substitute>], body: &[Part]) -> bool
    ensures { result ≡ spec.is_ready puts.now body.now }
{
    'parts: for part in body {
        if !is_ready_part(puts, *part) {
            return false;
        }
    }
    true
}

/// What stands at the place of a part.
pub(crate) fn built_part(puts: &[Option<Substitute>], part: Part) -> Substitute
    ensures { spec.parts_put result ≡ spec.built_part puts.now part }
{
    match part {
        Part::Own(_) => Substitute::One(part),
        Part::Puts(rule) => match puts.get(rule) {
            Some(Some(put)) => *put,
            Some(None) | None => Substitute::Nothing,
        },
    }
}

/// A body with what stands at the places of the rules that it puts.
pub(crate) fn built_body(
    alloc: Global,
    puts: &[Option<Substitute>],
    body: &[Part],
) -> Result<Vec<Part>, AllocError>
    ensures { IfOk result (λ parts. parts.items ≡ spec.built_body puts.now body.now) }
{
    let mut parts = Vec::new(alloc);
    'parts: for part in body {
        push_put(&mut parts, built_part(puts, *part))?;
    }
    Ok(parts)
}

fn push_put(parts: &mut Vec<Part>, put: Substitute) -> Result<(), AllocError>
    ensures { OnOk result (parts.new.items ≡ parts.old.items ++ spec.parts_put put) }
{
    match put {
        Substitute::Nothing => Ok(()),
        Substitute::One(part) => {
            parts.push(part)?;
            Ok(())
        }
    }
}

/// The body of a rule; one that isn't there is empty.
pub(crate) fn body(rules: &[Vec<Part>], rule: usize) -> &[Part]
    ensures { result.now ≡ body_of (bodies_of rules.now) rule }
{
    match rules.get(rule) {
        Some(body) => body.as_slice(),
        None => &[],
    }
}

fn is_unbuilt(puts: &[Option<Substitute>], rule: usize) -> bool
    ensures { result ≡ spec.is_unbuilt_found (slice_get puts.now rule) }
{
    match puts.get(rule) {
        Some(put) => put.is_none(),
        None => false,
    }
}

/// Whether the rule isn't built and those that it puts are.
fn is_next(rules: &[Vec<Part>], puts: &[Option<Substitute>], rule: usize) -> bool
    ensures { result ≡ spec.is_next (bodies_of rules.now) puts.now rule }
{
    is_unbuilt(puts, rule) && is_ready(puts, body(rules, rule))
}

/// The first rule that is next.
fn first_next(rules: &[Vec<Part>], puts: &[Option<Substitute>]) -> Option<usize>
    requires { length puts.now ≡ length rules.now }
    ensures some { IfSome result (λ rule. spec.is_next (bodies_of rules.now) puts.now rule ≡ true) }
    ensures none { IfNone result (spec.IsClosed (bodies_of rules.now) puts.now) }
{
    'rules: for rule in 0..puts.len() {
        if is_next(rules, puts, rule) {
            return Some(rule);
        }
    }
    None
}

/// Ranks a body, if it has two parts or more, and answers what stands at its place.
fn rank(ranked: &mut Ranked, parts: Vec<Part>) -> Result<Substitute, AllocError>
    requires { list_all (is_below (length ranked.old)) parts.items ≡ true }
    ensures ranked { OnOk result (ranked.new ≡ spec.ranked_with ranked.old parts.items) }
    ensures put { IfOk result (λ put. put ≡ spec.put_with ranked.old parts.items) }
{
    match parts.as_slice() {
        [] => return Ok(Substitute::Nothing),
        [part] => return Ok(Substitute::One(*part)),
        _ => {}
    }
    let rank = ranked.len();
    ranked.push(parts)?;
    Ok(Substitute::One(Part::Puts(rank)))
}

/// Builds a rule that is next.
fn build(
    alloc: Global,
    rules: &[Vec<Part>],
    built: &mut Built,
    rule: usize,
) -> Result<(), AllocError>
    requires fits { spec.Fits (bodies_of rules.now) built.old.ranked built.old.puts.items }
    requires next { spec.is_next (bodies_of rules.now) built.old.puts.items rule ≡ true }
    ensures fits { OnOk result (spec.Fits (bodies_of rules.now) built.new.ranked built.new.puts.items) }
    ensures count { OnOk result (spec.built_count built.new.puts.items ≡ spec.built_count built.old.puts.items + 1) }
{
    let parts = built_body(alloc, &built.puts, body(rules, rule))?;
    let put = rank(&mut built.ranked, parts)?;
    set_put(&mut built.puts, rule, put);
    Ok(())
}

fn set_put(puts: &mut Vec<Option<Substitute>>, rule: usize, put: Substitute)
    requires { rule < length puts.old.items }
    ensures { puts.new.items ≡ set puts.old.items rule (Some put) }
{
    puts[rule] = Some(put);
}

/// Builds the rules of a list that are next when their turn comes.
fn build_in_order(
    alloc: Global,
    rules: &[Vec<Part>],
    built: &mut Built,
    order: &[usize],
) -> Result<(), AllocError>
    requires { spec.Fits (bodies_of rules.now) built.old.ranked built.old.puts.items }
    ensures { OnOk result (spec.Fits (bodies_of rules.now) built.new.ranked built.new.puts.items) }
{
    'order: for rule in order {
        if is_next(rules, &built.puts, *rule) {
            build(alloc, rules, built, *rule)?;
        }
    }
    Ok(())
}

/// Builds rules until none is next.
fn build_rest(alloc: Global, rules: &[Vec<Part>], built: &mut Built) -> Result<(), AllocError>
    requires { spec.Fits (bodies_of rules.now) built.old.ranked built.old.puts.items }
    ensures fits { OnOk result (spec.Fits (bodies_of rules.now) built.new.ranked built.new.puts.items) }
    ensures closed { OnOk result (spec.IsClosed (bodies_of rules.now) built.new.puts.items) }
{
    'rest: while let Some(rule) = first_next(rules, &built.puts) {
        build(alloc, rules, built, rule)?;
    }
    Ok(())
}

/// Builds all rules that end. In an order in which each stands behind those that it puts, this takes time in proportion
/// to the bodies; what the order lacks is found by search.
pub(crate) fn build_all(
    alloc: Global,
    rules: &[Vec<Part>],
    order: &[usize],
) -> Result<Built, AllocError>
    ensures fits { IfOk result (λ built. spec.Fits (bodies_of rules.now) built.ranked built.puts.items) }
    ensures closed { IfOk result (λ built. spec.IsClosed (bodies_of rules.now) built.puts.items) }
{
    let mut built = Built {
        ranked: Ranked::new(alloc),
        puts: vec![in alloc; None; rules.len()]?,
    };
    build_in_order(alloc, rules, &mut built, order)?;
    build_rest(alloc, rules, &mut built)?;
    Ok(built)
}
