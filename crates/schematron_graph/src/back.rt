ghost use Rattle.std.specs.Prelude.{◌≡◌, true, length, IfOk};
ghost use Rattle.schematron_graph.specs.declared.part.Part.TheVariants.{Puts};
ghost use Rattle.schematron_graph.specs.Rules.{bodies_of, body_of, is_back, part_leads};
ghost use Rattle.schematron_graph.specs.Back as spec;

use crate::building::body;
use crate::guess::path;
use crate::part::{Part, Spot};
use crate::walk::{Place, part_at};
use std::alloc::{AllocError, Global};

/// The first part that puts its own rule or one that leads back to it. With labels that rules share exactly where they
/// lead to each other, and that rise along no part, it takes time in proportion to the bodies; with others it is found
/// by search.
pub(crate) fn first_back(
    alloc: Global,
    rules: &[Vec<Part>],
    labels: &[usize],
) -> Result<Option<Spot>, AllocError>
    ensures { IfOk result (λ found. spec.IsFirstBack (bodies_of rules.now) found) }
{
    if !never_rise(labels, rules) {
        return search(alloc, rules);
    }
    match first_level(labels, rules) {
        None => Ok(None),
        Some(spot) => confirmed(alloc, rules, spot),
    }
}

/// The spot, if a way is found from it back to its rule; else the first part that leads back is searched.
fn confirmed(alloc: Global, rules: &[Vec<Part>], spot: Spot) -> Result<Option<Spot>, AllocError>
    requires { spec.IsBackAt (bodies_of rules.now) spot → spec.FirstSpot (is_back (bodies_of rules.now)) (bodies_of rules.now) spot }
    ensures { IfOk result (λ found. spec.IsFirstBack (bodies_of rules.now) found) }
{
    if leads_back(alloc, rules, spot)? {
        return Ok(Some(spot));
    }
    search(alloc, rules)
}

fn label(labels: &[usize], rule: usize) -> usize
    ensures { result ≡ spec.label_of labels.now rule }
{
    labels.get(rule).copied().unwrap_or(0)
}

/// Whether the label of the rule that the part puts is at most this one.
fn falls_to(labels: &[usize], own: usize, part: Part) -> bool
    ensures { result ≡ spec.falls_to labels.now own part }
{
    match part {
        Part::Own(_) => true,
        Part::Puts(other) => label(labels, other) <= own,
    }
}

fn all_fall(labels: &[usize], own: usize, parts: &[Part]) -> bool
    ensures { result ≡ spec.all_fall labels.now own parts.now }
{
    'parts: for part in parts {
        if !falls_to(labels, own, *part) {
            return false;
        }
    }
    true
}

/// Whether no label rises along a part.
fn never_rise(labels: &[usize], rules: &[Vec<Part>]) -> bool
    ensures { result ≡ true → spec.NeverRise labels.now (bodies_of rules.now) }
{
    'rules: for rule in 0..rules.len() {
        if !all_fall(labels, label(labels, rule), body(rules, rule)) {
            return false;
        }
    }
    true
}

/// Whether the part puts a rule of this label.
fn is_level(labels: &[usize], own: usize, part: Part) -> bool
    ensures { result ≡ spec.is_level labels.now own part }
{
    match part {
        Part::Own(_) => false,
        Part::Puts(other) => label(labels, other) == own,
    }
}

/// How many parts are before the first that puts a rule of this label.
fn level_in(labels: &[usize], own: usize, parts: &[Part]) -> Option<usize>
    ensures { spec.IsFirstIn (spec.is_level labels.now own) parts.now result }
{
    'parts: for (k, part) in parts.iter().enumerate() {
        if is_level(labels, own, *part) {
            return Some(k);
        }
    }
    None
}

/// The first part that puts a rule of its own rule's label.
fn first_level(labels: &[usize], rules: &[Vec<Part>]) -> Option<Spot>
    ensures { spec.IsFirst (spec.level_test labels.now) (bodies_of rules.now) result }
{
    'rules: for rule in 0..rules.len() {
        if let Some(part) = level_in(labels, label(labels, rule), body(rules, rule)) {
            return Some(Spot { rule, part });
        }
    }
    None
}

/// Whether a way was found from the rule that the part puts back to its own; a way that isn't found may be there.
fn leads_back(alloc: Global, rules: &[Vec<Part>], spot: Spot) -> Result<bool, AllocError>
    ensures { IfOk result (λ leads. leads ≡ true → spec.IsBackAt (bodies_of rules.now) spot) }
{
    let place = Place {
        rank: spot.rule,
        next: spot.part,
    };
    match part_at(rules, place) {
        Some(Part::Puts(other)) => way_back(alloc, rules, other, spot.rule),
        Some(Part::Own(_)) | None => Ok(false),
    }
}

/// Whether a way was found from one rule to the other.
fn way_back(
    alloc: Global,
    rules: &[Vec<Part>],
    other: usize,
    rule: usize,
) -> Result<bool, AllocError>
    ensures { IfOk result (λ leads. leads ≡ true → is_back (bodies_of rules.now) rule (Puts other) ≡ true) }
{
    if other == rule {
        return Ok(true);
    }
    let steps = path(alloc, rules, other, rule)?;
    if steps.len() > rules.len() {
        return Ok(false);
    }
    Ok(leads_along(rules, other, &steps, rule))
}

/// Whether the rule puts the first of the steps, each step the next, and the last one is the goal.
fn leads_along(rules: &[Vec<Part>], from: usize, steps: &[usize], goal: usize) -> bool
    ensures { result ≡ spec.leads_along (bodies_of rules.now) goal from steps.now }
{
    let mut from = from;
    'steps: for step in steps {
        if !puts_rule(body(rules, from), *step) {
            return false;
        }
        from = *step;
    }
    from == goal
}

fn puts_rule(parts: &[Part], rule: usize) -> bool
    ensures { result ≡ spec.puts_rule rule parts.now }
{
    'parts: for part in parts {
        if is_putting(*part, rule) {
            return true;
        }
    }
    false
}

fn is_putting(part: Part, rule: usize) -> bool
    ensures { result ≡ spec.is_putting rule part }
{
    match part {
        Part::Own(_) => false,
        Part::Puts(other) => other == rule,
    }
}

/// The same by trying each rule: in time in proportion to the bodies times the square of how many rules there are.
fn search(alloc: Global, rules: &[Vec<Part>]) -> Result<Option<Spot>, AllocError>
    ensures { IfOk result (λ found. spec.IsFirstBack (bodies_of rules.now) found) }
{
    'rules: for rule in 0..rules.len() {
        if let Some(part) = back_in(alloc, rules, rule)? {
            return Ok(Some(Spot { rule, part }));
        }
    }
    Ok(None)
}

/// How many parts of a rule are before the first that leads back to it.
fn back_in(alloc: Global, rules: &[Vec<Part>], rule: usize) -> Result<Option<usize>, AllocError>
    ensures { IfOk result (λ found. spec.IsFirstIn (is_back (bodies_of rules.now) rule) (body_of (bodies_of rules.now) rule) found) }
{
    let row = row(alloc, rules, rule)?;
    Ok(leading_in(&row, rule, body(rules, rule)))
}

/// By rule, whether it leads to this one.
#[tactic(auto, using(crate::proofs::BackLemmas::row_next))]
fn row(alloc: Global, rules: &[Vec<Part>], goal: usize) -> Result<Vec<bool>, AllocError>
    ensures { IfOk result (λ row. row.items ≡ spec.row_of (length rules.now) (bodies_of rules.now) goal) }
{
    let mut row = first_row(alloc, rules)?;
    'depths: for _depth in 0..rules.len() {
        row = next_row(alloc, rules, &row, goal)?;
    }
    Ok(row)
}

/// The same by no rule.
fn first_row(alloc: Global, rules: &[Vec<Part>]) -> Result<Vec<bool>, AllocError>
    ensures { IfOk result (λ row. row.items ≡ spec.no_row (bodies_of rules.now)) }
{
    let mut row = Vec::new(alloc);
    'rules: for _body in rules {
        row.push(false)?;
    }
    Ok(row)
}

/// The same by one rule more.
fn next_row(
    alloc: Global,
    rules: &[Vec<Part>],
    row: &[bool],
    goal: usize,
) -> Result<Vec<bool>, AllocError>
    ensures { IfOk result (λ next. next.items ≡ spec.next_row row.now goal (bodies_of rules.now)) }
{
    let mut next = Vec::new(alloc);
    'rules: for body in rules {
        next.push(any_leads(row, goal, body))?;
    }
    Ok(next)
}

fn leads(row: &[bool], goal: usize, part: Part) -> bool
    ensures { result ≡ part_leads (spec.leads_in row.now) goal part }
{
    match part {
        Part::Own(_) => false,
        Part::Puts(other) => other == goal || row.get(other).copied().unwrap_or(false),
    }
}

fn any_leads(row: &[bool], goal: usize, parts: &[Part]) -> bool
    ensures { result ≡ spec.any_leads row.now goal parts.now }
{
    'parts: for part in parts {
        if leads(row, goal, *part) {
            return true;
        }
    }
    false
}

/// How many parts are before the first that leads to the rule.
fn leading_in(row: &[bool], goal: usize, parts: &[Part]) -> Option<usize>
    ensures { spec.IsFirstIn (part_leads (spec.leads_in row.now) goal) parts.now result }
{
    'parts: for (k, part) in parts.iter().enumerate() {
        if leads(row, goal, *part) {
            return Some(k);
        }
    }
    None
}
