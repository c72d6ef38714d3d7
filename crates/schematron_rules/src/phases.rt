//! Phases by name.
ghost use Rattle.std.specs.Prelude.{◌≡◌, [], chars, codes, length, option_map, IfOk, Some};
ghost use Rattle.std.specs.List.{range_with_len};
ghost use Rattle.std.specs.Str.{bytes_eq};
ghost use Rattle.schematron_meaning.specs.Phases as phases;
ghost use Rattle.schematron_rules.specs.Seen.{seen_rules, seen_phase, seen_phases, seen_active};
ghost use Rattle.schematron_rules.specs.Answers.{PhaseAnswers};

use crate::numbers::number_of;
use crate::rules::{Active, Compiled, Phase, Rules};
use inv_base::{Many, Txt, is_same_text};
use schematron_meaning::PhaseFault;
use std::alloc::{AllocError, Global};

const ALL: &str = "#ALL";

const DEFAULT: &str = "#DEFAULT";

impl Rules {
    /// What is active by that name: `#ALL`, `#DEFAULT` or a phase's. There is none where no phase has it, or where the
    /// file names `#DEFAULT` or a phase that isn't there as its default one.
    pub fn phase(&self, alloc: Global, name: &str) -> Result<Active, PhaseFault>
        ensures { PhaseAnswers result (phases.active_of (seen_rules self.now) (chars name.now)) }
    {
        let compiled = &self.compiled;
        if is_default(name) {
            by_default(alloc, compiled)
        } else {
            by_name(alloc, compiled, name)
        }
    }
}

fn is_default(name: &str) -> bool
    ensures { result ≡ bytes_eq (chars name.now) phases.the_default }
{
    is_same_text(name, DEFAULT)
}

fn is_all(name: &str) -> bool
    ensures { result ≡ bytes_eq (chars name.now) phases.all_phases }
{
    is_same_text(name, ALL)
}

/// The numbers below a count.
fn numbers_below(alloc: Global, count: u32) -> Result<Many<u32>, AllocError>
    ensures { IfOk result (λ numbers. numbers ≡ range_with_len 0 count) }
{
    let mut numbers = Many::new(alloc);
    'numbers: for n in 0..count {
        numbers.push(n)?;
    }
    Ok(numbers)
}

/// The numbers of so many patterns.
fn all_numbers(alloc: Global, count: usize) -> Result<Many<u32>, AllocError>
    ensures { IfOk result (λ numbers. numbers ≡ range_with_len 0 count) }
{
    let count = number_of(count)?;
    numbers_below(alloc, count)
}

/// All patterns.
fn all_active(alloc: Global, rules: &Compiled) -> Result<Active, PhaseFault>
    ensures { PhaseAnswers result (Some (phases.all_active (seen_rules rules.now))) }
{
    match all_numbers(alloc, rules.patterns.len()) {
        Ok(patterns) => Ok(Active {
            phase: None,
            patterns,
        }),
        Err(_) => Err(PhaseFault::Memory),
    }
}

fn by_default(alloc: Global, rules: &Compiled) -> Result<Active, PhaseFault>
    ensures { PhaseAnswers result (phases.by_default (seen_rules rules.now) rules.now.default_phase) }
{
    match &rules.default_phase {
        Some(name) => named_by_default(alloc, rules, name),
        None => all_active(alloc, rules),
    }
}

fn named_by_default(alloc: Global, rules: &Compiled, name: &Txt) -> Result<Active, PhaseFault>
    ensures { PhaseAnswers result (phases.by_default (seen_rules rules.now) (Some name.now)) }
{
    if is_default(name.as_str()) {
        Err(PhaseFault::NoPhase)
    } else {
        by_name(alloc, rules, name.as_str())
    }
}

fn by_name(alloc: Global, rules: &Compiled, name: &str) -> Result<Active, PhaseFault>
    ensures { PhaseAnswers result (phases.by_name (seen_rules rules.now) (chars name.now)) }
{
    if is_all(name) {
        all_active(alloc, rules)
    } else {
        among(alloc, rules.phases.as_slice(), name)
    }
}

fn has_id(phase: &Phase, name: &str) -> bool
    ensures { result ≡ phases.has_id (chars name.now) (seen_phase phase.now) }
{
    match &phase.id {
        Some(id) => is_same_text(id.as_str(), name),
        None => false,
    }
}

fn copied(alloc: Global, numbers: &[u32]) -> Result<Many<u32>, AllocError>
    ensures { IfOk result (λ copy. copy ≡ numbers.now) }
{
    let mut copy = Many::new(alloc);
    'numbers: for n in numbers {
        copy.push(*n)?;
    }
    Ok(copy)
}

/// The phase of that number.
fn active_in(alloc: Global, number: u32, phase: &Phase) -> Result<Active, PhaseFault>
    ensures { PhaseAnswers result (Some (record { phase = Some number; patterns = phase.now.patterns })) }
{
    match copied(alloc, phase.patterns.as_slice()) {
        Ok(patterns) => Ok(Active {
            phase: Some(number),
            patterns,
        }),
        Err(_) => Err(PhaseFault::Memory),
    }
}

/// The phase of that place.
fn active_at(alloc: Global, n: usize, phase: &Phase) -> Result<Active, PhaseFault>
    ensures { PhaseAnswers result (Some (record { phase = Some n; patterns = phase.now.patterns })) }
{
    match number_of(n) {
        Ok(number) => active_in(alloc, number, phase),
        Err(_) => Err(PhaseFault::Memory),
    }
}

/// The first phase of the name.
fn among(alloc: Global, all: &[Phase], name: &str) -> Result<Active, PhaseFault>
    ensures { PhaseAnswers result (phases.phase_from (chars name.now) 0 (seen_phases all.now)) }
{
    'phases: for (n, phase) in all.iter().enumerate() {
        if has_id(phase, name) {
            return active_at(alloc, n, phase);
        }
    }
    Err(PhaseFault::NoPhase)
}
