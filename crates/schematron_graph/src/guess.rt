//! An order of the rules, each behind those that it puts as far as no chain leads back, and labels of the rules that
//! lead to each other. Both are guesses that who uses them checks, so no contract speaks of them: they come from one
//! walk in depth (Tarjan 1972), in time in proportion to the bodies.

use crate::building::body;
use crate::part::Part;
use std::alloc::{AllocError, Global};

/// What the walk finds of the rules.
#[derive(Drop)]
pub(crate) struct Guess {
    /// Rules behind those that they put.
    pub order: Vec<usize>,
    /// By rule: rules that lead to each other have one label, and a rule has none below that of a rule that it puts.
    pub labels: Vec<usize>,
}

/// A rule on the way, and how many of its parts were gone through.
#[derive(Clone, Copy)]
struct Step {
    rule: usize,
    next: usize,
}

/// The walk so far. Entries are 0 where there is nothing yet.
struct Walk {
    guess: Guess,
    /// By rule: when it was met, from 1 on.
    met: Vec<usize>,
    /// By rule: when the first rule was met that it leads to, as far as is known.
    low: Vec<usize>,
    /// Rules that have no label yet.
    waiting: Vec<usize>,
    path: Vec<Step>,
    clock: usize,
    label: usize,
}

impl Drop for Walk {
    fn drop(self) {
        drop(self.into_guess());
    }
}

impl Walk {
    /// Before anything is met, with room for no rule.
    fn new(alloc: Global) -> Walk {
        Walk {
            guess: Guess {
                order: Vec::new(alloc),
                labels: Vec::new(alloc),
            },
            met: Vec::new(alloc),
            low: Vec::new(alloc),
            waiting: Vec::new(alloc),
            path: Vec::new(alloc),
            clock: 0,
            label: 0,
        }
    }

    /// Makes room for so many rules.
    fn make_room(&mut self, alloc: Global, count: usize) -> Result<(), AllocError> {
        self.guess.labels = zeros(alloc, count)?;
        self.met = zeros(alloc, count)?;
        self.low = zeros(alloc, count)?;
        Ok(())
    }

    /// What was found.
    fn into_guess(self) -> Guess {
        let Walk {
            guess,
            met,
            low,
            waiting,
            path,
            clock: _,
            label: _,
        } = self;
        drop(met);
        drop(low);
        drop(waiting);
        drop(path);
        guess
    }
}

fn get(values: &[usize], place: usize) -> usize {
    values.get(place).copied().unwrap_or(0)
}

fn put(values: &mut [usize], place: usize, value: usize) {
    if place < values.len() {
        values[place] = value;
    }
}

fn zeros(alloc: Global, count: usize) -> Result<Vec<usize>, AllocError> {
    vec![in alloc; 0; count]
}

/// How many turns the walk takes at most: one for each part, two for each rule.
fn turns_of(rules: &[Vec<Part>]) -> usize {
    let mut budget = 1usize;
    'rules: for body in rules {
        budget = budget.saturating_add(body.len()).saturating_add(2);
    }
    budget
}

pub(crate) fn guessed(alloc: Global, rules: &[Vec<Part>]) -> Result<Guess, AllocError> {
    let mut walk = Walk::new(alloc);
    match walk_all(alloc, rules, &mut walk) {
        Ok(()) => Ok(walk.into_guess()),
        Err(error) => {
            drop(walk);
            Err(error)
        }
    }
}

/// Goes over all rules.
fn walk_all(alloc: Global, rules: &[Vec<Part>], walk: &mut Walk) -> Result<(), AllocError> {
    walk.make_room(alloc, rules.len())?;
    let budget = turns_of(rules);
    'roots: for root in 0..rules.len() {
        if get(&walk.met, root) == 0 {
            walk_from(rules, walk, root, budget)?;
        }
    }
    Ok(())
}

/// Goes from a rule to all that it leads to and that weren't met.
fn walk_from(
    rules: &[Vec<Part>],
    walk: &mut Walk,
    root: usize,
    budget: usize,
) -> Result<(), AllocError> {
    meet(walk, root)?;
    'budget: for _ in 0..budget {
        match walk.path.pop() {
            Some(step) => turn(rules, walk, step)?,
            None => return Ok(()),
        }
    }
    Ok(())
}

fn meet(walk: &mut Walk, rule: usize) -> Result<(), AllocError> {
    walk.clock = walk.clock.saturating_add(1);
    put(&mut walk.met, rule, walk.clock);
    put(&mut walk.low, rule, walk.clock);
    walk.waiting.push(rule)?;
    walk.path.push(Step { rule, next: 0 })?;
    Ok(())
}

/// Goes on at the last rule of the path, which was taken off.
fn turn(rules: &[Vec<Part>], walk: &mut Walk, step: Step) -> Result<(), AllocError> {
    match body(rules, step.rule).get(step.next) {
        Some(part) => {
            walk.path.push(Step {
                rule: step.rule,
                next: step.next.saturating_add(1),
            })?;
            look_at(rules.len(), walk, step.rule, *part)
        }
        None => leave(walk, step.rule),
    }
}

fn look_at(count: usize, walk: &mut Walk, rule: usize, part: Part) -> Result<(), AllocError> {
    match part {
        Part::Own(_) => Ok(()),
        Part::Puts(other) => {
            if other >= count {
                return Ok(());
            }
            if get(&walk.met, other) == 0 {
                return meet(walk, other);
            }
            if get(&walk.guess.labels, other) == 0 {
                lower(&mut walk.low, rule, get(&walk.met, other));
            }
            Ok(())
        }
    }
}

fn lower(low: &mut [usize], rule: usize, value: usize) {
    put(low, rule, value.min(get(low, rule)));
}

/// Leaves a rule: the one before it on the path leads to what it leads to.
fn leave(walk: &mut Walk, rule: usize) -> Result<(), AllocError> {
    let low = get(&walk.low, rule);
    walk.guess.order.push(rule)?;
    if low == get(&walk.met, rule) {
        walk.label = walk.label.saturating_add(1);
        label_down_to(walk, rule);
    }
    if let Some(step) = walk.path.last().copied() {
        lower(&mut walk.low, step.rule, low);
    }
    Ok(())
}

/// Gives the label to the rules that wait, down to this one.
fn label_down_to(walk: &mut Walk, rule: usize) {
    'waiting: for _ in 0..walk.waiting.len() {
        match walk.waiting.pop() {
            Some(last) => {
                put(&mut walk.guess.labels, last, walk.label);
                if last == rule {
                    return;
                }
            }
            None => return,
        }
    }
}

/// A way from a rule to another one by rules that each put the next, the first of them left out; or none where there is
/// no way.
pub(crate) fn path(
    alloc: Global,
    rules: &[Vec<Part>],
    from: usize,
    goal: usize,
) -> Result<Vec<usize>, AllocError> {
    let came_from = came_from(alloc, rules, from, goal)?;
    let mut steps = Vec::new(alloc);
    let mut rule = goal;
    'steps: for _ in 0..rules.len() {
        if rule == from {
            break;
        }
        steps.push(rule)?;
        rule = get(&came_from, rule).saturating_sub(1);
    }
    steps.reverse();
    Ok(steps)
}

/// By rule, one more than the rule from which it was met first on the ways from this one, until the goal was met.
fn came_from(
    alloc: Global,
    rules: &[Vec<Part>],
    from: usize,
    goal: usize,
) -> Result<Vec<usize>, AllocError> {
    let mut came = zeros(alloc, rules.len())?;
    let mut met = Vec::new(alloc);
    let reached = meet_from(rules, from, goal, &mut came, &mut met);
    drop(met);
    match reached {
        Ok(()) => Ok(came),
        Err(error) => {
            drop(came);
            Err(error)
        }
    }
}

/// Meets rules on the ways from one, until the goal is met.
fn meet_from(
    rules: &[Vec<Part>],
    from: usize,
    goal: usize,
    came: &mut [usize],
    met: &mut Vec<usize>,
) -> Result<(), AllocError> {
    met.push(from)?;
    'met: for turn in 0..rules.len() {
        if get(came, goal) != 0 || turn >= met.len() {
            break;
        }
        let rule = get(met, turn);
        meet_all(body(rules, rule), rule, came, met)?;
    }
    Ok(())
}

/// Meets the rules that a body puts and that weren't met.
fn meet_all(
    parts: &[Part],
    rule: usize,
    came: &mut [usize],
    met: &mut Vec<usize>,
) -> Result<(), AllocError> {
    'parts: for part in parts {
        if let Part::Puts(other) = part {
            if *other < came.len() && get(came, *other) == 0 {
                put(came, *other, rule.saturating_add(1));
                met.push(*other)?;
            }
        }
    }
    Ok(())
}
