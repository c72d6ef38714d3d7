//! Going over a pattern's steps, once a character.
ghost use Rattle.std.specs.Prelude.{◌≡◌, ◌<◌, Bool, true, false, List, [], length, IfOk, Option, ℕ};
ghost use Rattle.xsd_pattern.specs.Core.{Core, is_empty};
ghost use Rattle.xsd_pattern.specs.Marks.{is_in};
ghost use Rattle.std.specs.Str.{chars};
ghost use Rattle.xsd_pattern.specs.Steps as spec;

use crate::classes::has_at;
use crate::places::{Place, Places};
use crate::step::Step;
use crate::token::{Class, Token};
use std::alloc::{AllocError, Global};

/// The mark of a step behind the character.
fn mark_of(tokens: &[Token<Class>], step: Step, c: char, at: Place) -> bool
    ensures { result ≡ spec.marked (spec.has_at tokens.now) c step at.before at.behind }
{
    match step {
        Step::One(place) => at.before && has_at(tokens, place, c),
        Step::End(_) => at.behind,
        Step::Save | Step::Or | Step::Join | Step::Loop(_) => false,
    }
}

/// The mark that a loop's begin reads of those behind it.
fn mark_ahead(step: Step, marks: &[bool]) -> bool
    ensures { result ≡ spec.ahead step marks.now }
{
    match step {
        Step::Loop(distance) => match marks.get(distance) {
            Some(mark) => *mark,
            None => false,
        },
        _ => false,
    }
}

/// Lets the place go that the branches before began at, and keeps the one that this branch ends at.
fn next_branch(at: Place, places: &mut Places) -> Result<Place, AllocError>
    ensures { IfOk result (λ p. spec.swapped at.before at.behind places.old ≡ spec.at p.before p.behind places.new) }
{
    match places.pop() {
        None => Ok(at),
        Some(place) => {
            places.push(at)?;
            Ok(place)
        }
    }
}

/// What holds where this branch or one before it ends.
fn joined_branches(at: Place, places: &mut Places) -> Place
    ensures { spec.both_ways at.before at.behind places.old ≡ spec.at result.before result.behind places.new }
{
    match places.pop() {
        None => at,
        Some(place) => Place {
            before: place.before || at.before,
            behind: place.behind || at.behind,
        },
    }
}

/// What holds behind a loop, whose body may match the empty text.
fn behind_loop(at: Place, empty: bool, places: &mut Places) -> Place
    ensures { spec.left_loop empty at.before at.behind places.old ≡ spec.at result.before result.behind places.new }
{
    match places.pop() {
        None => at,
        Some(place) => Place {
            before: at.before,
            behind: at.behind || (place.behind && empty),
        },
    }
}

/// What holds behind a step that has the mark, and behind the character the new one; later is the mark that a loop reads.
fn act(
    step: Step,
    mark: bool,
    new: bool,
    later: bool,
    at: Place,
    places: &mut Places,
) -> Result<Place, AllocError>
    ensures { IfOk result (λ p. (has : Option ℕ → ℕ → Bool) (c : ℕ) → new ≡ spec.marked has c step at.before at.behind →
        spec.stepped has c step mark later at.before at.behind places.old ≡ spec.at p.before p.behind places.new) }
{
    match step {
        Step::One(_) => Ok(Place {
            before: mark,
            behind: new,
        }),
        Step::Save => {
            places.push(at)?;
            Ok(at)
        }
        Step::Or => next_branch(at, places),
        Step::Join => Ok(joined_branches(at, places)),
        Step::Loop(_) => {
            places.push(at)?;
            Ok(Place {
                before: at.before || later,
                behind: false,
            })
        }
        Step::End(empty) => Ok(behind_loop(at, empty, places)),
    }
}

/// Goes over the steps once, and tells whether the text may end behind the character.
fn pass(
    tokens: &[Token<Class>],
    steps: &[Step],
    marks: &mut [bool],
    c: char,
    first: bool,
    places: &mut Places,
) -> Result<bool, AllocError>
    requires { length steps.now ≡ length marks.old }
    ensures marks { IfOk result (λ b. marks.new ≡ (spec.passed (spec.has_at tokens.now) c steps.now marks.old (spec.at first false [])).marks) }
    ensures answer { IfOk result (λ b. b ≡ (spec.passed (spec.has_at tokens.now) c steps.now marks.old (spec.at first false [])).end.behind) }
{
    places.clear();
    let mut at = Place {
        before: first,
        behind: false,
    };
    'steps: for k in 0..steps.len() {
        let step = steps[k];
        let mark = marks[k];
        let (_, others) = marks.split_at(k + 1);
        let later = mark_ahead(step, others);
        let new = mark_of(tokens, step, c, at);
        at = match act(step, mark, new, later, at, places) {
            Ok(at) => at,
            Err(fault) => return Err(fault),
        };
        marks[k] = new;
    }
    Ok(at.behind)
}

/// Goes over the steps for each character of the text, and tells whether the text may end behind the last.
fn go_over(
    tokens: &[Token<Class>],
    steps: &[Step],
    marks: &mut [bool],
    empty: bool,
    text: &str,
    places: &mut Places,
) -> Result<bool, AllocError>
    requires { length steps.now ≡ length marks.old }
    ensures { IfOk result (λ b. b ≡ spec.ran (spec.has_at tokens.now) steps.now true marks.old empty (chars text.now)) }
{
    let mut first = true;
    let mut answer = empty;
    'text: for c in text.chars() {
        answer = pass(tokens, steps, marks, c, first, places)?;
        first = false;
    }
    Ok(answer)
}

/// Whether the text is one that these steps have.
pub(crate) fn is_among(
    alloc: Global,
    tokens: &[Token<Class>],
    steps: &[Step],
    empty: bool,
    text: &str,
) -> Result<bool, AllocError>
    ensures { (x : Core (Option ℕ)) → steps.now ≡ spec.code x → empty ≡ is_empty x → IfOk result (λ b. b ≡ is_in (spec.has_at tokens.now) x (chars text.now)) }
{
    let mut places = Places::new(alloc);
    let mut marks = vec![in alloc; false; steps.len()]?;
    go_over(tokens, steps, &mut marks, empty, text, &mut places)
}
