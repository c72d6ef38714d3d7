//! Parts of a pattern, and what is made of them.
ghost use Rattle.std.specs.Prelude.{◌≡◌, ◌++◌, ◌∷◌, [], ◌≤◌, ◌<◌, ◌^◌, ◌*◌, ◌==◌, ◌||◌, IfOk, OnOk, nat_lt, ℕ};
ghost use Rattle.xsd_pattern.specs.Matching.{repeated_size};
ghost use Rattle.xsd_pattern.specs.Parts as spec;

use crate::block::Block;
use crate::step::Step;
use crate::token::Repeat;
use std::alloc::{AllocError, Global};

/// The most characters that a pattern may have, each repeat written out.
pub(crate) const MOST_MARKS: usize = 2_000;

/// A part of a pattern: the steps of what is inside, how many characters it has with each repeat written out, up to
/// 2,001, whether the inside may be empty, and whether the whole may be absent or come again. Those two are written as
/// steps only where more than the inside is known, so that `((a*)*)*` stays one loop. Of a part that is too large no
/// steps are kept.
pub(crate) struct Part {
    pub steps: Block,
    pub size: usize,
    pub empty: bool,
    pub absent: bool,
    pub again: bool,
}

impl Drop for Part {
    fn drop(self) {
        let Part {
            steps,
            size: _,
            empty: _,
            absent: _,
            again: _,
        } = self;
        drop(steps);
    }
}

impl Part {
    /// The part without characters.
    pub(crate) fn nothing(alloc: Global) -> Part
        ensures { result ≡ spec.no_part }
    {
        Part {
            steps: Block::new(alloc),
            size: 0,
            empty: true,
            absent: false,
            again: false,
        }
    }

    /// A part of more than 2,000 characters.
    fn large(alloc: Global) -> Part
        ensures { result ≡ spec.large }
    {
        Part {
            steps: Block::new(alloc),
            size: MOST_MARKS + 1,
            empty: true,
            absent: false,
            again: false,
        }
    }

    /// One character of the class of the token at the place.
    pub(crate) fn one(alloc: Global, place: Option<usize>) -> Result<Part, AllocError>
        ensures { IfOk result (λ part. part ≡ spec.one_part place) }
    {
        let mut steps = Block::new(alloc);
        steps.push(Step::One(place))?;
        Ok(Part {
            steps,
            size: 1,
            empty: false,
            absent: false,
            again: false,
        })
    }

    /// Any text where a line is open, else nothing.
    fn open(alloc: Global, closed: bool) -> Result<Part, AllocError>
        ensures { IfOk result (λ part. part ≡ spec.open_part closed) }
    {
        if closed {
            return Ok(Part::nothing(alloc));
        }
        let mut part = Part::one(alloc, None)?;
        part.size = 0;
        part.absent = true;
        part.again = true;
        Ok(part)
    }

    /// Whether the part may be empty.
    pub(crate) fn is_empty(&self) -> bool
        ensures { result ≡ spec.is_empty_part self.now }
    {
        self.absent || self.empty
    }

    /// All steps of the part.
    pub(crate) fn into_steps(self, alloc: Global) -> Result<Block, AllocError>
        ensures { IfOk result (λ steps. steps ≡ spec.all_steps self) }
    {
        if !self.absent && !self.again {
            let Part {
                steps,
                size: _,
                empty: _,
                absent: _,
                again: _,
            } = self;
            return Ok(steps);
        }
        let mut steps = Block::new(alloc);
        append_part(&mut steps, &self)?;
        Ok(steps)
    }
}

fn append_looped(
    steps: &mut Block,
    again: bool,
    empty: bool,
    inside: &Block,
) -> Result<(), AllocError>
    ensures { OnOk result (steps.new ≡ steps.old ++ spec.looped again empty inside.now) }
{
    if !again {
        return steps.append(inside);
    }
    steps.push(Step::Loop(inside.len()))?;
    steps.append(inside)?;
    steps.push(Step::End(empty))
}

/// Puts all steps of the part, with other flags, behind the steps.
fn append_with(steps: &mut Block, absent: bool, again: bool, part: &Part) -> Result<(), AllocError>
    ensures { OnOk result (steps.new ≡ steps.old ++ spec.all_steps (spec.with_flags absent again part.now)) }
{
    if !absent {
        return append_looped(steps, again, part.empty, &part.steps);
    }
    steps.push(Step::Save)?;
    append_looped(steps, again, part.empty, &part.steps)?;
    steps.push(Step::Join)
}

/// Puts all steps of the part behind the steps.
fn append_part(steps: &mut Block, part: &Part) -> Result<(), AllocError>
    ensures { OnOk result (steps.new ≡ steps.old ++ spec.all_steps part.now) }
{
    append_with(steps, part.absent, part.again, part)
}

/// The steps of the one and then those of the other.
fn both_steps(alloc: Global, a: Part, b: &Part) -> Result<Block, AllocError>
    ensures { IfOk result (λ steps. steps ≡ spec.all_steps a ++ spec.all_steps b.now) }
{
    let mut steps = a.into_steps(alloc)?;
    append_part(&mut steps, b)?;
    Ok(steps)
}

/// The steps of a choice.
fn choice_steps(alloc: Global, a: &Part, b: &Part) -> Result<Block, AllocError>
    ensures { IfOk result (λ steps. steps ≡ Step.Save ∷ (spec.all_steps a.now ++ Step.Or ∷ (spec.all_steps b.now ++ Step.Join ∷ []))) }
{
    let mut steps = Block::new(alloc);
    steps.push(Step::Save)?;
    append_part(&mut steps, a)?;
    steps.push(Step::Or)?;
    append_part(&mut steps, b)?;
    steps.push(Step::Join)?;
    Ok(steps)
}

fn with_size(size: usize, part: Part) -> Part
    ensures { result ≡ spec.with_size size part }
{
    let mut part = part;
    part.size = size;
    part
}

fn with_flags(absent: bool, again: bool, part: Part) -> Part
    ensures { result ≡ spec.with_flags absent again part }
{
    let mut part = part;
    part.absent = absent;
    part.again = again;
    part
}

fn joined(alloc: Global, size: usize, a: Part, b: Part) -> Result<Part, AllocError>
    ensures { IfOk result (λ part. part ≡ spec.joined size a b) }
{
    if a.steps.is_empty() {
        drop(a);
        return Ok(with_size(size, b));
    }
    if b.steps.is_empty() {
        drop(b);
        return Ok(with_size(size, a));
    }
    let empty = a.is_empty() && b.is_empty();
    let steps = both_steps(alloc, a, &b)?;
    drop(b);
    Ok(Part {
        steps,
        size,
        empty,
        absent: false,
        again: false,
    })
}

/// One part and then another.
pub(crate) fn followed(alloc: Global, a: Part, b: Part) -> Result<Part, AllocError>
    ensures { IfOk result (λ part. part ≡ spec.followed a b) }
{
    let size = a.size.saturating_add(b.size);
    if size > MOST_MARKS {
        drop(a);
        drop(b);
        return Ok(Part::large(alloc));
    }
    joined(alloc, size, a, b)
}

fn alternated(alloc: Global, size: usize, a: Part, b: Part) -> Result<Part, AllocError>
    ensures { IfOk result (λ part. part ≡ spec.alternated size a b) }
{
    if a.steps.is_empty() {
        drop(a);
        let again = b.again;
        return Ok(with_size(size, with_flags(true, again, b)));
    }
    if b.steps.is_empty() {
        drop(b);
        let again = a.again;
        return Ok(with_size(size, with_flags(true, again, a)));
    }
    let empty = a.is_empty() || b.is_empty();
    let steps = choice_steps(alloc, &a, &b)?;
    drop(a);
    drop(b);
    Ok(Part {
        steps,
        size,
        empty,
        absent: false,
        again: false,
    })
}

/// One part or another.
pub(crate) fn either(alloc: Global, a: Part, b: Part) -> Result<Part, AllocError>
    ensures { IfOk result (λ part. part ≡ spec.either_part a b) }
{
    let size = a.size.saturating_add(b.size);
    if size > MOST_MARKS {
        drop(a);
        drop(b);
        return Ok(Part::large(alloc));
    }
    alternated(alloc, size, a, b)
}

/// Puts so many copies of the block behind the steps.
fn append_copies(steps: &mut Block, block: &Block, n: u16) -> Result<(), AllocError>
    ensures { OnOk result (steps.new ≡ steps.old ++ spec.copies n block.now) }
{
    'copies: for k in 0..n {
        steps.append(block)?;
    }
    Ok(())
}

/// Puts what stands behind the copies that must be behind the steps.
fn append_tail(
    alloc: Global,
    steps: &mut Block,
    more: Option<u16>,
    part: &Part,
) -> Result<(), AllocError>
    ensures { OnOk result (steps.new ≡ steps.old ++ spec.tail_steps more part.now) }
{
    match more {
        None => append_with(steps, true, true, part),
        Some(more) => {
            let mut block = Block::new(alloc);
            append_with(&mut block, true, part.again, part)?;
            append_copies(steps, &block, more)
        }
    }
}

fn copied_steps(alloc: Global, n: u16, more: Option<u16>, part: &Part) -> Result<Block, AllocError>
    ensures { IfOk result (λ steps. steps ≡ spec.copies n (spec.all_steps part.now) ++ spec.tail_steps more part.now) }
{
    let mut block = Block::new(alloc);
    append_part(&mut block, part)?;
    let mut steps = Block::new(alloc);
    append_copies(&mut steps, &block, n)?;
    append_tail(alloc, &mut steps, more, part)?;
    Ok(steps)
}

fn copied(
    alloc: Global,
    size: usize,
    n: u16,
    more: Option<u16>,
    part: Part,
) -> Result<Part, AllocError>
    ensures { IfOk result (λ all. all ≡ spec.copied size n more part) }
{
    if part.steps.is_empty() {
        return Ok(with_size(size, part));
    }
    let empty = n == 0 || part.is_empty();
    let steps = copied_steps(alloc, n, more, &part)?;
    drop(part);
    Ok(Part {
        steps,
        size,
        empty,
        absent: false,
        again: false,
    })
}

/// How often braces count their atom.
fn factor(n: u16, more: Option<u16>) -> usize
    ensures value { (size : ℕ) → size * result ≡ repeated_size size (Repeat.Counted n more) }
    ensures within { result < 2 ^ 17 }
{
    match more {
        None => usize::from(n) + 1,
        Some(more) => (usize::from(n) + usize::from(more)).max(1),
    }
}

fn counted(alloc: Global, n: u16, more: Option<u16>, part: Part) -> Result<Part, AllocError>
    ensures { IfOk result (λ all. all ≡ spec.repeated_part (Repeat.Counted n more) part) }
{
    let size = part.size.saturating_mul(factor(n, more));
    if size > MOST_MARKS {
        drop(part);
        return Ok(Part::large(alloc));
    }
    copied(alloc, size, n, more, part)
}

/// The part as often as the quantifier says.
pub(crate) fn repeated(alloc: Global, repeat: Repeat, part: Part) -> Result<Part, AllocError>
    ensures { IfOk result (λ all. all ≡ spec.repeated_part repeat part) }
{
    let (absent, again) = (part.absent, part.again);
    match repeat {
        Repeat::Question => Ok(with_flags(true, again, part)),
        Repeat::Star => Ok(with_flags(true, true, part)),
        Repeat::Plus => Ok(with_flags(absent, true, part)),
        Repeat::Counted(n, more) => counted(alloc, n, more, part),
    }
}

/// A line, open or closed at both ends.
pub(crate) fn line(
    alloc: Global,
    begins: bool,
    branch: Part,
    ends: bool,
) -> Result<Part, AllocError>
    ensures { IfOk result (λ part. part ≡ spec.line_part begins branch ends) }
{
    let behind = Part::open(alloc, ends)?;
    let branch = followed(alloc, branch, behind)?;
    let before = Part::open(alloc, begins)?;
    followed(alloc, before, branch)
}
