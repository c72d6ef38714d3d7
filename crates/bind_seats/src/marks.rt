//! Lists that are looked up by halving.

ghost use Rattle.std.specs.Prelude.{◌≡◌, ◌+◌, ◌<◌, ◌^◌, List, ◌∷◌, ◌++◌, true, length, filter, OnOk};
ghost use Rattle.bind_seats.specs.declared.marks.Mark.{Mark};
ghost use Rattle.bind_seats.specs.Marks as spec;

use std::alloc::AllocError;

/// Something of a kind that stands in a node, and has a number there: an occurrence of a group in the element of its
/// outer one, or a term picked in an element.
#[derive(Clone, Copy, PartialEq, Eq, PartialOrd, Ord)]
pub(crate) struct Mark {
    /// The number of the node.
    pub(crate) around: u32,
    pub(crate) kind: u32,
    pub(crate) number: u32,
}

/// Whether the last of the marks is this one.
fn is_last(marks: &[Mark], mark: Mark) -> bool
    ensures { result ≡ true → (rest : List Mark) → (m : Mark) → spec.has_mark (marks.now ++ rest) m ≡ spec.has_mark (marks.now ++ mark ∷ rest) m }
{
    match marks.last() {
        Some(last) => *last == mark,
        None => false,
    }
}

/// Puts a mark behind the others, unless it is the last of them: most marks come many times in a row.
pub(crate) fn put_mark(marks: &mut Vec<Mark>, mark: Mark) -> Result<(), AllocError>
    ensures { OnOk result ((rest : List Mark) → (m : Mark) → spec.has_mark (marks.new.items ++ rest) m ≡ spec.has_mark (marks.old.items ++ mark ∷ rest) m) }
{
    if !is_last(marks, mark) {
        marks.push(mark)?;
    }
    Ok(())
}

/// The marks in their order, each once.
pub(crate) fn in_order(marks: Vec<Mark>) -> Vec<Mark>
    ensures rises { spec.rises result.items ≡ true }
    ensures same { (m : Mark) → spec.has_mark result.items m ≡ spec.has_mark marks.items m }
{
    let mut ordered = marks;
    ordered.sort_unstable();
    ordered.dedup();
    ordered
}

fn comes_before(mark: Mark, other: Mark) -> bool
    ensures { result ≡ spec.comes_before mark other }
{
    if mark.around != other.around {
        return mark.around < other.around;
    }
    if mark.kind != other.kind {
        return mark.kind < other.kind;
    }
    mark.number < other.number
}

fn comes_before_kind(mark: Mark, other: Mark) -> bool
    ensures { result ≡ spec.comes_before_kind mark other }
{
    if mark.around != other.around {
        return mark.around < other.around;
    }
    mark.kind < other.kind
}

/// How many marks stand before this one.
fn count_before(marks: &[Mark], mark: Mark) -> usize
    requires { spec.rises marks.now ≡ true }
    ensures { result ≡ length (filter (λ m. spec.comes_before m mark) marks.now) }
{
    marks.partition_point(|m| comes_before(*m, mark))
}

/// How many marks stand before all that are beside this one.
fn count_before_kind(marks: &[Mark], mark: Mark) -> usize
    requires { spec.rises marks.now ≡ true }
    ensures { result ≡ length (filter (λ m. spec.comes_before_kind m mark) marks.now) }
{
    marks.partition_point(|m| comes_before_kind(*m, mark))
}

/// The place of a mark among those beside it, from 1.
pub(crate) fn place_in(marks: &[Mark], mark: Mark) -> u32
    requires order { spec.rises marks.now ≡ true }
    requires few { mark.number + 1 < 2 ^ 32 }
    ensures { result ≡ spec.place_of marks.now mark }
{
    let before = count_before(marks, mark);
    let others = count_before_kind(marks, mark);
    (before - others + 1) as u32
}

/// Whether the mark is one of them.
pub(crate) fn is_in(marks: &[Mark], mark: Mark) -> bool
    requires { spec.rises marks.now ≡ true }
    ensures { result ≡ spec.has_mark marks.now mark }
{
    let before = count_before(marks, mark);
    before < marks.len() && marks[before] == mark
}
