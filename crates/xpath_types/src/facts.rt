ghost use Rattle.std.specs.Prelude.{◌≡◌};
ghost use Rattle.xpath_types.specs.Walking as spec;

use crate::kinds::{ALL_KINDS, Kinds};
use crate::part::Part;
use crate::uses::Uses;

/// What is known of an expression, or of its parts so far.
#[derive(Clone, Copy)]
pub(crate) struct Facts {
    pub kinds: Kinds,
    /// Whether something is refused inside.
    pub refused: bool,
    pub uses: Uses,
    /// How high the lowest of the variables stands that are read, 0 for one outside the expression.
    pub lowest: Option<usize>,
}

impl Facts {
    /// The facts, where the kinds are so if nothing is refused.
    pub fn of(kinds: Kinds, refused: bool, uses: Uses, lowest: Option<usize>) -> Facts
        ensures { result ≡ spec.facts_of kinds refused uses lowest }
    {
        Facts {
            kinds: if refused { ALL_KINDS } else { kinds },
            refused,
            uses,
            lowest,
        }
    }

    /// What is stated of a part with these facts, at a focus, inside so many variables.
    pub fn part(self, focus: Kinds, height: usize) -> Part
        ensures { result ≡ spec.part_of self focus height }
    {
        Part {
            kinds: self.kinds,
            uses_focus: self.uses.is_any(),
            uses_position: self.uses.position,
            depends_on_document_alone: !reads_within(height, self.lowest)
                & self.uses.is_document_alone(focus),
        }
    }
}

/// Whether a variable is read that stands no higher.
fn reads_within(height: usize, lowest: Option<usize>) -> bool
    ensures { result ≡ spec.reads_within height lowest }
{
    match lowest {
        None => false,
        Some(lowest) => lowest <= height,
    }
}

/// The lower of two heights.
pub(crate) fn lower(a: Option<usize>, b: Option<usize>) -> Option<usize>
    ensures { result ≡ spec.lower a b }
{
    match (a, b) {
        (None, _) => b,
        (Some(_), None) => a,
        (Some(x), Some(y)) => Some(x.min(y)),
    }
}
