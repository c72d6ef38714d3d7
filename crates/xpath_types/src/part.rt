ghost use Rattle.std.specs.Prelude.{◌≡◌};

use crate::kinds::Kinds;

/// What is known of a part of an expression before it is evaluated.
#[derive(Clone, Copy)]
pub struct Part {
    /// The kinds that the items of its value may have.
    pub kinds: Kinds,
    /// Whether its value may depend on the focus that it is evaluated at: the item, its position or
    /// the last position.
    pub uses_focus: bool,
    /// Whether its value may depend on the position in the focus or the last position, by
    /// `position()` or `last()`.
    pub uses_position: bool,
    /// Whether its value depends on the document alone: on no variable from outside, and on no
    /// focus but for its document.
    pub depends_on_document_alone: bool,
}

impl Part {
    /// Whether its value may be or hold a number, so that a predicate with it may test the
    /// position.
    pub fn may_be_number(&self) -> bool
        ensures { result ≡ self.now.kinds.number }
    {
        self.kinds.number
    }
}
