ghost use Rattle.std.specs.Prelude.{List, chars};
ghost use Rattle.xml_events.specs.Events.{Event, starts, has_attribute, has_text, ends, Takes};

use crate::names::NameId;
use inv_base::Place;
use std::alloc::AllocError;

/// What receives a document as it is read: its elements with their attributes and texts, in order.
///
/// A text may come in several pieces, which are one text as long as nothing else comes between them.
/// Want of memory is the only refusal, and leaves what was taken as it was.
pub trait Events {
    /// What holds of a receiver that has taken exactly these events, its texts joined.
    ghost taken: { Self → List Event → Type 0 };

    /// An element begins, at the place of its tag.
    fn start(&mut self, name: NameId, place: Place) -> Result<(), AllocError>
        ensures { Takes result (starts name place.byte) (taken self.old) (taken self.new) };

    /// The element that began last has an attribute. Attributes come before what is inside the element.
    fn attribute(&mut self, name: NameId, value: &str) -> Result<(), AllocError>
        ensures { Takes result (has_attribute name (chars value.now)) (taken self.old) (taken self.new) };

    /// A text, or a piece of one, whose first character stands at the place.
    fn text(&mut self, piece: &str, place: Place) -> Result<(), AllocError>
        ensures { Takes result (has_text (chars piece.now) place.byte) (taken self.old) (taken self.new) };

    /// The innermost open element ends.
    fn end(&mut self) -> Result<(), AllocError>
        ensures { Takes result ends (taken self.old) (taken self.new) };
}
