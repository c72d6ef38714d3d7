ghost use Rattle.std.specs.Prelude.{◌≡◌};
ghost use Rattle.term_table.specs.Contexts as spec;

use crate::groups::Group;
use crate::terms::Term;

/// One occurrence of a group that may stand several times.
#[derive(Clone, Copy, PartialEq, Eq)]
pub struct Slot {
    pub group: Group,
    /// The number of the occurrence, from 1.
    pub index: u32,
}

/// Where a term stands: in the invoice itself, which has no slots, in one occurrence of a group that may stand several
/// times (`outer`), or in one occurrence of such a group (`inner`) inside an invoice line (`outer`).
#[derive(Clone, Copy, PartialEq, Eq)]
pub struct Context {
    pub outer: Option<Slot>,
    pub inner: Option<Slot>,
}

/// A term in a context: where one value may stand.
#[derive(Clone, Copy, PartialEq, Eq)]
pub struct Seat {
    pub term: Term,
    pub context: Context,
}

/// The invoice itself.
pub const ROOT: Context = Context {
    outer: None,
    inner: None,
};

fn slot_group(slot: Option<Slot>) -> Option<Group>
    ensures { result ≡ spec.slot_group slot }
{
    match slot {
        Some(slot) => Some(slot.group),
        None => None,
    }
}

/// Whether both are the same occurrence, or both are none.
fn is_same_slot(a: Option<Slot>, b: Option<Slot>) -> bool
    ensures { result ≡ spec.same_slot a b }
{
    match (a, b) {
        (None, None) => true,
        (Some(a), Some(b)) => a.group.is_same(b.group) && a.index == b.index,
        (None, Some(_)) => false,
        (Some(_), None) => false,
    }
}

impl Context {
    /// The group of the outer slot, if there is one.
    pub fn outer_group(self) -> Option<Group>
        ensures { result ≡ spec.slot_group self.outer }
    {
        slot_group(self.outer)
    }

    /// The group of the inner slot, if there is one.
    pub fn inner_group(self) -> Option<Group>
        ensures { result ≡ spec.slot_group self.inner }
    {
        slot_group(self.inner)
    }

    /// Whether both have the same outer slot, or none.
    pub fn has_same_outer(self, other: Context) -> bool
        ensures { result ≡ spec.same_slot self.outer other.outer }
    {
        is_same_slot(self.outer, other.outer)
    }

    /// Whether both are the same context.
    pub fn is_same(self, other: Context) -> bool
        ensures { result ≡ spec.same_context self other }
    {
        is_same_slot(self.outer, other.outer) && is_same_slot(self.inner, other.inner)
    }

    /// Whether the other context is this one or inside it.
    pub fn is_around(self, other: Context) -> bool
        ensures { result ≡ spec.is_inside self other }
    {
        (self.outer.is_none() || is_same_slot(self.outer, other.outer))
            && (self.inner.is_none() || is_same_slot(self.inner, other.inner))
    }

    /// The context of the outer slot alone.
    pub fn without_inner(self) -> Context
        ensures { result ≡ spec.outer_context self }
    {
        Context {
            outer: self.outer,
            inner: None,
        }
    }
}
