use node_arena::NodeId;
use term_table::Slot;

/// A node that a row of a table picks. In their order picks stand in document order, at one node by their rows.
#[derive(Clone, Copy, PartialEq, Eq, PartialOrd, Ord)]
pub struct Picked {
    /// The node.
    pub node: NodeId,
    /// The number of the row in its table, from 1: so the definitions of picks and the places of faults count rows. The lines of
    /// a table, and the writing of an invoice, have a row's index, from 0.
    pub row: u32,
    /// The element that is an occurrence of the row's outer group, for a row that has one.
    pub outer: Option<NodeId>,
    /// The element that is an occurrence of the row's inner group, for a row that has one.
    pub inner: Option<NodeId>,
}

/// An occurrence of a group, and the element that is it.
#[derive(Clone, Copy, PartialEq, Eq)]
pub struct Seated {
    pub slot: Slot,
    pub element: NodeId,
}

/// A pick with the occurrences in which it stands, which have the elements of its row's groups. Documents have one for each
/// value, so it has no field twice.
#[derive(Clone, Copy, PartialEq, Eq)]
pub struct PlacedPick {
    /// The node.
    pub node: NodeId,
    /// The number of the row in its table, from 1.
    pub row: u32,
    pub outer: Option<Seated>,
    pub inner: Option<Seated>,
}
