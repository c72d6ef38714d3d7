use crate::names::{ElementName, Leaf};
use inv_base::{Many, Txt};

/// Nodes below an element: the path of names that leads to them from it, and the attribute at its end if they are
/// attributes.
pub struct Place {
    pub path: Many<ElementName>,
    pub leaf: Leaf,
}

impl Drop for Place {
    fn drop(self) {
        let Place { path, leaf } = self;
        drop(path);
        drop(leaf);
    }
}

/// What is asked of the nodes at a place. Strings are compared without the white space around them.
#[derive(Drop)]
pub enum Test {
    /// Some node has one of these strings.
    OneOf(Many<Txt>),
    /// No node has one of these strings.
    NoneOf(Many<Txt>),
    /// Some node isn't blank.
    Present,
    /// No node but blank ones.
    Absent,
}

/// A condition of an element: the rows that pass through it hold only where it is met.
pub struct Guard {
    pub place: Place,
    pub test: Test,
}

impl Drop for Guard {
    fn drop(self) {
        let Guard { place, test } = self;
        drop(place);
        drop(test);
    }
}
