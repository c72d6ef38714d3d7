use crate::lent::Lent;
use crate::level::Level;
use inv_base::{Str, Txt};
use node_arena::NodeId;
use xpath_items::DynError;

/// What an assertion came to at a node.
#[derive(Clone, Copy, PartialEq, Eq)]
pub enum FindingKind {
    /// The test of an `assert` is false.
    Failed,
    /// The test of a `report` is true.
    Reported,
    /// The test ends in an error.
    Error(DynError),
}

/// An assertion that is told. Test, id, flag and role are those of the rule file, after parameters were put in, and are
/// lent from there; a finding that no rule file names has an id of its own.
pub struct Finding<'r> {
    // The small ones stand together, so that there are no gaps between the others.
    pub outcome: FindingKind,
    pub level: Level,
    pub test: Lent<'r>,
    /// Where the node stands, as a path that XPath reads.
    pub location: Txt,
    pub message: Txt,
    pub id: Option<Str<'r>>,
    pub flag: Option<Lent<'r>>,
    pub role: Option<Lent<'r>>,
}

impl Drop for Finding<'_> {
    fn drop(self) {
        let Finding {
            outcome: _,
            level: _,
            test,
            location,
            message,
            id,
            flag,
            role,
        } = self;
        drop(test);
        drop(location);
        drop(message);
        drop(id);
        drop(flag);
        drop(role);
    }
}

/// A line of what is found, in the order of a report.
#[derive(Drop)]
pub enum Line<'r> {
    /// An active pattern begins.
    Pattern {
        id: Option<Lent<'r>>,
    },
    /// A node is judged by the rule of that number in the pattern, from 0 on, with that context.
    Fired {
        node: NodeId,
        rule: u32,
        context: Lent<'r>,
    },
    /// An assertion of that rule is told.
    Found(Finding<'r>),
}
