ghost use Rattle.std.specs.Prelude.{◌≡◌};
ghost use Rattle.std.specs.Str.{IsAscii};
ghost use Rattle.bind_meaning.specs.KindTexts.{kind_text};

use inv_terms::Name;
use node_arena::NodeId;

/// Why a document isn't an invoice of a table. Of several kinds at one node and row the first of this order counts.
#[derive(Clone, Copy, PartialEq, Eq)]
pub enum BindKind {
    /// The root element is that of no table.
    UnknownRoot,
    /// A term stands a second time in its context.
    Excess,
    /// A value has an element inside.
    ElementInValue,
    /// A string that isn't a value of its term.
    BadValue,
    /// A code that isn't in its list.
    CodeNotListed,
    /// An amount in another currency than the invoice.
    CurrencyDiffers,
    /// A term stands a second time with another value, where all have to agree.
    Disagree,
    /// A mandatory term or group isn't there.
    Missing,
    /// Memory ran out.
    Memory,
}

impl BindKind {
    /// Its name in what is told of a fault.
    pub fn name(self) -> &'static str
        ensures name { result.now ≡ kind_text self }
        ensures ascii { IsAscii result.now }
    {
        match self {
            BindKind::UnknownRoot => "UnknownRoot",
            BindKind::Excess => "Excess",
            BindKind::ElementInValue => "ElementInValue",
            BindKind::BadValue => "BadValue",
            BindKind::CodeNotListed => "CodeNotListed",
            BindKind::CurrencyDiffers => "CurrencyDiffers",
            BindKind::Disagree => "Disagree",
            BindKind::Missing => "Missing",
            BindKind::Memory => "Memory",
        }
    }
}

/// The first fault of a document as an invoice: its kind, the term or group, and the node, which for a missing one is the element of
/// its context.
#[derive(Clone, Copy, PartialEq, Eq)]
pub struct BindFault {
    pub kind: BindKind,
    pub name: Name,
    pub node: NodeId,
}
