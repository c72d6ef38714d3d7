ghost use Rattle.std.specs.Prelude.{◌≡◌, IfOk};

use inv_base::Str;
use inv_decimal::{Day, Dec};
use node_arena::NodeId;
use std::alloc::{AllocError, Global};

/// An item of a value (XPath 2.0, section 2): a node, or an atomic value of one of five kinds.
#[derive(Drop)]
pub enum Item<'a> {
    Node(NodeId),
    Boolean(bool),
    /// Of xs:decimal, to which xs:integer belongs.
    Number(Dec),
    String(Str<'a>),
    /// Text of no type, as a node's is.
    Untyped(Str<'a>),
    Date(Day),
}

impl<'a> Item<'a> {
    /// The same item once more.
    pub fn copied(&self, alloc: Global) -> Result<Item<'a>, AllocError>
        ensures { IfOk result (λ item. item ≡ self.now) }
    {
        match self {
            Item::Node(node) => Ok(Item::Node(*node)),
            Item::Boolean(b) => Ok(Item::Boolean(*b)),
            Item::Number(number) => Ok(Item::Number(*number)),
            Item::String(text) => Ok(Item::String(text.copied(alloc)?)),
            Item::Untyped(text) => Ok(Item::Untyped(text.copied(alloc)?)),
            Item::Date(day) => Ok(Item::Date(*day)),
        }
    }
}
