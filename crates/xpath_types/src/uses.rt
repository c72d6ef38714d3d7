ghost use Rattle.std.specs.Prelude.{◌≡◌};
ghost use Rattle.xpath_types.specs.Parts as spec;

use crate::functions::Resolved;
use crate::kinds::Kinds;
use xpath_grammar::functions::Function;

/// What an expression uses of the focus that it is evaluated at.
#[derive(Clone, Copy)]
pub(crate) struct Uses {
    /// The position in it, or the last position.
    pub position: bool,
    /// The root of its document.
    pub root: bool,
    /// Its item in another way.
    pub item: bool,
}

pub(crate) const NO_USES: Uses = Uses {
    position: false,
    root: false,
    item: false,
};

pub(crate) const ITEM_USED: Uses = Uses {
    position: false,
    root: false,
    item: true,
};

pub(crate) const ROOT_USED: Uses = Uses {
    position: false,
    root: true,
    item: false,
};

impl Uses {
    /// What both use.
    pub fn joined(self, other: Uses) -> Uses
        ensures { result ≡ spec.joined self other }
    {
        Uses {
            position: self.position | other.position,
            root: self.root | other.root,
            item: self.item | other.item,
        }
    }

    /// Whether anything of the focus is used.
    pub fn is_any(self) -> bool
        ensures { result ≡ spec.uses_any self }
    {
        self.position | (self.root | self.item)
    }

    /// Whether only the document of a focus with these kinds of items is used.
    pub fn is_document_alone(self, focus: Kinds) -> bool
        ensures { result ≡ spec.is_document_alone focus self }
    {
        !self.position & (!self.item & (!self.root | focus.is_nodes_alone()))
    }
}

/// What a call without arguments uses.
fn function_uses(function: Function) -> Uses
    ensures { result ≡ spec.function_uses function }
{
    match function {
        Function::Position | Function::Last => Uses {
            position: true,
            root: false,
            item: false,
        },
        Function::String
        | Function::StringLength
        | Function::NormalizeSpace
        | Function::LocalName
        | Function::NamespaceUri => ITEM_USED,
        _ => NO_USES,
    }
}

/// What a call without arguments uses, by what its name stands for.
pub(crate) fn called_uses(called: Resolved) -> Uses
    ensures { result ≡ spec.called_uses called }
{
    match called {
        Resolved::Known(function) => function_uses(function),
        Resolved::Unbound | Resolved::Unknown => NO_USES,
    }
}
