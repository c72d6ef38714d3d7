ghost use Rattle.std.specs.Prelude.{◌≡◌, [], ◌∷◌, MatchOption, OnOk};

use std::alloc::{AllocError, Global};
use std::marker::Model;

/// What is put aside where a choice or a loop begins: whether the text before the character may end there, and the text
/// with it.
#[derive(Clone, Copy)]
pub struct Place {
    pub before: bool,
    pub behind: bool,
}

/// What was put aside. Contracts see it from the last on.
pub(crate) struct Places {
    items: Vec<Place>,
}

impl Drop for Places {
    fn drop(self) {
        let Places { items } = self;
        drop(items);
    }
}

impl Model for Places {
    ghost use Rattle.std.specs.Prelude.{List, reverse};
    ghost use Rattle.xsd_pattern.specs.declared.places.Place.{Place};

    ghost Value = { List Place };

    ghost view = { λ places. reverse places.items.items };
}

impl Places {
    pub(crate) fn new(alloc: Global) -> Places
        ensures { result ≡ [] }
    {
        Places {
            items: Vec::new(alloc),
        }
    }

    pub(crate) fn push(&mut self, place: Place) -> Result<(), AllocError>
        ensures { OnOk result (self.new ≡ place ∷ self.old) }
    {
        self.items.push(place)?;
        Ok(())
    }

    pub(crate) fn pop(&mut self) -> Option<Place>
        ensures { MatchOption result ((self.old ≡ []) × (self.new ≡ [])) (λ place. self.old ≡ place ∷ self.new) }
    {
        self.items.pop()
    }

    pub(crate) fn clear(&mut self)
        ensures { self.new ≡ [] }
    {
        self.items.clear();
    }
}
