ghost use Rattle.std.specs.Prelude.{◌≡◌, [], ◌∷◌, MatchOption, OnOk};
ghost use Rattle.xsd_pattern.specs.Machine as m;

use crate::machine::Frame;
use crate::parts::Part;
use std::alloc::{AllocError, Global};
use std::marker::Model;

/// The groups that are open. Contracts see them from the innermost on.
pub(crate) struct Frames {
    items: Vec<Frame<Part, Part>>,
}

impl Drop for Frames {
    fn drop(self) {
        let Frames { items } = self;
        drop(items);
    }
}

impl Model for Frames {
    ghost use Rattle.std.specs.Prelude.{List, reverse};
    ghost use Rattle.xsd_pattern.specs.declared.machine.Frame.{Frame};
    ghost use Rattle.xsd_pattern.specs.declared.parts.Part.{Part};

    ghost Value = { List (Frame Part Part) };

    ghost view = { λ frames. reverse frames.items.items };
}

impl Frames {
    pub(crate) fn new(alloc: Global) -> Frames
        ensures { result ≡ [] }
    {
        Frames {
            items: Vec::new(alloc),
        }
    }

    pub(crate) fn is_empty(&self) -> bool
        ensures { result ≡ m.is_nil self.now }
    {
        self.items.is_empty()
    }

    pub(crate) fn push(&mut self, frame: Frame<Part, Part>) -> Result<(), AllocError>
        ensures { OnOk result (self.new ≡ frame ∷ self.old) }
    {
        self.items.push(frame)?;
        Ok(())
    }

    pub(crate) fn pop(&mut self) -> Option<Frame<Part, Part>>
        ensures { MatchOption result ((self.old ≡ []) × (self.new ≡ [])) (λ frame. self.old ≡ frame ∷ self.new) }
    {
        self.items.pop()
    }
}
