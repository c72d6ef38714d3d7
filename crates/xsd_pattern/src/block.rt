ghost use Rattle.std.specs.Prelude.{◌≡◌, ◌++◌, ◌∷◌, [], length, OnOk};
ghost use Rattle.xsd_pattern.specs.Parts as spec;

use crate::step::Step;
use std::alloc::{AllocError, Global};
use std::marker::Model;

/// Steps one behind another. Contracts see the list of them.
pub(crate) struct Block {
    steps: Vec<Step>,
}

impl Drop for Block {
    fn drop(self) {
        let Block { steps } = self;
        drop(steps);
    }
}

impl Model for Block {
    ghost use Rattle.std.specs.Prelude.{List};
    ghost use Rattle.xsd_pattern.specs.declared.step.Step.{Step};

    ghost Value = { List Step };

    ghost view = { λ block. block.steps.items };
}

impl Block {
    pub(crate) fn new(alloc: Global) -> Block
        ensures { result ≡ [] }
    {
        Block {
            steps: Vec::new(alloc),
        }
    }

    pub(crate) fn as_slice(&self) -> &[Step]
        ensures { result.now ≡ self.now }
    {
        self.steps.as_slice()
    }

    pub(crate) fn len(&self) -> usize
        ensures { result ≡ length self.now }
    {
        self.steps.len()
    }

    pub(crate) fn is_empty(&self) -> bool
        ensures { result ≡ spec.is_nothing self.now }
    {
        self.steps.is_empty()
    }

    pub(crate) fn push(&mut self, step: Step) -> Result<(), AllocError>
        ensures { OnOk result (self.new ≡ self.old ++ step ∷ []) }
    {
        self.steps.push(step)?;
        Ok(())
    }

    pub(crate) fn append(&mut self, others: &Block) -> Result<(), AllocError>
        ensures { OnOk result (self.new ≡ self.old ++ others.now) }
    {
        self.steps.extend_from_slice(others.as_slice())?;
        Ok(())
    }
}
