//! What was found, by why it is wanted.

ghost use Rattle.std.specs.Prelude.{◌≡◌, ◌∷◌, [], OnOk};
ghost use Rattle.bind_walk.specs.Finds as spec;

use crate::lines::Wanted;
use bind_meaning::Picked;
use std::alloc::{AllocError, Global};
use std::marker::Model;

/// A node that was found, and what for.
#[derive(Clone, Copy)]
pub(crate) struct Find {
    pub(crate) wanted: Wanted,
    pub(crate) picked: Picked,
}

/// What was found so far, in one list for each reason, in the order of the walk.
pub(crate) struct Finds {
    terms: Vec<Picked>,
    indicators: Vec<Picked>,
}

impl Drop for Finds {
    fn drop(self) {
        let Finds { terms, indicators } = self;
        drop(terms);
        drop(indicators);
    }
}

/// Contracts see two lists, by the reasons.
impl Model for Finds {
    ghost Value = { spec.Lists };

    ghost view = { λ finds. spec.lists_of finds.terms.items finds.indicators.items };
}

impl Finds {
    /// Nothing was found yet.
    pub(crate) fn new(alloc: Global) -> Self
        ensures { result ≡ spec.lists_of [] [] }
    {
        Finds {
            terms: Vec::new(alloc),
            indicators: Vec::new(alloc),
        }
    }

    /// Puts one find behind the others of its reason.
    pub(crate) fn put(&mut self, find: Find) -> Result<(), AllocError>
        ensures { OnOk result (self.new ≡ spec.put_all self.old (find ∷ [])) }
    {
        // Made anew, since the prover wants a local of the option's type where a struct with one is pushed.
        let outer = find.picked.outer;
        let picked = Picked {
            outer,
            ..find.picked
        };
        match find.wanted {
            Wanted::Term => self.terms.push(picked)?,
            Wanted::Indicator => self.indicators.push(picked)?,
        }
        Ok(())
    }

    /// The two lists: those that are wanted for a term, and those for an indicator.
    pub(crate) fn into_lists(self) -> (Vec<Picked>, Vec<Picked>)
        ensures terms { result.0.items ≡ self.terms }
        ensures indicators { result.1.items ≡ self.indicators }
    {
        let Finds { terms, indicators } = self;
        (terms, indicators)
    }
}
