//! What faults are given to as they are found: one keeps the first of them, another keeps all in their order.
ghost use Rattle.std.specs.Prelude.{◌≡◌, [], ◌∷◌, ◌++◌, List, None, map, IfOk, OnOk, option_map, option_copied};
ghost use Rattle.std.specs.Ordering.{nat_cmp};
ghost use Rattle.bind_meaning.specs.Judging.{Found as Fault};
ghost use Rattle.bind_meaning.specs.Faults.{in_fault_order, faults_of};
ghost use Rattle.bind_terms.specs.Faults.{found_of, found_in, least_of, Puts, kept_fault, is_behind};

use crate::found::{Found, Spot, earlier, has_earlier_kind, spots_are_ordered};
use bind_meaning::BindFault;
use std::alloc::{AllocError, Global};
use std::collections::BTreeMap;

/// What receives faults in the order in which they are found. Want of memory is the only refusal.
pub(crate) trait Keeper {
    /// What holds of a keeper that was given exactly these faults, in this order.
    ghost given: { Self → List Fault → Type 0 };

    /// One more fault is found.
    fn put(&mut self, found: Found) -> Result<(), AllocError>
        ensures { OnOk result (Puts (given self.old) (given self.new) (found_of found ∷ [])) };
}

/// Keeps the first of all, and takes no memory.
#[derive(Clone, Copy)]
pub(crate) struct Least {
    pub(crate) found: Option<Found>,
}

impl Keeper for Least {
    ghost given = { λ keeper faults. option_map found_of keeper.found ≡ least_of None faults };

    fn put(&mut self, found: Found) -> Result<(), AllocError> {
        self.found = Some(earlier(self.found, found));
        Ok(())
    }
}

/// Keeps all in their order, those of one spot as one: the first kind, and of one kind the one that was found first.
pub(crate) struct InOrder {
    pub(crate) kept: BTreeMap<Spot, BindFault>,
}

impl Drop for InOrder {
    fn drop(self) {
        let InOrder { kept } = self;
        drop(kept);
    }
}

impl InOrder {
    pub(crate) fn new(alloc: Global) -> InOrder
        ensures { result.kept.entries ≡ [] }
    {
        InOrder {
            kept: BTreeMap::new(alloc),
        }
    }

    // Whether a fault at its spot stays that was found before.
    fn has_first(&self, found: &Found) -> bool
        ensures { result ≡ is_behind (kept_fault found.now.spot self.now.kept.entries) found.now }
    {
        match self.kept_at(&found.spot) {
            Some(first) => !has_earlier_kind(&found.spot, found.fault.kind, first.kind),
            None => false,
        }
    }

    fn kept_at(&self, spot: &Spot) -> Option<&BindFault>
        ensures { option_copied result ≡ kept_fault spot.now self.now.kept.entries }
    {
        spots_are_ordered();
        self.kept.get(spot)
    }

    /// The faults in their order.
    pub(crate) fn into_faults(self, alloc: Global) -> Result<Vec<BindFault>, AllocError>
        ensures { IfOk result (λ faults. faults.items ≡ map (λ e. e.1) self.kept.entries) }
    {
        let InOrder { kept } = self;
        kept.into_values().collect(alloc)
    }
}

impl Keeper for InOrder {
    ghost given = { λ keeper faults. map found_in keeper.kept.entries ≡ in_fault_order faults };

    fn put(&mut self, found: Found) -> Result<(), AllocError> {
        spots_are_ordered();
        if self.has_first(&found) {
            return Ok(());
        }
        let Found { spot, fault } = found;
        let Spot { node, side } = spot;
        drop(self.kept.insert(Spot { node, side }, fault)?);
        Ok(())
    }
}
