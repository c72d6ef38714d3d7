ghost use Rattle.std.specs.Prelude.{◌≡◌, ◌≤◌, [], drop, length, IfOk, OnOk};
ghost use Rattle.invoice_data.specs.Told.{Told, nothing, both, one_found, one_fault, faulty};

use crate::faults::DataFault;
use inv_terms::Value;
use std::alloc::{AllocError, Global};
use std::marker::Model;
use term_table::{Seat, Seated};

/// What was found for a term in a context: a value, or none where the member's value has a fault. Without a term (of number 0) it is
/// found that something stands where occurrences of a group do.
#[derive(Drop)]
pub struct Found {
    pub seat: Seat,
    pub value: Option<Value>,
}

impl Seated for Found {
    ghost seat_of = { λ f. f.seat };

    fn seat(&self) -> Seat {
        self.seat
    }
}

/// What members told so far, in the order of the text.
pub(crate) struct Telling {
    founds: Vec<Found>,
    faults: Vec<DataFault>,
}

impl Drop for Telling {
    fn drop(self) {
        let Telling { founds, faults } = self;
        drop(founds);
        drop(faults);
    }
}

impl Model for Telling {
    ghost use Rattle.invoice_data.specs.Told.{Told};

    ghost Value = { Told };

    ghost view = { λ t. record { founds = t.founds.items; faults = t.faults.items } };
}

impl Telling {
    pub(crate) fn new(alloc: Global) -> Telling
        ensures { result ≡ nothing }
    {
        Telling {
            founds: Vec::new(alloc),
            faults: Vec::new(alloc),
        }
    }

    /// How much was found.
    pub(crate) fn count(&self) -> usize
        ensures { result ≡ length self.now.founds }
    {
        self.founds.len()
    }

    /// What was found behind the first so many.
    pub(crate) fn founds_behind(&self, count: usize) -> &[Found]
        requires { count ≤ length self.now.founds }
        ensures { result.now ≡ drop count self.now.founds }
    {
        let (_, behind) = self.founds.as_slice().split_at(count);
        behind
    }

    pub(crate) fn put_found(&mut self, found: Found) -> Result<(), AllocError>
        ensures { OnOk result (self.new ≡ both self.old (one_found found)) }
    {
        self.founds.push(found)?;
        Ok(())
    }

    pub(crate) fn put_fault(&mut self, fault: DataFault) -> Result<(), AllocError>
        ensures { OnOk result (self.new ≡ both self.old (one_fault fault)) }
    {
        self.faults.push(fault)?;
        Ok(())
    }

    /// Puts what was found with its fault.
    pub(crate) fn put_faulty(&mut self, found: Found, fault: DataFault) -> Result<(), AllocError>
        ensures { OnOk result (self.new ≡ both self.old (faulty found fault)) }
    {
        self.founds.push(found)?;
        self.faults.push(fault)?;
        Ok(())
    }

    /// What was found, and the faults.
    pub(crate) fn into_parts(self) -> (Vec<Found>, Vec<DataFault>)
        ensures founds { result.0.items ≡ self.founds }
        ensures faults { result.1.items ≡ self.faults }
    {
        let Telling { founds, faults } = self;
        (founds, faults)
    }
}
