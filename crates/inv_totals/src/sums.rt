//! What makes the taxable amount of a VAT category.
ghost use Rattle.std.specs.Prelude.{◌≡◌, pos};
ghost use Rattle.inv_totals.specs.Adding as spec;

use crate::numbers::{Number, added, minus, plus};
use crate::stated::term;
use inv_decimal::Dec;
use inv_terms::Entry;

/// What an entry adds to.
#[derive(Clone, Copy)]
pub(crate) enum Part {
    /// The net amount of a line (BT-131).
    Lines,
    /// The amount of an allowance on the document (BT-92).
    Allowances,
    /// The amount of a charge on the document (BT-99).
    Charges,
}

impl Part {
    /// What an entry adds to, if to any of them.
    pub(crate) fn of(e: &Entry) -> Option<Part>
        ensures { result ≡ spec.part_of e.now }
    {
        if e.term.is_same(term(131)) {
            Some(Part::Lines)
        } else if e.term.is_same(term(92)) {
            Some(Part::Allowances)
        } else if e.term.is_same(term(99)) {
            Some(Part::Charges)
        } else {
            None
        }
    }

    /// The terms of the VAT category of what is added.
    pub(crate) fn category_terms(self) -> CategoryTerms
        ensures { result ≡ spec.category_terms self }
    {
        match self {
            Part::Lines => CategoryTerms {
                code: 151,
                rate: 152,
            },
            Part::Allowances => CategoryTerms { code: 95, rate: 96 },
            Part::Charges => CategoryTerms {
                code: 102,
                rate: 103,
            },
        }
    }
}

/// The numbers of the terms that state a VAT category.
#[derive(Clone, Copy)]
pub(crate) struct CategoryTerms {
    pub code: u16,
    pub rate: u16,
}

/// The sums of lines, allowances and charges.
#[derive(Clone, Copy)]
pub(crate) struct Sums {
    pub lines: Number,
    pub allowances: Number,
    pub charges: Number,
}

impl Sums {
    /// The sums of nothing.
    pub(crate) fn none() -> Sums
        ensures { result ≡ spec.no_sums }
    {
        Sums {
            lines: Ok(zero()),
            allowances: Ok(zero()),
            charges: Ok(zero()),
        }
    }

    /// The sums with one amount more.
    pub(crate) fn with(self, part: Part, amount: Dec) -> Sums
        ensures { result ≡ spec.with_amount self part amount }
    {
        let mut sums = self;
        match part {
            Part::Lines => sums.lines = added(self.lines, amount),
            Part::Allowances => sums.allowances = added(self.allowances, amount),
            Part::Charges => sums.charges = added(self.charges, amount),
        }
        sums
    }

    /// The taxable amount: lines, less allowances, with charges.
    pub(crate) fn taxable(self) -> Number
        ensures { result ≡ spec.taxable_of self }
    {
        plus(minus(self.lines, self.allowances), self.charges)
    }
}

fn zero() -> Dec
    ensures { result ≡ pos 0 }
{
    Dec::of_parts(0, 0)
}
