ghost use Rattle.std.specs.Prelude.{◌≡◌};
ghost use Rattle.inv_totals.specs.Totals.{is_nothing};

use inv_base::Many;
use inv_decimal::{Dec, Overflow, Scaled};
use std::marker::Model;
use term_table::{Context, Term};

/// A total that isn't what the other values of the invoice make of it.
#[derive(Clone, Copy)]
pub struct Difference {
    /// The invoice itself, or an occurrence of a VAT breakdown (BG-23).
    pub context: Context,
    pub term: Term,
    /// What the invoice states, if it does. A value that isn't stated is 0.
    pub stated: Option<Scaled>,
    /// What the other stated values make, or that this, or a result on the way to it, is out of the range of numbers.
    pub computed: Result<Dec, Overflow>,
}

/// Where an invoice differs from the calculation model, in listing order.
pub struct Differences {
    items: Many<Difference>,
}

impl Drop for Differences {
    fn drop(self) {
        let Differences { items } = self;
        drop(items);
    }
}

impl Model for Differences {
    ghost use Rattle.std.specs.Prelude.{List};
    ghost use Rattle.inv_totals.specs.declared.found.Difference.{Difference};

    ghost Value = { List Difference };

    ghost view = { λ d. d.items };
}

impl Differences {
    /// These.
    pub(crate) fn of(items: Many<Difference>) -> Differences
        ensures { result ≡ items }
    {
        Differences { items }
    }

    /// All of them, in listing order.
    pub fn as_slice(&self) -> &[Difference]
        ensures { result.now ≡ self.now }
    {
        self.items.as_slice()
    }

    /// Whether there is none.
    pub fn is_empty(&self) -> bool
        ensures { result ≡ is_nothing self.now }
    {
        self.items.len() == 0
    }
}
