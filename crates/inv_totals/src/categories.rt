//! The sums of each VAT category, found by its text.
ghost use Rattle.std.specs.Prelude.{◌≡◌, ℕ, List, OnOk};
ghost use Rattle.inv_totals.specs.Adding as spec;

use crate::sums::{Part, Sums};
use inv_decimal::Dec;
use std::alloc::{AllocError, Global};
use std::collections::BTreeMap;

/// The sums of each VAT category, by its text. An ordered map, since no choice of texts makes a look-up in it slow.
pub(crate) type Categories = BTreeMap<String, Sums>;

/// The sums under a text; those of nothing where there are none.
pub(crate) fn sums_under(categories: &Categories, key: &str) -> Sums
    ensures { result ≡ spec.sums_under categories.now key.now }
{
    match categories.get(key) {
        Some(sums) => *sums,
        None => Sums::none(),
    }
}

/// Adds an amount to the sums under a text.
pub(crate) fn add_under(
    alloc: Global,
    categories: &mut Categories,
    key: &str,
    part: Part,
    amount: Dec,
) -> Result<(), AllocError>
    ensures { OnOk result (spec.AddsUnder key.now part amount categories.old categories.new) }
{
    match categories.get_mut(key) {
        Some(sums) => {
            *sums = sums.with(part, amount);
            Ok(())
        }
        None => {
            categories.insert(
                String::from_str(alloc, key)?,
                Sums::none().with(part, amount),
            )?;
            Ok(())
        }
    }
}
