//! Indicators of allowances and charges, whose strings have to be one of four words.
ghost use Rattle.std.specs.Prelude.{◌≡◌, ◌<◌, List, All, flat_map, OnOk};
ghost use Rattle.bind_meaning.specs.Kept.{kept, all_kept};
ghost use Rattle.bind_meaning.specs.Picks.{Pick};
ghost use Rattle.bind_meaning.specs.Judging.{wrong_word};
ghost use Rattle.bind_terms.specs.Faults.{Puts};
ghost use Rattle.bind_terms.specs.Inputs.{nodes_of, count, rows_of};
ghost use Rattle.bind_terms.specs.Steps.{IsPickOfRow, HasRow};

use crate::input::ReadingInput;
use crate::is_word;
use crate::keeping::Keeper;
use crate::telling::{fault_at, row_at};
use bind_meaning::{BindKind, Picked};
use bind_rows::{Check, Row};
use inv_base::Steps;
use std::alloc::AllocError;
use std::sync::ledger::Ledger;

/// Gives the keeper a fault for each indicator with a wrong word.
pub(crate) fn put_wrong_words<L: Ledger, K: Keeper>(
    input: &ReadingInput<'_, '_>,
    indicators: &[Picked],
    keeper: &mut K,
    steps: &mut Steps<L>,
) -> Result<(), AllocError>
    requires within { All (λ pick. pick.node < count input.now) indicators.now }
    requires rows { All (λ pick. HasRow (rows_of input.now) pick.row) indicators.now }
    ensures { OnOk result ((picks : List Pick) → indicators.now ≡ all_kept picks → All (IsPickOfRow (rows_of input.now)) picks
        → Puts (K.given keeper.old) (K.given keeper.new) (flat_map (wrong_word (nodes_of input.now)) picks)) }
{
    'indicators: for picked in indicators {
        put_word(input, *picked, keeper, steps)?;
    }
    Ok(())
}

fn put_word<L: Ledger, K: Keeper>(
    input: &ReadingInput<'_, '_>,
    picked: Picked,
    keeper: &mut K,
    steps: &mut Steps<L>,
) -> Result<(), AllocError>
    requires within { picked.node < count input.now }
    requires row { HasRow (rows_of input.now) picked.row }
    ensures { OnOk result ((pick : Pick) → kept pick ≡ picked → IsPickOfRow (rows_of input.now) pick
        → Puts (K.given keeper.old) (K.given keeper.new) (wrong_word (nodes_of input.now) pick)) }
{
    match row_at(input.table, picked.row) {
        Some(row) => put_row(input, row, picked, keeper, steps),
        None => unreachable!(),
    }
}

fn put_row<L: Ledger, K: Keeper>(
    input: &ReadingInput<'_, '_>,
    row: &Row,
    picked: Picked,
    keeper: &mut K,
    steps: &mut Steps<L>,
) -> Result<(), AllocError>
    requires { picked.node < count input.now }
    ensures { OnOk result ((pick : Pick) → kept pick ≡ picked → pick.row ≡ row.now
        → Puts (K.given keeper.old) (K.given keeper.new) (wrong_word (nodes_of input.now) pick)) }
{
    match row.check {
        Check::Indicator(term) => {
            let string = input.doc.string(input.alloc, picked.node, steps)?;
            if is_word(string.as_str()) {
                return Ok(());
            }
            keeper.put(fault_at(BindKind::BadValue, picked.node, picked.row, term))
        }
        Check::Nothing | Check::Scheme | Check::Format => Ok(()),
    }
}
