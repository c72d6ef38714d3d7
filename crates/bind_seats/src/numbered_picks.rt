ghost use Rattle.std.specs.Prelude.{◌≡◌, IfOk, Ok};
ghost use Rattle.node_arena.specs.Moves.{tree_nodes};
ghost use Rattle.bind_table.specs.WellFormed.{first_fault};
ghost use Rattle.bind_meaning.specs.Picks.{all_picked, rows_where, has_any_term};
ghost use Rattle.bind_meaning.specs.Kept.{all_kept, all_kept_placed};
ghost use Rattle.bind_meaning.specs.Currencies.{currencies};
ghost use Rattle.bind_meaning.specs.Terms.{in_order, term_picks, place_all};

use crate::currencies::Currencies;
use crate::input::NumberingInput;
use crate::known::nodes_are_sound;
use crate::occurrences::all_seated;
use crate::placeholders::{marks_beside, staying};
use bind_meaning::{Picked, PlacedPick};
use bind_table::Binding;
use bind_table::laws::same_steps_are_equal;
use inv_base::{Steps, Txt};
use node_arena::Doc;
use std::alloc::{AllocError, Global};
use std::sync::ledger::Ledger;

/// The picks of a document's terms with the occurrences of groups in which they stand.
pub struct NumberedPicks {
    /// In document order, at one node by their rows.
    pub picks: Vec<PlacedPick>,
    /// The currency of the invoice, as its document names it (BT-5).
    pub invoice_currency: Option<Txt>,
}

impl Drop for NumberedPicks {
    fn drop(self) {
        let NumberedPicks {
            picks,
            invoice_currency,
        } = self;
        drop(picks);
        drop(invoice_currency);
    }
}

/// The picks of rows with a term, without placeholders and without VAT totals of the other currency, each with the occurrences
/// of groups in which it stands (EN 16931-1, section 6.2). Occurrences of a group are numbered from 1 in document order,
/// those of an inner group in each occurrence of the outer one. The list that is given serves for the picks that stay.
pub fn number_occurrences<L: Ledger>(
    alloc: Global,
    doc: &Doc<'_>,
    table: &Binding,
    picks: Vec<Picked>,
    steps: &mut Steps<L>,
) -> Result<NumberedPicks, AllocError>
    requires formed { first_fault table.now ≡ Ok tt }
    requires picks { picks.items
        ≡ all_kept (in_order (tree_nodes doc.now) (all_picked (tree_nodes doc.now) (rows_where has_any_term table.now))) }
    ensures picks { IfOk result (λ s. s.picks.items ≡ all_kept_placed (place_all (tree_nodes doc.now)
        (term_picks (tree_nodes doc.now) (currencies (tree_nodes doc.now) table.now) table.now))) }
    ensures currency { IfOk result (λ s. s.invoice_currency ≡ (currencies (tree_nodes doc.now) table.now).invoice) }
{
    nodes_are_sound(doc);
    let rows = table.rows();
    let input = NumberingInput { alloc, doc, rows };
    let named = Currencies::named(&input, picks.as_slice(), steps)?;
    match seats_of(alloc, doc, table, &named, picks, steps) {
        Ok(picks) => {
            let Currencies {
                invoice,
                accounting,
            } = named;
            drop(accounting);
            Ok(NumberedPicks {
                picks,
                invoice_currency: invoice,
            })
        }
        Err(error) => {
            drop(named);
            Err(error)
        }
    }
}

/// The picks that count, each with the occurrences of groups in which it stands.
fn seats_of<L: Ledger>(
    alloc: Global,
    doc: &Doc<'_>,
    table: &Binding,
    named: &Currencies,
    picks: Vec<Picked>,
    steps: &mut Steps<L>,
) -> Result<Vec<PlacedPick>, AllocError>
    requires formed { first_fault table.now ≡ Ok tt }
    requires picks { picks.items
        ≡ all_kept (in_order (tree_nodes doc.now) (all_picked (tree_nodes doc.now) (rows_where has_any_term table.now))) }
    requires named { record { invoice = named.now.invoice; accounting = named.now.accounting }
        ≡ currencies (tree_nodes doc.now) table.now }
    ensures { IfOk result (λ seats. seats.items ≡ all_kept_placed (place_all (tree_nodes doc.now)
        (term_picks (tree_nodes doc.now) (currencies (tree_nodes doc.now) table.now) table.now))) }
{
    nodes_are_sound(doc);
    same_steps_are_equal();
    let kept = kept_picks(alloc, doc, table, named, picks, steps)?;
    all_seated(alloc, table.rows(), kept.as_slice())
}

/// The picks that are no placeholders and no VAT totals of the other currency.
fn kept_picks<L: Ledger>(
    alloc: Global,
    doc: &Doc<'_>,
    table: &Binding,
    named: &Currencies,
    picks: Vec<Picked>,
    steps: &mut Steps<L>,
) -> Result<Vec<Picked>, AllocError>
    requires picks { picks.items
        ≡ all_kept (in_order (tree_nodes doc.now) (all_picked (tree_nodes doc.now) (rows_where has_any_term table.now))) }
    requires named { record { invoice = named.now.invoice; accounting = named.now.accounting }
        ≡ currencies (tree_nodes doc.now) table.now }
    ensures { IfOk result (λ kept. kept.items
        ≡ all_kept (term_picks (tree_nodes doc.now) (currencies (tree_nodes doc.now) table.now) table.now)) }
{
    nodes_are_sound(doc);
    let rows = table.rows();
    let input = NumberingInput { alloc, doc, rows };
    let marks = marks_beside(&input, picks.as_slice(), steps)?;
    staying(&input, named, marks.as_slice(), picks, steps)
}
