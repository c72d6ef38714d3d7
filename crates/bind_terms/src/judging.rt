//! The invoice that a document is, or its first fault; and all its faults.
ghost use Rattle.std.specs.Prelude.{◌≡◌, ◌≢◌, ◌<◌, [], All, None, option_map, IfOk, IfErr, OnOk, Ok, Err, map, flat_map};
ghost use Rattle.bind_table.specs.WellFormed.{first_fault};
ghost use Rattle.inv_terms.specs.Listing.{IsInvoice};
ghost use Rattle.inv_terms.specs.declared.violations.Name.TheVariants as names;
ghost use Rattle.bind_meaning.specs.declared.fault.BindKind.TheVariants as kinds;
ghost use Rattle.bind_meaning.specs.Currencies.{currencies};
ghost use Rattle.bind_meaning.specs.Faults.{faults_in};
ghost use Rattle.bind_meaning.specs.Kept.{all_kept, all_kept_placed};
ghost use Rattle.bind_meaning.specs.Terms.{in_order, passed_over, terms_of};
ghost use Rattle.bind_terms.specs.Entries.{entries_of};
ghost use Rattle.bind_terms.specs.Faults.{found_of};
ghost use Rattle.bind_terms.specs.Passes.{HasTold, HasFound, IsVerdict};
ghost use Rattle.bind_terms.specs.Inputs.{nodes_of, count, rows_of, lists_of, currency_of, IsSet};
ghost use Rattle.bind_terms.specs.Reading.{indicator_picks, term_places, Answers, AreSorted};

use crate::entries::invoice_of;
use crate::firsts::{First, Firsts};
use crate::found::Found;
use crate::indicators::put_wrong_words;
use crate::input::ReadingInput;
use crate::keeping::{InOrder, Keeper, Least};
use crate::telling::tell_picks;
use crate::violations::put_violations;
use bind_meaning::{BindFault, BindKind, Picked, PlacedPick};
use inv_base::Steps;
use inv_terms::{Invoice, Name};
use ordered_map::OrderedMap;
use reading_laws::{nothing_read_is_refused, numbers_of_nodes_rise, read_invoices_are_valid};
use std::alloc::{AllocError, Global};
use std::sync::ledger::Ledger;

/// The invoice that the picks of a table say, or the first fault of the document. `picks` is what the rows with a term
/// pick, with its contexts, and `indicators` what the rows pick that check an indicator, both in document order.
/// Without memory the fault is of kind Memory, at the document's own node, and names nothing; no other fault is of that kind.
pub fn judge<L: Ledger>(
    input: &ReadingInput<'_, '_>,
    picks: Vec<PlacedPick>,
    indicators: &[Picked],
    steps: &mut Steps<L>,
) -> Result<Invoice, BindFault>
    requires formed { first_fault (rows_of input.now) ≡ Ok tt }
    requires currency { currency_of input.now ≡ (currencies (nodes_of input.now) (rows_of input.now)).invoice }
    requires picks { picks.items ≡ all_kept_placed (term_places (nodes_of input.now) (rows_of input.now)) }
    requires indicators { indicators.now ≡ all_kept (in_order (nodes_of input.now) (indicator_picks (nodes_of input.now) (rows_of input.now))) }
    ensures ok { IfOk result (λ invoice. terms_of (nodes_of input.now) (rows_of input.now) (lists_of input.now)
        ≡ Ok (record { entries = invoice; passed_over = passed_over (nodes_of input.now) (rows_of input.now) })) }
    ensures err { IfErr result (λ fault. fault.kind ≢ kinds.Memory → terms_of (nodes_of input.now) (rows_of input.now) (lists_of input.now) ≡ Err fault) }
    ensures memory { IfErr result (λ fault. fault.kind ≡ kinds.Memory → fault ≡ record { kind = kinds.Memory; name = names.Nothing; node = 0 }) }
{
    input.doc.is_of_a_tree();
    match judged(input, picks, indicators, steps) {
        Ok(Verdict::Invoice(invoice)) => Ok(invoice),
        Ok(Verdict::Fault(fault)) => Err(fault),
        Err(_) => Err(BindFault {
            kind: BindKind::Memory,
            name: Name::Nothing,
            node: input.doc.document(),
        }),
    }
}

/// All faults of the document as an invoice of the table, in their order: at one node and row the first kind alone. `picks`
/// and `indicators` are those of `judge`.
pub fn faults<L: Ledger>(
    input: &ReadingInput<'_, '_>,
    picks: Vec<PlacedPick>,
    indicators: &[Picked],
    steps: &mut Steps<L>,
) -> Result<Vec<BindFault>, AllocError>
    requires formed { first_fault (rows_of input.now) ≡ Ok tt }
    requires currency { currency_of input.now ≡ (currencies (nodes_of input.now) (rows_of input.now)).invoice }
    requires picks { picks.items ≡ all_kept_placed (term_places (nodes_of input.now) (rows_of input.now)) }
    requires indicators { indicators.now ≡ all_kept (in_order (nodes_of input.now) (indicator_picks (nodes_of input.now) (rows_of input.now))) }
    ensures faults { IfOk result (λ faults. faults.items ≡ faults_in (nodes_of input.now) (rows_of input.now) (lists_of input.now)) }
    ensures within { IfOk result (λ faults. All (λ fault. fault.node < count input.now) faults.items) }
{
    input.doc.is_of_a_tree();
    let mut kept = InOrder::new(input.alloc);
    let firsts = find_faults(input, picks, indicators, &mut kept, steps)?;
    drop(firsts);
    kept.into_faults(input.alloc)
}

/// What a document is by a table.
#[derive(Drop)]
pub(crate) enum Verdict {
    Invoice(Invoice),
    Fault(BindFault),
}

fn judged<L: Ledger>(
    input: &ReadingInput<'_, '_>,
    picks: Vec<PlacedPick>,
    indicators: &[Picked],
    steps: &mut Steps<L>,
) -> Result<Verdict, AllocError>
    requires set { IsSet input.now }
    requires picks { picks.items ≡ all_kept_placed (term_places (nodes_of input.now) (rows_of input.now)) }
    requires indicators { indicators.now ≡ all_kept (in_order (nodes_of input.now) (indicator_picks (nodes_of input.now) (rows_of input.now))) }
    ensures { IfOk result (Answers (nodes_of input.now) (lists_of input.now) (rows_of input.now)) }
{
    input.doc.is_of_a_tree();
    numbers_of_nodes_rise();
    read_invoices_are_valid();
    let mut least = Least { found: None };
    let firsts = find_faults(input, picks, indicators, &mut least, steps)?;
    verdict_of(input.alloc, firsts, least.found)
}

// Every fault is given to the keeper, which was given none before. What was told first of each term in each context is
// answered in listing order. The picks are let go as soon as all is found.
fn find_faults<L: Ledger, K: Keeper>(
    input: &ReadingInput<'_, '_>,
    picks: Vec<PlacedPick>,
    indicators: &[Picked],
    keeper: &mut K,
    steps: &mut Steps<L>,
) -> Result<Vec<First>, AllocError>
    requires set { IsSet input.now }
    requires picks { picks.items ≡ all_kept_placed (term_places (nodes_of input.now) (rows_of input.now)) }
    requires indicators { indicators.now ≡ all_kept (in_order (nodes_of input.now) (indicator_picks (nodes_of input.now) (rows_of input.now))) }
    requires none { K.given keeper.old [] }
    ensures { IfOk result (λ firsts. HasFound (nodes_of input.now) (lists_of input.now) (rows_of input.now) firsts.items (K.given keeper.new)) }
{
    let firsts = find_all(input, picks.as_slice(), indicators, keeper, steps);
    drop(picks);
    firsts
}

// The same of picks that are lent.
fn find_all<L: Ledger, K: Keeper>(
    input: &ReadingInput<'_, '_>,
    picks: &[PlacedPick],
    indicators: &[Picked],
    keeper: &mut K,
    steps: &mut Steps<L>,
) -> Result<Vec<First>, AllocError>
    requires set { IsSet input.now }
    requires picks { picks.now ≡ all_kept_placed (term_places (nodes_of input.now) (rows_of input.now)) }
    requires indicators { indicators.now ≡ all_kept (in_order (nodes_of input.now) (indicator_picks (nodes_of input.now) (rows_of input.now))) }
    requires none { K.given keeper.old [] }
    ensures { IfOk result (λ firsts. HasFound (nodes_of input.now) (lists_of input.now) (rows_of input.now) firsts.items (K.given keeper.new)) }
{
    input.doc.is_of_a_tree();
    let mut told = OrderedMap::with_capacity(input.alloc, picks.len())?;
    find_at_nodes(input, picks, indicators, &mut told, keeper, steps)?;
    let firsts = in_listing_order(input.alloc, told)?;
    put_violations(input, &firsts, picks, keeper, steps)?;
    Ok(firsts)
}

// What the picks say is put by, and the faults at nodes are given to the keeper: of what they say, and of the indicators.
fn find_at_nodes<L: Ledger, K: Keeper>(
    input: &ReadingInput<'_, '_>,
    picks: &[PlacedPick],
    indicators: &[Picked],
    told: &mut Firsts,
    keeper: &mut K,
    steps: &mut Steps<L>,
) -> Result<(), AllocError>
    requires set { IsSet input.now }
    requires picks { picks.now ≡ all_kept_placed (term_places (nodes_of input.now) (rows_of input.now)) }
    requires indicators { indicators.now ≡ all_kept (in_order (nodes_of input.now) (indicator_picks (nodes_of input.now) (rows_of input.now))) }
    requires empty { told.old.entries ≡ [] }
    requires none { K.given keeper.old [] }
    ensures { OnOk result (HasTold (nodes_of input.now) (lists_of input.now) (rows_of input.now) told.new.entries (K.given keeper.new)) }
{
    input.doc.is_of_a_tree();
    nothing_read_is_refused();
    tell_picks(input, picks, told, keeper, steps)?;
    put_wrong_words(input, indicators, keeper, steps)
}

// The fault if there is one, or else the invoice of what was told first.
fn verdict_of(
    alloc: Global,
    firsts: Vec<First>,
    fault: Option<Found>,
) -> Result<Verdict, AllocError>
    requires { option_map found_of fault ≡ None → IsInvoice (flat_map entries_of firsts.items) }
    ensures { IfOk result (IsVerdict firsts.items (option_map found_of fault)) }
{
    match fault {
        Some(found) => {
            drop(firsts);
            Ok(Verdict::Fault(found.fault))
        }
        None => Ok(Verdict::Invoice(invoice_of(alloc, firsts)?)),
    }
}

// What was told first of each term in each context, in listing order.
fn in_listing_order(alloc: Global, told: Firsts) -> Result<Vec<First>, AllocError>
    ensures items { IfOk result (λ firsts. firsts.items ≡ map (λ e. e.1) told.entries) }
    ensures order { AreSorted told.entries }
{
    told.keys_ascend();
    told.into_values(alloc)
}
