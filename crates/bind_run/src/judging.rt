//! What the gathered picks of a document say, by bind_terms.
ghost use Rattle.std.specs.Prelude.{◌≡◌, ◌≢◌, ◌<◌, All, chars, option_map, IfOk, IfErr, Ok, Err, length};
ghost use Rattle.node_arena.specs.Moves.{tree_nodes};
ghost use Rattle.bind_table.specs.WellFormed.{first_fault};
ghost use Rattle.inv_terms.specs.declared.violations.Name.TheVariants as names;
ghost use Rattle.bind_meaning.specs.declared.fault.BindKind.TheVariants as kinds;
ghost use Rattle.bind_meaning.specs.Currencies.{currencies};
ghost use Rattle.bind_meaning.specs.Faults.{faults_in};
ghost use Rattle.bind_meaning.specs.Kept.{all_kept, all_kept_placed};
ghost use Rattle.bind_meaning.specs.Terms.{in_order, passed_over, terms_of};
ghost use Rattle.bind_terms.specs.Reading.{indicator_picks, term_places};

use bind_meaning::{BindFault, Picked, PlacedPick};
use bind_table::Binding;
use bind_terms::ReadingInput;
use code_lists::CodeLists;
use inv_base::Steps;
use inv_terms::Invoice;
use node_arena::Doc;
use std::alloc::{AllocError, Global};
use std::sync::ledger::Ledger;

/// The invoice that the picks say, or the first fault.
pub(crate) fn judge<L: Ledger>(
    alloc: Global,
    doc: &Doc<'_>,
    table: &Binding,
    lists: &CodeLists,
    invoice_currency: Option<&str>,
    picks: Vec<PlacedPick>,
    indicators: &[Picked],
    steps: &mut Steps<L>,
) -> Result<Invoice, BindFault>
    requires formed { first_fault table.now ≡ Ok tt }
    requires currency { option_map (λ text. chars text.now) invoice_currency ≡ (currencies (tree_nodes doc.now) table.now).invoice }
    requires picks { picks.items ≡ all_kept_placed (term_places (tree_nodes doc.now) table.now) }
    requires indicators { indicators.now ≡ all_kept (in_order (tree_nodes doc.now) (indicator_picks (tree_nodes doc.now) table.now)) }
    ensures ok { IfOk result (λ invoice. terms_of (tree_nodes doc.now) table.now lists.now
        ≡ Ok (record { entries = invoice; passed_over = passed_over (tree_nodes doc.now) table.now })) }
    ensures err { IfErr result (λ fault. fault.kind ≢ kinds.Memory → terms_of (tree_nodes doc.now) table.now lists.now ≡ Err fault) }
    ensures memory { IfErr result (λ fault. fault.kind ≡ kinds.Memory → fault ≡ record { kind = kinds.Memory; name = names.Nothing; node = 0 }) }
{
    let input = ReadingInput {
        alloc,
        doc,
        table,
        lists,
        invoice_currency,
    };
    bind_terms::judge(&input, picks, indicators, steps)
}

/// All faults of the document as an invoice of the table, in their order.
pub(crate) fn faults<L: Ledger>(
    alloc: Global,
    doc: &Doc<'_>,
    table: &Binding,
    lists: &CodeLists,
    invoice_currency: Option<&str>,
    picks: Vec<PlacedPick>,
    indicators: &[Picked],
    steps: &mut Steps<L>,
) -> Result<Vec<BindFault>, AllocError>
    requires formed { first_fault table.now ≡ Ok tt }
    requires currency { option_map (λ text. chars text.now) invoice_currency ≡ (currencies (tree_nodes doc.now) table.now).invoice }
    requires picks { picks.items ≡ all_kept_placed (term_places (tree_nodes doc.now) table.now) }
    requires indicators { indicators.now ≡ all_kept (in_order (tree_nodes doc.now) (indicator_picks (tree_nodes doc.now) table.now)) }
    ensures faults { IfOk result (λ faults. faults.items ≡ faults_in (tree_nodes doc.now) table.now lists.now) }
    ensures within { IfOk result (λ faults. All (λ fault. fault.node < length doc.now.nodes) faults.items) }
{
    let input = ReadingInput {
        alloc,
        doc,
        table,
        lists,
        invoice_currency,
    };
    bind_terms::faults(&input, picks, indicators, steps)
}
