//! The first cause of a fault at a node, in the order of their kinds.
ghost use Rattle.std.specs.Prelude.{◌≡◌, ◌<◌, ◌||◌, IfOk, is_none, option_map, option_copied};
ghost use Rattle.inv_terms.specs.Validity as violations;
ghost use Rattle.bind_meaning.specs.Judging as spec;
ghost use Rattle.bind_terms.specs.ParsedValues.{parsed_of};
ghost use Rattle.bind_terms.specs.Inputs.{nodes_of, count, lists_of, currency_of};
ghost use Rattle.bind_terms.specs.Telling.{context_in, parsed_first};
ghost use Rattle.bind_terms.specs.Kinds as kinds;

use crate::checks::breaks;
use crate::currency::differs;
use crate::firsts::First;
use crate::insides::has_element_inside;
use crate::rowed::RowedPick;
use crate::telling::context_of;
use crate::{ParsedValue, ReadingInput};
use bind_meaning::{BindKind, form_for, type_of};
use bind_rows::{Repeats, Row, Written};
use code_lists::{CodeLists, List};
use inv_base::Steps;
use inv_terms::{Value, is_outside};
use std::alloc::AllocError;
use std::sync::ledger::Ledger;
use term_table::{Context, DataType, Term, list_in};

/// What is wrong, if anything, with a value that a row says by its pick: the first cause in the order of the kinds.
/// `first` is what the first pick of the term in the context said, where this isn't the first. An amount is compared with
/// the currency of the invoice, unless it is the VAT total in the accounting currency.
pub(crate) fn first_cause<L: Ledger>(
    input: &ReadingInput<'_, '_>,
    rowed: &RowedPick<'_>,
    first: Option<&First>,
    parsed: &ParsedValue,
    steps: &mut Steps<L>,
) -> Result<Option<BindKind>, AllocError>
    requires { rowed.now.pick.now.node < count input.now }
    ensures { IfOk result (λ kind. kind ≡ kinds.kind_of (nodes_of input.now) (lists_of input.now) (currency_of input.now)
        rowed.now.row.now rowed.now.pick.now.node (context_in rowed.now.pick.now)
        (option_map parsed_first (option_copied first.entry)) (parsed_of parsed.now)) }
{
    if first.is_some() && !may_repeat(rowed.row.repeats) {
        return Ok(Some(BindKind::Excess));
    }
    if has_element_inside(input.doc, rowed.pick.node, steps) {
        return Ok(Some(BindKind::ElementInValue));
    }
    if is_bad(input, rowed, parsed, steps)? {
        return Ok(Some(BindKind::BadValue));
    }
    if is_not_listed(input.lists, context_of(rowed.pick), parsed) {
        return Ok(Some(BindKind::CodeNotListed));
    }
    if is_foreign(input, rowed, parsed.term, steps)? {
        return Ok(Some(BindKind::CurrencyDiffers));
    }
    if is_disagreeing(first, parsed) {
        return Ok(Some(BindKind::Disagree));
    }
    Ok(None)
}

fn may_repeat(repeats: Repeats) -> bool
    ensures { result ≡ spec.may_repeat repeats }
{
    match repeats {
        Repeats::Once => false,
        Repeats::Agreeing | Repeats::Spread => true,
    }
}

// Whether the string is no value, or the node breaks what its row checks.
fn is_bad<L: Ledger>(
    input: &ReadingInput<'_, '_>,
    rowed: &RowedPick<'_>,
    parsed: &ParsedValue,
    steps: &mut Steps<L>,
) -> Result<bool, AllocError>
    requires { rowed.now.pick.now.node < count input.now }
    ensures { IfOk result (λ bad. bad ≡ (is_none parsed.now.value
        || spec.breaks (nodes_of input.now) rowed.now.row.now.check rowed.now.pick.now.node)) }
{
    if parsed.value.is_none() {
        return Ok(true);
    }
    let node = rowed.pick.node;
    breaks(input.alloc, input.doc, rowed.row.check, node, steps)
}

// Whether the value is a code that isn't in the term's list.
fn is_not_listed(lists: &CodeLists, context: Context, parsed: &ParsedValue) -> bool
    ensures { result ≡ kinds.is_not_listed lists.now context (parsed_of parsed.now) }
{
    match &parsed.value {
        Some(value) => is_outside(lists, list_of(parsed.term, context), value),
        None => false,
    }
}

fn list_of(term: Term, context: Context) -> Option<List>
    ensures { result ≡ violations.list_of term context }
{
    list_in(term, context.outer_group(), context.inner_group())
}

// Whether the row's values of the term are amounts.
fn is_amount(row: &Row, term: Term) -> bool
    ensures { result ≡ kinds.is_amount row.now term }
{
    matches!(type_of(form_for(row.form, term), term), Some(DataType::A))
}

fn is_accounting_total(written: &Written) -> bool
    ensures { result ≡ kinds.is_accounting_total written.now }
{
    matches!(written, Written::AccountingVatTotal)
}

// Whether the amount is in another currency than the invoice, where that isn't right.
fn is_foreign<L: Ledger>(
    input: &ReadingInput<'_, '_>,
    rowed: &RowedPick<'_>,
    term: Term,
    steps: &mut Steps<L>,
) -> Result<bool, AllocError>
    requires { rowed.now.pick.now.node < count input.now }
    ensures { IfOk result (λ foreign. foreign ≡ kinds.is_foreign (nodes_of input.now) (currency_of input.now)
        rowed.now.row.now rowed.now.pick.now.node term) }
{
    if is_amount(rowed.row, term) && !is_accounting_total(&rowed.row.written) {
        let node = rowed.pick.node;
        return differs(input.alloc, input.doc, input.invoice_currency, node, steps);
    }
    Ok(false)
}

// Whether the first pick of the term in the context said another value, or one of both said none.
fn is_disagreeing(first: Option<&First>, parsed: &ParsedValue) -> bool
    ensures { result ≡ kinds.is_disagreeing (option_map parsed_first (option_copied first.entry)) (parsed_of parsed.now) }
{
    match first {
        Some(first) => disagree(&first.value, &parsed.value),
        None => false,
    }
}

fn disagree(first: &Option<Value>, other: &Option<Value>) -> bool
    ensures { result ≡ spec.disagree first.now other.now }
{
    match first {
        Some(first) => match other {
            Some(other) => !first.is_same(other),
            None => false,
        },
        None => false,
    }
}
