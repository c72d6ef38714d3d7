ghost use Rattle.std.specs.Prelude.{◌≡◌, [], ◌∷◌};
ghost use Rattle.term_table.specs.Places as spec;
ghost use Rattle.term_table.specs.Starts.{context_start};

use crate::contexts::{Context, Slot};
use crate::groups::Group;
use crate::rows::row_of;
use crate::terms::Term;
use std::cmp::Ordering;
use std::marker::Model;

/// A place in listing order. Contracts see its five numbers: where the outer group begins and the number of its
/// occurrence, the same for the inner group, and the row.
#[derive(Clone, Copy, PartialEq, Eq, PartialOrd, Ord)]
pub struct ListingPlace {
    numbers: [usize; 5],
}

impl Model for ListingPlace {
    ghost use Rattle.std.specs.Prelude.{List, ℕ};

    ghost Value = { List ℕ };

    ghost view = { λ p. p.numbers };

    ghost inverse = { λ numbers. record { numbers = numbers } };
}

fn precedes(a: &[usize], b: &[usize]) -> bool
    ensures { result ≡ spec.precedes a.now b.now }
{
    a.cmp(b) == Ordering::Less
}

impl ListingPlace {
    /// Whether it comes before the other place.
    pub fn precedes(self, other: ListingPlace) -> bool
        ensures { result ≡ spec.precedes self other }
    {
        precedes(&self.numbers, &other.numbers)
    }

    /// Whether it comes before all places in the context and inside it.
    pub(crate) fn is_before(&self, context: Context) -> bool
        ensures { result ≡ spec.precedes self.now (context_start context) }
    {
        match (context.outer, context.inner) {
            (None, None) => precedes(&self.numbers, &[]),
            (Some(outer), None) => precedes(&self.numbers, &slot_start(outer)),
            (None, Some(inner)) => precedes(&self.numbers, &slot_start(inner)),
            (Some(outer), Some(inner)) => {
                let [outer, outer_index] = slot_start(outer);
                let [inner, inner_index] = slot_start(inner);
                precedes(&self.numbers, &[outer, outer_index, inner, inner_index])
            }
        }
    }
}

/// The number of the first row of a group.
#[tactic(auto, unfolding(crate::specs::Places::first_row, crate::specs::SemanticModel::terms))]
pub fn first_row(group: Group) -> usize
    ensures { result ≡ spec.first_row group }
{
    match group {
        Group::Root => 0,
        Group::InvoiceNote => 20,
        Group::ProcessControl => 22,
        Group::PrecedingInvoice => 24,
        Group::Seller => 26,
        Group::SellerIdentifier => 35,
        Group::SellerSchemedIdentifier => 36,
        Group::SellerAddress => 38,
        Group::SellerContact => 45,
        Group::Buyer => 48,
        Group::BuyerAddress => 57,
        Group::BuyerContact => 64,
        Group::Payee => 67,
        Group::TaxRepresentative => 72,
        Group::TaxRepresentativeAddress => 74,
        Group::Delivery => 81,
        Group::InvoicingPeriod => 85,
        Group::DeliveryAddress => 87,
        Group::PaymentInstructions => 94,
        Group::CreditTransfer => 97,
        Group::PaymentCard => 100,
        Group::DirectDebit => 102,
        Group::DocumentAllowance => 105,
        Group::DocumentCharge => 112,
        Group::DocumentTotals => 119,
        Group::VatBreakdown => 129,
        Group::SupportingDocument => 135,
        Group::InvoiceLine => 141,
        Group::LinePeriod => 150,
        Group::LineAllowance => 152,
        Group::LineCharge => 157,
        Group::PriceDetails => 162,
        Group::LineVat => 167,
        Group::ItemInformation => 169,
        Group::ItemClassification => 176,
        Group::ItemAttribute => 179,
    }
}

// Where the group of the slot begins, and the number of the occurrence.
fn slot_start(slot: Slot) -> [usize; 2]
    ensures { result ≡ spec.first_row slot.group ∷ slot.index ∷ [] }
{
    [first_row(slot.group), slot.index as usize]
}

// The same; without a slot the row itself.
fn slot_place(row: usize, slot: Option<Slot>) -> [usize; 2]
    ensures { result ≡ spec.slot_place row slot }
{
    match slot {
        None => [row, 0],
        Some(slot) => slot_start(slot),
    }
}

/// The place of a row in a context.
pub fn place_at(row: usize, context: Context) -> ListingPlace
    ensures { result ≡ spec.place row context }
{
    let [outer, outer_index] = slot_place(row, context.outer);
    let [inner, inner_index] = slot_place(row, context.inner);
    ListingPlace {
        numbers: [outer, outer_index, inner, inner_index, row],
    }
}

/// The place of a term in a context, where it has such a context. It looks at three rows at most.
pub fn place_of(term: Term, context: Context) -> Option<ListingPlace>
    ensures { result ≡ spec.place_of term context }
{
    match row_of(term, context) {
        Some(row) => Some(place_at(row, context)),
        None => None,
    }
}
