//! Laws of invoices. Each call does nothing: what it ensures is the law.

ghost use Rattle.std.specs.Prelude.{◌≡◌, ◌↔◌, ℕ, List, [], ◌∷◌, ◌++◌, Some, None, true, map, Contains};
ghost use Rattle.term_table.specs.declared.terms.DataType.{DataType};
ghost use Rattle.term_table.specs.Runs.{IsInOrder};
ghost use Rattle.inv_terms.specs.declared.entries.Entry.{Entry};
ghost use Rattle.inv_terms.specs.declared.values.Value.{Value};
ghost use Rattle.inv_terms.specs.Listing.{Fits, IsInvoice, is_listed, refusal, seat_of};
ghost use Rattle.inv_terms.specs.Values.{spelled, value_of};

use inv_decimal::laws::{
    printed_days_are_read, printed_numbers_are_read, readings_are_in_range,
    readings_follow_the_grammar,
};

/// An entry may be added to an invoice exactly where the longer list is an invoice. So an index with a gap is refused,
/// too.
pub fn push_refuses_what_makes_no_invoice()
    ensures { (es : List Entry) (e : Entry) → IsInvoice es → Fits e.term e.value
        → ((refusal es e ≡ None) ↔ IsInvoice (es ++ e ∷ [])) }
{}

/// The entries of an invoice are in listing order, so those of a context are a run.
pub fn invoices_are_in_listing_order()
    ensures { (es : List Entry) → IsInvoice es → IsInOrder (map seat_of es) }
{}

/// Two lists of entries in strictly rising order that have the same entries are one list.
pub fn invoices_with_the_same_entries_are_equal()
    ensures { (es fs : List Entry) → is_listed es ≡ true → is_listed fs ≡ true
        → ((e : Entry) → (Contains es e ↔ Contains fs e)) → es ≡ fs }
{}

/// What a value is written as is read as that value.
pub fn spelled_values_are_read_back()
    ensures { (data_type : DataType) (text : List ℕ) (value : Value)
        → value_of data_type text ≡ Some value → value_of data_type (spelled value) ≡ Some value }
{
    printed_numbers_are_read();
    printed_days_are_read();
    readings_follow_the_grammar();
    readings_are_in_range();
}
