//! Laws of the page of an invoice: no value makes markup, and each entry stands on it once. Each call does nothing: what it ensures is
//! the law.
#![tactic(auto)]

ghost use Rattle.std.specs.Prelude.{◌≡◌, ℕ, List, true, map, length, Contains};
ghost use Rattle.inv_terms.specs.declared.entries.Entry.{Entry};
ghost use Rattle.inv_terms.specs.Listing.{IsInvoice, seat_of};
ghost use Rattle.term_table.specs.declared.contexts.Seat.{Seat};
ghost use Rattle.page_values.specs.Escapes.{in_page};
ghost use Rattle.invoice_page.specs.Page.{page};
ghost use Rattle.page_laws.specs.Tags.{are_bare, has_references_alone, has_tags_alone, values_in};
ghost use Rattle.page_laws.specs.Visits.{times, visits};

/// Each `<` of the page of an invoice begins a tag that is written for every invoice, whole, with values of attributes that hold no quote,
/// no `<` and no `>`.
pub fn each_tag_is_the_writers()
    ensures { (es : List Entry) (passed_over : ℕ) → IsInvoice es → has_tags_alone (page es passed_over) ≡ true }
{}

/// A value as the page has it holds no quote, no `<` and no `>`, and each `&` in it begins one of the four references.
pub fn no_value_ends_an_attribute()
    ensures { (characters : List ℕ) → (are_bare (in_page characters) ≡ true) × (has_references_alone (in_page characters) ≡ true) }
{}

/// Each entry of an invoice is shown once, where its term stands by the page's tables, and no term is shown that no entry has there.
pub fn each_entry_stands_once()
    ensures { (es : List Entry) → IsInvoice es → ((e : Entry) → Contains es e → times (seat_of e) (visits es) ≡ 1)
        × ((seat : Seat) → Contains (visits es) seat → Contains (map seat_of es) seat) }
{}

/// On the page of an invoice begin as many elements that show a value as it has entries.
pub fn values_are_as_many_as_entries()
    ensures { (es : List Entry) (passed_over : ℕ) → IsInvoice es → values_in (page es passed_over) ≡ length es }
{}
