//! Laws of what an invoice lacks. Each call does nothing: what it ensures is the law.

ghost use Rattle.std.specs.Prelude.{◌≡◌, ◌↔◌, List, Some, None, false, true, Contains, AllPairs, slice_get};
ghost use Rattle.code_lists.specs.CodeFiles.{Lists};
ghost use Rattle.term_table.specs.declared.contexts.Context.{Context};
ghost use Rattle.term_table.specs.declared.contexts.Seat.{Seat};
ghost use Rattle.term_table.specs.Places.{precedes};
ghost use Rattle.inv_terms.specs.declared.entries.Entry.{Entry};
ghost use Rattle.inv_terms.specs.declared.violations.ModelViolation.{ModelViolation};
ghost use Rattle.inv_terms.specs.Lacking.{first_missing, all_missing};
ghost use Rattle.inv_terms.specs.Validity.{contexts, first_violation};
ghost use Rattle.inv_terms.specs.Whole.{IsContextOf, IsViolation, IsValid};

/// The contexts of an invoice are the invoice itself and each occurrence of a group that stands in it.
pub fn contexts_are_those_of_the_entries()
    ensures { (es : List Entry) (c : Context) → (Contains (contexts es) c ↔ IsContextOf es c) }
{}

/// The first lack is one of the invoice's, and none of them comes before it.
pub fn first_lacks_are_first()
    ensures told { (es : List Entry) (lists : Lists) (violation : ModelViolation) → first_violation es lists ≡ Some violation → IsViolation es lists violation }
    ensures first { (es : List Entry) (lists : Lists) (violation other : ModelViolation)
        → first_violation es lists ≡ Some violation → IsViolation es lists other → precedes other.place violation.place ≡ false }
{}

/// An invoice has no first lack exactly where it is valid: each mandatory term of each group that is there stands, each
/// group that has to stand at least once does, and each code is in its list.
pub fn valid_invoices_lack_nothing()
    ensures { (es : List Entry) (lists : Lists) → ((first_violation es lists ≡ None) ↔ IsValid es lists) }
{}

/// What is missing first in a context is the first of all that is missing in it, and each of these comes before those
/// behind it.
pub fn first_missing_is_first_of_all()
    ensures first { (seats : List Seat) (c : Context) → first_missing seats c ≡ slice_get (all_missing seats c) 0 }
    ensures order { (seats : List Seat) (c : Context) → AllPairs (λ (a b : ModelViolation). precedes a.place b.place ≡ true) (all_missing seats c) }
{}
