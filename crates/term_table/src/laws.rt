//! Laws of the semantic model. Each call does nothing: what it ensures is the law.

ghost use Rattle.std.specs.Prelude.{◌≡◌, ℕ, List, Some, slice_get, filter, take, drop};
ghost use Rattle.std.specs.Ordering.{nat_cmp};
ghost use Rattle.std.specs.Cmp.Lexicographic.{slice_cmp};
ghost use Rattle.term_table.specs.declared.groups.Group.{Group};
ghost use Rattle.term_table.specs.declared.terms.DataType.{DataType};
ghost use Rattle.term_table.specs.declared.terms.Term.{Term};
ghost use Rattle.term_table.specs.declared.terms.TermRow.{TermRow};
ghost use Rattle.term_table.specs.declared.contexts.Context.{Context};
ghost use Rattle.term_table.specs.declared.contexts.Seat.{Seat};
ghost use Rattle.term_table.specs.SemanticModel.{terms};
ghost use Rattle.term_table.specs.Places.{seat_place};
ghost use Rattle.term_table.specs.Rows.{HasType};
ghost use Rattle.term_table.specs.Runs.{IsInOrder, IsNested, is_in};

use crate::places::ListingPlace;

/// A term has one type wherever it stands, so a value that was read by the letter of its row fits it.
pub fn terms_have_one_type()
    ensures { (k : ℕ) (row : TermRow) → slice_get terms k ≡ Some row → HasType row.term row.data_type }
{}

/// No two terms, and no two contexts, have one place.
pub fn equal_places_are_one_seat()
    ensures { (a b : Seat) (place : List ℕ) → seat_place a ≡ Some place → seat_place b ≡ Some place → a ≡ b }
{}

/// A place comes before another where the first of its numbers that differs is the smaller one.
pub fn places_are_ordered()
    ensures { (a b : List ℕ) → ⟦<ListingPlace as Ord>⟧.cmp a b ≡ slice_cmp nat_cmp a b }
{}

/// Where a term has a place, an inner slot stands in an outer one.
pub fn placed_contexts_are_nested()
    ensures { (seat : Seat) (place : List ℕ) → seat_place seat ≡ Some place → IsNested seat.context }
{}

/// In listing order what stands in a context and inside it stands together.
pub fn entries_of_a_context_are_a_run()
    ensures { (seats : List Seat) (context : Context) → IsInOrder seats → IsNested context
        → (n m : ℕ) × (filter (is_in context) seats ≡ take m (drop n seats)) }
{}
