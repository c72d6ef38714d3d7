//! Each call does nothing: what it ensures is the law.

ghost use Rattle.std.specs.Prelude.{◌≡◌, ℕ, ◌<◌, Bool, List, [], All, length, true, Some, Ok, slice_get, filter, map};
ghost use Rattle.std.specs.List.{range_with_len};
ghost use Rattle.std.specs.List.Sorted.{IsPermutation};
ghost use Rattle.term_table.specs.declared.groups.Group.{Group};
ghost use Rattle.bind_rows.specs.declared.rows.Row.{Row};
ghost use Rattle.bind_rows.specs.declared.rows.Step.{Step};
ghost use Rattle.bind_rows.specs.Added.{is_added};
ghost use Rattle.bind_rows.specs.Same.{same_step};
ghost use Rattle.bind_table.specs.Crossings.{part_by_name};
ghost use Rattle.bind_table.specs.Lines.{plan_of};
ghost use Rattle.bind_table.specs.WellFormed.{first_fault, is_carried};
ghost use Rattle.bind_table.specs.Ends.{ends, own_ends};
ghost use Rattle.bind_table.specs.Fronts.{HasGroup, front_of};
ghost use Rattle.bind_table.specs.Numbering.{rises, place_among};
ghost use Rattle.bind_table.specs.Paths.{line_paths};
ghost use Rattle.bind_table.specs.Sound.{IsSoundRow};
ghost use Rattle.bind_table.specs.Picks.{Sight, picked_from, walked};

/// Two steps that are compared as the same are equal.
pub fn same_steps_are_equal()
    ensures { (s t : Step) → same_step s t ≡ true → s ≡ t }
{}

/// What the rows of a table pick, each by itself over the whole document, is what one walk over the lines picks, in
/// another order. Nothing is assumed of the table but that no path is empty: several rows may pick one node, and rows
/// may end above the groups that they pass through. What is known of the elements above, and what a pick is, is the
/// sight's.
pub fn rows_pick_what_lines_pick<X, C, P>()
    ensures { (see : Sight X C P) (rows : List Row) (around : C) (x : X) → All (λ row. 0 < length row.path) rows
        → IsPermutation (picked_from see 0 rows around x) (walked see (plan_of rows) around x) }
{}

/// The tree of lines has the rows of the list, each once, and each at the line that has the steps of its path.
pub fn lines_have_the_rows()
    ensures { (rows : List Row) → All (λ row. 0 < length row.path) rows → IsPermutation (own_ends 0 rows) (ends [] (plan_of rows)) }
{}

/// No two lines have one path: lines beside one another have different steps.
pub fn lines_have_paths_of_their_own()
    ensures { (rows : List Row) (i j : ℕ) (path : List Step) → slice_get (line_paths [] (plan_of rows)) i ≡ Some path
        → slice_get (line_paths [] (plan_of rows)) j ≡ Some path → i ≡ j }
{}

/// The occurrences of a group are numbered from 1 without a gap, in document order, each number once: they are numbers
/// of nodes, which rise, and each has its place among them.
pub fn occurrences_have_no_gap()
    ensures { (is_occurrence : ℕ → Bool) (nodes : List ℕ) → rises nodes ≡ true
        → map (place_among is_occurrence nodes) (filter is_occurrence nodes) ≡ range_with_len 1 (length (filter is_occurrence nodes)) }
{}

/// Each row of a well-formed table, built in or added, has a term with a place in its context, begins with the root of
/// the others, and carries each group of its context by the one element of the table that carries it, the outer above the
/// inner.
pub fn rows_are_sound()
    ensures { (rows : List Row) → first_fault rows ≡ Ok tt → All (IsSoundRow rows) rows }
{}

/// In a well-formed table the path of a row that a user added parts from each other row's by a name: both go through the
/// same elements until they go through two of different names.
pub fn added_rows_part_from_others()
    ensures { (rows : List Row) (j k : ℕ) (row other : Row) → first_fault rows ≡ Ok tt → slice_get rows j ≡ Some row
        → slice_get rows k ≡ Some other → (j ≡ k → ⊥) → is_added row ≡ true → part_by_name row.path other.path ≡ true }
{}

/// In a well-formed table all rows that have a group in their context, and all other rows that pass through an element
/// which carries it, pass through one element for it: their paths are the same as far as that element.
pub fn groups_have_one_element()
    ensures { (rows : List Row) (group : Group) (i j : ℕ) (row other : Row) → first_fault rows ≡ Ok tt
        → slice_get rows i ≡ Some row → slice_get rows j ≡ Some other → HasGroup group row → is_carried group other ≡ true
        → (is_carried group row ≡ true) × (front_of group row ≡ front_of group other) }
{}
