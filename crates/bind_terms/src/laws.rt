//! A law of faults. The call does nothing: what it ensures is the law.
ghost use Rattle.std.specs.Prelude.{◌≡◌, ◌↔◌, List, [], Some, Err, true, slice_get, is_ok};
ghost use Rattle.inv_base.specs.Tree.{Node};
ghost use Rattle.code_lists.specs.CodeFiles.{Lists};
ghost use Rattle.bind_rows.specs.declared.rows.Row.{Row};
ghost use Rattle.bind_meaning.specs.declared.fault.BindFault.{BindFault};
ghost use Rattle.bind_meaning.specs.Faults.{faults_in};
ghost use Rattle.bind_meaning.specs.Terms.{terms_of};

/// The first of all faults of a document is the one fault that is told where it is no invoice, and a document has no fault
/// exactly where it is an invoice.
pub fn first_faults_are_first_of_all()
    ensures first { (nodes : List Node) (rows : List Row) (lists : Lists) (fault : BindFault)
        → (slice_get (faults_in nodes rows lists) 0 ≡ Some fault) ↔ (terms_of nodes rows lists ≡ Err fault) }
    ensures none { (nodes : List Node) (rows : List Row) (lists : Lists) → (faults_in nodes rows lists ≡ []) ↔ (is_ok (terms_of nodes rows lists) ≡ true) }
{}
