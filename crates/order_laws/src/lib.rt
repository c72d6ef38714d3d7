//! Laws of the order in what is written: in the document that an invoice is written as by a table in order no element is
//! misplaced. The three tables are in order, and a table stays so with the rows that users add.
#![tactic(auto)]

ghost use Rattle.std.specs.Prelude.{◌≡◌, ℕ, List, [], ◌∷◌, ◌++◌, true, Ok};
ghost use Rattle.inv_base.specs.Tree.{document_nodes};
ghost use Rattle.inv_terms.specs.declared.entries.Entry.{Entry};
ghost use Rattle.bind_rows.specs.declared.rows.Row.{Row};
ghost use Rattle.bind_rows.specs.declared.tables.DocumentType.{DocumentType};
ghost use Rattle.extension_files.specs.declared.terms.ExtTerm.{ExtTerm};
ghost use Rattle.extension_files.specs.ExtensionFiles.{file_terms};
ghost use Rattle.extension_files.specs.Extensions.{is_extension};
ghost use Rattle.bind_table.specs.declared.extending.AddedTerm.{AddedTerm};
ghost use Rattle.bind_table.specs.Extending.{extended};
ghost use Rattle.bind_table.specs.WellFormed.{first_fault};
ghost use Rattle.bind_meaning.specs.Losses.{misplaced_nodes};
ghost use Rattle.bind_meaning.specs.Tables.{rows_of};
ghost use Rattle.bind_meaning.specs.Trees.{document_of};
ghost use Rattle.bind_run.specs.Extensions.{terms_for, rows_for};
ghost use Rattle.extension_laws.specs.Joins.{Joins, JoinEach};
ghost use Rattle.order_laws.specs.Order.{is_in_order};

use extension_files::file_terms_are_extensions;
use extension_laws::good_extensions_join;

/// Whatever the entries are, in what is written of them by a table in order no element is misplaced by that table.
pub fn tables_in_order_misplace_nothing()
    ensures { (rows : List Row) (es : List Entry) → is_in_order rows ≡ true → misplaced_nodes (document_nodes (document_of rows es)) rows ≡ [] }
{}

/// Each of the three tables is in order.
pub fn tables_are_in_order()
    ensures { (table : DocumentType) → is_in_order (rows_of table) ≡ true }
{}

/// A table in order stays so with a row that joins it, and with those of a list of terms whose rows join it one by one.
pub fn joined_tables_stay_in_order()
    ensures in_order { (rows : List Row) (row : Row) → Joins rows row → is_in_order rows ≡ true → is_in_order (rows ++ row ∷ []) ≡ true }
    ensures extended_table { (table : DocumentType) (rows : List Row) (terms : List AddedTerm) → JoinEach table rows terms → is_in_order rows ≡ true
        → is_in_order (extended table rows terms) ≡ true }
{}

/// So where one of the three tables with the terms of an extension is well formed, it is in order.
pub fn good_extensions_stay_in_order()
    ensures { (table : DocumentType) (terms : List ExtTerm) → is_extension terms ≡ true → first_fault (rows_for terms table) ≡ Ok tt
        → is_in_order (rows_for terms table) ≡ true }
{
    good_extensions_join();
    tables_are_in_order();
    joined_tables_stay_in_order();
}

/// In what is written of any entries by one of the three tables no element is misplaced by it; nor is one by the table with the
/// terms of whatever file a user hands in, where it is well formed with them.
pub fn nothing_written_is_misplaced()
    ensures tables { (table : DocumentType) (es : List Entry) → misplaced_nodes (document_nodes (document_of (rows_of table) es)) (rows_of table) ≡ [] }
    ensures extended_tables { (bytes : List ℕ) (terms : List ExtTerm) (table : DocumentType) (es : List Entry) → file_terms bytes ≡ Ok terms
        → first_fault (rows_for terms table) ≡ Ok tt
        → misplaced_nodes (document_nodes (document_of (rows_for terms table) es)) (rows_for terms table) ≡ [] }
{
    file_terms_are_extensions();
    tables_in_order_misplace_nothing();
    tables_are_in_order();
    good_extensions_stay_in_order();
}
