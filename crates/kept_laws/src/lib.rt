//! Laws of what is kept: each value that a document tells is an entry of its invoice, and where nothing is lost, each text of
//! the document is such a value or what the table writes by itself.
#![tactic(auto)]

ghost use Rattle.std.specs.Prelude.{◌≡◌, List, [], true, Ok, All};
ghost use Rattle.code_lists.specs.CodeFiles.{Lists};
ghost use Rattle.inv_base.specs.Tree.{Node};
ghost use Rattle.bind_rows.specs.declared.rows.Row.{Row};
ghost use Rattle.bind_meaning.specs.Judging.{Told};
ghost use Rattle.bind_meaning.specs.Losses.{lost_nodes};
ghost use Rattle.bind_meaning.specs.Terms.{Read, terms_of};
ghost use Rattle.kept_laws.specs.Kept.{is_entered, is_kept, told_of};

/// Where reading finds no fault, each value that a row tells is that of an entry: not the first of a term in a context alone.
pub fn each_value_told_is_an_entry()
    ensures { (nodes : List Node) (rows : List Row) (lists : Lists) (read : Read) → terms_of nodes rows lists ≡ Ok read
        → All (λ (t : Told). is_entered read.entries t ≡ true) (told_of nodes rows) }
{}

/// Where moreover nothing is lost, nothing is passed over, and each element and attribute of the table that has a text is kept.
pub fn whole_documents_are_kept()
    ensures { (nodes : List Node) (rows : List Row) (lists : Lists) (read : Read) → terms_of nodes rows lists ≡ Ok read → lost_nodes nodes rows ≡ []
        → (read.passed_over ≡ 0) × All (λ (node : Node). is_kept nodes rows read.entries node ≡ true) nodes }
{
    each_value_told_is_an_entry();
}
