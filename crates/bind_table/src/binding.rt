ghost use Rattle.std.specs.Prelude.{◌≡◌, ℕ, ◌+◌, ◌<◌, ◌^◌, ◌++◌, [], ◌∷◌, All, IfOk, length, OnOk, OnErr, option_copied, slice_get};
ghost use Rattle.bind_table.specs.Lines.{plan_of, flat};
ghost use Rattle.bind_table.specs.Extending.{added_row, extended};
ghost use Rattle.bind_table.specs.Limits.{HasSteps, HasSmallNumbers, HasRoom, HasRooms};
ghost use Rattle.bind_table.specs.WellFormed.{first_fault};

use crate::extending::{AddedTerm, added_row, copy_of, push_terms};
use crate::growing::add_row;
use crate::judging::{TableFault, first_fault};
use crate::lines::Line;
use bind_rows::{DocumentType, Row};
use std::alloc::{AllocError, Global};
use std::marker::Model;

/// A binding table. Contracts see the list of its rows. The same rows as a tree of lines are kept beside them.
pub struct Binding {
    alloc: Global,
    rows: Vec<Row>,
    lines: Vec<Line>,
}

impl Drop for Binding {
    fn drop(self) {
        let Binding {
            alloc: _,
            rows,
            lines,
        } = self;
        drop(rows);
        drop(lines);
    }
}

impl Model for Binding {
    ghost use Rattle.std.specs.Prelude.{List, ◌≡◌, ◌<◌, ◌^◌, length};
    ghost use Rattle.bind_rows.specs.declared.rows.Row.{Row};
    ghost use Rattle.bind_table.specs.Lines.{plan_of, flat};

    ghost Value = { List Row };

    ghost view = { λ b. b.rows.items };

    ghost invariant = { λ b. (b.lines.items ≡ flat (plan_of b.rows.items)) × (length b.rows.items < 2 ^ 31) };
}

impl Binding {
    /// A table without rows.
    pub fn new(alloc: Global) -> Binding
        ensures { result ≡ [] }
    {
        Binding {
            alloc,
            rows: Vec::new(alloc),
            lines: Vec::new(alloc),
        }
    }

    /// Puts a row behind the others. Without memory for it nothing changes.
    pub fn push(&mut self, row: Row) -> Result<(), AllocError>
        requires few { length self.old + 1 < 2 ^ 31 }
        requires steps { HasSteps row }
        requires numbers { HasSmallNumbers row }
        ensures ok { OnOk result (self.new ≡ self.old ++ row ∷ []) }
        ensures err { OnErr result (self.new ≡ self.old) }
    {
        self.rows.reserve(1)?;
        add_row(
            self.alloc,
            &mut self.lines,
            row.path.as_slice(),
            self.rows.len(),
        )?;
        match self.rows.push(row) {
            Ok(()) => return Ok(()),
            Err(_) => unreachable!(),
        }
    }

    /// Puts the row of a term that a user adds behind the others. Without memory for it nothing changes.
    pub fn push_term(
        &mut self,
        document_type: DocumentType,
        term: &AddedTerm,
    ) -> Result<(), AllocError>
        requires few { length self.old + 1 < 2 ^ 31 }
        requires room { HasRoom self.old term.now }
        ensures ok { OnOk result (self.new ≡ self.old ++ added_row document_type self.old term.now ∷ []) }
        ensures err { OnErr result (self.new ≡ self.old) }
    {
        let row = added_row(self.alloc, document_type, self.rows.as_slice(), term)?;
        self.push(row)
    }

    /// The table with a row for each of the terms behind its own, in their order.
    pub fn extend(
        &self,
        alloc: Global,
        document_type: DocumentType,
        terms: &[AddedTerm],
    ) -> Result<Binding, AllocError>
        requires steps { All HasSteps self.now }
        requires numbers { All HasSmallNumbers self.now }
        requires room { HasRooms document_type self.now terms.now }
        ensures { IfOk result (λ b. b ≡ extended document_type self.now terms.now) }
    {
        let mut binding = copy_of(alloc, self.rows.as_slice())?;
        match push_terms(&mut binding, document_type, terms) {
            Ok(()) => Ok(binding),
            Err(error) => {
                drop(binding);
                Err(error)
            }
        }
    }

    /// The k-th row, from 0. None behind the last one.
    pub fn part(&self, k: usize) -> Option<&Row>
        ensures { option_copied result ≡ slice_get self.now k }
    {
        self.rows.get(k)
    }

    /// The rows in their order.
    pub fn rows(&self) -> &[Row]
        ensures { result.now ≡ self.now }
    {
        self.rows.as_slice()
    }

    /// The lines in preorder, siblings by the numbers of their elements.
    pub fn lines(&self) -> &[Line]
        ensures { result.now ≡ flat (plan_of self.now) }
    {
        self.lines.as_slice()
    }
}

/// The first row of the table at which something is wrong, and what: a row that another row of the same path of names
/// can't be told from (Ambiguous), a term that the semantic model doesn't have in the row's context (UnknownTerm), a
/// context whose groups aren't carried by one element each of the row's path, the outer above the inner, or a path that
/// begins with no root or another row's (OutsideContext). So the built-in part is judged, by itself. The path of a row
/// that a user added has to begin where its context says and to go through no other group (else OutsideContext), to part
/// from each other row's path by a name, and to go through elements of the built-in part that have a term below them
/// (else Ambiguous).
pub fn well_formed(b: &Binding) -> Result<(), TableFault>
    ensures { result ≡ first_fault b.now }
{
    first_fault(b.rows.as_slice())
}
