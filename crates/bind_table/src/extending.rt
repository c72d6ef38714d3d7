ghost use Rattle.std.specs.Prelude.{◌≡◌, ◌<◌, ◌+◌, ◌^◌, [], ◌++◌, All, IfOk, length, map, option_map};
ghost use Rattle.bind_rows.specs.Added.{built};
ghost use Rattle.bind_table.specs.Extending as spec;
ghost use Rattle.bind_table.specs.Limits.{HasSteps, HasSmallNumbers, HasRooms};

use crate::binding::Binding;
use crate::judging::first_carrier;
use bind_rows::{
    Check, Content, Copied, DocumentType, ElementName, Form, Leaf, Many, Repeats, Row, Same, Step,
    Written, is_added,
};
use std::alloc::{AllocError, Global};
use term_table::{DataType, Group, Term};

/// A term that a user adds, as one syntax writes it.
pub struct AddedTerm {
    /// n, as in EXT-n.
    pub number: u8,
    /// The groups of which its context has an occurrence.
    pub outer: Option<Group>,
    pub inner: Option<Group>,
    /// The type of its values.
    pub data_type: DataType,
    /// The names that lead to it from the root, or from the element of the innermost group.
    pub names: Many<ElementName>,
}

impl Drop for AddedTerm {
    fn drop(self) {
        let AddedTerm {
            number: _,
            outer: _,
            inner: _,
            data_type: _,
            names,
        } = self;
        drop(names);
    }
}

/// The element at the end of the names, along a path.
fn at_names<'a>(names: &[ElementName], path: &'a [Step]) -> Option<&'a Step>
    ensures { option_map (λ step. step.now) result ≡ spec.at_names names.now path.now }
{
    let mut ns = names;
    let mut ss = path;
    'steps: while let Some((name, more_names)) = ns.split_first() {
        match ss.split_first() {
            None => return None,
            Some((step, more_steps)) => {
                if !name.is_same(&step.name) {
                    return None;
                }
                if more_names.len() == 0 {
                    return Some(step);
                }
                ns = more_names;
                ss = more_steps;
            }
        }
    }
    None
}

/// The first such element of a table.
fn first_at<'a>(names: &[ElementName], rows: &'a [Row]) -> Option<&'a Step>
    ensures { option_map (λ step. step.now) result ≡ spec.first_at names.now rows.now }
{
    'rows: for row in rows {
        match at_names(names, row.path.as_slice()) {
            Some(step) => return Some(step),
            None => {}
        }
    }
    None
}

fn greatest_on(most: u32, row: &Row) -> u32
    ensures { result ≡ spec.greatest_on most row.now }
{
    let mut greatest = most;
    'steps: for step in row.path.as_slice() {
        greatest = greatest.max(step.number);
    }
    greatest
}

/// The greatest number of an element.
fn greatest(rows: &[Row]) -> u32
    ensures { result ≡ spec.greatest rows.now }
{
    let mut most = 0;
    'rows: for row in rows {
        most = greatest_on(most, row);
    }
    most
}

fn step_for(
    alloc: Global,
    found: Option<&Step>,
    name: &ElementName,
    top: u32,
) -> Result<Step, AllocError>
    requires { top < 2 ^ 31 }
    ensures { IfOk result (λ step. step ≡ spec.step_for (option_map (λ s. s.now) found.entry) name.now top) }
{
    match found {
        Some(step) => Ok(Step {
            name: step.name.copied(alloc)?,
            number: step.number,
            always: step.always,
            group: step.group,
            guards: Many::new(alloc),
        }),
        None => Ok(Step {
            name: name.copied(alloc)?,
            number: top + 1,
            always: false,
            group: None,
            guards: Many::new(alloc),
        }),
    }
}

fn top_behind(found: Option<&Step>, top: u32) -> u32
    requires { top < 2 ^ 31 }
    ensures { result ≡ spec.top_behind (option_map (λ s. s.now) found.entry) top }
{
    match found {
        Some(_) => top,
        None => top + 1,
    }
}

/// The path of the names: elements of the table where it has them, else new ones, with numbers above all others.
fn path_of(alloc: Global, rows: &[Row], names: &[ElementName]) -> Result<Many<Step>, AllocError>
    requires { spec.greatest rows.now + length names.now < 2 ^ 31 }
    ensures { IfOk result (λ path. path ≡ spec.path_of rows.now (spec.greatest rows.now) [] names.now) }
{
    let mut path = Many::new(alloc);
    let mut top = greatest(rows);
    'names: for (k, name) in names.iter().enumerate() {
        let found = first_at(names.split_at(k + 1).0, rows);
        path.push(step_for(alloc, found, name, top)?)?;
        top = top_behind(found, top);
    }
    Ok(path)
}

fn root_path(rows: &[Row]) -> &[Step]
    ensures { result.now ≡ spec.root_path (built rows.now) }
{
    'rows: for row in rows {
        if !is_added(row) {
            let path = row.path.as_slice();
            return if path.len() == 0 {
                path
            } else {
                path.split_at(1).0
            };
        }
    }
    &[]
}

fn front_path(front: Option<&[Step]>) -> &[Step]
    ensures { result.now ≡ spec.front_path (option_map (λ path. path.now) front.entry) }
{
    match front {
        None => &[],
        Some(front) => front,
    }
}

/// The path of the built-in part that leads to a context.
fn context_path(rows: &[Row], outer: Option<Group>, inner: Option<Group>) -> &[Step]
    ensures { result.now ≡ spec.context_path (built rows.now) outer inner }
{
    match inner {
        Some(inner) => front_path(first_carrier(inner, rows)),
        None => match outer {
            Some(outer) => front_path(first_carrier(outer, rows)),
            None => root_path(rows),
        },
    }
}

fn names_on(alloc: Global, path: &[Step]) -> Result<Many<ElementName>, AllocError>
    ensures { IfOk result (λ names. names ≡ map (λ s. s.name) path.now) }
{
    let mut names = Many::new(alloc);
    'steps: for step in path {
        names.push(step.name.copied(alloc)?)?;
    }
    Ok(names)
}

fn add_names(
    alloc: Global,
    names: &mut Many<ElementName>,
    further: &[ElementName],
) -> Result<(), AllocError>
    ensures { IfOk result (λ _. names.new ≡ names.old ++ further.now) }
{
    'names: for name in further {
        names.push(name.copied(alloc)?)?;
    }
    Ok(())
}

/// The names that lead to a term from the root.
fn names_for(alloc: Global, rows: &[Row], term: &AddedTerm) -> Result<Many<ElementName>, AllocError>
    ensures { IfOk result (λ names. names ≡ spec.names_for (built rows.now) term.now) }
{
    let mut names = names_on(alloc, context_path(rows, term.outer, term.inner))?;
    match add_names(alloc, &mut names, term.names.as_slice()) {
        Ok(()) => Ok(names),
        Err(error) => {
            drop(names);
            Err(error)
        }
    }
}

fn added_path(alloc: Global, rows: &[Row], term: &AddedTerm) -> Result<Many<Step>, AllocError>
    requires { spec.greatest rows.now + length (spec.names_for (built rows.now) term.now) < 2 ^ 31 }
    ensures { IfOk result (λ path. path ≡ spec.path_of rows.now (spec.greatest rows.now) [] (spec.names_for (built rows.now) term.now)) }
{
    let names = names_for(alloc, rows, term)?;
    let path = path_of(alloc, rows, names.as_slice());
    drop(names);
    path
}

fn form_of_type(document_type: DocumentType, data_type: DataType) -> Form
    ensures { result ≡ spec.form_of_type document_type data_type }
{
    match document_type {
        DocumentType::Cii => match data_type {
            DataType::D => Form::TypedPlainDate,
            _ => Form::Typed(data_type),
        },
        DocumentType::Invoice => Form::Typed(data_type),
        DocumentType::CreditNote => Form::Typed(data_type),
    }
}

fn added_term(number: u8) -> Term
    ensures { result ≡ spec.added_term number }
{
    Term {
        number: 1000 + u16::from(number),
        part: 0,
    }
}

/// The row of a term that a user adds to a table.
pub(crate) fn added_row(
    alloc: Global,
    document_type: DocumentType,
    rows: &[Row],
    term: &AddedTerm,
) -> Result<Row, AllocError>
    requires { spec.greatest rows.now + length (spec.names_for (built rows.now) term.now) < 2 ^ 31 }
    ensures { IfOk result (λ row. row ≡ spec.added_row document_type rows.now term.now) }
{
    let path = added_path(alloc, rows, term)?;
    Ok(Row {
        path,
        leaf: Leaf::Element,
        outer: term.outer,
        inner: term.inner,
        content: Content::Term(added_term(term.number)),
        form: form_of_type(document_type, term.data_type),
        repeats: Repeats::Once,
        written: Written::Always,
        check: Check::Nothing,
    })
}

/// The same rows once more.
pub(crate) fn copy_of(alloc: Global, rows: &[Row]) -> Result<Binding, AllocError>
    requires few { length rows.now < 2 ^ 31 }
    requires steps { All HasSteps rows.now }
    requires numbers { All HasSmallNumbers rows.now }
    ensures { IfOk result (λ copy. copy ≡ rows.now) }
{
    let mut copy = Binding::new(alloc);
    match push_copies(alloc, &mut copy, rows) {
        Ok(()) => Ok(copy),
        Err(error) => {
            drop(copy);
            Err(error)
        }
    }
}

fn push_copies(alloc: Global, binding: &mut Binding, rows: &[Row]) -> Result<(), AllocError>
    requires few { length binding.old + length rows.now < 2 ^ 31 }
    requires steps { All HasSteps rows.now }
    requires numbers { All HasSmallNumbers rows.now }
    ensures { IfOk result (λ _. binding.new ≡ binding.old ++ rows.now) }
{
    'rows: for row in rows {
        binding.push(row.copied(alloc)?)?;
    }
    Ok(())
}

/// Puts the rows of terms behind a table's.
pub(crate) fn push_terms(
    binding: &mut Binding,
    document_type: DocumentType,
    terms: &[AddedTerm],
) -> Result<(), AllocError>
    requires { HasRooms document_type binding.old terms.now }
    ensures { IfOk result (λ _. binding.new ≡ spec.extended document_type binding.old terms.now) }
{
    'terms: for term in terms {
        binding.push_term(document_type, term)?;
    }
    Ok(())
}
