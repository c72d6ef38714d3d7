ghost use Rattle.std.specs.Prelude.{◌≡◌, Some, None};
ghost use Rattle.std.specs.List.{list_all};
ghost use Rattle.bind_rows.specs.Added as spec;

use crate::names::Leaf;
use crate::rows::{Check, Content, Form, Repeats, Row, Step, Written};
use term_table::{DataType, Group};

/// The type that a form itself says. None, where it is that of the term.
pub fn data_type_of_form(form: Form) -> Option<DataType>
    ensures { result ≡ spec.data_type_of_form form }
{
    match form {
        Form::Typed(data_type) => Some(data_type),
        Form::TypedPlainDate => Some(DataType::D),
        Form::Model => None,
        Form::PlainDate => None,
        Form::DueDateTypeCode => None,
        Form::CodedNote => None,
    }
}

/// Whether a form says a type itself.
pub fn is_typed(form: Form) -> bool
    ensures { result ≡ spec.is_typed form }
{
    data_type_of_form(form).is_some()
}

fn is_added_type(data_type: Option<DataType>) -> bool
    ensures { result ≡ spec.is_added_type data_type }
{
    match data_type {
        None => false,
        Some(DataType::B) => false,
        Some(_) => true,
    }
}

fn adds_term(content: &Content) -> bool
    ensures { result ≡ spec.adds_term content.now }
{
    match content {
        Content::Term(term) => term.is_extension(),
        Content::Constant(_) => false,
    }
}

fn is_element(leaf: &Leaf) -> bool
    ensures { result ≡ spec.is_element leaf.now }
{
    match leaf {
        Leaf::Element => true,
        Leaf::Attribute(_) => false,
    }
}

fn is_once(repeats: Repeats) -> bool
    ensures { result ≡ spec.is_once repeats }
{
    match repeats {
        Repeats::Once => true,
        _ => false,
    }
}

fn is_always(written: &Written) -> bool
    ensures { result ≡ spec.is_always written.now }
{
    match written {
        Written::Always => true,
        _ => false,
    }
}

fn is_unjudged(check: Check) -> bool
    ensures { result ≡ spec.is_unjudged check }
{
    match check {
        Check::Nothing => true,
        _ => false,
    }
}

fn is_unguarded(step: &Step) -> bool
    ensures { result ≡ spec.is_unguarded step.now }
{
    step.guards.as_slice().len() == 0
}

fn are_unguarded(path: &[Step]) -> bool
    ensures { result ≡ list_all spec.is_unguarded path.now }
{
    path.iter().all(|step| is_unguarded(step))
}

fn is_line(group: Group) -> bool
    ensures { result ≡ spec.is_root_or_line (Some group) None }
{
    group == Group::InvoiceLine
}

fn is_root_or_line(outer: Option<Group>, inner: Option<Group>) -> bool
    ensures { result ≡ spec.is_root_or_line outer inner }
{
    match inner {
        None => match outer {
            None => true,
            Some(outer) => is_line(outer),
        },
        Some(_) => false,
    }
}

fn is_unmarked(row: &Row) -> bool
    ensures { result ≡ spec.is_unmarked row.now }
{
    is_element(&row.leaf)
        && are_unguarded(row.path.as_slice())
        && is_once(row.repeats)
        && is_always(&row.written)
        && is_unjudged(row.check)
        && is_added_type(data_type_of_form(row.form))
}

/// Whether a user added the row: it has one of the terms EXT-1 to EXT-99 in the invoice or in a line, a type, and no
/// attribute, guard or mark.
pub fn is_added(row: &Row) -> bool
    ensures { result ≡ spec.is_added row.now }
{
    adds_term(&row.content) && is_root_or_line(row.outer, row.inner) && is_unmarked(row)
}
