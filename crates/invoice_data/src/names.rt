ghost use Rattle.std.specs.Prelude.{◌≡◌, ◌++◌, ◌&&◌, IfOk, find, map, option_and_then, slice_get, bytes_eq};
ghost use Rattle.term_table.specs.SemanticModel.{same_term, terms};
ghost use Rattle.term_table.specs.Rows.{row_of};
ghost use Rattle.term_table.specs.Contexts.{has_context};
ghost use Rattle.invoice_json.specs.InvoiceJson.{array_name};
ghost use Rattle.invoice_data.specs.Names as spec;

use crate::guesses::{guessed, is_name_of};
use crate::input::Input;
use extension_files::{ExtPlace, ExtTerm};
use invoice_json::array_name;
use json_reading::{Item, Span};
use std::alloc::AllocError;
use term_table::{Context, Group, Mark, Term, TermRow, has_context, row_of, term_row};

/// An object of the text: the context of what stands in it, and the way to it, by arrays and the positions in them.
#[derive(Clone, Copy)]
pub struct Room {
    pub context: Context,
    pub place: Context,
}

/// What a member of an object is.
#[derive(Clone, Copy)]
pub enum Member {
    /// A term that stands in the object.
    Term(TermRow),
    /// An array of the occurrences of a group.
    Array(Group),
    /// How many elements of a document were passed over.
    PassedOver,
}

const OUTER_ARRAYS: [Group; 9] = [
    Group::InvoiceNote,
    Group::PrecedingInvoice,
    Group::SellerSchemedIdentifier,
    Group::CreditTransfer,
    Group::DocumentAllowance,
    Group::DocumentCharge,
    Group::VatBreakdown,
    Group::SupportingDocument,
    Group::InvoiceLine,
];

const LINE_ARRAYS: [Group; 4] = [
    Group::LineAllowance,
    Group::LineCharge,
    Group::ItemClassification,
    Group::ItemAttribute,
];

/// The groups that may be repeated in an object.
fn arrays_in(room: Room) -> &'static [Group]
    ensures { result.now ≡ spec.arrays_in room }
{
    match (room.place.outer_group(), room.place.inner_group()) {
        (None, _) => &OUTER_ARRAYS,
        (Some(outer), None) => {
            if outer.is_same(Group::InvoiceLine) {
                &LINE_ARRAYS
            } else {
                &[]
            }
        }
        (Some(_), Some(_)) => &[],
    }
}

fn array_among(arrays: &[Group], name: &[u8]) -> Option<Group>
    ensures { result ≡ find (λ group. bytes_eq (array_name group) name.now) arrays.now }
{
    'arrays: for group in arrays {
        if array_name(*group).as_bytes() == name {
            return Some(*group);
        }
    }
    None
}

#[tactic(auto, unfolding(crate::specs::Names::array_named))]
fn array_named(room: Room, name: &[u8]) -> Option<Group>
    ensures { result ≡ spec.array_named room name.now }
{
    array_among(arrays_in(room), name)
}

fn group_at(place: ExtPlace) -> Group
    ensures { result ≡ spec.group_at place }
{
    match place {
        ExtPlace::Root => Group::Root,
        ExtPlace::Line => Group::InvoiceLine,
    }
}

/// The row of a term that a table adds.
fn added_row(e: &ExtTerm) -> TermRow
    ensures { result ≡ spec.added_row e.now }
{
    TermRow {
        term: Term {
            number: 1000 + u16::from(e.number),
            part: 0,
        },
        group: group_at(e.place),
        data_type: e.data_type,
        mark: Mark::Optional,
        list: None,
    }
}

/// Whether the row is that of the term in such an object.
fn is_row_in(term: Term, room: Room, row: &TermRow) -> bool
    ensures { result ≡ (same_term row.now.term term && has_context row.now.group room.place) }
{
    row.term.is_same(term) && has_context(row.group, room.place)
}

/// The row of an added term in an object.
fn added_in(added: &[ExtTerm], term: Term, room: Room) -> Option<TermRow>
    ensures { result ≡ find (λ row. same_term row.term term && has_context row.group room.place) (map spec.added_row added.now) }
{
    'added: for e in added {
        let row = added_row(e);
        if is_row_in(term, room, &row) {
            return Some(row);
        }
    }
    None
}

/// The row of a term of the model in an object.
fn model_row_in(term: Term, room: Room) -> Option<TermRow>
    ensures { result ≡ option_and_then (slice_get terms) (row_of term room.place) }
{
    match row_of(term, room.place) {
        Some(row) => term_row(row),
        None => None,
    }
}

/// The row of a term in an object.
fn row_in_room(added: &[ExtTerm], term: Term, room: Room) -> Option<TermRow>
    ensures { result ≡ find (λ row. same_term row.term term && has_context row.group room.place) (terms ++ map spec.added_row added.now) }
{
    match model_row_in(term, room) {
        Some(row) => Some(row),
        None => added_in(added, term, room),
    }
}

/// The term of the object that reads as the name. No term but the one that is guessed does.
fn row_named(input: &Input<'_>, room: Room, name: &[u8]) -> Option<TermRow>
    ensures { result ≡ spec.row_named input.now room name.now }
{
    let added = input.added;
    let term = guessed(name);
    if !is_name_of(term, name) {
        return None;
    }
    row_in_room(added, term, room)
}

fn passed_named(room: Room, name: &[u8]) -> Option<Member>
    ensures { result ≡ spec.passed_named room name.now }
{
    match room.place.outer_group() {
        None => {
            if name == b"passed_over".as_slice() {
                Some(Member::PassedOver)
            } else {
                None
            }
        }
        Some(_) => None,
    }
}

/// What a name names in an object.
#[tactic(auto, unfolding(crate::specs::Names::member_named))]
fn member_named(input: &Input<'_>, room: Room, name: &[u8]) -> Option<Member>
    ensures { result ≡ spec.member_named input.now room name.now }
{
    if let Some(row) = row_named(input, room, name) {
        return Some(Member::Term(row));
    }
    if let Some(group) = array_named(room, name) {
        return Some(Member::Array(group));
    }
    passed_named(room, name)
}

/// Where a member's name is spelled. Each member of an object has a name.
pub(crate) fn name_span(item: &Item) -> Span
    ensures { result ≡ spec.name_span item.now }
{
    item.name.unwrap_or(item.value)
}

/// What an item is in an object.
#[tactic(auto, unfolding(crate::specs::Names::member_of))]
pub(crate) fn member_of(
    input: &Input<'_>,
    room: Room,
    item: &Item,
) -> Result<Option<Member>, AllocError>
    ensures { IfOk result (λ found. found ≡ spec.member_of input.now room item.now) }
{
    match input.text_of(name_span(item)) {
        Ok(Some(name)) => {
            let member = member_named(input, room, name.as_bytes());
            drop(name);
            Ok(member)
        }
        Ok(None) => Ok(None),
        Err(error) => Err(error),
    }
}

/// Whether both are one member, if each stands in the same object.
fn is_same(a: Member, b: Member) -> bool
    ensures { result ≡ spec.same_member a b }
{
    match (a, b) {
        (Member::Term(a), Member::Term(b)) => a.term.is_same(b.term),
        (Member::Array(a), Member::Array(b)) => a.is_same(b),
        _ => false,
    }
}

/// Whether the member is among those that were seen.
pub(crate) fn stands_before(seen: &[Member], m: Member) -> bool
    ensures { result ≡ spec.stands_before seen.now m }
{
    'seen: for other in seen {
        if is_same(m, *other) {
            return true;
        }
    }
    false
}
