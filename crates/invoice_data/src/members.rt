//! What the members of objects tell: each in its turn, and what stands inside them.
ghost use Rattle.std.specs.Prelude.{◌≡◌, [], Some, OnOk};
ghost use Rattle.invoice_data.specs.Parts.{part, parts};
ghost use Rattle.invoice_data.specs.Told.{both};
ghost use Rattle.invoice_data.specs.Names as names;
ghost use Rattle.invoice_data.specs.Members as spec;

use crate::faults::{DataKind, DataName};
use crate::input::Input;
use crate::lacks::put_lacks;
use crate::names::{Member, Room, member_of, name_span, stands_before};
use crate::parts::split;
use crate::schemes::is_schemed;
use crate::telling::{Found, Telling};
use crate::values::{fault_at, tell_term};
use json_reading::{Item, ItemKind};
use std::alloc::AllocError;
use term_table::{Context, Group, Seat, Slot, Term};

/// What arrays tell that stand in an object.
pub(crate) trait Arrays {
    ghost use Rattle.invoice_data.specs.Members.{Arrays};

    ghost told: { Arrays };

    /// The value of a member that is named as the array of a group.
    fn tell(
        input: &Input<'_>,
        room: Room,
        group: Group,
        item: &Item,
        inside: &[Item],
        telling: &mut Telling,
    ) -> Result<(), AllocError>
        ensures { OnOk result (telling.new ≡ both telling.old (told input.now room group (part item.now inside.now))) };
}

/// No arrays, as in the objects inside a line.
pub(crate) struct NoArrays;

impl Arrays for NoArrays {
    ghost use Rattle.invoice_data.specs.Members.{no_arrays};

    ghost told = { no_arrays };

    #[tactic(auto, using(crate::proofs::ToldLemmas::same_both), unfolding(crate::specs::Members::no_arrays))]
    fn tell(
        _input: &Input<'_>,
        _room: Room,
        _group: Group,
        _item: &Item,
        _inside: &[Item],
        _telling: &mut Telling,
    ) -> Result<(), AllocError> {
        Ok(())
    }
}

/// The arrays in objects of the invoice, of which lines have some.
pub(crate) struct InnerArrays;

impl Arrays for InnerArrays {
    ghost use Rattle.invoice_data.specs.Members.{inner_arrays};

    ghost told = { inner_arrays };

    #[tactic(auto, unfolding(crate::specs::Members::inner_arrays))]
    fn tell(
        input: &Input<'_>,
        room: Room,
        group: Group,
        item: &Item,
        inside: &[Item],
        telling: &mut Telling,
    ) -> Result<(), AllocError> {
        tell_array::<NoArrays>(input, room, group, item, inside, telling)
    }
}

/// The arrays of the invoice itself.
pub(crate) struct OuterArrays;

impl Arrays for OuterArrays {
    ghost use Rattle.invoice_data.specs.Members.{outer_arrays};

    ghost told = { outer_arrays };

    #[tactic(auto, unfolding(crate::specs::Members::outer_arrays))]
    fn tell(
        input: &Input<'_>,
        room: Room,
        group: Group,
        item: &Item,
        inside: &[Item],
        telling: &mut Telling,
    ) -> Result<(), AllocError> {
        tell_array::<InnerArrays>(input, room, group, item, inside, telling)
    }
}

// ---- members

fn name_of(m: Member) -> DataName
    ensures { result ≡ spec.name_of m }
{
    match m {
        Member::Term(row) => DataName::Term(row.term),
        Member::Array(group) => DataName::Array(group),
        Member::PassedOver => DataName::Nothing,
    }
}

/// A member that the object knows, the first of its name.
#[tactic(auto, using(crate::proofs::ToldLemmas::same_both))]
fn tell_first<A: Arrays>(
    input: &Input<'_>,
    room: Room,
    m: Member,
    item: &Item,
    inside: &[Item],
    telling: &mut Telling,
) -> Result<(), AllocError>
    ensures { OnOk result (telling.new ≡ both telling.old (spec.first_told A.told input.now room (part item.now inside.now) m)) }
{
    match m {
        Member::Term(row) => tell_term(input, room, row, item, telling),
        Member::Array(group) => A::tell(input, room, group, item, inside, telling),
        Member::PassedOver => Ok(()),
    }
}

fn note(seen: &mut Vec<Member>, m: Member) -> Result<(), AllocError>
    ensures { OnOk result (seen.new.items ≡ spec.noted seen.old.items m) }
{
    match m {
        Member::Term(_) | Member::Array(_) => {
            seen.push(m)?;
            Ok(())
        }
        Member::PassedOver => Ok(()),
    }
}

/// A member that the object knows, behind those that were seen in it.
#[tactic(auto, unfolding(crate::specs::Members::known_told))]
fn tell_known<A: Arrays>(
    input: &Input<'_>,
    room: Room,
    m: Member,
    item: &Item,
    inside: &[Item],
    seen: &mut Vec<Member>,
    telling: &mut Telling,
) -> Result<(), AllocError>
    ensures told { OnOk result (telling.new ≡ both telling.old (spec.known_told A.told input.now room seen.old.items (part item.now inside.now) m)) }
    ensures seen { OnOk result (seen.new.items ≡ spec.seen_with seen.old.items (Some m)) }
{
    if stands_before(seen.as_slice(), m) {
        let at = name_span(item).at;
        return telling.put_fault(fault_at(DataKind::DuplicateMember, room, name_of(m), at));
    }
    match note(seen, m) {
        Ok(()) => tell_first::<A>(input, room, m, item, inside, telling),
        Err(error) => Err(error),
    }
}

fn tell_unknown(room: Room, item: &Item, telling: &mut Telling) -> Result<(), AllocError>
    ensures { OnOk result (telling.new ≡ both telling.old (spec.unknown room item.now)) }
{
    let name = name_span(item);
    telling.put_fault(fault_at(
        DataKind::UnknownMember,
        room,
        DataName::Spelled(name),
        name.at,
    ))
}

fn tell_member<A: Arrays>(
    input: &Input<'_>,
    room: Room,
    item: &Item,
    inside: &[Item],
    seen: &mut Vec<Member>,
    telling: &mut Telling,
) -> Result<(), AllocError>
    ensures told { OnOk result (telling.new ≡ both telling.old (spec.member_told A.told input.now room seen.old.items (part item.now inside.now)
        (names.member_of input.now room item.now))) }
    ensures seen { OnOk result (seen.new.items ≡ spec.seen_with seen.old.items (names.member_of input.now room item.now)) }
{
    match member_of(input, room, item) {
        Ok(Some(m)) => tell_known::<A>(input, room, m, item, inside, seen, telling),
        Ok(None) => tell_unknown(room, item, telling),
        Err(error) => Err(error),
    }
}

fn tell_each<A: Arrays>(
    input: &Input<'_>,
    room: Room,
    items: &[Item],
    seen: &mut Vec<Member>,
    telling: &mut Telling,
) -> Result<(), AllocError>
    ensures { OnOk result (telling.new ≡ both telling.old (spec.members_told A.told input.now room seen.old.items (parts items.now))) }
{
    let mut rest = items;
    'members: while let Some((item, behind)) = rest.split_first() {
        let (inside, next) = split(item, behind);
        match tell_member::<A>(input, room, item, inside, seen, telling) {
            Ok(()) => rest = next,
            Err(error) => return Err(error),
        }
    }
    Ok(())
}

fn tell_members<A: Arrays>(
    input: &Input<'_>,
    room: Room,
    items: &[Item],
    telling: &mut Telling,
) -> Result<(), AllocError>
    ensures { OnOk result (telling.new ≡ both telling.old (spec.members_told A.told input.now room [] (parts items.now))) }
{
    let mut seen = Vec::new(input.alloc);
    let told = tell_each::<A>(input, room, items, &mut seen, telling);
    drop(seen);
    told
}

// ---- objects

/// An object: its members, and behind them what it lacks.
#[tactic(auto, using(crate::proofs::ToldLemmas::both_assoc), unfolding(crate::specs::Members::object_told))]
fn tell_object<A: Arrays>(
    input: &Input<'_>,
    room: Room,
    item: &Item,
    inside: &[Item],
    telling: &mut Telling,
) -> Result<(), AllocError>
    ensures { OnOk result (telling.new ≡ both telling.old (spec.object_told A.told input.now room (part item.now inside.now))) }
{
    let count = telling.count();
    match tell_members::<A>(input, room, inside, telling) {
        Ok(()) => put_lacks(input.alloc, room, item.value.at, count, telling),
        Err(error) => Err(error),
    }
}

/// What stands where an object has to.
#[tactic(auto, unfolding(crate::specs::Members::element_told))]
pub(crate) fn tell_element<A: Arrays>(
    input: &Input<'_>,
    room: Room,
    item: &Item,
    inside: &[Item],
    telling: &mut Telling,
) -> Result<(), AllocError>
    ensures { OnOk result (telling.new ≡ both telling.old (spec.element_told A.told input.now room (part item.now inside.now))) }
{
    match item.kind {
        ItemKind::Object => tell_object::<A>(input, room, item, inside, telling),
        ItemKind::Array
        | ItemKind::Text
        | ItemKind::Number
        | ItemKind::True
        | ItemKind::False
        | ItemKind::Null => telling.put_fault(fault_at(
            DataKind::NotAnObject,
            room,
            DataName::Nothing,
            item.value.at,
        )),
    }
}

// ---- arrays

/// What stands before an object in its array: how many others, and how many of them in P-29S.
#[derive(Clone, Copy)]
pub struct Numbers {
    pub before: u32,
    pub schemed: u32,
}

/// The number behind another one, up to the last one of 32 bits.
fn up(n: u32) -> u32
    ensures { result ≡ spec.up n }
{
    n.saturating_add(1)
}

/// The occurrence inside a context.
fn inside_of(context: Context, group: Group, index: u32) -> Context
    ensures { result ≡ spec.inside context (spec.slot group index) }
{
    let slot = Some(Slot { group, index });
    match context.outer {
        None => Context {
            outer: slot,
            inner: None,
        },
        Some(outer) => Context {
            outer: Some(outer),
            inner: slot,
        },
    }
}

fn own_group(group: Group, schemed: bool) -> Group
    ensures { result ≡ spec.own_group group schemed }
{
    if !schemed && group.is_same(Group::SellerSchemedIdentifier) {
        Group::SellerIdentifier
    } else {
        group
    }
}

fn own_index(numbers: Numbers, schemed: bool) -> u32
    ensures { result ≡ spec.own_index numbers schemed }
{
    if schemed {
        up(numbers.schemed)
    } else {
        up(numbers.before).saturating_sub(numbers.schemed)
    }
}

/// Where the next object of an array stands.
#[tactic(auto, unfolding(crate::specs::Members::room_in))]
fn room_in(room: Room, group: Group, numbers: Numbers, schemed: bool) -> Room
    ensures { result ≡ spec.room_in room group numbers schemed }
{
    Room {
        context: inside_of(
            room.context,
            own_group(group, schemed),
            own_index(numbers, schemed),
        ),
        place: inside_of(room.place, group, up(numbers.before)),
    }
}

fn numbers_behind(numbers: Numbers, schemed: bool) -> Numbers
    ensures { result ≡ spec.numbers_behind numbers schemed }
{
    let before = up(numbers.before);
    if schemed {
        Numbers {
            before,
            schemed: up(numbers.schemed),
        }
    } else {
        Numbers {
            before,
            schemed: numbers.schemed,
        }
    }
}

const NO_NUMBERS: Numbers = Numbers {
    before: 0,
    schemed: 0,
};

/// The next of what stands in an array.
fn tell_next<A: Arrays>(
    input: &Input<'_>,
    room: Room,
    group: Group,
    numbers: &mut Numbers,
    item: &Item,
    inside: &[Item],
    telling: &mut Telling,
) -> Result<(), AllocError>
    ensures told { OnOk result (telling.new ≡ both telling.old (spec.element_told A.told input.now
        (spec.room_in room group numbers.old (spec.is_schemed input.now group inside.now)) (part item.now inside.now))) }
    ensures numbers { OnOk result (numbers.new ≡ spec.numbers_behind numbers.old (spec.is_schemed input.now group inside.now)) }
{
    match is_schemed(input, group, inside) {
        Ok(schemed) => {
            let own = room_in(room, group, *numbers, schemed);
            *numbers = numbers_behind(*numbers, schemed);
            tell_element::<A>(input, own, item, inside, telling)
        }
        Err(error) => Err(error),
    }
}

fn tell_elements<A: Arrays>(
    input: &Input<'_>,
    room: Room,
    group: Group,
    items: &[Item],
    telling: &mut Telling,
) -> Result<(), AllocError>
    ensures { OnOk result (telling.new ≡ both telling.old (spec.elements_told A.told input.now room group spec.no_numbers (parts items.now))) }
{
    let mut numbers = NO_NUMBERS;
    let mut rest = items;
    'elements: while let Some((item, behind)) = rest.split_first() {
        let (inside, next) = split(item, behind);
        match tell_next::<A>(input, room, group, &mut numbers, item, inside, telling) {
            Ok(()) => rest = next,
            Err(error) => return Err(error),
        }
    }
    Ok(())
}

/// That something stands where occurrences of the group do.
fn mark(room: Room, group: Group) -> Found
    ensures { result ≡ spec.mark room group }
{
    Found {
        seat: Seat {
            term: Term { number: 0, part: 0 },
            context: inside_of(room.context, group, 1),
        },
        value: None,
    }
}

#[tactic(auto, using(crate::proofs::ToldLemmas::same_both))]
fn put_mark(
    room: Room,
    group: Group,
    items: &[Item],
    telling: &mut Telling,
) -> Result<(), AllocError>
    ensures { OnOk result (telling.new ≡ both telling.old (spec.mark_told room group items.now)) }
{
    match items.split_first() {
        Some(_) => telling.put_found(mark(room, group)),
        None => Ok(()),
    }
}

/// The value of an array's member.
#[tactic(auto, using(crate::proofs::ToldLemmas::same_both, crate::proofs::ToldLemmas::both_assoc), unfolding(crate::specs::Members::array_told))]
fn tell_array<A: Arrays>(
    input: &Input<'_>,
    room: Room,
    group: Group,
    item: &Item,
    inside: &[Item],
    telling: &mut Telling,
) -> Result<(), AllocError>
    ensures { OnOk result (telling.new ≡ both telling.old (spec.array_told A.told input.now room group (part item.now inside.now))) }
{
    match item.kind {
        ItemKind::Null => Ok(()),
        ItemKind::Array => match put_mark(room, group, inside, telling) {
            Ok(()) => tell_elements::<A>(input, room, group, inside, telling),
            Err(error) => Err(error),
        },
        ItemKind::Object | ItemKind::Text | ItemKind::Number | ItemKind::True | ItemKind::False =>
            telling.put_faulty(
                mark(room, group),
                fault_at(
                    DataKind::NotAnArray,
                    room,
                    DataName::Array(group),
                    item.value.at,
                ),
            ),
    }
}
