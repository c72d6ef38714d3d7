//! What is missing in each context of the document.
ghost use Rattle.std.specs.Prelude.{◌≡◌, ◌<◌, ◌-◌, List, All, map, flat_map, OnOk};
ghost use Rattle.term_table.specs.Runs.{IsInOrder, IsNested};
ghost use Rattle.bind_meaning.specs.Judging as spec;
ghost use Rattle.bind_meaning.specs.Faults.{violations_in};
ghost use Rattle.bind_meaning.specs.Kept.{all_kept_placed};
ghost use Rattle.bind_meaning.specs.Seats.{Placed, Room, rooms};
ghost use Rattle.bind_terms.specs.Faults.{found_of, Puts};
ghost use Rattle.bind_terms.specs.Inputs.{nodes_of, count};
ghost use Rattle.bind_terms.specs.Telling.{seat_of_first};
ghost use Rattle.bind_terms.specs.Steps.{IsWithin, IsSeatWithin};
ghost use Rattle.bind_terms.specs.Rooms.{AreKeysOf, SeesMore, SeesPick, room_key, room_at, missing_found};

use crate::firsts::First;
use crate::found::{Found, Side, Spot};
use crate::input::ReadingInput;
use crate::keeping::Keeper;
use crate::telling::context_of;
use bind_meaning::{BindFault, BindKind, PlacedPick, Seated as SeatAt};
use inv_base::Steps;
use inv_terms::{ModelViolation, Name, TermFault, all_missing};
use node_arena::NodeId;
use std::alloc::AllocError;
use std::collections::BTreeSet;
use std::sync::ledger::Ledger;
use term_table::{Context, ListingPlace, ROOT, place_at, run_near};

/// A input, with what was told in it first of each term in each context, in listing order.
#[derive(Clone, Copy)]
pub(crate) struct ToldInput<'t, 'd> {
    pub(crate) input: &'t ReadingInput<'t, 'd>,
    pub(crate) firsts: &'t [First],
}

/// The contexts in which it was told what is missing, and how many of what was told stand before the end of the last: there those of
/// the next are looked for first.
#[derive(Drop)]
struct SeenContexts {
    places: BTreeSet<ListingPlace>,
    end: usize,
}

/// Gives the keeper all that is missing: in the invoice itself, and in each occurrence of a group, of which the picks have
/// the elements. Each context is judged once, over what stands in it and inside it alone.
pub(crate) fn put_violations<L: Ledger, K: Keeper>(
    input: &ReadingInput<'_, '_>,
    firsts: &[First],
    picks: &[PlacedPick],
    keeper: &mut K,
    steps: &mut Steps<L>,
) -> Result<(), AllocError>
    requires order { IsInOrder (map seat_of_first firsts.now) }
    requires within { All (IsWithin (count input.now)) picks.now }
    ensures { OnOk result ((ps : List Placed) → picks.now ≡ all_kept_placed ps
        → Puts (K.given keeper.old) (K.given keeper.new) (flat_map (violations_in (nodes_of input.now) (map seat_of_first firsts.now)) (rooms ps))) }
{
    let told = ToldInput { input, firsts };
    put_violations_in(&told, ROOT, input.doc.root(), &mut 0, keeper, steps)?;
    let mut seen = SeenContexts {
        places: BTreeSet::new(input.alloc),
        end: 0,
    };
    let mut last = ROOT;
    'picks: for pick in picks {
        put_violations_of(&told, pick, last, &mut seen, keeper, steps)?;
        last = context_of(pick);
    }
    Ok(())
}

// The same in the contexts of a pick. Most picks stand where the one before stands, so those of its contexts are known to
// have been seen without a look at the others.
fn put_violations_of<L: Ledger, K: Keeper>(
    told: &ToldInput<'_, '_>,
    pick: &PlacedPick,
    last: Context,
    seen: &mut SeenContexts,
    keeper: &mut K,
    steps: &mut Steps<L>,
) -> Result<(), AllocError>
    requires order { IsInOrder (map seat_of_first told.now.firsts.now) }
    requires within { IsWithin (count told.now.input.now) pick.now }
    ensures { OnOk result (SeesPick (nodes_of told.now.input.now) (map seat_of_first told.now.firsts.now) pick.now last seen.old.places.keys
        seen.new.places.keys (K.given keeper.old) (K.given keeper.new)) }
{
    let context = context_of(pick);
    if context.is_same(last) {
        return Ok(());
    }
    if context.has_same_outer(last) {
        return put_violations_at(told, context, pick.inner, seen, keeper, steps);
    }
    let around = context.without_inner();
    put_violations_at(told, around, pick.outer, seen, keeper, steps)?;
    put_violations_at(told, context, pick.inner, seen, keeper, steps)
}

// The same in a context that has an element, unless it was seen before.
fn put_violations_at<L: Ledger, K: Keeper>(
    told: &ToldInput<'_, '_>,
    context: Context,
    seat: Option<SeatAt>,
    seen: &mut SeenContexts,
    keeper: &mut K,
    steps: &mut Steps<L>,
) -> Result<(), AllocError>
    requires order { IsInOrder (map seat_of_first told.now.firsts.now) }
    requires nested { IsNested context }
    requires within { IsSeatWithin (count told.now.input.now) seat }
    ensures { OnOk result ((before : List Room) → AreKeysOf before seen.old.places.keys
        → SeesMore (nodes_of told.now.input.now) (map seat_of_first told.now.firsts.now) before context seat seen.new.places.keys
        (K.given keeper.old) (K.given keeper.new)) }
{
    match seat {
        Some(seat) => {
            let added = seen.places.insert(key_of(context))?;
            if added {
                return put_violations_in(told, context, seat.element, &mut seen.end, keeper, steps);
            }
            Ok(())
        }
        None => Ok(()),
    }
}

// A place of the context among contexts. Row 181 is behind those of the terms, and no group begins there.
fn key_of(context: Context) -> ListingPlace
    ensures { result ≡ room_key context }
{
    place_at(181, context)
}

// The same in one context. What was told there is looked for at a place first, which becomes its end.
fn put_violations_in<L: Ledger, K: Keeper>(
    told: &ToldInput<'_, '_>,
    context: Context,
    element: NodeId,
    place: &mut usize,
    keeper: &mut K,
    steps: &mut Steps<L>,
) -> Result<(), AllocError>
    requires order { IsInOrder (map seat_of_first told.now.firsts.now) }
    requires nested { IsNested context }
    requires within { element < count told.now.input.now }
    ensures { OnOk result (Puts (K.given keeper.old) (K.given keeper.new)
        (violations_in (nodes_of told.now.input.now) (map seat_of_first told.now.firsts.now) (room_at context element))) }
{
    let run = run_near(told.firsts, context, *place);
    *place = run.end;
    let violations = all_missing(told.input.alloc, run.seats, context)?;
    let found = violations.as_slice();
    if found.is_empty() {
        drop(violations);
        return Ok(());
    }
    let last = told.input.doc.last_inside(element, steps);
    let put = put_each(found, context, element, last, keeper);
    drop(violations);
    put
}

fn put_each<K: Keeper>(
    violations: &[ModelViolation],
    context: Context,
    element: NodeId,
    last: NodeId,
    keeper: &mut K,
) -> Result<(), AllocError>
    ensures { OnOk result (Puts (K.given keeper.old) (K.given keeper.new) (map (missing_found context element last) violations.now)) }
{
    'violations: for violation in violations {
        keeper.put(found_at(*violation, context, element, last))?;
    }
    Ok(())
}

fn found_at(violation: ModelViolation, context: Context, element: NodeId, last: NodeId) -> Found
    ensures { found_of result ≡ missing_found context element last violation }
{
    Found {
        spot: Spot {
            node: last.number(),
            side: Side::Behind {
                around: around(context),
                place: violation.place,
            },
        },
        fault: BindFault {
            kind: BindKind::Missing,
            name: name_of(violation.fault),
            node: element,
        },
    }
}

// How many slots the context has fewer than two.
fn around(context: Context) -> u32
    ensures { result ≡ 2 - spec.depth context }
{
    match context.outer {
        Some(_) => match context.inner {
            Some(_) => 0,
            None => 1,
        },
        None => 2,
    }
}

fn name_of(fault: TermFault) -> Name
    ensures { result ≡ spec.name_of fault }
{
    match fault {
        TermFault::Missing(name) => name,
        TermFault::CodeNotListed(term) => Name::Term(term),
    }
}
