//! The evaluation of works. It recurses only where expressions are nested: operands, steps, predicates, arguments and
//! bindings are gone through by loops.
ghost use Rattle.std.specs.Prelude.{◌≡◌, ℕ, ◌<◌, ◌+◌, ◌∷◌, true, false, drop, length, take, IfOk, if◌then◌else◌};
ghost use Rattle.node_arena.specs.Moves.{tree_nodes};
ghost use Rattle.xpath_items.specs.Faults.{Gives};
ghost use Rattle.xpath_meaning.specs.Meaning.{means};
ghost use Rattle.xpath_meaning.specs.Resolving.{in_axis_order, chained, bound_all, chosen_of, filtered_of, arguments_of, first_part};
ghost use Rattle.xpath_meaning.specs.Steps as steps_spec;
ghost use Rattle.xpath_meaning.specs.Values as values_spec;
ghost use Rattle.xpath_meaning.specs.Values.{then_};
ghost use Rattle.xpath_operators.specs.Nodes.{AreWithin, AllWithin};
ghost use Rattle.xpath_plan.specs.Plans.{seen, made};
ghost use Rattle.xpath_parts.specs.Contexts.{IsReady, IsReadyFor, context, count, operands_of, turn_in, value_in};
ghost use Rattle.xpath_parts.specs.Finishing.{is_strict};
ghost use Rattle.xpath_parts.specs.Slots.{AreHeld, Grows, PlacedWork, PlacedParts, PlacedNode};
ghost use Rattle.xpath_parts.specs.Links as links;
ghost use Rattle.xpath_steps.specs.Variables.{ValueWithin};

use inv_base::Steps;
use std::alloc::AllocError;
use std::sync::ledger::Ledger;
use xpath_grammar::operators::Binder;
use xpath_items::{DynError, Fault, Focus, Item, Outcome, Seq};
use xpath_operators::{outcome, truth};
use xpath_parts::at_hand::{operated_at_hand, told_at_hand, unkept_argument};
use xpath_parts::calling::value_of;
use xpath_parts::finishing::{finished, wanted};
use xpath_parts::linking::{Ahead, ahead_of, joined_by, step_inside, test_inside};
use xpath_parts::parts::{
    append_found, as_step, first, is_filtered_step, is_light, is_operator, keep_if, part_at, sole,
};
use xpath_parts::simple::{simple, simple_in_axis_order};
use xpath_parts::turns::{Turn, advance, decided, ended, take_turn};
use xpath_parts::values::Values;
use xpath_parts::{DynamicContext, Slots};
use xpath_plan::plan_node::{Operation, PlanNode, Separator};
use xpath_steps::{all_nodes, copy_of, is_node, keeps, of_turns, root_of, settled, steps_over};
use xpath_walks::Step;

/// The value of a work at a focus, inside the variables that are bound around it.
#[cycle(evaluating)]
pub fn evaluate<'a, L: Ledger>(
    dynamic: &DynamicContext<'_, 'a>,
    work: &'a PlanNode,
    focus: &Focus<'a>,
    bound: &mut Vec<Item<'a>>,
    slots: &mut Slots<'a>,
    steps: &mut Steps<L>,
) -> Result<Seq<'a>, Fault>
    requires ready { IsReady dynamic.now focus.now bound.old.items }
    requires placed { PlacedWork dynamic.now work.now }
    requires slots { AreHeld dynamic.now slots.old }
    ensures value { Gives result (value_in dynamic.now (seen dynamic.now.names.now work.now) focus.now bound.old.items) }
    ensures within { IfOk result (λ items. AreWithin (count dynamic.now) items) }
    ensures kept { bound.new.items ≡ bound.old.items }
    ensures held { AreHeld dynamic.now slots.new }
    ensures grown { Grows slots.old slots.new }
{
    match work {
        PlanNode::Simple(x) => simple(dynamic, x, focus, bound.as_slice(), steps),
        PlanNode::Node(kind, parts) => by_kind(
            dynamic,
            kind,
            parts.as_slice(),
            focus,
            bound,
            slots,
            steps,
        ),
    }
}

/// What a kind makes of its parts.
#[cycle(evaluating)]
fn by_kind<'a, L: Ledger>(
    dynamic: &DynamicContext<'_, 'a>,
    kind: &Operation,
    parts: &'a [(Separator, PlanNode)],
    focus: &Focus<'a>,
    bound: &mut Vec<Item<'a>>,
    slots: &mut Slots<'a>,
    steps: &mut Steps<L>,
) -> Result<Seq<'a>, Fault>
    requires ready { IsReady dynamic.now focus.now bound.old.items }
    requires placed { PlacedNode dynamic.now kind.now parts.now }
    requires slots { AreHeld dynamic.now slots.old }
    ensures value { Gives result (value_in dynamic.now (made kind.now (operands_of dynamic.now.names.now parts.now)) focus.now bound.old.items) }
    ensures within { IfOk result (λ items. AreWithin (count dynamic.now) items) }
    ensures kept { bound.new.items ≡ bound.old.items }
    ensures held { AreHeld dynamic.now slots.new }
    ensures grown { Grows slots.old slots.new }
{
    match kind {
        Operation::Chain => chain(dynamic, parts, focus, bound, slots, steps),
        Operation::Bound(binder) => bind(dynamic, *binder, parts, focus, bound, slots, steps),
        Operation::Conditional => choose(dynamic, parts, focus, bound, slots, steps),
        Operation::FilteredStep | Operation::FreeStep => {
            let items = filter(dynamic, true, parts, focus, bound, slots, steps)?;
            settled(dynamic.alloc, dynamic.doc, items)
        }
        Operation::Filtered => filter(dynamic, false, parts, focus, bound, slots, steps),
        Operation::Once(slot, height) => once(
            dynamic, *slot, *height, parts, focus, bound, slots, steps,
        ),
        Operation::Cast(_, _, _)
        | Operation::Signs(_)
        | Operation::Only
        | Operation::Call(_)
        | Operation::Matches(_)
        | Operation::Nothing => finish(dynamic, kind, parts, focus, bound, slots, steps),
    }
}

/// What a kind makes of the values of its parts. Of an argument that is at hand, of which nothing but the number of items is
/// looked at, that is looked at where it lies. One that is kept is put there first.
#[cycle(evaluating)]
fn finish<'a, L: Ledger>(
    dynamic: &DynamicContext<'_, 'a>,
    kind: &Operation,
    parts: &'a [(Separator, PlanNode)],
    focus: &Focus<'a>,
    bound: &mut Vec<Item<'a>>,
    slots: &mut Slots<'a>,
    steps: &mut Steps<L>,
) -> Result<Seq<'a>, Fault>
    requires strict { is_strict kind.now ≡ true }
    requires ready { IsReady dynamic.now focus.now bound.old.items }
    requires placed { PlacedNode dynamic.now kind.now parts.now }
    requires slots { AreHeld dynamic.now slots.old }
    ensures value { Gives result (value_in dynamic.now (made kind.now (operands_of dynamic.now.names.now parts.now)) focus.now bound.old.items) }
    ensures within { IfOk result (λ items. AreWithin (count dynamic.now) items) }
    ensures kept { bound.new.items ≡ bound.old.items }
    ensures held { AreHeld dynamic.now slots.new }
    ensures grown { Grows slots.old slots.new }
{
    keep_argument(dynamic, kind, parts, focus, bound, slots, steps)?;
    match told_at_hand(&*dynamic, kind, parts, focus, bound.as_slice(), slots) {
        Some(found) => found,
        None => {
            let values = values_of(dynamic, wanted(kind, parts), focus, bound, slots, steps)?;
            finished(dynamic.alloc, dynamic.doc, kind, focus, values)
        }
    }
}

/// Evaluates the argument of a call that looks at nothing but how many items it has, where it is kept and its slot is empty. What
/// was found goes into the slot as it is.
#[cycle(evaluating)]
fn keep_argument<'a, L: Ledger>(
    dynamic: &DynamicContext<'_, 'a>,
    kind: &Operation,
    parts: &'a [(Separator, PlanNode)],
    focus: &Focus<'a>,
    bound: &mut Vec<Item<'a>>,
    slots: &mut Slots<'a>,
    steps: &mut Steps<L>,
) -> Result<(), AllocError>
    requires ready { IsReady dynamic.now focus.now bound.old.items }
    requires placed { PlacedParts dynamic.now parts.now }
    requires slots { AreHeld dynamic.now slots.old }
    ensures kept { bound.new.items ≡ bound.old.items }
    ensures held { AreHeld dynamic.now slots.new }
    ensures grown { Grows slots.old slots.new }
{
    match unkept_argument(kind, parts, focus, bound.as_slice(), slots) {
        Some((slot, part)) => {
            let found = evaluate(dynamic, part, focus, bound, slots, steps);
            slots.keep(slot, outcome(found)?);
            Ok(())
        }
        None => Ok(()),
    }
}

/// The first part, whose value is kept in the slot where it is evaluated at a node and inside so many bound variables. It
/// is evaluated once. A part whose value costs nothing, or is kept inside it, needs no slot.
#[cycle(evaluating)]
fn once<'a, L: Ledger>(
    dynamic: &DynamicContext<'_, 'a>,
    slot: usize,
    height: usize,
    parts: &'a [(Separator, PlanNode)],
    focus: &Focus<'a>,
    bound: &mut Vec<Item<'a>>,
    slots: &mut Slots<'a>,
    steps: &mut Steps<L>,
) -> Result<Seq<'a>, Fault>
    requires ready { IsReady dynamic.now focus.now bound.old.items }
    requires placed { PlacedNode dynamic.now (Operation.Once slot height) parts.now }
    requires slots { AreHeld dynamic.now slots.old }
    ensures value { Gives result (value_in dynamic.now (first_part (operands_of dynamic.now.names.now parts.now)) focus.now bound.old.items) }
    ensures within { IfOk result (λ items. AreWithin (count dynamic.now) items) }
    ensures kept { bound.new.items ≡ bound.old.items }
    ensures held { AreHeld dynamic.now slots.new }
    ensures grown { Grows slots.old slots.new }
{
    let Some(part) = first(parts) else {
        return Ok(Seq::new(dynamic.alloc));
    };
    if !is_node(&focus.item) || bound.len() != height || is_light(part) {
        return evaluate(dynamic, part, focus, bound, slots, steps);
    }
    match slots.lent(slot) {
        Some(found) => copy_of(dynamic.alloc, found),
        None => {
            let found = evaluate(dynamic, part, focus, bound, slots, steps);
            let kept = outcome(found)?;
            value_of(slots.fill(dynamic.alloc, slot, kept)?)
        }
    }
}

/// The values of all parts, or the first error.
#[cycle(evaluating)]
fn values_of<'a, L: Ledger>(
    dynamic: &DynamicContext<'_, 'a>,
    parts: &'a [(Separator, PlanNode)],
    focus: &Focus<'a>,
    bound: &mut Vec<Item<'a>>,
    slots: &mut Slots<'a>,
    steps: &mut Steps<L>,
) -> Result<Values<'a>, Fault>
    requires ready { IsReady dynamic.now focus.now bound.old.items }
    requires placed { PlacedParts dynamic.now parts.now }
    requires slots { AreHeld dynamic.now slots.old }
    ensures value { Gives result (means (tree_nodes dynamic.now.doc.now) (arguments_of (operands_of dynamic.now.names.now parts.now))
        (context dynamic.now focus.now bound.old.items)) }
    ensures within { IfOk result (λ values. AllWithin (count dynamic.now) values) }
    ensures kept { bound.new.items ≡ bound.old.items }
    ensures held { AreHeld dynamic.now slots.new }
    ensures grown { Grows slots.old slots.new }
{
    let mut values = Values::new(dynamic.alloc);
    'parts: for part in parts {
        match evaluate(dynamic, &part.1, focus, bound, slots, steps) {
            Ok(value) => values.push(value)?,
            Err(fault) => return Err(fault),
        }
    }
    Ok(values)
}

/// `if`.
#[cycle(evaluating)]
fn choose<'a, L: Ledger>(
    dynamic: &DynamicContext<'_, 'a>,
    parts: &'a [(Separator, PlanNode)],
    focus: &Focus<'a>,
    bound: &mut Vec<Item<'a>>,
    slots: &mut Slots<'a>,
    steps: &mut Steps<L>,
) -> Result<Seq<'a>, Fault>
    requires ready { IsReady dynamic.now focus.now bound.old.items }
    requires placed { PlacedParts dynamic.now parts.now }
    requires slots { AreHeld dynamic.now slots.old }
    ensures value { Gives result (value_in dynamic.now (chosen_of (operands_of dynamic.now.names.now parts.now)) focus.now bound.old.items) }
    ensures within { IfOk result (λ items. AreWithin (count dynamic.now) items) }
    ensures kept { bound.new.items ≡ bound.old.items }
    ensures held { AreHeld dynamic.now slots.new }
    ensures grown { Grows slots.old slots.new }
{
    match parts {
        [(_, condition), (_, then), (_, otherwise)] => {
            let found = evaluate(dynamic, condition, focus, bound, slots, steps)?;
            let holds = truth(&found)?;
            if holds {
                evaluate(dynamic, then, focus, bound, slots, steps)
            } else {
                evaluate(dynamic, otherwise, focus, bound, slots, steps)
            }
        }
        _ => Ok(Seq::new(dynamic.alloc)),
    }
}

/// Operands with what stands between them, taken from the left. A path that begins with an operator begins at the root.
#[cycle(evaluating)]
fn chain<'a, L: Ledger>(
    dynamic: &DynamicContext<'_, 'a>,
    parts: &'a [(Separator, PlanNode)],
    focus: &Focus<'a>,
    bound: &mut Vec<Item<'a>>,
    slots: &mut Slots<'a>,
    steps: &mut Steps<L>,
) -> Result<Seq<'a>, Fault>
    requires ready { IsReady dynamic.now focus.now bound.old.items }
    requires placed { PlacedParts dynamic.now parts.now }
    requires slots { AreHeld dynamic.now slots.old }
    ensures value { Gives result (value_in dynamic.now (chained (operands_of dynamic.now.names.now parts.now)) focus.now bound.old.items) }
    ensures within { IfOk result (λ items. AreWithin (count dynamic.now) items) }
    ensures kept { bound.new.items ≡ bound.old.items }
    ensures held { AreHeld dynamic.now slots.new }
    ensures grown { Grows slots.old slots.new }
{
    let Some((first, others)) = parts.split_first() else {
        return Ok(Seq::new(dynamic.alloc));
    };
    if is_operator(first.0) {
        let root = root_of(dynamic.alloc, dynamic.doc, &focus.item);
        links_on(dynamic, outcome(root)?, parts, focus, bound, slots, steps)
    } else {
        let found = evaluate(dynamic, &first.1, focus, bound, slots, steps);
        links_on(dynamic, outcome(found)?, others, focus, bound, slots, steps)
    }
}

/// The value of a chain behind a value.
#[cycle(evaluating)]
fn links_on<'a, L: Ledger>(
    dynamic: &DynamicContext<'_, 'a>,
    before: Outcome<'a>,
    parts: &'a [(Separator, PlanNode)],
    focus: &Focus<'a>,
    bound: &mut Vec<Item<'a>>,
    slots: &mut Slots<'a>,
    steps: &mut Steps<L>,
) -> Result<Seq<'a>, Fault>
    requires ready { IsReady dynamic.now focus.now bound.old.items }
    requires before { ValueWithin (count dynamic.now) (values_spec.value before) }
    requires placed { PlacedParts dynamic.now parts.now }
    requires slots { AreHeld dynamic.now slots.old }
    ensures value { Gives result (links.chain_value (tree_nodes dynamic.now.doc.now) (links.linked_parts dynamic.now.names.now parts.now)
        (values_spec.value before.entry) (context dynamic.now focus.now bound.old.items)) }
    ensures within { IfOk result (λ items. AreWithin (count dynamic.now) items) }
    ensures kept { bound.new.items ≡ bound.old.items }
    ensures held { AreHeld dynamic.now slots.new }
    ensures grown { Grows slots.old slots.new }
{
    let mut so_far = before;
    'parts: for part in parts {
        so_far = link_on(dynamic, so_far, part.0, &part.1, focus, bound, slots, steps)?;
    }
    value_of(so_far)
}

/// The value of an operand that is linked to a value.
#[cycle(evaluating)]
fn link_on<'a, L: Ledger>(
    dynamic: &DynamicContext<'_, 'a>,
    before: Outcome<'a>,
    link: Separator,
    work: &'a PlanNode,
    focus: &Focus<'a>,
    bound: &mut Vec<Item<'a>>,
    slots: &mut Slots<'a>,
    steps: &mut Steps<L>,
) -> Result<Outcome<'a>, AllocError>
    requires ready { IsReady dynamic.now focus.now bound.old.items }
    requires before { ValueWithin (count dynamic.now) (values_spec.value before) }
    requires placed { PlacedWork dynamic.now work.now }
    requires slots { AreHeld dynamic.now slots.old }
    ensures value { IfOk result (λ outcome. values_spec.value outcome ≡ links.linked_value (tree_nodes dynamic.now.doc.now) link (values_spec.value
        before.entry)
        (seen dynamic.now.names.now work.now) (context dynamic.now focus.now bound.old.items)) }
    ensures within { IfOk result (λ outcome. ValueWithin (count dynamic.now) (values_spec.value outcome)) }
    ensures kept { bound.new.items ≡ bound.old.items }
    ensures held { AreHeld dynamic.now slots.new }
    ensures grown { Grows slots.old slots.new }
{
    if let Some(test) = test_inside(link, work) {
        return step_inside(dynamic, before, test, steps);
    }
    match ahead_of(dynamic, before, link, steps)? {
        Ahead::Done(done) => Ok(done),
        Ahead::Operand(xs) => operand(dynamic, link, xs, work, focus, bound, slots, steps),
        Ahead::Turns(xs) => outcome(path(dynamic, xs, work, bound, slots, steps)),
    }
}

/// What the value before a link and the operand's come to, where the first doesn't decide. An operand that is at hand is looked at
/// where it lies.
#[cycle(evaluating)]
fn operand<'a, L: Ledger>(
    dynamic: &DynamicContext<'_, 'a>,
    link: Separator,
    xs: Seq<'a>,
    work: &'a PlanNode,
    focus: &Focus<'a>,
    bound: &mut Vec<Item<'a>>,
    slots: &mut Slots<'a>,
    steps: &mut Steps<L>,
) -> Result<Outcome<'a>, AllocError>
    requires ready { IsReady dynamic.now focus.now bound.old.items }
    requires xs { AreWithin (count dynamic.now) xs }
    requires placed { PlacedWork dynamic.now work.now }
    requires slots { AreHeld dynamic.now slots.old }
    ensures value { IfOk result (λ outcome. values_spec.value outcome ≡ then_
        (value_in dynamic.now (seen dynamic.now.names.now work.now) focus.now bound.old.items)
        (links.joined_by (tree_nodes dynamic.now.doc.now) link xs.entry)) }
    ensures within { IfOk result (λ outcome. ValueWithin (count dynamic.now) (values_spec.value outcome)) }
    ensures kept { bound.new.items ≡ bound.old.items }
    ensures held { AreHeld dynamic.now slots.new }
    ensures grown { Grows slots.old slots.new }
{
    let at_hand = operated_at_hand(
        &*dynamic,
        link,
        xs.as_slice(),
        work,
        focus,
        bound.as_slice(),
        slots,
    );
    match at_hand {
        Some(found) => {
            drop(xs);
            outcome(found)
        }
        None => match evaluate(dynamic, work, focus, bound, slots, steps) {
            Ok(ys) => outcome(joined_by(dynamic, link, xs, ys)),
            Err(Fault::Error(error)) => Ok(Outcome::Error(error)),
            Err(Fault::Memory) => Err(AllocError),
        },
    }
}

/// A path's step at each item. A step without predicates goes on from all items at once.
#[cycle(evaluating)]
fn path<'a, L: Ledger>(
    dynamic: &DynamicContext<'_, 'a>,
    items: Seq<'a>,
    work: &'a PlanNode,
    bound: &mut Vec<Item<'a>>,
    slots: &mut Slots<'a>,
    steps: &mut Steps<L>,
) -> Result<Seq<'a>, Fault>
    requires ready { IsReadyFor dynamic.now bound.old.items }
    requires items { AreWithin (count dynamic.now) items }
    requires placed { PlacedWork dynamic.now work.now }
    requires slots { AreHeld dynamic.now slots.old }
    ensures value { Gives result (steps_spec.path (tree_nodes dynamic.now.doc.now)
        (turn_in dynamic.now (seen dynamic.now.names.now work.now) bound.old.items) items.entry) }
    ensures within { IfOk result (λ items. AreWithin (count dynamic.now) items) }
    ensures kept { bound.new.items ≡ bound.old.items }
    ensures held { AreHeld dynamic.now slots.new }
    ensures grown { Grows slots.old slots.new }
{
    match as_step(work) {
        Some((axis, test)) => {
            let step = Step {
                axis,
                test,
                numbers: dynamic.numbers,
            };
            steps_over(dynamic.alloc, dynamic.doc, &step, items.as_slice(), steps)
        }
        None => {
            if all_nodes(items.as_slice()) {
                let out = turns(dynamic, items, work, bound, slots, steps)?;
                of_turns(dynamic.alloc, dynamic.doc, out)
            } else {
                Err(Fault::Error(DynError::XPTY0019))
            }
        }
    }
}

/// The values at each item, one behind the other.
#[cycle(evaluating)]
fn turns<'a, L: Ledger>(
    dynamic: &DynamicContext<'_, 'a>,
    items: Seq<'a>,
    work: &'a PlanNode,
    bound: &mut Vec<Item<'a>>,
    slots: &mut Slots<'a>,
    steps: &mut Steps<L>,
) -> Result<Seq<'a>, Fault>
    requires ready { IsReadyFor dynamic.now bound.old.items }
    requires items { AreWithin (count dynamic.now) items }
    requires placed { PlacedWork dynamic.now work.now }
    requires slots { AreHeld dynamic.now slots.old }
    ensures value { Gives result (steps_spec.turns (turn_in dynamic.now (seen dynamic.now.names.now work.now) bound.old.items)
        (length items.entry) 1 items.entry) }
    ensures within { IfOk result (λ items. AreWithin (count dynamic.now) items) }
    ensures kept { bound.new.items ≡ bound.old.items }
    ensures held { AreHeld dynamic.now slots.new }
    ensures grown { Grows slots.old slots.new }
{
    let items = items.into_items();
    let last = items.len() as u64;
    let mut position = 0;
    let mut out = Seq::new(dynamic.alloc);
    'items: for item in items {
        position += 1;
        let focus = Focus {
            item,
            position,
            last,
        };
        let found = evaluate(dynamic, work, &focus, bound, slots, steps)?;
        append_found(&mut out, found, focus)?;
    }
    Ok(out)
}

/// The first part with the predicates behind it. A step's predicates count in the order of its axis.
#[cycle(evaluating)]
fn filter<'a, L: Ledger>(
    dynamic: &DynamicContext<'_, 'a>,
    is_step: bool,
    parts: &'a [(Separator, PlanNode)],
    focus: &Focus<'a>,
    bound: &mut Vec<Item<'a>>,
    slots: &mut Slots<'a>,
    steps: &mut Steps<L>,
) -> Result<Seq<'a>, Fault>
    requires ready { IsReady dynamic.now focus.now bound.old.items }
    requires placed { PlacedParts dynamic.now parts.now }
    requires slots { AreHeld dynamic.now slots.old }
    ensures value { Gives result (value_in dynamic.now (links.filtered_so is_step (operands_of dynamic.now.names.now parts.now)) focus.now bound.old.items) }
    ensures within { IfOk result (λ items. AreWithin (count dynamic.now) items) }
    ensures kept { bound.new.items ≡ bound.old.items }
    ensures held { AreHeld dynamic.now slots.new }
    ensures grown { Grows slots.old slots.new }
{
    let Some((first, predicates)) = parts.split_first() else {
        return Ok(Seq::new(dynamic.alloc));
    };
    if is_step {
        match along_axis(dynamic, &first.1, focus, bound, slots, steps) {
            Ok(nodes) => keep_all(dynamic, nodes, predicates, bound, slots, steps),
            Err(fault) => Err(fault),
        }
    } else {
        match evaluate(dynamic, &first.1, focus, bound, slots, steps) {
            Ok(items) => keep_all(dynamic, items, predicates, bound, slots, steps),
            Err(fault) => Err(fault),
        }
    }
}

/// The items that predicates keep, one predicate after the other.
#[cycle(evaluating)]
fn keep_all<'a, L: Ledger>(
    dynamic: &DynamicContext<'_, 'a>,
    items: Seq<'a>,
    predicates: &'a [(Separator, PlanNode)],
    bound: &mut Vec<Item<'a>>,
    slots: &mut Slots<'a>,
    steps: &mut Steps<L>,
) -> Result<Seq<'a>, Fault>
    requires ready { IsReadyFor dynamic.now bound.old.items }
    requires items { AreWithin (count dynamic.now) items }
    requires placed { PlacedParts dynamic.now predicates.now }
    requires slots { AreHeld dynamic.now slots.old }
    ensures value { Gives result (links.kept_by_all (λ e. turn_in dynamic.now e bound.old.items) (operands_of dynamic.now.names.now predicates.now)
        items.entry) }
    ensures within { IfOk result (λ items. AreWithin (count dynamic.now) items) }
    ensures kept { bound.new.items ≡ bound.old.items }
    ensures held { AreHeld dynamic.now slots.new }
    ensures grown { Grows slots.old slots.new }
{
    let mut kept = items;
    'predicates: for predicate in predicates {
        match keep(dynamic, kept, &predicate.1, bound, slots, steps) {
            Ok(items) => kept = items,
            Err(fault) => return Err(fault),
        }
    }
    Ok(kept)
}

/// Whether a predicate of this value keeps the item at the position.
fn judged(position: u64, answer: Seq<'_>) -> Result<bool, DynError>
    ensures { result ≡ steps_spec.keeps position answer.entry }
{
    let is_kept = keeps(position, &answer);
    drop(answer);
    is_kept
}

/// The items that a predicate keeps.
#[cycle(evaluating)]
fn keep<'a, L: Ledger>(
    dynamic: &DynamicContext<'_, 'a>,
    items: Seq<'a>,
    predicate: &'a PlanNode,
    bound: &mut Vec<Item<'a>>,
    slots: &mut Slots<'a>,
    steps: &mut Steps<L>,
) -> Result<Seq<'a>, Fault>
    requires ready { IsReadyFor dynamic.now bound.old.items }
    requires items { AreWithin (count dynamic.now) items }
    requires placed { PlacedWork dynamic.now predicate.now }
    requires slots { AreHeld dynamic.now slots.old }
    ensures value { Gives result (steps_spec.filtered_by (turn_in dynamic.now (seen dynamic.now.names.now predicate.now) bound.old.items) items.entry) }
    ensures within { IfOk result (λ items. AreWithin (count dynamic.now) items) }
    ensures kept { bound.new.items ≡ bound.old.items }
    ensures held { AreHeld dynamic.now slots.new }
    ensures grown { Grows slots.old slots.new }
{
    let items = items.into_items();
    let last = items.len() as u64;
    let mut position = 0;
    let mut kept = Seq::new(dynamic.alloc);
    'items: for item in items {
        position += 1;
        let focus = Focus {
            item,
            position,
            last,
        };
        let answer = evaluate(dynamic, predicate, &focus, bound, slots, steps)?;
        let is_kept = judged(position, answer)?;
        keep_if(&mut kept, is_kept, focus)?;
    }
    Ok(kept)
}

/// The value of a work, where a step's nodes stay in the order of its axis.
#[cycle(evaluating)]
fn along_axis<'a, L: Ledger>(
    dynamic: &DynamicContext<'_, 'a>,
    work: &'a PlanNode,
    focus: &Focus<'a>,
    bound: &mut Vec<Item<'a>>,
    slots: &mut Slots<'a>,
    steps: &mut Steps<L>,
) -> Result<Seq<'a>, Fault>
    requires ready { IsReady dynamic.now focus.now bound.old.items }
    requires placed { PlacedWork dynamic.now work.now }
    requires slots { AreHeld dynamic.now slots.old }
    ensures value { Gives result (value_in dynamic.now (in_axis_order (seen dynamic.now.names.now work.now)) focus.now bound.old.items) }
    ensures within { IfOk result (λ items. AreWithin (count dynamic.now) items) }
    ensures kept { bound.new.items ≡ bound.old.items }
    ensures held { AreHeld dynamic.now slots.new }
    ensures grown { Grows slots.old slots.new }
{
    match work {
        PlanNode::Simple(x) => simple_in_axis_order(dynamic, x, focus, bound.as_slice(), steps),
        PlanNode::Node(kind, parts) => {
            if is_filtered_step(kind) {
                return filter(dynamic, true, parts.as_slice(), focus, bound, slots, steps);
            }
            match sole(kind, parts.as_slice()) {
                Some(part) => along_axis(dynamic, part, focus, bound, slots, steps),
                None => by_kind(dynamic, kind, parts.as_slice(), focus, bound, slots, steps),
            }
        }
    }
}

/// `for`, `some` and `every`.
#[cycle(evaluating)]
fn bind<'a, L: Ledger>(
    dynamic: &DynamicContext<'_, 'a>,
    binder: Binder,
    parts: &'a [(Separator, PlanNode)],
    focus: &Focus<'a>,
    bound: &mut Vec<Item<'a>>,
    slots: &mut Slots<'a>,
    steps: &mut Steps<L>,
) -> Result<Seq<'a>, Fault>
    requires ready { IsReady dynamic.now focus.now bound.old.items }
    requires placed { PlacedParts dynamic.now parts.now }
    requires slots { AreHeld dynamic.now slots.old }
    ensures value { Gives result (value_in dynamic.now (bound_all binder (operands_of dynamic.now.names.now parts.now)) focus.now bound.old.items) }
    ensures within { IfOk result (λ items. AreWithin (count dynamic.now) items) }
    ensures kept { bound.new.items ≡ bound.old.items }
    ensures held { AreHeld dynamic.now slots.new }
    ensures grown { Grows slots.old slots.new }
{
    let Some((first, inside)) = parts.split_first() else {
        return Ok(Seq::new(dynamic.alloc));
    };
    let items = evaluate(dynamic, &first.1, focus, bound, slots, steps)?;
    if inside.len() == 0 {
        return Ok(items);
    }
    let height = bound.len();
    let found = take_turns(dynamic, binder, inside, items, focus, bound, slots, steps);
    bound.truncate(height);
    found
}

/// The turns of `for`, `some` and `every` at the items of the first variable, given the expressions of the variables
/// inside it and the one that they are for.
#[cycle(evaluating)]
fn take_turns<'a, L: Ledger>(
    dynamic: &DynamicContext<'_, 'a>,
    binder: Binder,
    inside: &'a [(Separator, PlanNode)],
    items: Seq<'a>,
    focus: &Focus<'a>,
    bound: &mut Vec<Item<'a>>,
    slots: &mut Slots<'a>,
    steps: &mut Steps<L>,
) -> Result<Seq<'a>, Fault>
    requires ready { IsReady dynamic.now focus.now bound.old.items }
    requires items { AreWithin (count dynamic.now) items }
    requires inside { 0 < length inside.now }
    requires placed { PlacedParts dynamic.now inside.now }
    requires slots { AreHeld dynamic.now slots.old }
    ensures value { Gives result (links.bound_value binder (tree_nodes dynamic.now.doc.now) (operands_of dynamic.now.names.now inside.now) items.entry
        (context dynamic.now focus.now bound.old.items)) }
    ensures within { IfOk result (λ items. AreWithin (count dynamic.now) items) }
    ensures kept { take (length bound.old.items) bound.new.items ≡ bound.old.items }
    ensures held { AreHeld dynamic.now slots.new }
    ensures grown { Grows slots.old slots.new }
{
    let height = bound.len();
    let mut out = Seq::new(dynamic.alloc);
    let mut turns = Vec::new(dynamic.alloc);
    turns.push(Turn::new(items))?;
    'turns: while advance(&mut turns, bound, height)? {
        let k = turns.len() - 1;
        let part = part_at(inside, k);
        match evaluate(dynamic, &part.1, focus, bound, slots, steps) {
            Err(fault) => return Err(fault),
            Ok(found) => {
                if turns.len() == inside.len() {
                    match take_turn(binder, &mut out, found) {
                        Err(fault) => return Err(fault),
                        Ok(true) => return decided(dynamic.alloc, binder),
                        Ok(false) => (),
                    }
                } else {
                    turns.push(Turn::new(found))?;
                }
            }
        }
    }
    ended(dynamic.alloc, binder, out)
}
