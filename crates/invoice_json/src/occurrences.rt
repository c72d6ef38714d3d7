ghost use Rattle.std.specs.Prelude.{◌≡◌, ◌+◌, ◌≤◌, ◌<◌};
ghost use Rattle.json_text.specs.declared.state.TheConstants.{DEEPEST};
ghost use Rattle.invoice_json.specs.InvoiceJson.{in_one_array, in_one_object};
ghost use Rattle.json_text.specs.Made.{Made};
ghost use Rattle.invoice_json.specs.Streaming.{leave_calls, enter_calls, slot_calls, turn_calls, inner_of, slot_depth, kept_depth, context_depth};

use crate::names::array_name;
use inv_base::Sink;
use json_text::{Container, JsonPen};
use term_table::{Context, Slot};

/// Whether both are occurrences that stand in one array.
fn in_one_array(a: Option<Slot>, b: Option<Slot>) -> bool
    ensures { result ≡ in_one_array a b }
{
    match (a, b) {
        (Some(a), Some(b)) => array_name(a.group) == array_name(b.group),
        (None, _) => false,
        (Some(_), None) => false,
    }
}

/// Whether both are one occurrence.
fn in_one_object(a: Option<Slot>, b: Option<Slot>) -> bool
    ensures { result ≡ in_one_object a b }
{
    match (a, b) {
        (Some(a), Some(b)) => a.group.is_same(b.group) && a.index == b.index,
        (None, _) => false,
        (Some(_), None) => false,
    }
}

/// The inner occurrence, which only an outer one has.
fn inner_of(context: Context) -> Option<Slot>
    ensures { result ≡ inner_of context }
{
    match context.outer {
        None => None,
        Some(_) => context.inner,
    }
}

/// Ends the object of an occurrence, and its array where what comes next doesn't stand in it.
fn leave<K: Sink>(before: Option<Slot>, now: Option<Slot>, pen: &mut JsonPen, out: &mut K)
    requires { slot_depth before ≤ pen.old.state.depth }
    ensures made { Made (leave_calls before now) pen.old pen.new (K.view out.old) (K.view out.new) }
    ensures depth { pen.new.state.depth + slot_depth before ≡ pen.old.state.depth + kept_depth before now }
{
    match before {
        None => {}
        Some(_) => {
            pen.end(out, Container::Object);
            if !in_one_array(before, now) {
                pen.end(out, Container::Array);
            }
        }
    }
}

/// Begins the object of an occurrence, and its array where what came before doesn't stand in it.
fn enter<K: Sink>(before: Option<Slot>, now: Option<Slot>, pen: &mut JsonPen, out: &mut K)
    requires { pen.old.state.depth + 2 ≤ DEEPEST }
    ensures made { Made (enter_calls before now) pen.old pen.new (K.view out.old) (K.view out.new) }
    ensures depth { pen.new.state.depth + kept_depth before now ≡ pen.old.state.depth + slot_depth now }
{
    match now {
        None => {}
        Some(slot) => {
            if in_one_array(before, now) {
                pen.begin(out, Container::Object);
                return;
            }
            pen.name(out, array_name(slot.group));
            pen.begin(out, Container::Array);
            pen.begin(out, Container::Object);
        }
    }
}

/// Goes from one occurrence to another of the same level, or to none.
fn turn_slot<K: Sink>(before: Option<Slot>, now: Option<Slot>, pen: &mut JsonPen, out: &mut K)
    requires open { slot_depth before ≤ pen.old.state.depth }
    requires room { pen.old.state.depth + 2 ≤ DEEPEST }
    ensures made { Made (slot_calls before now) pen.old pen.new (K.view out.old) (K.view out.new) }
    ensures depth { pen.new.state.depth + slot_depth before ≡ pen.old.state.depth + slot_depth now }
{
    if in_one_object(before, now) {
        return;
    }
    leave(before, now, pen, out);
    enter(before, now, pen, out);
}

/// Goes from the context of an entry to that of the next one.
pub(crate) fn turn<K: Sink>(before: Context, now: Context, pen: &mut JsonPen, out: &mut K)
    requires { pen.old.state.depth ≡ 1 + context_depth before }
    ensures made { Made (turn_calls before now) pen.old pen.new (K.view out.old) (K.view out.new) }
    ensures depth { pen.new.state.depth ≡ 1 + context_depth now }
{
    if in_one_object(before.outer, now.outer) {
        turn_slot(inner_of(before), inner_of(now), pen, out);
        return;
    }
    turn_slot(inner_of(before), None, pen, out);
    leave(before.outer, now.outer, pen, out);
    enter(before.outer, now.outer, pen, out);
    turn_slot(None, inner_of(now), pen, out);
}
