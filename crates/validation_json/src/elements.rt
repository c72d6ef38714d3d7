//! Elements and nodes that are told by themselves.
ghost use Rattle.std.specs.Prelude.{◌+◌, ◌≤◌, codes};
ghost use Rattle.std.specs.Str.{IsAscii};
ghost use Rattle.json_text.specs.declared.state.TheConstants.{DEEPEST};
ghost use Rattle.json_text.specs.Making.{array_member, each};
ghost use Rattle.json_text.specs.Made.{Wrote};
ghost use Rattle.validation_json.specs.ValidationJson.{located_object, unread_object};

use crate::members::{put_located, put_text};
use inv_base::Sink;
use json_text::{Container, JsonPen};
use validation_report::{Located, Unread};

/// Writes an array of elements.
pub(crate) fn put_elements<K: Sink>(
    name: &str,
    elements: &[Located],
    pen: &mut JsonPen,
    out: &mut K,
)
    requires name { IsAscii name.now }
    requires room { pen.old.state.depth + 2 ≤ DEEPEST }
    ensures { Wrote (array_member name.now (each located_object elements.now)) pen.old pen.new (K.view out.old) (K.view out.new) }
{
    pen.begin_member(out, name, Container::Array);
    put_all_elements(elements, pen, out);
    pen.end(out, Container::Array);
}

/// Writes elements one behind another.
fn put_all_elements<K: Sink>(elements: &[Located], pen: &mut JsonPen, out: &mut K)
    requires { pen.old.state.depth + 1 ≤ DEEPEST }
    ensures { Wrote (each located_object elements.now) pen.old pen.new (K.view out.old) (K.view out.new) }
{
    'elements: for element in elements {
        put_element(element, pen, out);
    }
}

fn put_element<K: Sink>(element: &Located, pen: &mut JsonPen, out: &mut K)
    requires { pen.old.state.depth + 1 ≤ DEEPEST }
    ensures { Wrote (located_object element.now) pen.old pen.new (K.view out.old) (K.view out.new) }
{
    pen.begin_item(out, Container::Object);
    put_located(&element.location, element.place, pen, out);
    pen.end(out, Container::Object);
}

/// Writes the array of the unread nodes.
pub(crate) fn put_unread<K: Sink>(nodes: &[Unread], pen: &mut JsonPen, out: &mut K)
    requires { pen.old.state.depth + 2 ≤ DEEPEST }
    ensures { Wrote (array_member (codes "unread") (each unread_object nodes.now)) pen.old pen.new (K.view out.old) (K.view out.new) }
{
    pen.begin_member(out, "unread", Container::Array);
    put_all_unread(nodes, pen, out);
    pen.end(out, Container::Array);
}

/// Writes unread nodes one behind another.
fn put_all_unread<K: Sink>(nodes: &[Unread], pen: &mut JsonPen, out: &mut K)
    requires { pen.old.state.depth + 1 ≤ DEEPEST }
    ensures { Wrote (each unread_object nodes.now) pen.old pen.new (K.view out.old) (K.view out.new) }
{
    'nodes: for node in nodes {
        put_node(node, pen, out);
    }
}

fn put_node<K: Sink>(node: &Unread, pen: &mut JsonPen, out: &mut K)
    requires { pen.old.state.depth + 1 ≤ DEEPEST }
    ensures { Wrote (unread_object node.now) pen.old pen.new (K.view out.old) (K.view out.new) }
{
    pen.begin_item(out, Container::Object);
    put_located(&node.element.location, node.element.place, pen, out);
    put_text("value", &node.value, pen, out);
    pen.end(out, Container::Object);
}
