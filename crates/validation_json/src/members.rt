//! Members that several objects have.
ghost use Rattle.std.specs.Str.{IsAscii};
ghost use Rattle.json_text.specs.Making.{text_member};
ghost use Rattle.json_text.specs.Made.{Wrote};
ghost use Rattle.validation_json.specs.ValidationJson.{place_members, located_members};

use inv_base::{Sink, Txt};
use json_text::JsonPen;
use line_places::LinePlace;

/// Writes where something stands in the document and in the file.
pub(crate) fn put_located<K: Sink>(location: &Txt, place: LinePlace, pen: &mut JsonPen, out: &mut K)
    ensures { Wrote (located_members location.now place) pen.old pen.new (K.view out.old) (K.view out.new) }
{
    put_text("location", location, pen, out);
    put_place(place, pen, out);
}

/// Writes where something stands in the file.
pub(crate) fn put_place<K: Sink>(place: LinePlace, pen: &mut JsonPen, out: &mut K)
    ensures { Wrote (place_members place) pen.old pen.new (K.view out.old) (K.view out.new) }
{
    pen.number_member(out, "line", place.line);
    pen.number_member(out, "column", place.column);
}

/// Writes a member that is a text.
pub(crate) fn put_text<K: Sink>(name: &str, text: &Txt, pen: &mut JsonPen, out: &mut K)
    requires { IsAscii name.now }
    ensures { Wrote (text_member name.now text.now) pen.old pen.new (K.view out.old) (K.view out.new) }
{
    pen.text_member(out, name, text.as_str());
}
