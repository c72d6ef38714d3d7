ghost use Rattle.std.specs.Prelude.{◌≡◌, ◌+◌, ◌-◌, ◌<◌, ◌≤◌, [], ◌∷◌, ◌++◌, false, Some, None, chars, encode_utf8_all};
ghost use Rattle.std.specs.Str.{IsAscii};
ghost use Rattle.inv_base.specs.Printing.{Prints};
ghost use Rattle.json_text.specs.Layout.{indent, new_line, lead};
ghost use Rattle.json_text.specs.Calls.{fresh, end_lead, call_name, call_text, call_number, call_begin, call_end, call_finish, appended_by, state_behind};
ghost use Rattle.json_text.specs.Making.{text_member, number_member};
ghost use Rattle.json_text.specs.Made.{Wrote, Began};

use crate::state::{Container, DEEPEST, JsonPlace, JsonState};
use crate::strings::put_string;
use inv_base::{Printer, Sink};
use itoa::Buffer;

/// Writes JSON text: each call prints its part to the sink.
///
/// A member of an object is a name and then its value; an array or object is its beginning, what is inside it, and its end. Behind
/// the first failure nothing more is printed, and the pen is in the state as if all had been.
#[derive(Drop)]
pub struct JsonPen {
    /// How far it is.
    pub state: JsonState,
    /// Prints the pieces.
    pub printer: Printer,
}

impl JsonPen {
    /// A pen that has written nothing.
    pub fn new() -> JsonPen
        ensures state { result.state ≡ fresh }
        ensures printer { result.printer.failed ≡ false }
    {
        JsonPen {
            state: JsonState {
                depth: 0,
                place: JsonPlace::Here,
            },
            printer: Printer::new(),
        }
    }

    /// Whether printing has failed.
    pub fn has_failed(&self) -> bool
        ensures { result ≡ self.now.printer.failed }
    {
        self.printer.failed
    }

    /// Writes a member's name. Its value comes next.
    pub fn name<K: Sink>(&mut self, out: &mut K, name: &str)
        ensures prints { Prints (encode_utf8_all (appended_by self.old.state (call_name (chars name.now)))) self.old.printer.failed self.new.printer.failed
            (K.view out.old) (K.view out.new) }
        ensures state { self.new.state ≡ state_behind self.old.state (call_name (chars name.now)) }
    {
        self.lead(out);
        put_string(name, &mut self.printer, out);
        self.printer.put(out, b": ");
        self.state.place = JsonPlace::Here;
    }

    /// Writes a text.
    pub fn text<K: Sink>(&mut self, out: &mut K, value: &str)
        ensures prints { Prints (encode_utf8_all (appended_by self.old.state (call_text (chars value.now)))) self.old.printer.failed self.new.printer.failed
            (K.view out.old) (K.view out.new) }
        ensures state { self.new.state ≡ state_behind self.old.state (call_text (chars value.now)) }
    {
        self.lead(out);
        put_string(value, &mut self.printer, out);
        self.state.place = JsonPlace::Behind;
    }

    /// Writes a number.
    pub fn number<K: Sink>(&mut self, out: &mut K, value: u64)
        ensures prints { Prints (encode_utf8_all (appended_by self.old.state (call_number value))) self.old.printer.failed self.new.printer.failed
            (K.view out.old) (K.view out.new) }
        ensures state { self.new.state ≡ state_behind self.old.state (call_number value) }
    {
        let mut digits = Buffer::new();
        self.lead(out);
        self.printer.put(out, digits.format(value).as_bytes());
        self.state.place = JsonPlace::Behind;
    }

    /// Begins an array or object.
    pub fn begin<K: Sink>(&mut self, out: &mut K, kind: Container)
        requires { self.old.state.depth < DEEPEST }
        ensures prints { Prints (encode_utf8_all (appended_by self.old.state (call_begin kind))) self.old.printer.failed self.new.printer.failed
            (K.view out.old) (K.view out.new) }
        ensures state { self.new.state ≡ state_behind self.old.state (call_begin kind) }
    {
        self.lead(out);
        self.printer.put(out, kind.opening());
        self.state = JsonState {
            depth: self.state.depth + 1,
            place: JsonPlace::First,
        };
    }

    /// Ends the array or object that was begun last and hasn't ended.
    pub fn end<K: Sink>(&mut self, out: &mut K, kind: Container)
        requires { 0 < self.old.state.depth }
        ensures prints { Prints (encode_utf8_all (appended_by self.old.state (call_end kind))) self.old.printer.failed self.new.printer.failed
            (K.view out.old) (K.view out.new) }
        ensures state { self.new.state ≡ state_behind self.old.state (call_end kind) }
    {
        self.end_lead(out);
        self.printer.put(out, kind.closing());
        self.state = JsonState {
            depth: self.state.depth - 1,
            place: JsonPlace::Behind,
        };
    }

    /// Writes a member that is a text.
    pub fn text_member<K: Sink>(&mut self, out: &mut K, name: &str, value: &str)
        requires { IsAscii name.now }
        ensures { Wrote (text_member name.now (chars value.now)) self.old self.new (K.view out.old) (K.view out.new) }
    {
        self.name(out, name);
        self.text(out, value);
    }

    /// Writes a member that is a number.
    pub fn number_member<K: Sink>(&mut self, out: &mut K, name: &str, value: u64)
        requires { IsAscii name.now }
        ensures { Wrote (number_member name.now value) self.old self.new (K.view out.old) (K.view out.new) }
    {
        self.name(out, name);
        self.number(out, value);
    }

    /// Begins an array or object that is a member.
    pub fn begin_member<K: Sink>(&mut self, out: &mut K, name: &str, kind: Container)
        requires name { IsAscii name.now }
        requires room { self.old.state.depth < DEEPEST }
        ensures { Began (Some name.now) kind self.old self.new (K.view out.old) (K.view out.new) }
    {
        self.name(out, name);
        self.begin(out, kind);
    }

    /// Begins an array or object that is no member.
    pub fn begin_item<K: Sink>(&mut self, out: &mut K, kind: Container)
        requires { self.old.state.depth < DEEPEST }
        ensures { Began None kind self.old self.new (K.view out.old) (K.view out.new) }
    {
        self.begin(out, kind);
    }

    /// Ends the text behind its value. Answers whether printing has failed.
    pub fn finish<K: Sink>(self, out: &mut K) -> bool
        ensures { Prints (encode_utf8_all (appended_by self.state call_finish)) self.printer.failed result (K.view out.old) (K.view out.new) }
    {
        let JsonPen {
            state: _,
            mut printer,
        } = self;
        printer.put(out, b"\n");
        printer.failed
    }

    /// Prints what leads a value or a name.
    fn lead<K: Sink>(&mut self, out: &mut K)
        ensures prints { Prints (encode_utf8_all (lead self.old.state.place self.old.state.depth)) self.old.printer.failed self.new.printer.failed
            (K.view out.old) (K.view out.new) }
        ensures state { self.new.state ≡ self.old.state }
    {
        match self.state.place {
            JsonPlace::Here => {}
            JsonPlace::First => put_new_line(self.state.depth, &mut self.printer, out),
            JsonPlace::Behind => {
                self.printer.put(out, b",");
                put_new_line(self.state.depth, &mut self.printer, out);
            }
        }
    }

    /// Prints what leads the bracket that ends an array or object.
    fn end_lead<K: Sink>(&mut self, out: &mut K)
        requires { 0 < self.old.state.depth }
        ensures prints { Prints (encode_utf8_all (end_lead self.old.state.place self.old.state.depth)) self.old.printer.failed self.new.printer.failed
            (K.view out.old) (K.view out.new) }
        ensures state { self.new.state ≡ self.old.state }
    {
        match self.state.place {
            JsonPlace::Here | JsonPlace::First => {}
            JsonPlace::Behind => put_new_line(self.state.depth - 1, &mut self.printer, out),
        }
    }
}

/// Begins a line at a depth.
fn put_new_line<K: Sink>(depth: u32, printer: &mut Printer, out: &mut K)
    ensures { Prints (encode_utf8_all (new_line depth)) printer.old.failed printer.new.failed (K.view out.old) (K.view out.new) }
{
    printer.put(out, b"\n");
    'levels: for _level in 0..depth {
        printer.put(out, b"  ");
    }
}
