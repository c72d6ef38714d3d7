ghost use Rattle.std.specs.Prelude.{◌≡◌, ◌≢◌, [], ◌∷◌, ◌++◌, flat_map};
ghost use Rattle.inv_base.specs.Writing.{Writes};
ghost use Rattle.xml_write.specs.Canonical.{qualified, declaring_name, attribute_text};
ghost use Rattle.xml_write.specs.Escapes.{in_value};
ghost use Rattle.xml_write.specs.Calls.{lead_in, start_text, content_text, end_tag, end_text, behind_text};

use crate::escape::{Within, put_escaped};
use crate::writer::Writer;
use crate::writing::{WriteFault, put};
use inv_base::Sink;
use std::marker::Model;

/// How far a pen is.
#[derive(Clone, Copy, PartialEq, Eq)]
pub enum PenState {
    /// It has written nothing.
    Fresh,
    /// A start tag is open.
    InsideTag,
    /// What it wrote last is a whole tag or a text.
    PastTag,
}

impl PenState {
    /// What a start or a text writes first.
    #[tactic(auto, unfolding(crate::specs::Canonical::declaration_line))]
    pub(crate) fn lead_in(self) -> &'static str
        ensures { result.now ≡ lead_in self }
    {
        match self {
            PenState::Fresh => "<?xml version=\"1.0\" encoding=\"UTF-8\"?>\n",
            PenState::InsideTag => ">",
            PenState::PastTag => "",
        }
    }
}

/// Writes canonical text: each call appends its part to the sink.
///
/// Names are written as they are given, with their prefixes. After a fault the sink holds a front of what the call was to
/// append, and the pen is in the state as if it had appended all.
#[derive(Drop)]
pub struct Pen {
    state: PenState,
}

impl Model for Pen {
    ghost use Rattle.xml_write.specs.declared.pen.PenState.{PenState};

    ghost Value = { PenState };

    ghost view = { λ pen. pen.state };
}

impl Pen {
    /// A fresh pen.
    pub fn new() -> Pen
        ensures { result ≡ PenState.Fresh }
    {
        Pen {
            state: PenState::Fresh,
        }
    }

    /// Begins an element. The first of a document writes the XML declaration before it.
    pub fn start<K: Sink>(&mut self, out: &mut K, name: &str) -> Result<(), WriteFault>
        ensures writes { Writes result (start_text self.old name.now) (K.view out.old) (K.view out.new) }
        ensures state { self.new ≡ PenState.InsideTag }
    {
        self.start_qualified(out, "", name)
    }

    /// Begins an element whose name is a prefix and a local name, or the local name alone where the prefix is empty.
    pub fn start_qualified<K: Sink>(
        &mut self,
        out: &mut K,
        prefix: &str,
        local: &str,
    ) -> Result<(), WriteFault>
        ensures writes { Writes result (start_text self.old (qualified prefix.now local.now)) (K.view out.old) (K.view out.new) }
        ensures state { self.new ≡ PenState.InsideTag }
    {
        let lead_in = self.state.lead_in();
        self.state = PenState::InsideTag;
        put(out, lead_in)?;
        put(out, "<")?;
        put_qualified(out, prefix, local)
    }

    /// Writes an attribute of the element that was begun last.
    pub fn attribute<K: Sink>(
        &mut self,
        out: &mut K,
        name: &str,
        value: &str,
    ) -> Result<(), WriteFault>
        requires { self.old ≡ PenState.InsideTag }
        ensures writes { Writes result (attribute_text name.now value.now) (K.view out.old) (K.view out.new) }
        ensures state { self.new ≡ PenState.InsideTag }
    {
        put(out, " ")?;
        put(out, name)?;
        put_value(out, value)
    }

    /// Declares a namespace in the element that was begun last: for the prefix, or as the default one where the prefix is empty.
    pub fn declare<K: Sink>(
        &mut self,
        out: &mut K,
        prefix: &str,
        uri: &str,
    ) -> Result<(), WriteFault>
        requires { self.old ≡ PenState.InsideTag }
        ensures writes { Writes result (attribute_text (declaring_name prefix.now) uri.now) (K.view out.old) (K.view out.new) }
        ensures state { self.new ≡ PenState.InsideTag }
    {
        put(out, " ")?;
        put_declaring_name(out, prefix)?;
        put_value(out, uri)
    }

    /// Writes a text, or a further part of one.
    pub fn text<K: Sink>(&mut self, out: &mut K, t: &str) -> Result<(), WriteFault>
        requires { self.old ≢ PenState.Fresh }
        ensures writes { Writes result (content_text self.old t.now) (K.view out.old) (K.view out.new) }
        ensures state { self.new ≡ behind_text self.old t.now }
    {
        if t.is_empty() {
            return Ok(());
        }
        let lead_in = self.state.lead_in();
        self.state = PenState::PastTag;
        put(out, lead_in)?;
        put_escaped(out, t, Within::Text)
    }

    /// Ends the element of that name. One that is still inside its tag has no children.
    pub fn end<K: Sink>(&mut self, out: &mut K, name: &str) -> Result<(), WriteFault>
        requires { self.old ≢ PenState.Fresh }
        ensures writes { Writes result (end_text self.old name.now) (K.view out.old) (K.view out.new) }
        ensures state { self.new ≡ PenState.PastTag }
    {
        self.end_qualified(out, "", name)
    }

    /// The same of an element whose name is a prefix and a local name.
    pub fn end_qualified<K: Sink>(
        &mut self,
        out: &mut K,
        prefix: &str,
        local: &str,
    ) -> Result<(), WriteFault>
        requires { self.old ≢ PenState.Fresh }
        ensures writes { Writes result (end_text self.old (qualified prefix.now local.now)) (K.view out.old) (K.view out.new) }
        ensures state { self.new ≡ PenState.PastTag }
    {
        let state = self.state;
        self.state = PenState::PastTag;
        match state {
            PenState::InsideTag => put(out, "/>"),
            PenState::Fresh | PenState::PastTag => put_end_tag(out, prefix, local),
        }
    }

    /// Ends the document behind its root.
    pub fn close<K: Sink>(self, out: &mut K) -> Result<(), WriteFault>
        requires { self ≡ PenState.PastTag }
        ensures { Writes result (0xA ∷ []) (K.view out.old) (K.view out.new) }
    {
        put(out, "\n")
    }
}

impl Writer for Pen {
    ghost use Rattle.xml_write.specs.Writers.{writing};

    ghost view = { writing };

    fn start<K: Sink>(&mut self, out: &mut K, name: &str) -> Result<(), WriteFault> {
        Pen::start(self, out, name)
    }

    fn start_qualified<K: Sink>(
        &mut self,
        out: &mut K,
        prefix: &str,
        local: &str,
    ) -> Result<(), WriteFault> {
        Pen::start_qualified(self, out, prefix, local)
    }

    fn attribute<K: Sink>(
        &mut self,
        out: &mut K,
        name: &str,
        value: &str,
    ) -> Result<(), WriteFault> {
        Pen::attribute(self, out, name, value)
    }

    fn declare<K: Sink>(&mut self, out: &mut K, prefix: &str, uri: &str) -> Result<(), WriteFault> {
        Pen::declare(self, out, prefix, uri)
    }

    fn text<K: Sink>(&mut self, out: &mut K, t: &str) -> Result<(), WriteFault> {
        Pen::text(self, out, t)
    }

    fn end<K: Sink>(&mut self, out: &mut K, name: &str) -> Result<(), WriteFault> {
        Pen::end(self, out, name)
    }

    fn end_qualified<K: Sink>(
        &mut self,
        out: &mut K,
        prefix: &str,
        local: &str,
    ) -> Result<(), WriteFault> {
        Pen::end_qualified(self, out, prefix, local)
    }
}

fn put_end_tag<K: Sink>(out: &mut K, prefix: &str, local: &str) -> Result<(), WriteFault>
    ensures { Writes result (end_tag (qualified prefix.now local.now)) (K.view out.old) (K.view out.new) }
{
    put(out, "</")?;
    put_qualified(out, prefix, local)?;
    put(out, ">")
}

fn put_qualified<K: Sink>(out: &mut K, prefix: &str, local: &str) -> Result<(), WriteFault>
    ensures { Writes result (qualified prefix.now local.now) (K.view out.old) (K.view out.new) }
{
    if prefix.is_empty() {
        return put(out, local);
    }
    put(out, prefix)?;
    put(out, ":")?;
    put(out, local)
}

fn put_declaring_name<K: Sink>(out: &mut K, prefix: &str) -> Result<(), WriteFault>
    ensures { Writes result (declaring_name prefix.now) (K.view out.old) (K.view out.new) }
{
    if prefix.is_empty() {
        return put(out, "xmlns");
    }
    put(out, "xmlns:")?;
    put(out, prefix)
}

/// Writes what stands behind an attribute's name: `=` and the value between quotes.
fn put_value<K: Sink>(out: &mut K, value: &str) -> Result<(), WriteFault>
    ensures { Writes result (0x3D ∷ 0x22 ∷ (flat_map in_value value.now ++ 0x22 ∷ [])) (K.view out.old) (K.view out.new) }
{
    put(out, "=\"")?;
    put_escaped(out, value, Within::Value)?;
    put(out, "\"")
}
