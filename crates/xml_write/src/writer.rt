ghost use Rattle.std.specs.Prelude.{◌≡◌, ◌≢◌, [], ◌∷◌, None};
ghost use Rattle.xml_write.specs.declared.pen.PenState.TheVariants.{Fresh, InsideTag, PastTag};
ghost use Rattle.xml_write.specs.Canonical.{qualified};
ghost use Rattle.xml_write.specs.Calls.{call_start, call_attribute, call_declare, call_text, call_end, behind_text};
ghost use Rattle.xml_write.specs.Writers.{WriterView, state_of, Makes};

use crate::writing::WriteFault;
use inv_base::{Failed, Sink};

/// What takes the calls of a document: a pen, which writes it, or a gauge, which measures it. So one walk over a document serves both.
///
/// A gauge leaves the sink as it is, and never fails. Each call says how far the writer is behind it, also where it failed.
pub trait Writer {
    ghost view: { Self → WriterView };

    /// Begins an element, as `Pen::start` does.
    fn start<K: Sink>(&mut self, out: &mut K, name: &str) -> Result<(), WriteFault>
        ensures makes { Makes result (view self.old) (K.view out.old) (call_start name.now ∷ []) (view self.new) (K.view out.new) }
        ensures state { state_of (view self.new) ≡ InsideTag };

    /// Begins an element, as `Pen::start_qualified` does.
    fn start_qualified<K: Sink>(
        &mut self,
        out: &mut K,
        prefix: &str,
        local: &str,
    ) -> Result<(), WriteFault>
        ensures makes { Makes result (view self.old) (K.view out.old) (call_start (qualified prefix.now local.now) ∷ []) (view self.new) (K.view out.new) }
        ensures state { state_of (view self.new) ≡ InsideTag };

    /// Writes an attribute, as `Pen::attribute` does.
    fn attribute<K: Sink>(&mut self, out: &mut K, name: &str, value: &str) -> Result<(), WriteFault>
        requires { state_of (view self.old) ≡ InsideTag }
        ensures makes { Makes result (view self.old) (K.view out.old) (call_attribute name.now value.now ∷ []) (view self.new) (K.view out.new) }
        ensures state { state_of (view self.new) ≡ InsideTag };

    /// Declares a namespace, as `Pen::declare` does.
    fn declare<K: Sink>(&mut self, out: &mut K, prefix: &str, uri: &str) -> Result<(), WriteFault>
        requires { state_of (view self.old) ≡ InsideTag }
        ensures makes { Makes result (view self.old) (K.view out.old) (call_declare prefix.now uri.now ∷ []) (view self.new) (K.view out.new) }
        ensures state { state_of (view self.new) ≡ InsideTag };

    /// Writes a text, or a further part of one, as `Pen::text` does.
    fn text<K: Sink>(&mut self, out: &mut K, t: &str) -> Result<(), WriteFault>
        requires { state_of (view self.old) ≢ Fresh }
        ensures makes { Makes result (view self.old) (K.view out.old) (call_text t.now ∷ []) (view self.new) (K.view out.new) }
        ensures state { state_of (view self.new) ≡ behind_text (state_of (view self.old)) t.now };

    /// Ends an element, as `Pen::end` does.
    fn end<K: Sink>(&mut self, out: &mut K, name: &str) -> Result<(), WriteFault>
        requires { state_of (view self.old) ≢ Fresh }
        ensures makes { Makes result (view self.old) (K.view out.old) (call_end name.now ∷ []) (view self.new) (K.view out.new) }
        ensures state { state_of (view self.new) ≡ PastTag };

    /// Ends an element, as `Pen::end_qualified` does.
    fn end_qualified<K: Sink>(
        &mut self,
        out: &mut K,
        prefix: &str,
        local: &str,
    ) -> Result<(), WriteFault>
        requires { state_of (view self.old) ≢ Fresh }
        ensures makes { Makes result (view self.old) (K.view out.old) (call_end (qualified prefix.now local.now) ∷ []) (view self.new) (K.view out.new) }
        ensures state { state_of (view self.new) ≡ PastTag };
}

/// A sink for who only measures: it takes everything, keeps nothing, and never fails.
#[derive(Clone, Copy, PartialEq, Eq)]
pub struct Nowhere;

impl Sink for Nowhere {
    ghost view = { λ _. record { told = None; faults = 0 } };

    fn write(&mut self, piece: &[u8]) -> Result<usize, Failed> {
        Ok(piece.len())
    }
}
