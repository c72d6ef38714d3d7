ghost use Rattle.std.specs.Prelude.{◌≡◌, ℕ, ◌+◌, true, List, [], ◌∷◌, ◌++◌, length, map, flat_map, encode_utf8_all};
ghost use Rattle.inv_base.specs.Tree.{Forest, IsDocument, size};
ghost use Rattle.xml_write.specs.declared.gauge.Gauge.{Gauge};
ghost use Rattle.xml_write.specs.Escapes.{in_text, in_value};
ghost use Rattle.xml_write.specs.Canonical.{Declaration, qualified, declaring_name, canonical_text};
ghost use Rattle.xml_write.specs.Calls.{Call, call_text, calls_of, encoded, appended_by, appended_by_all, behind_all, state_behind, are_allowed};
ghost use Rattle.xml_write.specs.Sizes.{canonical_tags, longest, stopped, tag_stopped, unmeasured, gauged, gauged_by_all};

use crate::pen::PenState;

/// A law, and no code: the calls of a document, in order, append its canonical text. They may all be made, and made with texts
/// in UTF-8 they append it in UTF-8.
///
/// It needs no condition on the declarations, since canonical text says how a name is written whose namespace isn't declared.
pub fn calls_append_canonical_text()
    ensures characters { (declarations : List Declaration) (document : Forest)
        → appended_by_all PenState.Fresh (calls_of declarations document) ≡ canonical_text declarations document }
    ensures bytes { (declarations : List Declaration) (document : Forest)
        → appended_by_all PenState.Fresh (map encoded (calls_of declarations document)) ≡ encode_utf8_all (canonical_text declarations document) }
    ensures allowed { (declarations : List Declaration) (document : Forest)
        → are_allowed PenState.Fresh (calls_of declarations document) ≡ true }
{}

/// A law, and no code: what a call appends to UTF-8 is the UTF-8 of what it appends to characters, and so are the escapes and the
/// names with a prefix.
pub fn bytes_are_escaped_as_characters()
    ensures calls { (state : PenState) (call : Call) → appended_by state (encoded call) ≡ encode_utf8_all (appended_by state call) }
    ensures texts { (characters : List ℕ) → flat_map in_text (encode_utf8_all characters) ≡ encode_utf8_all (flat_map in_text characters) }
    ensures values { (characters : List ℕ) → flat_map in_value (encode_utf8_all characters) ≡ encode_utf8_all (flat_map in_value characters) }
    ensures names { (prefix local : List ℕ) → qualified (encode_utf8_all prefix) (encode_utf8_all local) ≡ encode_utf8_all (qualified prefix local) }
    ensures declaring_names { (prefix : List ℕ) → declaring_name (encode_utf8_all prefix) ≡ encode_utf8_all (declaring_name prefix) }
{}

/// A law, and no code: texts written one behind the other are one text, to a pen and to a gauge. So a text may be written in parts.
pub fn texts_are_joined()
    ensures appended { (state : PenState) (a b : List ℕ) → appended_by_all state (call_text a ∷ call_text b ∷ []) ≡ appended_by state (call_text (a ++ b)) }
    ensures state { (state : PenState) (a b : List ℕ) → behind_all state (call_text a ∷ call_text b ∷ []) ≡ state_behind state (call_text (a ++ b)) }
    ensures gauged { (g : Gauge) (a b : List ℕ) → gauged_by_all g (call_text a ∷ call_text b ∷ []) ≡ gauged g (call_text (a ++ b)) }
{}

/// A law, and no code: behind the calls of a document, made in UTF-8, a gauge has the sizes of its canonical text: the bytes, those
/// of its longest tag, and the nodes of the tree, of which the document is one. Each number stops at its last value.
pub fn gauged_calls_are_sizes()
    ensures bytes { (declarations : List Declaration) (document : Forest)
        → (gauged_by_all unmeasured (map encoded (calls_of declarations document))).bytes ≡ stopped
        (length (encode_utf8_all (canonical_text declarations document))) }
    ensures longest_tag { (declarations : List Declaration) (document : Forest)
        → (gauged_by_all unmeasured (map encoded (calls_of declarations document))).longest_tag ≡ tag_stopped (longest (canonical_tags declarations document)) }
    ensures nodes { (declarations : List Declaration) (document : Forest) → IsDocument document
        → (gauged_by_all unmeasured (map encoded (calls_of declarations document))).nodes ≡ stopped (size document + 1) }
{}
