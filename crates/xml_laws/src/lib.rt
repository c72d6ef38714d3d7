//! Laws over the definitions of documents: what is read tells a tree, and canonical text is read as the tree that it
//! was written from.
#![tactic(auto)]

ghost use Rattle.std.specs.Prelude.{◌≡◌, ℕ, ◌==◌, true, false, List, length, Ok, bytes_eq, encode_utf8_all};
ghost use Rattle.std.specs.List.{list_any};
ghost use Rattle.inv_base.specs.Tree.{Name, Forest};
ghost use Rattle.xml_tokens.specs.WrittenNames.{is_ncname};
ghost use Rattle.xml_state.specs.declared.limits.Limits.{Limits};
ghost use Rattle.xml_state.specs.Admission.{has_twice};
ghost use Rattle.xml_profile.specs.Profile.{Document, document, tree_of, IsXml};
ghost use Rattle.xml_write.specs.Canonical.{Declaration, canonical_text};
ghost use Rattle.xml_laws.specs.Told.{IsReadAs};
ghost use Rattle.xml_laws.specs.Writable.{of_prefixes, is_element_name, is_attribute_name, IsWritable};

/// What is read tells the tree of its events.
pub fn read_tells_its_tree()
    ensures { (limits : Limits) (bytes : List ℕ) (found : Document) → document limits bytes ≡ Ok found → IsReadAs limits found (tree_of found) }
{}

/// Canonical text, in UTF-8, is read as the tree that it was written from.
pub fn canonical_text_is_read()
    ensures { (limits : Limits) (declarations : List Declaration) (tree : Forest) → IsWritable limits declarations tree
        → IsXml limits (encode_utf8_all (canonical_text declarations tree)) tree }
{}

/// Where no prefix is declared twice, names in a declared namespace can be written, those of attributes in one that has
/// a prefix.
pub fn declared_names_are_written()
    ensures elements { (declarations : List Declaration) (name : Name) → has_twice (λ (a b : Declaration). bytes_eq a.prefix b.prefix) declarations ≡ false
        → is_ncname name.local ≡ true → (length name.uri == 0) ≡ false → list_any (λ (d : Declaration). bytes_eq d.uri name.uri) declarations ≡ true
        → is_element_name declarations name ≡ true }
    ensures attributes { (declarations : List Declaration) (name : Name) → has_twice (λ (a b : Declaration). bytes_eq a.prefix b.prefix) declarations ≡ false
        → is_ncname name.local ≡ true → (length name.uri == 0) ≡ false →
        list_any (λ (d : Declaration). bytes_eq d.uri name.uri) (of_prefixes declarations) ≡ true
        → is_attribute_name declarations name ≡ true }
{}
