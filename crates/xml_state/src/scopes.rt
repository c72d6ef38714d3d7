//! The open elements: the names of their tags as written, and the namespaces that are bound inside them. And the
//! expanded names that were seen.
ghost use Rattle.std.specs.Prelude.{◌≡◌, ◌≤◌, ◌==◌, [], ◌∷◌, ◌++◌, map, length, take, drop, true, false, chars, string_bytes, is_none, IfOk, OnOk, OnErr};
ghost use Rattle.std.specs.Prelude.{IsSome, bytes_eq};
ghost use Rattle.std.specs.BTreeMap.{get_by_text};
ghost use Rattle.std.proofs.Common.{reverse};
ghost use Rattle.xml_tokens.specs.Seen.{seen_attribute};
ghost use Rattle.xml_events.specs.NameTables as tables;
ghost use Rattle.xml_events.specs.Names.{number_of, with_name};
ghost use Rattle.xml_state.specs.Namespaces as namespaces;
ghost use Rattle.xml_state.specs.Scopes as spec;
ghost use Rattle.xml_state.specs.States as states;

use crate::written::{declared_prefix, is_plain, text_of};
use std::alloc::{AllocError, Global};
use std::collections::BTreeMap;
use std::marker::Model;
use xml_events::{KeptNames, NameId, NameTable, Spaces, number_kept, number_space};
use xml_tokens::Attribute;

pub(crate) const XML_URI: &str = "http://www.w3.org/XML/1998/namespace";

// A prefix, empty for the default namespace, the number of the name that it stands for, which is empty for none, and the
// number that it has outside, where it is bound there.
#[derive(Drop)]
struct Bound {
    prefix: String,
    space: usize,
    hid: Option<usize>,
}

// An open element: where its name begins among those of all, and how many bindings there are inside it.
#[derive(Clone, Copy)]
struct Frame {
    name_at: usize,
    bindings: usize,
}

// The open elements, what is bound in the tag that is read, and the names that were seen.
pub(crate) struct Scopes {
    written: Vec<u8>,
    bindings: Vec<Bound>,
    // The number of each prefix that is bound, by its innermost binding. An ordered map, since no choice of prefixes makes
    // a look-up in it slow.
    shown: BTreeMap<String, usize>,
    frames: Vec<Frame>,
    // Each namespace name once, since it may be far longer than the names in it. Bindings and names have its number.
    spaces: Spaces,
    names: KeptNames,
}

impl Drop for Scopes {
    fn drop(self) {
        let Scopes {
            written,
            bindings,
            shown,
            frames,
            spaces,
            names,
        } = self;
        drop(written);
        drop(bindings);
        drop(shown);
        drop(frames);
        drop(spaces);
        drop(names);
    }
}

impl Model for Scopes {
    ghost use Rattle.xml_state.specs.Scopes.{InScope, in_scope, AreSound};

    ghost Value = { InScope };

    ghost view = { λ scopes. in_scope scopes.frames.items scopes.written.items scopes.bindings.items scopes.spaces scopes.names };

    ghost invariant = { λ scopes. AreSound scopes.frames.items scopes.written.items scopes.bindings.items scopes.shown scopes.spaces scopes.names };
}

impl Scopes {
    // No element is open, and no name was seen.
    pub fn new(alloc: Global) -> Self
        ensures { result ≡ record { open_elements = []; bound = namespaces.first_bindings; names = [] } }
    {
        Scopes {
            written: Vec::new(alloc),
            bindings: Vec::new(alloc),
            shown: BTreeMap::new(alloc),
            frames: Vec::new(alloc),
            spaces: Spaces::new(alloc),
            names: KeptNames::new(alloc),
        }
    }

    // How many elements are open.
    pub fn depth(&self) -> usize
        ensures { result ≡ length self.now.open_elements }
    {
        self.frames.len()
    }

    // Whether the innermost open element has this name.
    pub fn is_innermost(&self, name: &str) -> bool
        ensures { result ≡ states.is_innermost self.now.open_elements name.now }
    {
        match self.frames.last() {
            Some(frame) => stands_at(&self.written, frame.name_at, name.as_bytes()),
            None => false,
        }
    }

    // How many names were seen.
    pub fn count_names(&self) -> usize
        ensures { result ≡ length self.now.names }
    {
        self.names.len()
    }

    // Whether a prefix stands for no name.
    pub fn is_unbound(&self, prefix: &str) -> bool
        ensures { result ≡ is_none (namespaces.bound_uri prefix.now self.now.bound) }
    {
        match bound_space(&self.shown, prefix) {
            Some(_) => false,
            None => is_unknown(prefix),
        }
    }

    // Whether what is bound is already what the attributes of a tag declare inside the innermost open element: they
    // declare nothing, and no element was closed whose bindings are still there.
    pub fn is_declared(&self, attributes: &[Attribute<'_>]) -> bool
        ensures { result ≡ true → self.now.bound ≡ namespaces.declared_bindings (map seen_attribute attributes.now) ++
            states.bindings_inside_innermost self.now.open_elements }
    {
        self.bindings.len() == bindings_inside(&self.frames) && !declares(attributes)
    }

    // Binds what the attributes of a tag declare, inside the innermost open element.
    pub fn declare(&mut self, alloc: Global, attributes: &[Attribute<'_>]) -> Result<(), AllocError>
        ensures open { OnOk result (self.new.open_elements ≡ self.old.open_elements) }
        ensures bound { OnOk result (self.new.bound ≡ namespaces.declared_bindings (map seen_attribute attributes.now) ++
            states.bindings_inside_innermost self.old.open_elements) }
        ensures names { OnOk result (self.new.names ≡ self.old.names) }
    {
        let inside = bindings_inside(&self.frames);
        unbind_to(&mut self.shown, &mut self.bindings, inside);
        declare_all(
            alloc,
            &mut self.spaces,
            &mut self.shown,
            &mut self.bindings,
            attributes,
        )
    }

    // The number of the name of an element, which is added where it is new.
    pub fn number_element(
        &mut self,
        alloc: Global,
        prefix: &str,
        local: &str,
    ) -> Result<NameId, AllocError>
        ensures number { IfOk result (λ id. id ≡ number_of (record { uri = namespaces.uri_of self.old.bound prefix.now; local = chars local.now })
            self.old.names) }
        ensures names { OnOk result (self.new ≡ record self.old {
          names =
              with_name self.old.names (record { uri = namespaces.uri_of self.old.bound prefix.now; local = chars local.now });
        }) }
        ensures err { OnErr result (self.new ≡ self.old) }
    {
        let space = number_prefix(alloc, &mut self.spaces, &self.shown, &self.bindings, prefix)?;
        number_kept(&mut self.names, alloc, space, local)
    }

    // The number of the name of an attribute, which the default namespace doesn't reach.
    pub fn number_attribute(
        &mut self,
        alloc: Global,
        prefix: &str,
        local: &str,
    ) -> Result<NameId, AllocError>
        ensures number { IfOk result (λ id. id ≡ number_of (record { uri = namespaces.attribute_uri self.old.bound prefix.now; local = chars local.now })
            self.old.names) }
        ensures names { OnOk result (self.new ≡ record self.old {
          names =
              with_name self.old.names (record { uri = namespaces.attribute_uri self.old.bound prefix.now; local = chars local.now });
        }) }
        ensures err { OnErr result (self.new ≡ self.old) }
    {
        let space = number_attribute_prefix(
            alloc,
            &mut self.spaces,
            &self.shown,
            &self.bindings,
            prefix,
        )?;
        number_kept(&mut self.names, alloc, space, local)
    }

    // The names that were seen.
    pub fn into_names(self) -> NameTable
        ensures { result ≡ self.names }
    {
        let Scopes {
            written: _,
            bindings: _,
            shown: _,
            frames: _,
            spaces,
            names,
        } = self;
        NameTable::of(spaces, names)
    }

    // Opens an element, in which all is bound that was declared.
    pub fn open(&mut self, name: &str) -> Result<(), AllocError>
        ensures open { OnOk result (self.new.open_elements ≡ record { name = name.now; bindings = self.old.bound } ∷ self.old.open_elements) }
        ensures bound { self.new.bound ≡ self.old.bound }
        ensures names { self.new.names ≡ self.old.names }
    {
        let frame = Frame {
            name_at: self.written.len(),
            bindings: self.bindings.len(),
        };
        self.written.extend_from_slice(name.as_bytes())?;
        self.frames.push(frame)?;
        Ok(())
    }

    // Closes the innermost open element, where there is one.
    pub fn close(&mut self)
        ensures open { self.new.open_elements ≡ spec.around_innermost self.old.open_elements }
        ensures bound { self.new.bound ≡ self.old.bound }
        ensures names { self.new.names ≡ self.old.names }
    {
        if let Some(frame) = self.frames.pop() {
            self.written.truncate(frame.name_at);
        }
    }
}

// Whether the bytes from a place on are these.
fn stands_at(written: &[u8], at: usize, name: &[u8]) -> bool
    requires { at ≤ length written.now }
    ensures { result ≡ bytes_eq (drop at written.now) name.now }
{
    let (_, innermost) = written.split_at(at);
    innermost == name
}

fn bindings_inside(frames: &[Frame]) -> usize
    ensures { result ≡ spec.inside_innermost (reverse frames.now) }
{
    match frames.last() {
        Some(frame) => frame.bindings,
        None => 0,
    }
}

// Whether some attribute is a declaration.
fn declares(attributes: &[Attribute<'_>]) -> bool
    ensures { result ≡ false → namespaces.declared_bindings (map seen_attribute attributes.now) ≡ [] }
{
    for attribute in attributes {
        if !is_plain(attribute.name) {
            return true;
        }
    }
    false
}

// The number of the name that a prefix stands for by the innermost binding of it, where it has one.
fn bound_space(shown: &BTreeMap<String, usize>, prefix: &str) -> Option<usize>
    ensures { result ≡ get_by_text shown.now prefix.now }
{
    shown.get(prefix).copied()
}

// Ends a binding that was the innermost: its prefix has the number again that it has outside.
fn unbind(shown: &mut BTreeMap<String, usize>, bound: Bound)
    requires { IsSome (get_by_text shown.old (string_bytes bound.prefix)) }
    ensures { spec.Shows (string_bytes bound.prefix) bound.hid shown.old shown.new }
{
    let Bound {
        prefix,
        space: _,
        hid,
    } = bound;
    match hid {
        Some(space) => match shown.insert(prefix, space) {
            Ok(_) => {}
            Err(_) => unreachable!(),
        },
        None => {
            let _ = shown.remove(prefix.as_str());
        }
    }
}

// Ends all bindings but so many, the innermost first.
fn unbind_to(shown: &mut BTreeMap<String, usize>, bindings: &mut Vec<Bound>, inside: usize)
    requires { spec.AreFound shown.old bindings.old.items }
    ensures items { bindings.new.items ≡ take inside bindings.old.items }
    ensures found { spec.AreFound shown.new bindings.new.items }
{
    'bindings: while bindings.len() > inside {
        let Some(bound) = bindings.pop() else {
            return;
        };
        unbind(shown, bound);
    }
}

// Whether a prefix stands for no name outside all elements.
fn is_unknown(prefix: &str) -> bool
    ensures { result ≡ is_none (namespaces.bound_uri prefix.now namespaces.first_bindings) }
{
    !matches!(prefix, "" | "xml")
}

// The name that a prefix stands for outside all elements.
fn known_uri(prefix: &str) -> &'static str
    ensures { chars result.now ≡ namespaces.uri_of namespaces.first_bindings prefix.now }
{
    match prefix {
        "xml" => XML_URI,
        _ => "",
    }
}

// The number of the name that a prefix stands for, empty where it isn't bound. The bindings are read by the clauses alone.
fn number_prefix(
    alloc: Global,
    spaces: &mut Spaces,
    shown: &BTreeMap<String, usize>,
    bindings: &[Bound],
    prefix: &str,
) -> Result<usize, AllocError>
    requires bound { spec.AreBound spaces.old bindings.now }
    requires found { spec.AreFound shown.now bindings.now }
    ensures { tables.TakesSpace result (namespaces.uri_of (spec.bindings_of spaces.old bindings.now) prefix.now) spaces.old spaces.new }
{
    match bound_space(shown, prefix) {
        Some(space) => Ok(space),
        None => number_space(spaces, alloc, known_uri(prefix)),
    }
}

// The number of the name that the prefix of an attribute stands for: the default namespace doesn't reach attributes.
fn number_attribute_prefix(
    alloc: Global,
    spaces: &mut Spaces,
    shown: &BTreeMap<String, usize>,
    bindings: &[Bound],
    prefix: &str,
) -> Result<usize, AllocError>
    requires bound { spec.AreBound spaces.old bindings.now }
    requires found { spec.AreFound shown.now bindings.now }
    ensures { tables.TakesSpace result (namespaces.attribute_uri (spec.bindings_of spaces.old bindings.now) prefix.now) spaces.old spaces.new }
{
    if prefix.is_empty() {
        number_space(spaces, alloc, "")
    } else {
        number_prefix(alloc, spaces, shown, bindings, prefix)
    }
}

// Binds what the attributes declare, the last first: the first of them is to be found first.
fn declare_all(
    alloc: Global,
    spaces: &mut Spaces,
    shown: &mut BTreeMap<String, usize>,
    bindings: &mut Vec<Bound>,
    attributes: &[Attribute<'_>],
) -> Result<(), AllocError>
    requires bound { spec.AreBound spaces.old bindings.old.items }
    requires found { spec.AreFound shown.old bindings.old.items }
    ensures declares { spec.Declares result (map seen_attribute attributes.now) spaces.old spaces.new bindings.old.items bindings.new.items }
    ensures found { spec.AreFound shown.new bindings.new.items }
{
    for attribute in attributes.iter().rev() {
        declare_one(alloc, spaces, shown, bindings, attribute)?;
    }
    Ok(())
}

fn declare_one(
    alloc: Global,
    spaces: &mut Spaces,
    shown: &mut BTreeMap<String, usize>,
    bindings: &mut Vec<Bound>,
    attribute: &Attribute<'_>,
) -> Result<(), AllocError>
    requires bound { spec.AreBound spaces.old bindings.old.items }
    requires found { spec.AreFound shown.old bindings.old.items }
    ensures declares { spec.Declares result (seen_attribute attribute.now ∷ []) spaces.old spaces.new bindings.old.items bindings.new.items }
    ensures found { spec.AreFound shown.new bindings.new.items }
{
    match declared_prefix(attribute.name) {
        Some(prefix) => bind(
            alloc,
            spaces,
            shown,
            bindings,
            prefix,
            text_of(&attribute.value),
        ),
        None => Ok(()),
    }
}

// Binds a prefix to a name inside all others.
fn bind(
    alloc: Global,
    spaces: &mut Spaces,
    shown: &mut BTreeMap<String, usize>,
    bindings: &mut Vec<Bound>,
    prefix: &str,
    uri: &str,
) -> Result<(), AllocError>
    requires bound { spec.AreBound spaces.old bindings.old.items }
    requires found { spec.AreFound shown.old bindings.old.items }
    ensures binds { spec.Binds result (record { prefix = prefix.now; uri = chars uri.now }) spaces.old spaces.new bindings.old.items bindings.new.items }
    ensures found { spec.AreFound shown.new bindings.new.items }
{
    let space = number_space(spaces, alloc, uri)?;
    bind_space(alloc, shown, bindings, prefix, space)
}

// Binds a prefix to the number of a name inside all others.
fn bind_space(
    alloc: Global,
    shown: &mut BTreeMap<String, usize>,
    bindings: &mut Vec<Bound>,
    prefix: &str,
    space: usize,
) -> Result<(), AllocError>
    requires { spec.AreFound shown.old bindings.old.items }
    ensures ok { OnOk result (spec.BindsSpace prefix.now space bindings.old.items bindings.new.items) }
    ensures err { OnErr result (bindings.new.items ≡ bindings.old.items) }
    ensures found { spec.AreFound shown.new bindings.new.items }
{
    let key = String::from_str(alloc, prefix)?;
    let prefix = String::from_str(alloc, prefix)?;
    bindings.reserve(1)?;
    let hid = shown.insert(key, space)?;
    bindings.push_reserved(Bound { prefix, space, hid });
    Ok(())
}
