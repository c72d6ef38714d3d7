//! The open elements and the names, where a name that was judged and numbered under the bindings in force isn't judged
//! and numbered again.
ghost use Rattle.std.specs.Prelude.{◌≡◌, ◌+◌, [], ◌∷◌, ◌++◌, map, length, IfOk, OnOk};
ghost use Rattle.xml_tokens.specs.Seen.{seen_attribute};
ghost use Rattle.xml_events.specs.Names.{number_of, with_name};
ghost use Rattle.xml_state.specs.Namespaces as namespaces;
ghost use Rattle.xml_state.specs.Scopes.{around_innermost};
ghost use Rattle.xml_state.specs.States as states;

use crate::recent::{Slot, keep_recent, recent_number};
use crate::scopes::Scopes;
use crate::written::parts_of;
use std::alloc::{AllocError, Global};
use std::marker::Model;
use xml_events::{NameId, NameTable};
use xml_tokens::Attribute;

// The open elements and the names, with names that were numbered before.
pub(crate) struct Registry {
    scopes: Scopes,
    // It rises whenever other bindings come into force: what was kept under another stamp says nothing.
    stamp: u64,
    elements: Vec<Slot>,
    // Their own, since the default namespace doesn't reach attributes.
    attributes: Vec<Slot>,
}

impl Drop for Registry {
    fn drop(self) {
        let Registry {
            scopes,
            stamp: _,
            elements,
            attributes,
        } = self;
        drop(scopes);
        drop(elements);
        drop(attributes);
    }
}

impl Model for Registry {
    ghost use Rattle.xml_state.specs.Scopes.{InScope};
    ghost use Rattle.xml_state.specs.Recent.{AreRecalled};

    ghost Value = { InScope };

    ghost view = { λ registry. registry.scopes };

    ghost invariant = { λ registry. AreRecalled registry.scopes registry.stamp registry.elements.items registry.attributes.items };
}

impl Registry {
    // No element is open, and no name was seen.
    pub fn new(alloc: Global) -> Self
        ensures { result ≡ record { open_elements = []; bound = namespaces.first_bindings; names = [] } }
    {
        Registry {
            scopes: Scopes::new(alloc),
            stamp: 1,
            elements: Vec::new(alloc),
            attributes: Vec::new(alloc),
        }
    }

    // How many elements are open.
    pub fn depth(&self) -> usize
        ensures { result ≡ length self.now.open_elements }
    {
        self.scopes.depth()
    }

    // Whether the innermost open element has this name.
    pub fn is_innermost(&self, name: &str) -> bool
        ensures { result ≡ states.is_innermost self.now.open_elements name.now }
    {
        self.scopes.is_innermost(name)
    }

    // How many names were seen.
    pub fn count_names(&self) -> usize
        ensures { result ≡ length self.now.names }
    {
        self.scopes.count_names()
    }

    // Whether the prefix of the name of an element isn't bound.
    pub fn is_undeclared_element(&self, name: &str) -> bool
        ensures { result ≡ namespaces.is_undeclared self.now.bound name.now }
    {
        match recent_number(&self.elements, self.stamp, name) {
            Some(_) => false,
            None => self.scopes.is_unbound(parts_of(name).0),
        }
    }

    // Whether the prefix of the name of an attribute isn't bound.
    pub fn is_undeclared_attribute(&self, name: &str) -> bool
        ensures { result ≡ namespaces.is_undeclared self.now.bound name.now }
    {
        match recent_number(&self.attributes, self.stamp, name) {
            Some(_) => false,
            None => self.scopes.is_unbound(parts_of(name).0),
        }
    }

    // Binds what the attributes of a tag declare, inside the innermost open element.
    pub fn declare(&mut self, alloc: Global, attributes: &[Attribute<'_>]) -> Result<(), AllocError>
        ensures open { OnOk result (self.new.open_elements ≡ self.old.open_elements) }
        ensures bound { OnOk result (self.new.bound ≡ namespaces.declared_bindings (map seen_attribute attributes.now) ++
            states.bindings_inside_innermost self.old.open_elements) }
        ensures names { OnOk result (self.new.names ≡ self.old.names) }
    {
        if self.scopes.is_declared(attributes) {
            return Ok(());
        }
        self.stamp = next_stamp(self.stamp)?;
        self.scopes.declare(alloc, attributes)
    }

    // The number of the name of an element, which is added where it is new.
    pub fn number_element(&mut self, alloc: Global, name: &str) -> Result<NameId, AllocError>
        ensures number { IfOk result (λ id. id ≡ number_of (namespaces.element_name self.old.bound name.now) self.old.names) }
        ensures names { OnOk result (self.new ≡ record self.old { names = with_name self.old.names (namespaces.element_name self.old.bound name.now) }) }
    {
        if let Some(id) = recent_number(&self.elements, self.stamp, name) {
            return Ok(id);
        }
        let (prefix, local) = parts_of(name);
        let id = self.scopes.number_element(alloc, prefix, local)?;
        if !self.scopes.is_unbound(prefix) {
            keep_recent(alloc, &mut self.elements, self.stamp, name, id)?;
        }
        Ok(id)
    }

    // The number of the name of an attribute, which the default namespace doesn't reach.
    pub fn number_attribute(&mut self, alloc: Global, name: &str) -> Result<NameId, AllocError>
        ensures number { IfOk result (λ id. id ≡ number_of (namespaces.attribute_name self.old.bound name.now) self.old.names) }
        ensures names { OnOk result (self.new ≡ record self.old { names = with_name self.old.names (namespaces.attribute_name self.old.bound name.now) }) }
    {
        if let Some(id) = recent_number(&self.attributes, self.stamp, name) {
            return Ok(id);
        }
        let (prefix, local) = parts_of(name);
        let id = self.scopes.number_attribute(alloc, prefix, local)?;
        if !self.scopes.is_unbound(prefix) {
            keep_recent(alloc, &mut self.attributes, self.stamp, name, id)?;
        }
        Ok(id)
    }

    // The names that were seen.
    pub fn into_names(self) -> NameTable
        ensures { result ≡ self.names }
    {
        let Registry {
            scopes,
            stamp: _,
            elements: _,
            attributes: _,
        } = self;
        scopes.into_names()
    }

    // Opens an element, in which all is bound that was declared.
    pub fn open(&mut self, name: &str) -> Result<(), AllocError>
        ensures open { OnOk result (self.new.open_elements ≡ record { name = name.now; bindings = self.old.bound } ∷ self.old.open_elements) }
        ensures names { OnOk result (self.new.names ≡ self.old.names) }
    {
        self.scopes.open(name)
    }

    // Closes the innermost open element, where there is one.
    pub fn close(&mut self)
        ensures open { self.new.open_elements ≡ around_innermost self.old.open_elements }
        ensures names { self.new.names ≡ self.old.names }
    {
        self.scopes.close()
    }
}

// The stamp behind a stamp. Where there were more changes of bindings than 2^64 memory runs out, and no number wraps.
fn next_stamp(stamp: u64) -> Result<u64, AllocError>
    ensures { IfOk result (λ next. next ≡ stamp + 1) }
{
    match stamp.checked_add(1) {
        Some(next) => Ok(next),
        None => Err(AllocError),
    }
}
