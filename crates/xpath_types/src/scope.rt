ghost use Rattle.std.specs.Prelude.{◌≡◌, [], chars, option_map, OnOk, OnErr, length, take};
ghost use Rattle.xpath_types.specs.Scopes as spec;

use crate::functions::{FUNCTIONS_URI, TYPES_URI};
use indexmap::{IndexMap, IndexSet};
use std::alloc::{AllocError, Global};
use std::marker::Model;
use xpath_tokens::texts::is_text;

/// What is declared outside an expression: prefixes with the namespaces that they are bound to, and
/// names of variables. The prefixes `fn` and `xs` are always bound.
pub struct Scope {
    prefixes: IndexMap<String, String>,
    variables: IndexSet<String>,
}

impl Drop for Scope {
    fn drop(self) {
        let Scope {
            prefixes,
            variables,
        } = self;
        drop(prefixes);
        drop(variables);
    }
}

impl Model for Scope {
    ghost use Rattle.xpath_types.specs.Scopes.{Declared, declared_by};

    ghost Value = { Declared };

    ghost view = { λ scope. declared_by scope.prefixes.entries scope.variables.keys };
}

impl Scope {
    /// A scope without declarations.
    pub fn new(alloc: Global) -> Scope
        ensures { result ≡ record { prefixes = []; variables = [] } }
    {
        Scope {
            prefixes: IndexMap::new(alloc),
            variables: IndexSet::new(alloc),
        }
    }

    /// Binds the prefix to the namespace, unless it is bound: the first binding counts. Want of
    /// memory changes nothing.
    pub fn prefix(&mut self, alloc: Global, prefix: &str, uri: &str) -> Result<(), AllocError>
        ensures ok { OnOk result (self.new ≡ spec.with_prefix self.old (chars prefix.now) (chars uri.now)) }
        ensures err { OnErr result (self.new ≡ self.old) }
    {
        if self.uri(prefix).is_some() {
            return Ok(());
        }
        let prefix = String::from_str(alloc, prefix)?;
        let uri = String::from_str(alloc, uri)?;
        self.prefixes.insert(prefix, uri)?;
        Ok(())
    }

    /// Declares the variable, whose name is given as it is written: `x` or `p:x`. Want of memory
    /// changes nothing.
    pub fn variable(&mut self, alloc: Global, name: &str) -> Result<(), AllocError>
        ensures ok { OnOk result (self.new ≡ spec.with_variable self.old (chars name.now)) }
        ensures err { OnErr result (self.new ≡ self.old) }
    {
        self.variables.insert(String::from_str(alloc, name)?)?;
        Ok(())
    }

    /// How many variables are declared.
    pub fn count(&self) -> usize
        ensures { result ≡ length self.now.variables }
    {
        self.variables.len()
    }

    /// Takes back all variables but the first so many, as it was when it had so many.
    pub fn truncate(&mut self, count: usize)
        ensures { self.new ≡ record self.old { variables = take count self.old.variables } }
    {
        self.variables.truncate(count);
    }

    /// The namespace that the prefix is bound to.
    pub fn uri(&self, prefix: &str) -> Option<&str>
        ensures { option_map (λ uri. chars uri.now) result ≡ spec.uri_of (chars prefix.now) self.now }
    {
        if is_text(prefix, "fn") {
            Some(FUNCTIONS_URI)
        } else if is_text(prefix, "xs") {
            Some(TYPES_URI)
        } else {
            bound_uri(&self.prefixes, prefix)
        }
    }

    /// Whether a variable of this name, as it is written, is declared.
    pub(crate) fn declares(&self, name: &str) -> bool
        ensures { result ≡ spec.declares self.now (chars name.now) }
    {
        self.variables.contains(name)
    }
}

fn bound_uri<'a>(prefixes: &'a IndexMap<String, String>, prefix: &str) -> Option<&'a str>
    ensures { option_map (λ uri. chars uri.now) result ≡ spec.first_uri (chars prefix.now) (spec.bindings_of prefixes.now.entries) }
{
    match prefixes.get(prefix) {
        Some(uri) => Some(uri.as_str()),
        None => None,
    }
}
