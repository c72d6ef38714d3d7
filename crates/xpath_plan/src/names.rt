//! The expanded names that a plan's steps test for.
ghost use Rattle.std.specs.Prelude.{◌≡◌, Some, [], chars, string_bytes, IfOk, OnOk, length, take, slice_get, option_map};

use indexmap::IndexSet;
use std::alloc::{AllocError, Global};
use std::marker::Model;

/// An expanded name: a namespace name, empty for none, and a local name.
#[derive(PartialEq, Eq, Hash, Drop)]
pub(crate) struct Kept {
    pub uri: String,
    pub local: String,
}

/// The expanded names of a plan, each once, numbered in first-seen order.
pub struct NameTable {
    names: IndexSet<Kept>,
}

impl Drop for NameTable {
    fn drop(self) {
        let NameTable { names } = self;
        drop(names);
    }
}

impl Model for NameTable {
    ghost use Rattle.std.specs.Prelude.{List};
    ghost use Rattle.inv_base.specs.Tree.{Name};

    ghost Value = { List Name };

    ghost use Rattle.xpath_plan.specs.Names.{names_of};

    ghost view = { λ table. names_of table.names.keys };
}

impl NameTable {
    pub(crate) fn new(alloc: Global) -> NameTable
        ensures { result ≡ [] }
    {
        NameTable {
            names: IndexSet::new(alloc),
        }
    }

    /// The number of the name, which is added where it is new.
    pub(crate) fn number(
        &mut self,
        alloc: Global,
        uri: &str,
        local: &str,
    ) -> Result<usize, AllocError>
        ensures number { IfOk result (λ n. slice_get self.new n ≡ Some (record { uri = chars uri.now; local = chars local.now })) }
        ensures grown { OnOk result (take (length self.old) self.new ≡ self.old) }
    {
        let uri = String::from_str(alloc, uri)?;
        let local = String::from_str(alloc, local)?;
        let (number, _) = self.names.insert_full(Kept { uri, local })?;
        Ok(number)
    }

    /// How many names there are. They have the numbers below.
    pub fn len(&self) -> usize
        ensures { result ≡ length self.now }
    {
        self.names.len()
    }

    /// The namespace name of the name with the number, empty for none.
    pub fn uri(&self, number: usize) -> Option<&str>
        ensures { option_map (λ uri. chars uri.now) result ≡ option_map (λ name. name.uri) (slice_get self.now number) }
    {
        match self.names.get_index(number) {
            Some(kept) => Some(kept.uri.as_str()),
            None => None,
        }
    }

    /// The local name of the name with the number.
    pub fn local(&self, number: usize) -> Option<&str>
        ensures { option_map (λ local. chars local.now) result ≡ option_map (λ name. name.local) (slice_get self.now number) }
    {
        match self.names.get_index(number) {
            Some(kept) => Some(kept.local.as_str()),
            None => None,
        }
    }
}
