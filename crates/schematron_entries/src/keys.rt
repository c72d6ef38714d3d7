//! Names of elements, in a set.
ghost use Rattle.std.specs.Prelude.{◌≡◌, [], chars, not, encode_utf8_all, IfOk, OnOk};
ghost use Rattle.std.specs.List.{list_any};
ghost use Rattle.schematron_entries.specs.Keys as spec;

use indexmap::IndexSet;
use std::alloc::{AllocError, Global};
use std::marker::Model;

/// What a name is one of.
#[derive(Clone, Copy, PartialEq, Eq, Hash)]
pub(crate) enum Sort {
    /// All patterns.
    Patterns,
    /// All rules.
    Rules,
    /// All phases.
    Phases,
    /// Lets or parameters of one element.
    Variables,
    /// The patterns that are judged.
    Judged,
    /// The abstract patterns.
    AbstractPatterns,
    /// The abstract rules.
    AbstractRules,
}

/// A name of a sort, in an element where that counts, else in 0.
#[derive(Clone, Copy, PartialEq, Eq, Hash)]
pub(crate) struct Key<'d> {
    pub sort: Sort,
    pub reach: u32,
    pub name: &'d str,
}

/// A set of names. Contracts see them as a list, in the order in which they were put in.
pub(crate) struct KeySet<'d> {
    keys: IndexSet<Key<'d>>,
}

impl Drop for KeySet<'_> {
    fn drop(self) {
        let KeySet { keys } = self;
        drop(keys);
    }
}

impl<'d> Model for KeySet<'d> {
    ghost use Rattle.std.specs.Prelude.{List, map};
    ghost use Rattle.schematron_entries.specs.Keys.{SeenKey, seen_key, AreTexts};

    ghost Value = { List SeenKey };

    ghost view = { λ set. map seen_key set.keys.keys };

    ghost invariant = { λ set. AreTexts set.keys.keys };
}

impl<'d> KeySet<'d> {
    /// No name.
    pub(crate) fn new(alloc: Global) -> KeySet<'d>
        ensures { result ≡ [] }
    {
        KeySet {
            keys: IndexSet::new(alloc),
        }
    }

    /// Puts a name in, and tells whether it is new.
    pub(crate) fn insert(&mut self, key: Key<'d>) -> Result<bool, AllocError>
        ensures added { IfOk result (λ added. added ≡ not (list_any (spec.is_same (spec.seen_key key.entry)) self.old)) }
        ensures keys { OnOk result (self.new ≡ spec.with_key self.old (spec.seen_key key.entry)) }
    {
        text_is_its_characters(key.name);
        Ok(self.keys.insert(key)?)
    }

    /// Whether the name is there.
    pub(crate) fn contains(&self, key: Key<'d>) -> bool
        ensures { result ≡ list_any (spec.is_same (spec.seen_key key.entry)) self.now }
    {
        text_is_its_characters(key.name);
        self.keys.contains(&key)
    }
}

/// A text is the bytes of its characters. It has no code.
fn text_is_its_characters(text: &str)
    ensures { encode_utf8_all (chars text.now) ≡ text.now }
{
    let _ = text;
}
