ghost use Rattle.std.specs.Prelude.{◌≡◌, [], OnOk, OnErr, IfOk, option_copied, option_map};
ghost use Rattle.std.specs.List.Sorted.{IsStrictlySortedBy};
ghost use Rattle.std.specs.Map.{keys_of, values_of};
ghost use Rattle.ordered_map.specs.Entries.{value_at, entries_behind, value_behind, HaveTheirKeys};

use crate::keyed::Keyed;
use crate::merging::{merged, put};
use crate::places::{Place, place_of};
use std::alloc::{AllocError, Global};
use std::collections::BTreeMap;
use std::marker::Model;

/// Values in the order of their keys. Contracts see the keys with their values, in that order.
///
/// A value that comes in the order of keys, or a little out of it, takes its own size and no more.
pub struct OrderedMap<K: Ord + Copy, V: Keyed<K>> {
    /// In the order of keys.
    sorted: Vec<V>,
    /// What came far out of order, by its keys.
    others: BTreeMap<K, V>,
}

impl<K: Ord + Copy, V: Keyed<K>> Model for OrderedMap<K, V> {
    ghost use Rattle.ordered_map.specs.Entries.{Ordered, ordered_code, entries_of, AreApart};

    ghost Value = { Ordered K V };

    ghost coded = { ordered_code K.code V.code };

    ghost view = { λ m. record { entries = entries_of K.cmp V.key_of m.sorted.items m.others.entries } };

    ghost invariant = { λ m. AreApart K.cmp V.key_of m.sorted.items m.others.entries };
}

impl<K: Ord + Copy, V: Keyed<K> + Drop> Drop for OrderedMap<K, V> {
    fn drop(self) {
        let OrderedMap { sorted, others } = self;
        drop(sorted);
        drop(others);
    }
}

impl<K: Ord + Copy, V: Keyed<K>> OrderedMap<K, V> {
    /// No values.
    pub fn new(alloc: Global) -> OrderedMap<K, V>
        ensures { result.entries ≡ [] }
    {
        OrderedMap {
            sorted: Vec::new(alloc),
            others: BTreeMap::new(alloc),
        }
    }

    /// No values, with room for as many in the order of their keys, none of which moves as more come.
    pub fn with_capacity(alloc: Global, count: usize) -> Result<OrderedMap<K, V>, AllocError>
        ensures { IfOk result (λ map. map.entries ≡ []) }
    {
        let sorted = Vec::with_capacity(alloc, count)?;
        Ok(OrderedMap {
            sorted,
            others: BTreeMap::new(alloc),
        })
    }

    /// The value of a key.
    pub fn get(&self, key: &K) -> Option<&V>
        ensures { option_copied result ≡ value_at K.cmp key.now self.now.entries }
    {
        match place_of(self.sorted.as_slice(), key) {
            Place::At(place) => Some(&self.sorted[place]),
            Place::Before(_) => self.others.get(key),
        }
    }

    /// Does nothing: what it ensures is that the keys ascend, and that each is that of its value.
    pub fn keys_ascend(&self)
        ensures ordered { IsStrictlySortedBy K.cmp (keys_of self.now.entries) }
        ensures keys { HaveTheirKeys V.key_of self.now.entries }
    {
        let _ = &self.sorted;
    }
}

impl<K: Ord + Copy, V: Keyed<K> + Drop> OrderedMap<K, V> {
    /// Puts in a value of a new key. Where its key has a value already, that one stays and the other is given back. Without memory
    /// nothing changes.
    pub fn insert(&mut self, value: V) -> Result<Option<V>, AllocError>
        ensures back { IfOk result (λ back. back ≡ option_map (λ _. value) (value_at K.cmp (V.key_of value) self.old.entries)) }
        ensures ok { OnOk result (self.new.entries ≡ entries_behind K.cmp self.old.entries (V.key_of value) value) }
        ensures values { OnOk result ((k : K) → value_at K.cmp k self.new.entries ≡ value_behind K.cmp k self.old.entries (V.key_of value) value) }
        ensures err { OnErr result (self.new.entries ≡ self.old.entries) }
    {
        put(&mut self.sorted, &mut self.others, value)
    }

    /// The values, in the order of their keys.
    pub fn into_values(self, alloc: Global) -> Result<Vec<V>, AllocError>
        ensures { IfOk result (λ values. values.items ≡ values_of self.entries) }
    {
        let OrderedMap { sorted, others } = self;
        if others.is_empty() {
            drop(others);
            Ok(sorted)
        } else {
            merged(alloc, sorted, others)
        }
    }
}
