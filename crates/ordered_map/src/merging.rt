//! A list of values in the order of their keys and the entries beside it: one more, or all of them in one list.
ghost use Rattle.std.specs.Prelude.{◌≡◌, None, OnOk, OnErr, IfOk};
ghost use Rattle.std.specs.Map.{values_of};
ghost use Rattle.ordered_map.specs.declared.places.Place.TheVariants as places;
ghost use Rattle.ordered_map.specs.Entries.{value_at, entries_of, AreApart};
ghost use Rattle.ordered_map.specs.Merging.{ArePut, ArePutIn, IsTakenIfAny, is_other_next};
ghost use Rattle.ordered_map.specs.Places.{IsPlace};

use crate::keyed::Keyed;
use crate::places::{Place, place_of};
use std::alloc::{AllocError, Global};
use std::cmp::Ordering;
use std::collections::{BTreeMap, VecDeque};

/// How many values of the list a new one may push on. Where more would have to move, it goes beside the list.
const NEAR: usize = 32;

/// Puts in a value of a new key, or gives it back where its key has a value already.
pub(crate) fn put<K: Ord + Copy, V: Keyed<K> + Drop>(
    sorted: &mut Vec<V>,
    others: &mut BTreeMap<K, V>,
    value: V,
) -> Result<Option<V>, AllocError>
    requires { AreApart K.cmp V.key_of sorted.old.items others.old.entries }
    ensures ok { IfOk result (λ back. ArePut K.cmp V.key_of sorted.old.items others.old.entries value back sorted.new.items others.new.entries) }
    ensures sorted { OnErr result (sorted.new.items ≡ sorted.old.items) }
    ensures others { OnErr result (others.new.entries ≡ others.old.entries) }
{
    let key = value.key();
    let Place::Before(place) = place_of(sorted.as_slice(), &key) else {
        return Ok(Some(value));
    };
    if others.contains_key(&key) {
        return Ok(Some(value));
    }
    put_new(sorted, others, place, value)?;
    Ok(None)
}

// Puts in a value of a new key, which belongs at the place of the list.
fn put_new<K: Ord + Copy, V: Keyed<K> + Drop>(
    sorted: &mut Vec<V>,
    others: &mut BTreeMap<K, V>,
    place: usize,
    value: V,
) -> Result<(), AllocError>
    requires are_apart { AreApart K.cmp V.key_of sorted.old.items others.old.entries }
    requires absent { value_at K.cmp (V.key_of value) (entries_of K.cmp V.key_of sorted.old.items others.old.entries) ≡ None }
    requires place { IsPlace (λ x. K.cmp (V.key_of value) (V.key_of x)) sorted.old.items (places.Before place) }
    ensures ok { OnOk result (ArePutIn K.cmp V.key_of sorted.old.items others.old.entries value sorted.new.items others.new.entries) }
    ensures sorted { OnErr result (sorted.new.items ≡ sorted.old.items) }
    ensures others { OnErr result (others.new.entries ≡ others.old.entries) }
{
    if sorted.len() - place <= NEAR {
        sorted.insert(place, value)?;
    } else {
        drop(others.insert(value.key(), value)?);
    }
    Ok(())
}

// Whether the least value is the first of the others.
fn is_other_next<K: Ord + Copy, V: Keyed<K>>(sorted: &VecDeque<V>, others: &BTreeMap<K, V>) -> bool
    ensures { result ≡ is_other_next K.cmp V.key_of sorted.now.items others.now.entries }
{
    let Some(value) = sorted.front() else {
        return true;
    };
    match others.first_key_value() {
        Some((key, _)) => key.cmp(&value.key()) == Ordering::Less,
        None => false,
    }
}

// Takes the least value.
fn take_next<K: Ord + Copy, V: Keyed<K>>(
    sorted: &mut VecDeque<V>,
    others: &mut BTreeMap<K, V>,
) -> Option<V>
    requires { AreApart K.cmp V.key_of sorted.old.items others.old.entries }
    ensures { IsTakenIfAny K.cmp V.key_of sorted.old.items others.old.entries result sorted.new.items others.new.entries }
{
    if is_other_next(sorted, others) {
        match others.pop_first() {
            Some((_, value)) => Some(value),
            None => None,
        }
    } else {
        sorted.pop_front()
    }
}

/// All values, in the order of their keys.
pub(crate) fn merged<K: Ord + Copy, V: Keyed<K> + Drop>(
    alloc: Global,
    sorted: Vec<V>,
    mut others: BTreeMap<K, V>,
) -> Result<Vec<V>, AllocError>
    requires { AreApart K.cmp V.key_of sorted.items others.entries }
    ensures { IfOk result (λ values. values.items ≡ values_of (entries_of K.cmp V.key_of sorted.items others.entries)) }
{
    let count = sorted.len().saturating_add(others.len());
    let mut values = Vec::with_capacity(alloc, count)?;
    let mut sorted = VecDeque::from(sorted);
    'values: while let Some(value) = take_next(&mut sorted, &mut others) {
        values.push(value)?;
    }
    Ok(values)
}
