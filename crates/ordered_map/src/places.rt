//! Where a key stands among values in the order of their keys.
ghost use Rattle.std.specs.List.Sorted.{IsStrictlySortedBy};
ghost use Rattle.std.specs.Map.{keys_of};
ghost use Rattle.ordered_map.specs.Entries.{with_keys};
ghost use Rattle.ordered_map.specs.Places.{IsPlace, IsWithin};

use crate::keyed::Keyed;
use std::cmp::Ordering;

/// At the value of its key, or before the values above it.
#[derive(Clone, Copy)]
pub(crate) enum Place {
    At(usize),
    Before(usize),
}

/// The place of a key. It is looked for from the end on, in steps that double: near the end it is found in a few looks.
pub(crate) fn place_of<K: Ord + Copy, V: Keyed<K>>(values: &[V], key: &K) -> Place
    requires { IsStrictlySortedBy K.cmp (keys_of (with_keys V.key_of values.now)) }
    ensures { IsPlace (λ x. K.cmp key.now (V.key_of x)) values.now result }
{
    let mut end = values.len();
    let mut step: usize = 1;
    'steps: while end > 0 {
        let look = end.saturating_sub(step);
        match key.cmp(&values[look].key()) {
            Ordering::Less => end = look,
            Ordering::Equal => return Place::At(look),
            Ordering::Greater => return place_between(values, key, look + 1, end),
        }
        step = step.saturating_mul(2);
    }
    Place::Before(0)
}

// The place of a key that is above the values before the first place and below those from the second on. It is found by
// halving.
fn place_between<K: Ord + Copy, V: Keyed<K>>(
    values: &[V],
    key: &K,
    mut low: usize,
    mut high: usize,
) -> Place
    requires ascend { IsStrictlySortedBy K.cmp (keys_of (with_keys V.key_of values.now)) }
    requires within { IsWithin (λ x. K.cmp key.now (V.key_of x)) values.now low high }
    ensures { IsPlace (λ x. K.cmp key.now (V.key_of x)) values.now result }
{
    'halves: while low < high {
        let middle = low + (high - low) / 2;
        match key.cmp(&values[middle].key()) {
            Ordering::Less => high = middle,
            Ordering::Equal => return Place::At(middle),
            Ordering::Greater => low = middle + 1,
        }
    }
    Place::Before(low)
}
