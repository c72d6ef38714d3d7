//! Ordered maps beside std's, over the same keys in the same order of coming.
use ordered_map::{Keyed, OrderedMap};
use std::alloc::{AllocError, Global};
use std::collections::BTreeMap;
use std::test::Fail;

#[derive(Drop)]
struct Numbered {
    key: u64,
    number: u64,
}

impl Keyed<u64> for Numbered {
    ghost key_of = { λ item. item.key };

    fn key(&self) -> u64 {
        self.key
    }
}

/// How keys come.
#[derive(Clone, Copy)]
enum Coming {
    /// Each above the one before.
    Rising,
    /// So far at most from where they would stand.
    Within(u64),
    /// Anyhow, of so many.
    Anyhow(u64),
    /// In runs of so many, now far below, now far above.
    InRuns(u64),
}

fn next(seed: u64) -> u64 {
    let shifted = seed ^ (seed << 13);
    let mixed = shifted ^ (shifted >> 7);
    mixed ^ (mixed << 17)
}

fn key_of(coming: Coming, k: u64, seed: u64) -> u64 {
    match coming {
        Coming::Rising => k,
        Coming::Within(far) => k.wrapping_add(seed % far.max(1)),
        Coming::Anyhow(count) => seed % count.max(1),
        Coming::InRuns(length) => seed % 2_000 + (k / length.max(1) % 2) * 2_000,
    }
}

/// Puts the key's number in both maps where no value has the key, and answers whether both knew the same of it.
fn put(
    map: &mut OrderedMap<u64, Numbered>,
    told: &mut BTreeMap<u64, u64>,
    key: u64,
    number: u64,
) -> Result<bool, AllocError> {
    match map.insert(Numbered { key, number })? {
        Some(back) => {
            let given_back = back.key == key && back.number == number;
            drop(back);
            Ok(given_back && is_held(map, told, key))
        }
        None => Ok(told.insert(key, number)?.is_none()),
    }
}

/// Whether both maps have the same number at the key.
fn is_held(map: &OrderedMap<u64, Numbered>, told: &BTreeMap<u64, u64>, key: u64) -> bool {
    match map.get(&key) {
        Some(item) => told.get(&key) == Some(&item.number),
        None => false,
    }
}

/// Whether both maps have the same values, in the same order.
fn is_same(values: &[Numbered], told: &BTreeMap<u64, u64>) -> bool {
    if values.len() != told.len() {
        return false;
    }
    for (item, (key, number)) in values.iter().zip(told) {
        if item.key != *key || item.number != *number {
            return false;
        }
    }
    true
}

fn is_same_way(alloc: Global, coming: Coming) -> Result<bool, AllocError> {
    let mut map = OrderedMap::new(alloc);
    let mut told = BTreeMap::new(alloc);
    let mut seed = 88_172_645_463_325_252;
    let mut known = true;
    for number in 0..3_000 {
        seed = next(seed);
        known = put(&mut map, &mut told, key_of(coming, number, seed), number)? && known;
    }
    let values = map.into_values(alloc)?;
    let same = is_same(values.as_slice(), &told);
    drop(values);
    drop(told);
    Ok(known && same)
}

#[test]
fn values_stand_in_the_order_of_their_keys(rt: HostRuntime) -> Result<(), Fail> {
    assert!(rt; is_same_way(rt.alloc(), Coming::Rising)?);
    assert!(rt; is_same_way(rt.alloc(), Coming::Within(20))?);
    assert!(rt; is_same_way(rt.alloc(), Coming::Within(200))?);
    assert!(rt; is_same_way(rt.alloc(), Coming::Anyhow(60))?);
    assert!(rt; is_same_way(rt.alloc(), Coming::Anyhow(5_000))?);
    assert!(rt; is_same_way(rt.alloc(), Coming::InRuns(500))?);
    Ok(())
}
