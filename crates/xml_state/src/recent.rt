//! Names that were judged and numbered before, by their text as written: most names of a document stand in it again and
//! again.
ghost use Rattle.std.specs.Prelude.{◌≡◌, ℕ, ◌<◌, ◌==◌, ◌&&◌, Bool, true, List, length, slice_set, string_bytes, bytes_eq, IfSome, OnOk, OnErr};
ghost use Rattle.xml_state.specs.Recent as spec;

use std::alloc::{AllocError, Global};
use xml_events::NameId;

// So many names are kept.
const SLOTS: usize = 64;

// A name as written and its number, which are right as long as the stamp is that of the bindings in force.
#[derive(Drop)]
pub(crate) struct Slot {
    stamp: u64,
    written: String,
    number: NameId,
}

impl Slot {
    // It holds no name, whatever the number: stamps begin with 1.
    fn new(alloc: Global, number: NameId) -> Slot
        ensures { result.stamp ≡ 0 }
    {
        Slot {
            stamp: 0,
            written: String::new(alloc),
            number,
        }
    }

    fn holds(&self, stamp: u64, name: &str) -> bool
        ensures { result ≡ (self.now.stamp == stamp && bytes_eq (string_bytes self.now.written) name.now) }
    {
        self.stamp == stamp && self.written.as_str() == name
    }

    // Puts a name into the slot, behind an `Err` none.
    fn put(&mut self, stamp: u64, name: &str, number: NameId) -> Result<(), AllocError>
        ensures stamp { OnOk result (self.new.stamp ≡ stamp) }
        ensures written { OnOk result (string_bytes self.new.written ≡ name.now) }
        ensures number { OnOk result (self.new.number ≡ number) }
        ensures err { OnErr result (self.new.stamp ≡ 0) }
    {
        self.stamp = 0;
        self.written.clear();
        self.written.push_str(name)?;
        self.number = number;
        self.stamp = stamp;
        Ok(())
    }
}

// The slot of a name, by its length and two of its bytes.
fn place_of(name: &[u8]) -> usize
    ensures { result < 64 }
{
    if name.is_empty() {
        return 0;
    }
    let middle = name[name.len() / 2] as usize;
    let last = name[name.len() - 1] as usize;
    (name.len() % SLOTS + 5 * middle + 3 * last) % SLOTS
}

// The number of a name, where it is kept under this stamp.
pub(crate) fn recent_number(slots: &[Slot], stamp: u64, name: &str) -> Option<NameId>
    ensures { IfSome result (λ number. (right : List ℕ → ℕ → Bool) → spec.are_right right stamp slots.now ≡ true → right name.now number ≡ true) }
{
    let place = place_of(name.as_bytes());
    if place >= slots.len() {
        return None;
    }
    let slot = &slots[place];
    if slot.holds(stamp, name) {
        Some(slot.number)
    } else {
        None
    }
}

// Keeps the number of a name under this stamp, in the place of another.
pub(crate) fn keep_recent(
    alloc: Global,
    slots: &mut Vec<Slot>,
    stamp: u64,
    name: &str,
    number: NameId,
) -> Result<(), AllocError>
    requires { 0 < stamp }
    ensures { (right : List ℕ → ℕ → Bool) → right name.now number ≡ true → spec.are_right right stamp slots.old.items ≡ true →
        spec.are_right right stamp slots.new.items ≡ true }
{
    if slots.is_empty() {
        add_slots(alloc, slots, number)?;
    }
    put_in(slots, place_of(name.as_bytes()), stamp, name, number)
}

// Adds slots that hold no name.
fn add_slots(alloc: Global, slots: &mut Vec<Slot>, number: NameId) -> Result<(), AllocError>
    ensures { (right : List ℕ → ℕ → Bool) (stamp : ℕ) → 0 < stamp → spec.are_right right stamp slots.old.items ≡ true →
        spec.are_right right stamp slots.new.items ≡ true }
{
    'slots: for _ in 0..SLOTS {
        slots.push(Slot::new(alloc, number))?;
    }
    Ok(())
}

fn put_in(
    slots: &mut [Slot],
    place: usize,
    stamp: u64,
    name: &str,
    number: NameId,
) -> Result<(), AllocError>
    requires { 0 < stamp }
    ensures { (right : List ℕ → ℕ → Bool) → right name.now number ≡ true → spec.are_right right stamp slots.old ≡ true →
        spec.are_right right stamp slots.new ≡ true }
{
    if place >= slots.len() {
        return Ok(());
    }
    let slot = &mut slots[place];
    slot.put(stamp, name, number)
}
