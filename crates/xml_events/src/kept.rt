//! The names of a document, each once, numbered in first-seen order. They are found by an ordered map for each namespace,
//! since no choice of names makes a look-up in it slow.
ghost use Rattle.std.specs.Prelude.{◌≡◌, ℕ, ◌<◌, ◌&&◌, ◌==◌, [], List, Some, None, length, slice_get, if◌then◌else◌, string_bytes, bytes_eq, OnOk, OnErr};
ghost use Rattle.std.specs.Prelude.{IsTrue, ◌↔◌};
ghost use Rattle.std.specs.List.{position};
ghost use Rattle.xml_events.specs.NameTables.{is_kept, KeepsOne};
ghost use Rattle.xml_events.specs.Places as spec;

use std::alloc::{AllocError, Global};
use std::collections::BTreeMap;
use std::marker::Model;

/// An expanded name as it is kept.
#[derive(Drop)]
pub struct Kept {
    /// The number of its namespace name.
    pub space: usize,
    /// Its local name.
    pub local: String,
}

/// Expanded names by the numbers of their namespace names. Contracts see them as a list.
pub struct KeptNames {
    names: Vec<Kept>,
    // By the number of a namespace, the places of the local names in it.
    places: Vec<BTreeMap<String, usize>>,
}

impl Drop for KeptNames {
    fn drop(self) {
        let KeptNames { names, places } = self;
        drop(names);
        drop(places);
    }
}

impl Model for KeptNames {
    ghost use Rattle.std.specs.Prelude.{List};
    ghost use Rattle.xml_events.specs.Places.{AreFiled};
    ghost use Rattle.xml_events.specs.declared.kept.Kept.{Kept};

    ghost Value = { List Kept };

    ghost view = { λ kept. kept.names.items };

    ghost invariant = { λ kept. AreFiled kept.places.items kept.names.items };
}

impl KeptNames {
    /// No names.
    pub fn new(alloc: Global) -> KeptNames
        ensures { result ≡ [] }
    {
        KeptNames {
            names: Vec::new(alloc),
            places: Vec::new(alloc),
        }
    }

    /// Where their memory comes from.
    pub fn allocator(&self) -> Global {
        *self.names.allocator()
    }

    /// How many there are. They have the numbers below.
    pub fn len(&self) -> usize
        ensures { result ≡ length self.now }
    {
        self.names.len()
    }

    /// Whether there are none.
    pub fn is_empty(&self) -> bool
        ensures { IsTrue result ↔ (length self.now ≡ 0) }
    {
        self.names.is_empty()
    }

    /// The number of a name by the number of its namespace, where it is one of them.
    pub fn find(&self, space: usize, local: &str) -> Option<usize>
        ensures { result ≡ position (is_kept space local.now) self.now }
    {
        place_in(&self.places, space, local)
    }

    /// The name of a number.
    pub fn at(&self, number: usize) -> &Kept
        requires { number < length self.now }
        ensures { slice_get self.now number ≡ Some result.now }
    {
        &self.names[number]
    }

    /// Adds a name that is none of them. Without memory they stay as they were.
    pub fn push(&mut self, alloc: Global, space: usize, local: &str) -> Result<(), AllocError>
        requires { position (is_kept space local.now) self.old ≡ None }
        ensures ok { OnOk result (KeepsOne space local.now self.old self.new) }
        ensures err { OnErr result (self.new ≡ self.old) }
    {
        file_behind(alloc, &mut self.places, &mut self.names, space, local)
    }
}

// The place of a local name in a namespace. It copies nothing.
fn place_in(places: &[BTreeMap<String, usize>], space: usize, local: &str) -> Option<usize>
    ensures { result ≡ spec.place_in places.now space local.now }
{
    if space >= places.len() {
        return None;
    }
    let inside = &places[space];
    inside.get(local).copied()
}

// Adds empty maps for the namespaces up to this one.
fn reach(
    alloc: Global,
    places: &mut Vec<BTreeMap<String, usize>>,
    space: usize,
) -> Result<(), AllocError>
    ensures same { (n : ℕ) (local : List ℕ) → spec.place_in places.new.items n local ≡ spec.place_in places.old.items n local }
    ensures reached { OnOk result (space < length places.new.items) }
{
    'maps: while places.len() <= space {
        places.push(BTreeMap::new(alloc))?;
    }
    Ok(())
}

// Gives a local name a place in a namespace.
fn file_in(
    places: &mut [BTreeMap<String, usize>],
    space: usize,
    key: String,
    place: usize,
) -> Result<(), AllocError>
    requires { space < length places.old }
    ensures ok { OnOk result ((n : ℕ) (local : List ℕ) →
        spec.place_in places.new n local ≡ (if (space == n) && bytes_eq (string_bytes key) local then Some place else spec.place_in places.old n local)) }
    ensures err { OnErr result ((n : ℕ) (local : List ℕ) → spec.place_in places.new n local ≡ spec.place_in places.old n local) }
{
    let inside = &mut places[space];
    inside.insert(key, place)?;
    Ok(())
}

// Puts a name that is none of these behind them.
fn file_behind(
    alloc: Global,
    places: &mut Vec<BTreeMap<String, usize>>,
    names: &mut Vec<Kept>,
    space: usize,
    local: &str,
) -> Result<(), AllocError>
    requires filed { spec.AreFiled places.old.items names.old.items }
    requires absent { position (is_kept space local.now) names.old.items ≡ None }
    ensures ok { OnOk result (KeepsOne space local.now names.old.items names.new.items) }
    ensures err { OnErr result (names.new.items ≡ names.old.items) }
    ensures filed { spec.AreFiled places.new.items names.new.items }
{
    reach(alloc, places, space)?;
    let key = String::from_str(alloc, local)?;
    let text = String::from_str(alloc, local)?;
    names.reserve(1)?;
    file_in(places, space, key, names.len())?;
    names.push_reserved(Kept { space, local: text });
    Ok(())
}
