ghost use Rattle.std.specs.Prelude.{◌≡◌, ℕ, ◌<◌, [], length, chars, IfOk, OnOk, OnErr, IsTrue, ◌↔◌};
ghost use Rattle.xml_events.specs.Events.{name_at};
ghost use Rattle.std.specs.List.{position_or_len};
ghost use Rattle.xml_events.specs.NameTables as spec;
ghost use Rattle.xml_events.specs.Names.{find_name, number_of, with_name, AreDistinct};

use crate::kept::KeptNames;
use crate::spaces::Spaces;
use std::alloc::{AllocError, Global};
use std::marker::Model;

/// The number of an expanded name in a document's table of names, from 0 in first-seen order.
#[derive(Clone, Copy, PartialEq, Eq, Hash)]
pub struct NameId {
    number: u32,
}

impl Model for NameId {
    ghost Value = { ℕ };

    ghost view = { λ id. id.number };

    ghost inverse = { λ n. record { number = n } };
}

impl NameId {
    /// The number itself.
    pub fn number(self) -> u32
        ensures { result ≡ self }
    {
        self.number
    }

    // A number of 32 bits serves 4,294,967,296 names. A document of 67,108,864 bytes has fewer; one under a far greater
    // limit that has more is refused as where memory runs out, and no number wraps.
    fn at(index: usize) -> Result<NameId, AllocError>
        ensures { IfOk result (λ id. id ≡ index) }
    {
        match u32::try_from(index) {
            Ok(number) => Ok(NameId { number }),
            Err(_) => Err(AllocError),
        }
    }
}

/// The expanded names of a document, numbered in first-seen order.
pub struct NameTable {
    // Each namespace name once, empty for none: it may be far longer than the names in it.
    spaces: Spaces,
    names: KeptNames,
}

impl Drop for NameTable {
    fn drop(self) {
        let NameTable { spaces, names } = self;
        drop(spaces);
        drop(names);
    }
}

impl Model for NameTable {
    ghost use Rattle.std.specs.Prelude.{List};
    ghost use Rattle.inv_base.specs.Tree.{Name};

    ghost Value = { List Name };

    ghost use Rattle.xml_events.specs.NameTables.{names_of, AreKept};

    ghost view = { λ table. names_of table.spaces table.names };

    ghost invariant = { λ table. AreKept table.spaces table.names };
}

/// The number of a namespace name, which is added where it is new.
pub fn number_space(spaces: &mut Spaces, alloc: Global, uri: &str) -> Result<usize, AllocError>
    requires { spec.AreApart spaces.old }
    ensures { spec.TakesSpace result (chars uri.now) spaces.old spaces.new }
{
    match spaces.find(uri) {
        Some(n) => Ok(n),
        None => {
            let n = spaces.len();
            spaces.push(alloc, uri)?;
            Ok(n)
        }
    }
}

/// The number of a name by the number of its namespace, which is added where it is new.
pub fn number_kept(
    names: &mut KeptNames,
    alloc: Global,
    space: usize,
    local: &str,
) -> Result<NameId, AllocError>
    ensures number { IfOk result (λ id. id ≡ position_or_len (spec.is_kept space local.now) names.old) }
    ensures names { OnOk result (spec.KeepsOne space local.now names.old names.new) }
    ensures err { OnErr result (names.new ≡ names.old) }
{
    match names.find(space, local) {
        Some(index) => NameId::at(index),
        None => {
            let id = NameId::at(names.len())?;
            names.push(alloc, space, local)?;
            Ok(id)
        }
    }
}

impl NameTable {
    /// The table of names that are kept.
    pub fn of(spaces: Spaces, names: KeptNames) -> NameTable
        requires { spec.AreKept spaces names }
        ensures { result ≡ spec.names_of spaces names }
    {
        NameTable { spaces, names }
    }

    /// A table that has no name yet.
    pub fn new(alloc: Global) -> NameTable
        ensures { result ≡ [] }
    {
        NameTable {
            spaces: Spaces::new(alloc),
            names: KeptNames::new(alloc),
        }
    }

    /// The number of a name, which is added behind the others where it is new. Where memory runs out, or the table
    /// has 4,294,967,296 names, it stays as it was.
    pub fn number(&mut self, uri: &str, local: &str) -> Result<NameId, AllocError>
        ensures number { IfOk result (λ id. id ≡ number_of (record { uri = chars uri.now; local = chars local.now }) self.old) }
        ensures names { OnOk result (self.new ≡ with_name self.old (record { uri = chars uri.now; local = chars local.now })) }
        ensures err { OnErr result (self.new ≡ self.old) }
    {
        let alloc = self.names.allocator();
        let space = number_space(&mut self.spaces, alloc, uri)?;
        number_kept(&mut self.names, alloc, space, local)
    }

    /// How many names the table has. Names have the numbers below.
    pub fn len(&self) -> usize
        ensures { result ≡ length self.now }
    {
        self.names.len()
    }

    /// Whether the table has no name.
    pub fn is_empty(&self) -> bool
        ensures { IsTrue result ↔ (self.now ≡ []) }
    {
        self.names.is_empty()
    }

    /// Each number has a name of its own: what callers may know of every table. It has no code.
    pub fn names_differ(&self)
        ensures { AreDistinct self.now }
    {
        let _ = &self.names;
    }

    /// The number of a name, where it is in the table.
    pub fn find(&self, alloc: Global, uri: &str, local: &str) -> Result<Option<NameId>, AllocError>
        ensures { IfOk result (λ id. id ≡ find_name (record { uri = chars uri.now; local = chars local.now }) self.now) }
    {
        let _ = alloc;
        let Some(space) = self.spaces.find(uri) else {
            return Ok(None);
        };
        match self.names.find(space, local) {
            Some(index) => Ok(Some(NameId::at(index)?)),
            None => Ok(None),
        }
    }

    /// The namespace name of a name of the table, empty for none.
    pub fn uri(&self, id: NameId) -> &str
        requires { id < length self.now }
        ensures { chars result.now ≡ (name_at self.now id).uri }
    {
        let kept = self.names.at(id.number as usize);
        self.spaces.at(kept.space)
    }

    /// The local name of a name of the table.
    pub fn local(&self, id: NameId) -> &str
        requires { id < length self.now }
        ensures { chars result.now ≡ (name_at self.now id).local }
    {
        self.names.at(id.number as usize).local.as_str()
    }
}
