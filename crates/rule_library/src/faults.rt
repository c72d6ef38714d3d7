//! Why a rule file can't be had with its parts.
ghost use Rattle.std.specs.Prelude.{◌≡◌};
ghost use Rattle.rule_library.specs.Faults.{TellsOf, TellsOfFile, want_of_memory};

use inv_base::{Place, Txt};
use std::alloc::Global;
use xml_document::LoadFault as FileFault;
use xml_tokens::XmlKind;

/// Why a rule file can't be had.
#[derive(Clone, Copy, Debug)]
pub enum LoadKind {
    /// A file couldn't be opened, or a read failed.
    Read,
    /// A file is no document under the limits of rule files.
    Xml(XmlKind),
    /// An element asks for a part without the name of one.
    BadHref,
    /// A file asks for one that it is being put in.
    IncludeCycle,
    /// It would be the 65th file.
    TooManyFiles,
    /// The root whose inside is asked for isn't of the parent's name.
    NotSame,
    /// More elements would be inside one another than in a rule file.
    TooDeep,
    /// The document would have more nodes than a rule file.
    TooManyNodes,
    /// The document would have more names than a rule file.
    TooManyNames,
    /// Memory ran out.
    Memory,
}

/// Why, in which file, and where: at the element or text that is at fault, or at the place of the fault in the
/// file. Want of memory is of no file, and its place is 0.
#[derive(Drop)]
pub struct LoadFault {
    /// Why.
    pub kind: LoadKind,
    /// The name of the file.
    pub file: Option<Txt>,
    /// Where in the file.
    pub place: Place,
}

/// Memory ran out.
pub(crate) fn want_of_memory() -> LoadFault
    ensures { result ≡ want_of_memory }
{
    LoadFault {
        kind: LoadKind::Memory,
        file: None,
        place: Place { byte: 0 },
    }
}

/// A fault at a place of a file.
pub(crate) fn fault_at(alloc: Global, kind: LoadKind, name: &str, place: Place) -> LoadFault
    ensures { TellsOf result (record { kind = kind; file = name.now; place = place.byte }) }
{
    match Txt::of(alloc, name) {
        Ok(file) => LoadFault {
            kind,
            file: Some(file),
            place,
        },
        Err(_) => want_of_memory(),
    }
}

/// The fault of a file that was asked for.
pub(crate) fn fault_of_file(alloc: Global, name: &str, fault: FileFault) -> LoadFault
    ensures { TellsOfFile name.now fault result }
{
    match fault {
        FileFault::Read => fault_at(alloc, LoadKind::Read, name, Place { byte: 0 }),
        FileFault::Refused(wrong) => fault_at(alloc, LoadKind::Xml(wrong.kind), name, wrong.place),
        FileFault::Memory => want_of_memory(),
    }
}
