//! What the first fault of a file tells, as a law for every list of nodes. It has no code.
ghost use Rattle.std.specs.Prelude.{◌≡◌, ◌<◌, List, length, Some};
ghost use Rattle.inv_base.specs.Tree.{Node};
ghost use Rattle.schematron_meaning.specs.declared.fault.Fault.{Fault};
ghost use Rattle.schematron_meaning.specs.Faults.{first_fault};
ghost use Rattle.schematron_entries.specs.Order.{AreInOrder};

use schematron_entries::{numbers_are_of_nodes, numbers_rise};

/// The first fault tells a node of the document.
pub fn faults_tell_nodes()
    ensures { (nodes : List Node) (fault : Fault) → AreInOrder nodes → first_fault nodes ≡ Some fault → fault.node < length nodes }
{
    numbers_rise();
    numbers_are_of_nodes();
}
