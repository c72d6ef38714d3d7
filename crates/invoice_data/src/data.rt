use crate::faults::DataFault;
use inv_terms::Invoice;

/// What the members of a text are.
#[derive(Drop)]
pub enum Data {
    /// An invoice that lacks nothing.
    Invoice(Invoice),
    /// All faults, in the order of the text; there is one at least.
    Faults(Vec<DataFault>),
}
