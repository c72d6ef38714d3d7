//! What an expression is run over.

use node_arena::Doc;
use std::alloc::Global;
use xml_events::NameId;
use xpath_plan::{NameTable, Plan};
use xpath_steps::Env;

/// A document, the names of a plan with their numbers in it, and the variables that are declared outside: what the parts of one plan
/// are evaluated over.
#[derive(Clone, Copy)]
pub struct DynamicContext<'r, 'a> {
    pub alloc: Global,
    pub doc: &'r Doc<'a>,
    pub plan: &'r Plan,
    pub names: &'r NameTable,
    pub numbers: &'r [Option<NameId>],
    pub env: &'r Env<'a>,
}
