use xml_events::NameId;
use xpath_grammar::step::Axis;
use xpath_plan::plan_node::StepTest;

/// A step of a plan over a document.
#[derive(Clone, Copy)]
pub struct Step<'p> {
    /// Where it goes.
    pub axis: Axis,
    /// What it wants of the nodes there, as the plan has it.
    pub test: &'p StepTest,
    /// Of each name of the plan the number that it has in the document, as `numbers_in` finds them.
    pub numbers: &'p [Option<NameId>],
}
