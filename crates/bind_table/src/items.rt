ghost use Rattle.std.specs.Prelude.{◌≡◌, IfOk};
ghost use Rattle.bind_table.specs.Items as spec;

use crate::cells::Cell;
use crate::conditions::{Condition, Tag, guards_of, name_of};
use bind_rows::Step;
use std::alloc::{AllocError, Global};
use term_table::Group;

/// How an element of a table begins.
#[derive(Clone, Copy)]
pub struct Head {
    pub tag: Tag,
    /// Whether it is written even where nothing is in it.
    pub always: bool,
    /// The group of which one such element is one occurrence.
    pub group: Option<Group>,
    pub conditions: &'static [Condition],
}

/// A piece of a table as it is listed.
#[derive(Clone, Copy)]
pub enum TableItem {
    /// An element. What stands in it follows, up to its end.
    Element(Head),
    /// What stands in the element that was begun last and hasn't ended.
    Text(Cell),
    /// What stands at an attribute of it.
    Attribute(&'static str, Cell),
    /// The end of that element.
    End,
}

pub(crate) fn step_of(alloc: Global, head: &Head, number: u32) -> Result<Step, AllocError>
    ensures { IfOk result (λ step. step ≡ spec.step_of head.now number) }
{
    Ok(Step {
        name: name_of(&head.tag),
        number,
        always: head.always,
        group: head.group,
        guards: guards_of(alloc, head.conditions)?,
    })
}
