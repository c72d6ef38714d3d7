ghost use Rattle.std.specs.Prelude.{◌≡◌, ℕ, ◌+◌, ◌<◌, ◌^◌, length, IfOk, OnOk};

use bind_rows::{
    Check, Content, ElementName, Form, Leaf, Many, Namespace, Repeats, Row, Step, Word, Written,
};
use bind_table::Binding;
use std::alloc::{AllocError, Global};
use term_table::{Group, Term};

/// An element without guards.
pub fn element(
    alloc: Global,
    namespace: Namespace,
    local: &str,
    number: u32,
    group: Option<Group>,
) -> Result<Step, AllocError>
    ensures { IfOk result (λ s. s.number ≡ number) }
{
    Ok(Step {
        name: ElementName {
            namespace,
            local: Word::of(alloc, local)?,
        },
        number,
        always: false,
        group,
        guards: Many::new(alloc),
    })
}

/// Adds a row of two elements with a term.
pub fn put(
    alloc: Global,
    table: &mut Binding,
    root: Step,
    leaf: Step,
    number: u16,
    outer: Option<Group>,
) -> Result<(), AllocError>
    requires few { length table.old < 1000 }
    requires first { root.number < 2 ^ 31 }
    requires second { leaf.number < 2 ^ 31 }
    ensures { OnOk result (length table.new ≡ length table.old + 1) }
{
    let mut path = Many::new(alloc);
    path.push(root)?;
    path.push(leaf)?;
    table.push(Row {
        path,
        leaf: Leaf::Element,
        outer,
        inner: None,
        content: Content::Term(Term { number, part: 0 }),
        form: Form::Model,
        repeats: Repeats::Once,
        written: Written::Always,
        check: Check::Nothing,
    })
}
