//! What an expression or a pattern is answered, as a line of text, beside what is wanted.

use std::alloc::{AllocError, Global};
use std::test::Fail;
use test_rows::{Holds, expect_rows};
use xpath_syntax::{parse, parse_pattern};
use xpath_types::{Part, Scope, TypeFault, Typed, check, check_pattern};

/// What a scope declares: a prefix and a namespace, or the name of a variable. Three prefixes are given again.
const DECLARED: &str = "\
p urn:p
f http://www.w3.org/2005/xpath-functions
t http://www.w3.org/2001/XMLSchema
twice http://www.w3.org/2005/xpath-functions
twice urn:p
other urn:p
other http://www.w3.org/2005/xpath-functions
fn urn:p
v
p:v
absent:v";

fn declare(alloc: Global, scope: &mut Scope) -> Result<(), AllocError> {
    for row in DECLARED.lines() {
        match row.split_once(' ') {
            Some((prefix, uri)) => scope.prefix(alloc, prefix, uri)?,
            None => scope.variable(alloc, row)?,
        }
    }
    Ok(())
}

/// A scope in which all of that is declared.
pub(crate) fn scope(alloc: Global) -> Result<Scope, AllocError> {
    let mut scope = Scope::new(alloc);
    declare(alloc, &mut scope)?;
    Ok(scope)
}

fn push_kind(line: &mut String, holds: bool, name: &str) -> Result<(), AllocError> {
    if holds { line.push_str(name) } else { Ok(()) }
}

/// The kinds of a part, `*` where it uses the focus, `#` where it uses a position in it, `!` where it depends on the
/// document alone.
fn push_part(line: &mut String, part: &Part) -> Result<(), AllocError> {
    push_kind(line, part.kinds.node, " node")?;
    push_kind(line, part.kinds.boolean, " boolean")?;
    push_kind(line, part.may_be_number(), " number")?;
    push_kind(line, part.kinds.string, " string")?;
    push_kind(line, part.kinds.untyped, " untyped")?;
    push_kind(line, part.kinds.date, " date")?;
    push_kind(line, part.uses_focus, " *")?;
    push_kind(line, part.uses_position, " #")?;
    push_kind(line, part.depends_on_document_alone, " !")
}

fn push_parts(line: &mut String, typed: &Typed<'_>) -> Result<(), AllocError> {
    for k in 0..20 {
        let Some(part) = typed.part(k) else {
            return Ok(());
        };
        push_kind(line, k > 0, " ;")?;
        push_part(line, part)?;
    }
    Ok(())
}

fn push_answer(line: &mut String, answer: Result<Typed<'_>, TypeFault>) -> Result<(), AllocError> {
    match answer {
        Ok(typed) => {
            let pushed = push_parts(line, &typed);
            drop(typed);
            pushed
        }
        Err(TypeFault::Refused { kind, token }) => write!(line, " {kind:?} {token}"),
        Err(TypeFault::Memory) => Err(AllocError),
    }
}

/// What is known of the parts of an expression, or its first refusal. A text that is no expression is `unread`.
fn push_expression(
    alloc: Global,
    line: &mut String,
    scope: &Scope,
    text: &str,
) -> Result<(), AllocError> {
    match parse(alloc, text) {
        Ok(expression) => {
            let pushed = push_answer(line, check(alloc, &expression, scope));
            drop(expression);
            pushed
        }
        Err(_) => line.push_str("unread"),
    }
}

/// The same of a pattern.
fn push_pattern(
    alloc: Global,
    line: &mut String,
    scope: &Scope,
    text: &str,
) -> Result<(), AllocError> {
    match parse_pattern(alloc, text) {
        Ok(pattern) => {
            let pushed = push_answer(line, check_pattern(alloc, &pattern, scope));
            drop(pattern);
            pushed
        }
        Err(_) => line.push_str("unread"),
    }
}

/// What is wanted of each row.
#[derive(Clone, Copy)]
pub(crate) enum Wanted {
    /// Of an expression the line behind its arrow.
    Line,
    /// The same of a pattern.
    LineOfPattern,
    /// That it is refused for the number of arguments.
    WrongArity,
    /// That no operand is surely wrong.
    NoSureError,
}

fn is_wanted(wanted: Wanted, found: &str, line: &str) -> bool {
    match wanted {
        Wanted::Line | Wanted::LineOfPattern => found == line,
        Wanted::WrongArity => found == " WrongArity 0",
        Wanted::NoSureError => !found.contains("Sure") && !found.contains("unread"),
    }
}

/// Whether a row is answered as it is wanted.
pub(crate) fn holds(
    alloc: Global,
    scope: &Scope,
    wanted: Wanted,
    row: &str,
) -> Result<bool, AllocError> {
    let (text, line) = row.split_once(" →").unwrap_or((row, "→"));
    let mut found = String::new(alloc);
    match wanted {
        Wanted::LineOfPattern => push_pattern(alloc, &mut found, scope, text)?,
        _ => push_expression(alloc, &mut found, scope, text)?,
    }
    Ok(is_wanted(wanted, found.as_str(), line))
}

/// Rows that are answered in a scope, as it is wanted.
#[derive(Drop)]
struct Checking<'a> {
    scope: &'a Scope,
    wanted: Wanted,
}

impl Holds for Checking<'_> {
    fn holds(&self, alloc: Global, row: &'static str) -> Result<bool, Fail> {
        Ok(holds(alloc, self.scope, self.wanted, row)?)
    }
}

/// Fails with the first row that isn't answered as it is wanted.
pub(crate) fn expect_checked(
    alloc: Global,
    wanted: Wanted,
    rows: &'static str,
) -> Result<(), Fail> {
    let scope = scope(alloc)?;
    let checking = Checking {
        scope: &scope,
        wanted,
    };
    let found = expect_rows(alloc, &checking, rows);
    drop(checking);
    drop(scope);
    found
}
