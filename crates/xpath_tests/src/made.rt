//! A text and what is made of it, as a line beside the one that is wanted.

use crate::plan_cases::push_plan;
use crate::shown::push_tree;
use crate::xpath_tokens_cases::{push_count, push_tokens};
use std::alloc::{AllocError, Global};
use std::test::Fail;
use test_rows::{Shown, expect_shown};
use xpath_grammar::expr::Expr;
use xpath_syntax::{parse, parse_pattern};

/// What is made of a text.
#[derive(Clone, Copy)]
pub(crate) enum Made {
    Tokens,
    /// How many tokens it has.
    Count,
    /// The tree of an expression.
    Tree,
    /// The tree of a pattern.
    PatternTree,
    /// `read` where it is an expression.
    Reading,
    /// `read` where it is a pattern.
    PatternReading,
    Plan,
}

/// The tree of an expression, or that it was read.
fn push_read(line: &mut String, made: Made, expression: &Expr) -> Result<(), AllocError> {
    match made {
        Made::Tree | Made::PatternTree => push_tree(line, expression),
        _ => line.push_str("read"),
    }
}

fn push_expression(
    alloc: Global,
    line: &mut String,
    made: Made,
    text: &str,
) -> Result<(), AllocError> {
    match parse(alloc, text) {
        Ok(expression) => {
            let pushed = push_read(line, made, &expression);
            drop(expression);
            pushed
        }
        Err(fault) => write!(line, "{fault:?}"),
    }
}

fn push_pattern(
    alloc: Global,
    line: &mut String,
    made: Made,
    text: &str,
) -> Result<(), AllocError> {
    match parse_pattern(alloc, text) {
        Ok(pattern) => {
            let pushed = push_read(line, made, pattern.expression());
            drop(pattern);
            pushed
        }
        Err(fault) => write!(line, "{fault:?}"),
    }
}

/// Puts what is made of a text, or its refusal, behind a line.
fn push_made(alloc: Global, line: &mut String, made: Made, text: &str) -> Result<(), AllocError> {
    match made {
        Made::Tokens => push_tokens(alloc, line, text),
        Made::Count => push_count(alloc, line, text),
        Made::Tree | Made::Reading => push_expression(alloc, line, made, text),
        Made::PatternTree | Made::PatternReading => push_pattern(alloc, line, made, text),
        Made::Plan => push_plan(alloc, line, text),
    }
}

/// What is made of a text, or its refusal.
pub(crate) fn made_of(alloc: Global, made: Made, text: &str) -> Result<String, AllocError> {
    let mut line = String::new(alloc);
    push_made(alloc, &mut line, made, text)?;
    Ok(line)
}

impl Shown for Made {
    fn shown(&self, alloc: Global, given: &'static str) -> Result<String, Fail> {
        Ok(made_of(alloc, *self, given)?)
    }
}

/// Fails with the first row whose text isn't answered as its arrow says.
pub(crate) fn expect_made(alloc: Global, made: Made, rows: &'static str) -> Result<(), Fail> {
    expect_shown(alloc, &made, " → ", rows)
}
