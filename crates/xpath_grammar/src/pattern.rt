ghost use Rattle.std.specs.Prelude.{◌≡◌, true};
ghost use Rattle.xpath_grammar.specs.Patterns.{is_pattern};
ghost use Rattle.xpath_grammar.specs.View.{view};

use crate::expr::Expr;
use std::marker::Model;

/// What an expression is as a pattern, or as a part of one.
#[derive(Clone, Copy, Debug)]
pub enum PatternKind {
    /// A step on the axis `child` or `attribute`, with or without predicates
    Step,
    /// `/`, or a path of such steps
    Path,
    /// Such paths with `|` between them
    Union,
    /// No pattern
    Other,
}

/// An expression that is a pattern (XSLT 2.0, section 5.5.2, in a subset).
pub struct Pattern {
    expression: Expr,
}

impl Drop for Pattern {
    fn drop(self) {
        let Pattern { expression } = self;
        drop(expression);
    }
}

impl Model for Pattern {
    ghost use Rattle.std.specs.Prelude.{◌≡◌, true};
    ghost use Rattle.std.specs.Coded.{codes};
    ghost use Rattle.xpath_grammar.specs.declared.expr.Expr.{Expr};
    ghost use Rattle.xpath_grammar.specs.contracts.expr.Expr as expr;

    ghost Value = { Expr };

    ghost coded = { Prim.hlevel (codes, expr.the_row.coded) };

    ghost view = { λ pattern. pattern.expression };

    ghost use Rattle.xpath_grammar.specs.Patterns.{is_pattern};
    ghost use Rattle.xpath_grammar.specs.View as trees;

    ghost invariant = { λ pattern. is_pattern (trees.view pattern.expression) ≡ true };
}

impl Pattern {
    /// The pattern that the expression is.
    pub fn new(expression: Expr) -> Pattern
        requires { is_pattern (view expression) ≡ true }
        ensures { result ≡ expression }
    {
        Pattern { expression }
    }

    /// The expression that the pattern's tokens spell.
    pub fn expression(&self) -> &Expr
        ensures { result.now ≡ self.now }
    {
        &self.expression
    }

    /// The expression has the shape of a pattern: what callers may know of every one. It has no code.
    pub fn is_of_its_shape(&self)
        ensures { is_pattern (view self.now) ≡ true }
    {
        let _ = &self.expression;
    }
}
