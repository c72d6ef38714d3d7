ghost use Rattle.std.specs.Prelude.{◌≡◌, Ok, option_copied, slice_get};
ghost use Rattle.xpath_grammar.specs.View.{view};
ghost use Rattle.xpath_types.specs.Typing as spec;

use crate::fault::TypeFault;
use crate::kinds::NODES;
use crate::part::Part;
use crate::scope::Scope;
use crate::variables::Variables;
use crate::walk::{State, walk};
use std::alloc::Global;
use std::marker::Model;
use xpath_grammar::expr::Expr;
use xpath_grammar::pattern::Pattern;

/// An expression that is typed in a scope.
pub struct Typed<'e> {
    expression: &'e Expr,
    scope: &'e Scope,
    parts: Vec<Part>,
}

impl Drop for Typed<'_> {
    fn drop(self) {
        let Typed {
            expression: _,
            scope: _,
            parts,
        } = self;
        drop(parts);
    }
}

impl<'e> Model for Typed<'e> {
    ghost use Rattle.xpath_types.specs.Typing.{TypedExpression};
    ghost use Rattle.xpath_grammar.specs.contracts.expr.Expr as expr;
    ghost use Rattle.std.specs.Coded.{codes};

    ghost Value = { TypedExpression };

    ghost coded = { Prim.hlevel (codes, expr.the_row.coded) };

    ghost view = { λ typed. record { expression = typed.expression.now; declared = typed.scope.now; parts = typed.parts.items } };

    ghost use Rattle.xpath_types.specs.Typing.{AreStated};
    ghost use Rattle.xpath_grammar.specs.View as trees;

    ghost invariant = { λ typed. AreStated typed.scope.now (trees.view typed.expression.now) typed.parts.items };
}

impl<'e> Typed<'e> {
    /// What is stated of the part with the number, from 0. Parts are numbered in the order of their
    /// first tokens, an outer part before the parts in it.
    pub fn part(&self, k: usize) -> Option<&Part>
        ensures { option_copied result ≡ slice_get self.now.parts k }
    {
        self.parts.get(k)
    }

    /// The expression. A pattern's is the one that its tokens spell.
    pub fn expr(&self) -> &'e Expr
        ensures { result.now ≡ self.now.expression }
    {
        self.expression
    }

    /// The parts are those of the expression in its scope, and nothing is refused in it: what callers
    /// may know of every typed expression. It has no code.
    pub fn parts_are_stated(&self)
        ensures { spec.typing_of self.now.declared (view self.now.expression) ≡ Ok (spec.typing self.now) }
    {
        let _ = &self.parts;
    }

    /// The scope that it is typed in.
    pub fn scope(&self) -> &'e Scope
        ensures { result.now ≡ self.now.declared }
    {
        self.scope
    }
}

/// Types the expression in the scope, or tells the first refusal. Takes time in proportion to the
/// expression, but for the names that are looked up.
pub fn check<'e>(
    alloc: Global,
    expression: &'e Expr,
    scope: &'e Scope,
) -> Result<Typed<'e>, TypeFault>
    ensures { spec.Answers result (spec.typing_of scope.now (view expression.now)) }
{
    let mut state = State {
        variables: Variables::new(alloc),
        parts: Vec::new(alloc),
        first: None,
    };
    let Ok(_) = walk(alloc, scope, &mut state, NODES, 0, expression) else {
        return Err(TypeFault::Memory);
    };
    let State {
        variables: _,
        parts,
        first,
    } = state;
    match first {
        Some(refusal) => Err(TypeFault::Refused {
            kind: refusal.kind,
            token: refusal.token,
        }),
        None => Ok(Typed {
            expression,
            scope,
            parts,
        }),
    }
}

/// Types the expression that the pattern's tokens spell, as `check` does.
pub fn check_pattern<'e>(
    alloc: Global,
    pattern: &'e Pattern,
    scope: &'e Scope,
) -> Result<Typed<'e>, TypeFault>
    ensures { spec.Answers result (spec.typing_of scope.now (view pattern.now)) }
{
    check(alloc, pattern.expression(), scope)
}
