//! Expressions and patterns of a stated subset of XPath 2.0, from their texts.
#![tactic(auto)]

mod behind;
mod clauses;
pub mod laws;
mod names;
mod operand;
mod ranks;
mod spelled;
mod stack;
mod steps;
mod value;
mod wanted;

ghost use Rattle.xpath_syntax.specs.Answers as spec;

use spelled::{expression, pattern};
use std::alloc::Global;
pub use xpath_grammar::expr::{Expr, Form, Label, Leaf};
pub use xpath_grammar::pattern::{Pattern, PatternKind};
pub use xpath_tokens::token::SyntaxFault;
use xpath_tokens::tokens;

/// The expression that a text of the stated subset of XPath 2.0 spells, or the first refusal in the
/// order of `SyntaxFault`. Takes time in proportion to the text, and no more of the machine's stack
/// for a deeper text.
pub fn parse(alloc: Global, text: &str) -> Result<Expr, SyntaxFault>
    ensures { spec.Answers result (spec.answer_of text.now) }
{
    match tokens(alloc, text) {
        Ok(spelled) => expression(alloc, spelled),
        Err(fault) => Err(fault),
    }
}

/// The pattern that a text spells, or the first refusal. An expression that is no pattern is
/// `Syntax`, whatever its levels. Takes time in proportion to the text, and no more of the
/// machine's stack for a deeper text.
pub fn parse_pattern(alloc: Global, text: &str) -> Result<Pattern, SyntaxFault>
    ensures { spec.PatternAnswers result (spec.pattern_answer_of text.now) }
{
    match tokens(alloc, text) {
        Ok(spelled) => pattern(alloc, spelled),
        Err(fault) => Err(fault),
    }
}
