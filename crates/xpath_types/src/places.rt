//! The numbers of tokens.
ghost use Rattle.std.specs.Prelude.{◌≡◌, ◌+◌, IfOk, length};
ghost use Rattle.xpath_grammar.specs.Grammar.{written};
ghost use Rattle.xpath_grammar.specs.View.{view};

use crate::forms::{closing_length, label_length};
use crate::leaves::leaf_length;
use std::alloc::AllocError;
use xpath_grammar::expr::Expr;

/// The number of a token further on. A number of 32 bits serves each text that has tokens; a longer
/// expression, which no text spells, is refused as where memory runs out, and no number wraps.
pub(crate) fn further(token: u32, count: usize) -> Result<u32, AllocError>
    ensures { IfOk result (λ further. further ≡ token + count) }
{
    let Ok(count) = u32::try_from(count) else {
        return Err(AllocError);
    };
    match token.checked_add(count) {
        Some(further) => Ok(further),
        None => Err(AllocError),
    }
}

/// The number of the token behind the expression, whose first token has the number.
pub(crate) fn behind(token: u32, x: &Expr) -> Result<u32, AllocError>
    ensures { IfOk result (λ end. end ≡ token + length (written (view x.now))) }
{
    match x {
        Expr::Leaf(leaf) => further(token, leaf_length(leaf)),
        Expr::Node(form, parts) => {
            let parts = parts.as_slice();
            let mut end = token;
            'parts: for part in parts {
                let start = further(end, label_length(&part.0))?;
                end = behind(start, &part.1)?;
            }
            further(end, closing_length(form))
        }
    }
}
