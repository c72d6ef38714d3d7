//! The tokens of a text in a stated subset of XPath 2.0, or the first refusal that they show.
#![tactic(auto)]

mod comments;
mod judging;
mod names;
mod numbers;
mod pieces;
mod scanning;
mod spelled;
pub mod texts;
pub mod token;
mod words;

ghost use Rattle.std.specs.Prelude.{◌≤◌, length};
ghost use Rattle.xpath_tokens.specs.Tokens as spec;

use judging::{has_wide, judged};
use std::alloc::Global;
use token::{SyntaxFault, Token};
use words::words;

/// The most bytes that a text may have.
pub const MOST_BYTES: usize = 65_536;

/// The tokens of a text in the stated subset of XPath 2.0, or the first refusal in the order of `SyntaxFault`. `Syntax` and
/// `TooDeep` are no matter of tokens and never come. Takes time in proportion to the text.
pub fn tokens(alloc: Global, text: &str) -> Result<Vec<Token>, SyntaxFault>
    ensures { spec.Answers result (spec.tokens_of text.now) }
{
    if text.len() > MOST_BYTES {
        return Err(SyntaxFault::TooLong);
    }
    let characters: Vec<char> = text.chars().collect(alloc)?;
    answer(alloc, characters.as_slice())
}

fn answer(alloc: Global, characters: &[char]) -> Result<Vec<Token>, SyntaxFault>
    requires { length characters.now ≤ 65536 }
    ensures { spec.Answers result (spec.answer_of_characters characters.now) }
{
    let words = words(alloc, characters)?;
    if has_wide(words.as_slice()) {
        return Err(SyntaxFault::NumberTooWide);
    }
    judged(alloc, words.as_slice())
}
