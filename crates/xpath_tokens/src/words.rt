ghost use Rattle.std.specs.Prelude.{◌≤◌, length, IfOk};
ghost use Rattle.xpath_tokens.specs.Words as spec;
ghost use Rattle.xpath_tokens.specs.Scanning as scan;

use crate::comments::{separator_length, unclosed_comments};
use crate::scanning::word_length;
use crate::token::SyntaxFault;
use std::alloc::Global;

/// The words of a text, in order, or the first place at which none begins. White space and comments separate words.
pub fn words<'a>(alloc: Global, text: &'a [char]) -> Result<Vec<&'a [char]>, SyntaxFault>
    requires { length text.now ≤ 65536 }
    ensures exact { scan.Cuts result (spec.words text.now) }
    ensures within { IfOk result (λ words. length words.items ≤ length text.now) }
{
    let unclosed = unclosed_comments(alloc, text)?;
    let mut words: Vec<&'a [char]> = Vec::new(alloc);
    let mut place: usize = 0;
    'places: while place < text.len() {
        let (_, rest) = text.split_at(place);
        let separator = separator_length(rest, unclosed[place]);
        if separator > 0 {
            place += separator;
        } else {
            let length = word_length(rest);
            if length == 0 {
                return Err(SyntaxFault::Lexical(place as u32));
            }
            let (word, _) = rest.split_at(length);
            words.push(word)?;
            place += length;
        }
    }
    Ok(words)
}
