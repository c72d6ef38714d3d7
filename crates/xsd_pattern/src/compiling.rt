//! From a text to the steps of its pattern.
ghost use Rattle.std.specs.Prelude.{◌≡◌, IfOk, List};
ghost use Rattle.std.specs.Str.{chars};
ghost use Rattle.xsd_pattern.specs.Compiling as spec;
ghost use Rattle.xsd_pattern.specs.Machine as m;
ghost use Rattle.xsd_pattern.specs.Parts.{parts};
ghost use Rattle.xsd_pattern.specs.States.{only_if, placed, placed_from, seen};

use crate::block::Block;
use crate::fault::PatternFault;
use crate::lexing::read_tokens;
use crate::machine::State;
use crate::parts::{MOST_MARKS, Part};
use crate::token::{Class, Token};
use inv_base::Many;
use std::alloc::{AllocError, Global};

/// The token with its place in place of its class.
fn placed(place: usize, token: &Token<Class>) -> Token<Option<usize>>
    ensures { result ≡ placed place token.now }
{
    match token {
        Token::Item(_) => Token::Item(Some(place)),
        Token::Quantifier(repeat) => Token::Quantifier(*repeat),
        Token::Opens => Token::Opens,
        Token::Closes => Token::Closes,
        Token::Bar => Token::Bar,
        Token::Begins => Token::Begins,
        Token::Ends => Token::Ends,
    }
}

/// Reads all tokens. False where one can't stand where it does.
fn read_all(alloc: Global, tokens: &[Token<Class>], state: &mut State) -> Result<bool, AllocError>
    ensures { IfOk result (λ read. m.run parts (placed_from 0 tokens.now) (seen state.old) ≡ only_if read (seen state.new)) }
{
    'tokens: for (place, token) in tokens.iter().enumerate() {
        if !state.step(alloc, placed(place, token))? {
            return Ok(false);
        }
    }
    Ok(true)
}

/// The pattern of the tokens as a part, none where they are none.
fn part_of(alloc: Global, tokens: &[Token<Class>]) -> Result<Option<Part>, AllocError>
    ensures { IfOk result (λ part. part ≡ m.read parts (placed_from 0 tokens.now)) }
{
    let mut state = State::new(alloc);
    if !read_all(alloc, tokens, &mut state)? {
        return Ok(None);
    }
    state.finish(alloc)
}

/// A pattern that is ready: its tokens, the steps over them, and whether it has the empty text.
#[derive(Drop)]
pub(crate) struct Compiled {
    pub tokens: Many<Token<Class>>,
    pub steps: Block,
    pub empty: bool,
}

/// The pattern that the part of these tokens is.
fn with_part(
    alloc: Global,
    tokens: Many<Token<Class>>,
    part: Part,
) -> Result<Compiled, PatternFault>
    ensures { spec.FromPart tokens part result }
{
    if part.size > MOST_MARKS {
        return Err(PatternFault::TooLarge);
    }
    let empty = part.is_empty();
    let steps = part.into_steps(alloc)?;
    Ok(Compiled {
        tokens,
        steps,
        empty,
    })
}

/// The pattern of the tokens.
fn with_tokens(alloc: Global, tokens: Many<Token<Class>>) -> Result<Compiled, PatternFault>
    ensures { spec.FromTokens tokens result }
{
    match part_of(alloc, tokens.as_slice())? {
        Some(part) => with_part(alloc, tokens, part),
        None => Err(PatternFault::Bad),
    }
}

/// The pattern of the text.
pub(crate) fn compile(alloc: Global, text: &str) -> Result<Compiled, PatternFault>
    ensures { spec.FromText (chars text.now) result }
{
    let mut tokens = Many::new(alloc);
    if !read_tokens(alloc, text, &mut tokens)? {
        return Err(PatternFault::Bad);
    }
    with_tokens(alloc, tokens)
}
