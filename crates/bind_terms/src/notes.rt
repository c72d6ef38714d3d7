//! Notes (BT-22) with their subject code (BT-21) in front of them: `#AAI#text`.
ghost use Rattle.std.specs.Prelude.{◌≡◌, ◌∷◌, [], chars, IfOk};
ghost use Rattle.bind_meaning.specs.Values as spec;
ghost use Rattle.bind_terms.specs.ParsedValues.{all_parsed};
ghost use Rattle.bind_terms.specs.Notes.{IsFirst, IsFront, is_coded};

use crate::parsed_values::{ParsedValue, ParsedValues};
use crate::values::by_type;
use inv_base::Txt;
use inv_terms::is_blank;
use std::alloc::{AllocError, Global};
use term_table::Term;

const SUBJECT_CODE: Term = Term {
    number: 21,
    part: 0,
};

const NOTE: Term = Term {
    number: 22,
    part: 0,
};

/// A text by its first five characters and what is behind them.
#[derive(Clone, Copy)]
pub(crate) struct Front<'a> {
    pub(crate) first: char,
    pub(crate) a: char,
    pub(crate) b: char,
    pub(crate) c: char,
    pub(crate) last: char,
    pub(crate) text: &'a str,
}

/// The text as a note, behind its subject code if it has one.
pub(crate) fn note_of(alloc: Global, text: &str) -> Result<ParsedValues, AllocError>
    ensures { IfOk result (λ parsed_values. all_parsed parsed_values ≡ spec.note_of (chars text.now)) }
{
    match front_of(text) {
        Some(front) => {
            if is_coded(&front) {
                return coded_note(alloc, &[front.a, front.b, front.c], front.text);
            }
            plain_note(alloc, text)
        }
        None => plain_note(alloc, text),
    }
}

// The first character of a text, and what is behind it.
fn first_of(text: &str) -> Option<(char, &str)>
    ensures { IsFirst text.now result }
{
    let mut rest = text.chars();
    match rest.next() {
        Some(c) => Some((c, rest.as_str())),
        None => None,
    }
}

fn front_of(text: &str) -> Option<Front<'_>>
    ensures { IsFront (chars text.now) result }
{
    let (first, rest) = first_of(text)?;
    let (a, rest) = first_of(rest)?;
    let (b, rest) = first_of(rest)?;
    let (c, rest) = first_of(rest)?;
    let (last, rest) = first_of(rest)?;
    Some(Front {
        first,
        a,
        b,
        c,
        last,
        text: rest,
    })
}

fn is_coded(front: &Front<'_>) -> bool
    ensures { result ≡ is_coded front.now }
{
    front.first == '#'
        && front.last == '#'
        && is_subject_character(front.a)
        && is_subject_character(front.b)
        && is_subject_character(front.c)
        && !is_blank(front.text)
}

fn is_subject_character(c: char) -> bool
    ensures { result ≡ spec.is_subject_character c }
{
    matches!(c, 'A'..='Z' | '0'..='9')
}

fn plain_note(alloc: Global, text: &str) -> Result<ParsedValues, AllocError>
    ensures { IfOk result (λ parsed_values. all_parsed parsed_values ≡ spec.plain_note (chars text.now)) }
{
    Ok(ParsedValues::One(ParsedValue {
        term: NOTE,
        value: by_type(alloc, NOTE, text)?,
    }))
}

fn coded_note(alloc: Global, code: &[char], text: &str) -> Result<ParsedValues, AllocError>
    ensures { IfOk result (λ parsed_values. all_parsed parsed_values ≡ spec.coded code.now (chars text.now)) }
{
    let code = Txt::from_characters(alloc, code)?;
    let note = ParsedValue {
        term: NOTE,
        value: by_type(alloc, NOTE, text)?,
    };
    let subject = ParsedValue {
        term: SUBJECT_CODE,
        value: by_type(alloc, SUBJECT_CODE, code.as_str())?,
    };
    Ok(ParsedValues::Two(note, subject))
}
